//! The files that names stand for.

ghost use Rattle.std.specs.Prelude.{◌≡◌, ◌&&◌, not, ◌==◌, false, [], IfOk, List, OnOk, length, map};
ghost use Rattle.file_tree.specs.Choices.{choice_view, is_excluded};
ghost use Rattle.file_tree.specs.Files.{Name, Tells};
ghost use Rattle.file_tree.specs.Unchanged.{Unchanged};
ghost use Rattle.file_tree.specs.Finds.{AreReal, Finds};
ghost use Rattle.file_tree.specs.FolderFiles.{AreHeard, FindsIn};
ghost use Rattle.file_tree.specs.Inner.Chosen.{chooser_view};
ghost use Rattle.file_tree.specs.Inner.Searching.{AreOrdered, Keeps, LooksInto, Searches, SeesAll};
ghost use Rattle.file_tree.specs.Inner.Walking.{Adds, Enters, Hears, HearsGiven, TakesAll, TakesAsked, TakesEntry, TakesFolder, TakesGiven, TakesIf, TakesKind, TakesKindGiven, TakesLink, TakesLinked, TakesMet, TakesNamedFile, TakesSpecial, TakesWanted, Walked, walk_view, WalkHears};
ghost use Rattle.file_tree.specs.Ordered.{Orders};
ghost use Rattle.file_tree.specs.Seen.{Sees};
ghost use Rattle.file_tree.specs.Names.{is_passed_over, is_taken};
ghost use Rattle.file_tree.specs.Paths.{tidy_path};

use crate::choice::{Choice, Chooser};
use crate::fault::TreeFault;
use crate::kind::{Identity, Kind};
use crate::names::{is_passed_over, is_taken};
use crate::path::{join, names_in, place, report_name, tidy, top};
use crate::tree::Tree;
use std::alloc::{AllocError, Global};

/// A file by one of its names.
#[derive(Clone, Copy, Debug, PartialEq, Eq, PartialOrd, Ord)]
pub struct FoundFile {
    pub identity: Identity,
    /// Whether the name is that of a link to it.
    pub is_link: bool,
}

/// A name to be looked at, or one that can't be.
#[derive(PartialEq, Eq, PartialOrd, Ord, Drop)]
pub struct Found {
    pub name: Vec<u8>,
    pub fault: Option<TreeFault>,
    /// The file that the name leads to; none for a pipe, a socket or a device.
    pub file: Option<FoundFile>,
}

/// The found names, and the folders still to be listed, each with a `/` at its end or empty.
#[derive(Drop)]
struct Walk {
    found: Vec<Found>,
    folders: Vec<Vec<u8>>,
}

/// The entries found in a folder that was listed.
#[derive(PartialEq, Eq, PartialOrd, Ord, Drop)]
pub struct ListedFolder {
    /// The name of the folder, with a `/` at its end, or empty for the current one.
    pub folder: Vec<u8>,
    /// Its files that are taken, pipes, sockets and devices under such names, and the names that can't be looked at.
    pub found: Vec<Found>,
}

/// What names stand for: the entries found for the names themselves, and in each folder that was listed.
#[derive(Drop)]
pub struct Seen {
    pub named: Vec<Found>,
    pub looked: Vec<ListedFolder>,
}

/// A walk that keeps the entries of each folder apart.
#[derive(Drop)]
struct Search {
    /// The entries found for the names themselves, and the folders still to be listed.
    walk: Walk,
    looked: Vec<ListedFolder>,
}

/// What stands in a folder under a name.
#[derive(Drop)]
struct FolderEntry<'n> {
    /// Its name in the folder.
    name: &'n [u8],
    path: Vec<u8>,
}

/// A name that was given.
#[derive(Drop)]
struct Operand<'p> {
    /// As it was given.
    path: &'p [u8],
    /// As it is shown: without steps that lead nowhere.
    tidied: Vec<u8>,
}

/// Whether an entry of this name is looked at, unless it is excluded.
fn is_met(name: &[u8]) -> bool
    ensures { result ≡ (not (length name.now == 0) && not (is_passed_over name.now)) }
{
    !name.is_empty() && !is_passed_over(name)
}

impl Walk {
    fn add(
        &mut self,
        name: Vec<u8>,
        fault: Option<TreeFault>,
        file: Option<FoundFile>,
    ) -> Result<(), AllocError>
        ensures { OnOk result
            (Adds name.items fault file (walk_view self.old) (walk_view self.new)) }
    {
        let found = Found { name, fault, file };
        match self.found.push(found) {
            Ok(()) => Ok(()),
            Err(_) => Err(AllocError),
        }
    }

    fn add_folder(&mut self, name: Vec<u8>) -> Result<(), AllocError>
        ensures { OnOk result (Enters name.items (walk_view self.old) (walk_view self.new)) }
    {
        match self.folders.push(name) {
            Ok(()) => Ok(()),
            Err(_) => Err(AllocError),
        }
    }

    /// Takes a file, if files of this kind of name are taken.
    fn take_file(
        &mut self,
        is_taken: bool,
        path: Vec<u8>,
        identity: Identity,
    ) -> Result<(), AllocError>
        ensures { OnOk result (TakesIf is_taken path.items identity
            (walk_view self.old) (walk_view self.new)) }
    {
        if is_taken {
            let file = FoundFile {
                identity,
                is_link: false,
            };
            return self.add(path, None, Some(file));
        }
        Ok(())
    }

    /// Takes a pipe, a socket or a device, if such are taken.
    fn take_special(&mut self, is_taken: bool, path: Vec<u8>) -> Result<(), AllocError>
        ensures { OnOk result (TakesSpecial is_taken path.items
            (walk_view self.old) (walk_view self.new)) }
    {
        if is_taken {
            return self.add(path, None, None);
        }
        Ok(())
    }

    /// Takes a link that leads to this kind, if that is a file, or another kind that is taken.
    fn take_linked(&mut self, specials: bool, kind: Kind, path: Vec<u8>) -> Result<(), AllocError>
        ensures { OnOk result (TakesLinked specials kind path.items
            (walk_view self.old) (walk_view self.new)) }
    {
        match kind {
            Kind::File(identity) => {
                let file = FoundFile {
                    identity,
                    is_link: true,
                };
                self.add(path, None, Some(file))
            }
            Kind::Other => self.take_special(specials, path),
            Kind::Folder | Kind::Link => Ok(()),
        }
    }

    /// Takes a link, if files of this kind of name are taken. A link to a folder is passed over.
    #[tactic(auto, using(crate::proofs::HearLemmas::hears_none, crate::proofs::HearLemmas::heard_linked, crate::proofs::HearLemmas::heard_fault))]
    fn take_link<T: Tree>(
        &mut self,
        specials: bool,
        is_taken: bool,
        path: Vec<u8>,
        tree: &mut T,
    ) -> Result<(), AllocError>
        ensures unchanged { Unchanged T.Tree tree.old tree.new }
        ensures takes { OnOk result (TakesLink is_taken specials (T.files tree.old) path.items
            (walk_view self.old) (walk_view self.new)) }
        ensures hears { OnOk result
            (WalkHears self.old self.new (T.faults tree.old) (T.faults tree.new)) }
    {
        if !is_taken {
            return Ok(());
        }
        match tree.kind(path.as_slice()) {
            Ok(kind) => self.take_linked(specials, kind, path),
            Err(fault) => self.add(path, Some(fault), None),
        }
    }

    /// Takes the entry of a folder under a name.
    #[tactic(auto, using(crate::proofs::HearLemmas::hears_none, crate::proofs::HearLemmas::heard_if, crate::proofs::HearLemmas::heard_special, crate::proofs::HearLemmas::heard_enters))]
    fn take_kind<T: Tree>(
        &mut self,
        alloc: Global,
        specials: bool,
        kind: Kind,
        met: FolderEntry<'_>,
        tree: &mut T,
    ) -> Result<(), AllocError>
        ensures unchanged { Unchanged T.Tree tree.old tree.new }
        ensures takes { OnOk result (TakesKind specials kind (T.files tree.old)
            met.entry.path.items met.entry.name.now (walk_view self.old) (walk_view self.new)) }
        ensures hears { OnOk result
            (WalkHears self.old self.new (T.faults tree.old) (T.faults tree.new)) }
    {
        let FolderEntry { name, path } = met;
        match kind {
            Kind::Folder => {
                let folder = join(alloc, path.as_slice(), b"/")?;
                self.add_folder(folder)
            }
            Kind::File(identity) => self.take_file(is_taken(name), path, identity),
            Kind::Link => self.take_link(specials, is_taken(name), path, tree),
            Kind::Other => self.take_special(specials && is_taken(name), path),
        }
    }

    /// Looks at the entry of a folder under a name that isn't passed over.
    #[tactic(auto, using(crate::proofs::HearLemmas::heard_after, crate::proofs::HearLemmas::heard_fault))]
    fn take_met<T: Tree>(
        &mut self,
        alloc: Global,
        specials: bool,
        met: FolderEntry<'_>,
        tree: &mut T,
    ) -> Result<(), AllocError>
        ensures unchanged { Unchanged T.Tree tree.old tree.new }
        ensures takes { OnOk result (TakesMet specials (T.files tree.old) met.entry.path.items
            met.entry.name.now (walk_view self.old) (walk_view self.new)) }
        ensures hears { OnOk result
            (WalkHears self.old self.new (T.faults tree.old) (T.faults tree.new)) }
    {
        match tree.entry_kind(met.path.as_slice()) {
            Ok(kind) => self.take_kind(alloc, specials, kind, met, tree),
            Err(fault) => self.add(met.path, Some(fault), None),
        }
    }

    /// Looks at the entry of a folder under a name.
    #[tactic(auto, using(crate::proofs::HearLemmas::hears_none, crate::proofs::HearLemmas::heard_after))]
    fn take_entry<T: Tree>(
        &mut self,
        alloc: Global,
        chooser: &Chooser<'_>,
        folder: &[u8],
        name: &[u8],
        tree: &mut T,
    ) -> Result<(), AllocError>
        ensures unchanged { Unchanged T.Tree tree.old tree.new }
        ensures takes { OnOk result (TakesEntry (T.files tree.old) (chooser_view chooser.now)
            folder.now name.now (walk_view self.old) (walk_view self.new)) }
        ensures hears { OnOk result
            (WalkHears self.old self.new (T.faults tree.old) (T.faults tree.new)) }
    {
        if !is_met(name) {
            return Ok(());
        }
        let path = join(alloc, folder, name)?;
        if chooser.is_excluded(path.as_slice()) {
            return Ok(());
        }
        self.take_met(
            alloc,
            chooser.takes_specials(),
            FolderEntry { name, path },
            tree,
        )
    }

    /// Looks at the entries of a folder under these names.
    fn take_entries<T: Tree>(
        &mut self,
        alloc: Global,
        chooser: &Chooser<'_>,
        folder: &[u8],
        names: &[&[u8]],
        tree: &mut T,
    ) -> Result<(), AllocError>
        ensures unchanged { Unchanged T.Tree tree.old tree.new }
        ensures takes { OnOk result (TakesAll (T.files tree.old) (chooser_view chooser.now)
            folder.now (map (λ name. name.now) names.now)
            (walk_view self.old) (walk_view self.new)) }
        ensures hears { OnOk result
            (WalkHears self.old self.new (T.faults tree.old) (T.faults tree.new)) }
    {
        for name in names {
            self.take_entry(alloc, chooser, folder, name, tree)?;
        }
        Ok(())
    }

    /// Looks at all entries of a folder.
    #[tactic(auto, using(crate::proofs::HearLemmas::heard_after, crate::proofs::HearLemmas::heard_fault))]
    fn take_folder<T: Tree>(
        &mut self,
        alloc: Global,
        chooser: &Chooser<'_>,
        folder: &[u8],
        tree: &mut T,
    ) -> Result<(), AllocError>
        ensures unchanged { Unchanged T.Tree tree.old tree.new }
        ensures takes { OnOk result (TakesFolder (T.files tree.old) (chooser_view chooser.now)
            folder.now (walk_view self.old) (walk_view self.new)) }
        ensures hears { OnOk result
            (WalkHears self.old self.new (T.faults tree.old) (T.faults tree.new)) }
    {
        let place = place(folder);
        match tree.listing(place) {
            Ok(listing) => {
                let names = names_in(alloc, listing.as_slice())?;
                self.take_entries(alloc, chooser, folder, names.as_slice(), tree)
            }
            Err(fault) => {
                let path = join(alloc, place, b"")?;
                self.add(path, Some(fault), None)
            }
        }
    }

    /// Takes a named file, by itself or by a link to it.
    #[tactic(auto, using(crate::proofs::HearLemmas::heard_fault))]
    fn take_named_file<T: Tree>(
        &mut self,
        alloc: Global,
        identity: Identity,
        operand: Operand<'_>,
        tree: &mut T,
    ) -> Result<(), AllocError>
        requires tidied { operand.tidied.items ≡ tidy_path operand.path.now }
        ensures unchanged { Unchanged T.Tree tree.old tree.new }
        ensures takes { OnOk result (TakesNamedFile (T.files tree.old) identity
            operand.entry.path.now (walk_view self.old) (walk_view self.new)) }
        ensures hears { OnOk result
            (WalkHears self.old self.new (T.faults tree.old) (T.faults tree.new)) }
    {
        match tree.entry_kind(operand.tidied.as_slice()) {
            Ok(entry) => {
                let is_link = entry.is_link();
                let file = FoundFile { identity, is_link };
                self.add(operand.tidied, None, Some(file))
            }
            Err(fault) => {
                let name = report_name(alloc, operand.path)?;
                self.add(name, Some(fault), None)
            }
        }
    }

    /// Takes a named path that is to be looked at.
    fn take_wanted<T: Tree>(
        &mut self,
        alloc: Global,
        kind: Kind,
        operand: Operand<'_>,
        tree: &mut T,
    ) -> Result<(), AllocError>
        requires tidied { operand.tidied.items ≡ tidy_path operand.path.now }
        ensures unchanged { Unchanged T.Tree tree.old tree.new }
        ensures takes { OnOk result (TakesWanted kind (T.files tree.old) operand.entry.path.now
            (walk_view self.old) (walk_view self.new)) }
        ensures hears { OnOk result
            (WalkHears self.old self.new (T.faults tree.old) (T.faults tree.new)) }
    {
        match kind {
            Kind::File(identity) => self.take_named_file(alloc, identity, operand, tree),
            _ => self.add(operand.tidied, None, None),
        }
    }

    /// Takes the entry under a given name.
    fn take_kind_given<T: Tree>(
        &mut self,
        alloc: Global,
        chooser: &Chooser<'_>,
        kind: Kind,
        operand: Operand<'_>,
        tree: &mut T,
    ) -> Result<(), AllocError>
        requires tidied { operand.tidied.items ≡ tidy_path operand.path.now }
        requires allowed { is_excluded (chooser_view chooser.now) (tidy_path operand.path.now)
            ≡ false }
        requires told { Tells ((T.files tree.old).kind operand.path.now) kind }
        ensures unchanged { Unchanged T.Tree tree.old tree.new }
        ensures takes { OnOk result (TakesKindGiven (T.files tree.old) (chooser_view chooser.now)
            kind operand.entry.path.now (walk_view self.old) (walk_view self.new)) }
        ensures hears { OnOk result (HearsGiven (T.files tree.old) (chooser_view chooser.now)
            operand.entry.path.now (walk_view self.old).found (walk_view self.new).found
            (T.faults tree.old) (T.faults tree.new)) }
    {
        if kind == Kind::Folder {
            let folder = top(alloc, operand.path)?;
            return self.add_folder(folder);
        }
        if !chooser.is_wanted(operand.tidied.as_slice()) {
            return self.add(operand.tidied, Some(TreeFault::OtherKind), None);
        }
        self.take_wanted(alloc, kind, operand, tree)
    }

    /// Takes a given name that isn't excluded.
    #[tactic(auto, using(crate::proofs::HearLemmas::real_fault))]
    fn take_asked<T: Tree>(
        &mut self,
        alloc: Global,
        chooser: &Chooser<'_>,
        operand: Operand<'_>,
        tree: &mut T,
    ) -> Result<(), AllocError>
        requires tidied { operand.tidied.items ≡ tidy_path operand.path.now }
        requires allowed { is_excluded (chooser_view chooser.now) (tidy_path operand.path.now)
            ≡ false }
        ensures unchanged { Unchanged T.Tree tree.old tree.new }
        ensures takes { OnOk result (TakesAsked (T.files tree.old) (chooser_view chooser.now)
            operand.entry.path.now (walk_view self.old) (walk_view self.new)) }
        ensures hears { OnOk result (HearsGiven (T.files tree.old) (chooser_view chooser.now)
            operand.entry.path.now (walk_view self.old).found (walk_view self.new).found
            (T.faults tree.old) (T.faults tree.new)) }
    {
        match tree.kind(operand.path) {
            Ok(kind) => self.take_kind_given(alloc, chooser, kind, operand, tree),
            Err(fault) => {
                let name = report_name(alloc, operand.path)?;
                self.add(name, Some(fault), None)
            }
        }
    }

    /// Takes a given name, unless it is excluded.
    #[tactic(auto, using(crate::proofs::HearLemmas::real_none))]
    fn take_given<T: Tree>(
        &mut self,
        alloc: Global,
        chooser: &Chooser<'_>,
        path: &[u8],
        tree: &mut T,
    ) -> Result<(), AllocError>
        ensures unchanged { Unchanged T.Tree tree.old tree.new }
        ensures takes { OnOk result (TakesGiven (T.files tree.old) (chooser_view chooser.now)
            path.now (walk_view self.old) (walk_view self.new)) }
        ensures hears { OnOk result (HearsGiven (T.files tree.old) (chooser_view chooser.now)
            path.now (walk_view self.old).found (walk_view self.new).found
            (T.faults tree.old) (T.faults tree.new)) }
    {
        let tidied = tidy(alloc, path)?;
        if chooser.is_excluded(tidied.as_slice()) {
            return Ok(());
        }
        self.take_asked(alloc, chooser, Operand { path, tidied }, tree)
    }

    /// A walk that has taken the given names.
    fn from_names<T: Tree>(
        alloc: Global,
        chooser: &Chooser<'_>,
        paths: &[&[u8]],
        tree: &mut T,
    ) -> Result<Walk, AllocError>
        ensures unchanged { Unchanged T.Tree tree.old tree.new }
        ensures walked { IfOk result (λ walk. Walked (T.files tree.old) (chooser_view chooser.now)
            (map (λ path. path.now) paths.now) (walk_view walk)) }
        ensures real { IfOk result (λ walk. AreReal (T.files tree.old) (chooser_view chooser.now)
            (map (λ path. path.now) paths.now) (T.faults tree.old) (T.faults tree.new)
            (walk_view walk).found) }
    {
        let mut walk = Walk {
            found: Vec::new(alloc),
            folders: Vec::new(alloc),
        };
        for path in paths {
            walk.take_given(alloc, chooser, path, tree)?;
        }
        Ok(walk)
    }

    /// Lists the folders, and those in them, until none is left.
    fn look_into_all<T: Tree>(
        &mut self,
        alloc: Global,
        chooser: &Chooser<'_>,
        tree: &mut T,
    ) -> Result<(), AllocError>
        ensures unchanged { Unchanged T.Tree tree.old tree.new }
        ensures walked { OnOk result ((paths : List Name)
            → Walked (T.files tree.old) (chooser_view chooser.now) paths (walk_view self.old)
            → Walked (T.files tree.old) (chooser_view chooser.now) paths
            (record { found = self.new.found.items; folders = [] })) }
        ensures hears { OnOk result (Hears (walk_view self.old).found self.new.found.items
            (T.faults tree.old) (T.faults tree.new)) }
    {
        for _ in 0..u64::MAX {
            let Some(folder) = self.folders.pop() else {
                return Ok(());
            };
            self.take_folder(alloc, chooser, folder.as_slice(), tree)?;
        }
        Err(AllocError)
    }
}

impl Search {
    /// Keeps the entries found in a folder, and the folders in it.
    fn keep(&mut self, folder: Vec<u8>, here: Walk) -> Result<(), AllocError>
        ensures { OnOk result (Keeps folder.items (walk_view here) self.old self.new) }
    {
        let Walk {
            mut found,
            mut folders,
        } = here;
        // There are as many of these as folders.
        found.shrink_to_fit();
        let Ok(()) = self.walk.folders.append(&mut folders) else {
            return Err(AllocError);
        };
        let Ok(()) = self.looked.push(ListedFolder { folder, found }) else {
            return Err(AllocError);
        };
        Ok(())
    }

    /// Lists a folder.
    fn look_into<T: Tree>(
        &mut self,
        alloc: Global,
        chooser: &Chooser<'_>,
        folder: Vec<u8>,
        tree: &mut T,
    ) -> Result<(), AllocError>
        ensures unchanged { Unchanged T.Tree tree.old tree.new }
        ensures looks { OnOk result (LooksInto (T.files tree.old) (chooser_view chooser.now)
            folder.items (T.faults tree.old) (T.faults tree.new) self.old self.new) }
    {
        let mut here = Walk {
            found: Vec::new(alloc),
            folders: Vec::new(alloc),
        };
        here.take_folder(alloc, chooser, folder.as_slice(), tree)?;
        self.keep(folder, here)
    }

    /// Lists the folders, and those in them, until none is left.
    fn look_into_all<T: Tree>(
        &mut self,
        alloc: Global,
        chooser: &Chooser<'_>,
        tree: &mut T,
    ) -> Result<(), AllocError>
        ensures unchanged { Unchanged T.Tree tree.old tree.new }
        ensures searches { OnOk result (Searches (T.files tree.old) (chooser_view chooser.now)
            (T.faults tree.old) (T.faults tree.new) self.old self.new) }
        ensures none { OnOk result (self.new.walk.folders.items ≡ []) }
    {
        for _ in 0..u64::MAX {
            let Some(folder) = self.walk.folders.pop() else {
                return Ok(());
            };
            self.look_into(alloc, chooser, folder, tree)?;
        }
        Err(AllocError)
    }

    /// Everything that names stand for.
    fn of<T: Tree>(
        alloc: Global,
        chooser: &Chooser<'_>,
        operands: &[&[u8]],
        tree: &mut T,
    ) -> Result<Search, AllocError>
        ensures unchanged { Unchanged T.Tree tree.old tree.new }
        ensures sees { IfOk result (λ search. SeesAll (T.files tree.old) (chooser_view chooser.now)
            (map (λ operand. operand.now) operands.now) (T.faults tree.old) (T.faults tree.new)
            search) }
    {
        let walk = Walk::from_names(alloc, chooser, operands, tree)?;
        let mut search = Search {
            walk,
            looked: Vec::new(alloc),
        };
        search.look_into_all(alloc, chooser, tree)?;
        Ok(search)
    }
}

/// The found names in order, each once: one that was found both with a fault and without has none.
pub fn in_order(mut found: Vec<Found>) -> Vec<Found>
    ensures { Orders found.items result.items }
{
    found.sort_unstable();
    found.dedup_by(|later, earlier| later.name == earlier.name);
    found
}

/// The names of the files that these names stand for, in order, each once. Excluded paths are passed over, and a named
/// file that isn't of a kind that is taken is reported.
pub fn find<T: Tree>(
    alloc: Global,
    choice: Choice<'_>,
    operands: &[&[u8]],
    tree: &mut T,
) -> Result<Vec<Found>, AllocError>
    ensures unchanged { Unchanged T.Tree tree.old tree.new }
    // All files that the names stand for and that aren't excluded, and nothing else.
    ensures finds { IfOk result (λ found. Finds (T.files tree.old) (choice_view choice.entry)
        (map (λ operand. operand.now) operands.now) found.items) }
    // If the device tells the faults of its calls, a name is reported only for a failed call, or for its kind of name.
    ensures real { IfOk result (λ found. AreReal (T.files tree.old) (choice_view choice.entry)
        (map (λ operand. operand.now) operands.now) (T.faults tree.old) (T.faults tree.new)
        found.items) }
{
    let chooser = Chooser::new(alloc, choice)?;
    let mut walk = Walk::from_names(alloc, &chooser, operands, tree)?;
    walk.look_into_all(alloc, &chooser, tree)?;
    Ok(in_order(walk.found))
}

/// These folders, and in each the found names in order, each once.
fn order_each(alloc: Global, looked: Vec<ListedFolder>) -> Result<Vec<ListedFolder>, AllocError>
    ensures { IfOk result (λ ordered. AreOrdered looked.items ordered.items) }
{
    let mut ordered = Vec::new(alloc);
    for one in looked {
        let ListedFolder { folder, found } = one;
        let found = in_order(found);
        let Ok(()) = ordered.push(ListedFolder { folder, found }) else {
            return Err(AllocError);
        };
    }
    Ok(ordered)
}

/// What these names stand for, whatever they are called: the entries found for the names themselves, and in each folder
/// that was listed. Nothing is excluded.
pub fn look<T: Tree>(alloc: Global, operands: &[&[u8]], tree: &mut T) -> Result<Seen, AllocError>
    ensures unchanged { Unchanged T.Tree tree.old tree.new }
    // Everything that the names stand for, and all files of the folders.
    ensures sees { IfOk result (λ seen. Sees (T.files tree.old)
        (map (λ operand. operand.now) operands.now) (T.faults tree.old) (T.faults tree.new)
        seen.named.items seen.looked.items) }
{
    let chooser = Chooser::new(alloc, Choice::any())?;
    let search = Search::of(alloc, &chooser, operands, tree)?;
    let Search { walk, looked } = search;
    let Walk {
        found: named,
        folders: _,
    } = walk;
    let looked = order_each(alloc, looked)?;
    Ok(Seen { named, looked })
}

/// The files of a folder that are taken, without those in folders below it; pipes, sockets and devices under such
/// names; and the names in it that can't be looked at: in order, each once. The folder's name has a `/` at its end, or
/// is empty for the current one.
pub fn find_in<T: Tree>(
    alloc: Global,
    folder: &[u8],
    tree: &mut T,
) -> Result<Vec<Found>, AllocError>
    ensures unchanged { Unchanged T.Tree tree.old tree.new }
    ensures finds { IfOk result (λ found. FindsIn (T.files tree.old) folder.now found.items) }
    // If the device tells the faults of its calls, a name is reported only for a failed call.
    ensures real { IfOk result (λ found. AreHeard (T.faults tree.old) (T.faults tree.new)
        found.items) }
{
    let mut walk = Walk {
        found: Vec::new(alloc),
        folders: Vec::new(alloc),
    };
    let chooser = Chooser::new(alloc, Choice::whole_tree())?;
    walk.take_folder(alloc, &chooser, folder, tree)?;
    Ok(in_order(walk.found))
}
