//! Which named files are taken, and which paths are excluded.

ghost use Rattle.std.specs.Prelude.{◌≡◌, ◌==◌, ◌&&◌, ◌||◌, IfOk, map};
ghost use Rattle.std.specs.List.{list_any, slice_split};
ghost use Rattle.std.specs.Str.{bytes_eq};
ghost use Rattle.file_tree.specs.Choices.{any, choice_view, has_part, is_at, is_excluded, is_wanted, without_slash, whole_tree};
ghost use Rattle.file_tree.specs.Inner.Chosen.{chooser_view};
ghost use Rattle.file_tree.specs.Paths.{is_step, top};

use crate::names::is_taken;
use crate::path::{is_step, top};
use std::alloc::{AllocError, Global};

/// Which files are taken, and which are passed over.
#[derive(Clone, Copy)]
pub struct Choice<'a> {
    /// A named file is taken whatever its name.
    pub any_name: bool,
    /// Pipes, sockets and devices in a folder are taken under the name of a file that is taken, and links to them.
    pub specials: bool,
    /// Names and paths of files and folders that are passed over, with everything below them.
    pub excluded: &'a [&'a [u8]],
}

impl<'a> Choice<'a> {
    /// Nothing is excluded, and pipes, sockets and devices are taken.
    pub fn whole_tree() -> Choice<'a>
        ensures { choice_view result ≡ whole_tree }
    {
        Choice {
            any_name: false,
            specials: true,
            excluded: &[],
        }
    }

    /// This choice, but a named file is taken whatever its name.
    pub fn any() -> Choice<'a>
        ensures { choice_view result ≡ any }
    {
        Choice {
            any_name: true,
            ..Choice::whole_tree()
        }
    }
}

/// A choice in the form by which paths are judged.
#[derive(Drop)]
pub(crate) struct Chooser<'a> {
    any_name: bool,
    specials: bool,
    names: &'a [&'a [u8]],
    folders: Vec<Vec<u8>>,
}

/// A name without a slash at its end.
fn without_slash(name: &[u8]) -> &[u8]
    ensures { result.now ≡ without_slash name.now }
{
    if name.ends_with(b"/") {
        &name[..name.len() - 1]
    } else {
        name
    }
}

/// Whether a part of a path is a step of this name.
fn is_named(part: &[u8], name: &[u8]) -> bool
    ensures { result ≡ (is_step part.now && bytes_eq part.now name.now) }
{
    is_step(part) && part == name
}

fn either(one: bool, other: bool) -> bool
    ensures { result ≡ (one || other) }
{
    one || other
}

/// Whether a path has a step of this name.
fn has_step(name: &[u8], path: &[u8]) -> bool
    ensures { result ≡ list_any (λ part. is_step part && bytes_eq part name.now)
        (slice_split (λ b. b == 47) path.now) }
{
    let mut has = false;
    for part in path.split(|b| *b == b'/') {
        has = either(has, is_named(part, name));
    }
    has
}

/// Whether a part of a path has this name.
fn has_part(name: &[u8], path: &[u8]) -> bool
    ensures { result ≡ has_part name.now path.now }
{
    has_step(without_slash(name), path)
}

/// Whether a path is that of a folder or leads below it.
fn is_at(folder: &[u8], path: &[u8]) -> bool
    ensures { result ≡ is_at folder.now path.now }
{
    !folder.is_empty() && (path == without_slash(folder) || path.starts_with(folder))
}

/// Whether a part of a path has one of these names.
fn any_part(names: &[&[u8]], path: &[u8]) -> bool
    ensures { result ≡ list_any (λ name. has_part name.now path.now) names.now }
{
    names.iter().any(|name| has_part(name, path))
}

/// Whether a path is that of one of these folders or leads below it.
fn any_at(folders: &[Vec<u8>], path: &[u8]) -> bool
    ensures { result ≡ list_any (λ folder. is_at folder.items path.now) folders.now }
{
    folders.iter().any(|folder| is_at(folder.as_slice(), path))
}

/// The paths as those of folders.
#[tactic(auto, using(crate::proofs::ChoiceLemmas::folders_more))]
fn folders_of(alloc: Global, paths: &[&[u8]]) -> Result<Vec<Vec<u8>>, AllocError>
    ensures { IfOk result (λ folders. map (λ folder. folder.items) folders.items
        ≡ map top (map (λ path. path.now) paths.now)) }
{
    let mut folders = Vec::new(alloc);
    for path in paths {
        let folder = top(alloc, path)?;
        if folders.push(folder).is_err() {
            return Err(AllocError);
        }
    }
    Ok(folders)
}

impl<'a> Chooser<'a> {
    /// The judge by this choice.
    pub(crate) fn new(alloc: Global, choice: Choice<'a>) -> Result<Chooser<'a>, AllocError>
        ensures { IfOk result (λ chooser. chooser_view chooser ≡ choice_view choice.entry) }
    {
        let folders = folders_of(alloc, choice.excluded)?;
        Ok(Chooser {
            any_name: choice.any_name,
            specials: choice.specials,
            names: choice.excluded,
            folders,
        })
    }

    /// Whether a path is excluded.
    pub(crate) fn is_excluded(&self, path: &[u8]) -> bool
        ensures { result ≡ is_excluded (chooser_view self.now) path.now }
    {
        either(
            any_part(self.names, path),
            any_at(self.folders.as_slice(), path),
        )
    }

    /// Whether pipes, sockets and devices are taken.
    pub(crate) fn takes_specials(&self) -> bool
        ensures { result ≡ (chooser_view self.now).specials }
    {
        self.specials
    }

    /// Whether a file with this name is taken if it is named.
    pub(crate) fn is_wanted(&self, name: &[u8]) -> bool
        ensures { result ≡ is_wanted (chooser_view self.now) name.now }
    {
        self.any_name || is_taken(name) || name.ends_with(b".hcl")
    }
}
