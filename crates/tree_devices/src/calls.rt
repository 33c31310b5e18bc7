//! The calls of a tree in memory, and which of them fail.

use file_tree::fault::TreeFault;
use file_tree::tree::{Replaced, Writing};
use std::alloc::Global;

/// The steps of a call.
#[derive(Clone, Copy)]
pub enum Step {
    Kind,
    EntryKind,
    Listing,
    FullPath,
    Opening,
    Reading,
    // The steps of a replacement.
    Following,
    OpeningOld,
    Making,
    Filling,
    Flushing,
    Comparing,
    Renaming,
    Overwriting,
}

impl Step {
    /// Why it fails, if no other fault is given.
    fn usual_fault(self) -> TreeFault {
        match self {
            Step::Kind | Step::EntryKind | Step::Opening => TreeFault::Unreadable,
            Step::Listing => TreeFault::UnreadableFolder,
            Step::FullPath => TreeFault::NoFullPath,
            Step::Reading => TreeFault::ReadFailed,
            Step::Following => TreeFault::EndlessLink,
            Step::OpeningOld => TreeFault::NotWritable,
            Step::Making => TreeFault::NoneBeside,
            Step::Filling | Step::Flushing => TreeFault::NotWritten,
            Step::Comparing => TreeFault::Changed,
            Step::Renaming => TreeFault::NotReplaced,
            Step::Overwriting => TreeFault::WrittenInPart,
        }
    }

    /// Whether there is a file beside the old one during this step.
    pub fn has_file_beside(self) -> bool {
        matches!(
            self,
            Step::Filling | Step::Flushing | Step::Comparing | Step::Renaming
        )
    }
}

/// Which calls fail.
#[derive(Clone, Copy, Debug)]
pub struct Failures {
    /// The call of this number, from 0 on.
    pub call: Option<usize>,
    /// The fault of that call, if it isn't the usual one.
    pub fault: Option<TreeFault>,
    /// In the file that is opened at this number, from 0 on, the read after this many good ones.
    pub read: Option<(usize, usize)>,
    /// Each making of a file beside another.
    pub making: bool,
    /// Each removal of a file that was made beside another.
    pub removal: bool,
    /// The keeping of each file's group.
    pub group: bool,
}

/// No call fails.
pub const STEADY: Failures = Failures {
    call: None,
    fault: None,
    read: None,
    making: false,
    removal: false,
    group: false,
};

/// The calls so far: their number, and which failed.
#[derive(Drop)]
pub struct Calls {
    failures: Failures,
    count: usize,
    opened: usize,
    beside: usize,
    failed: Option<Step>,
    failed_name: Vec<u8>,
}

impl Calls {
    pub fn new(alloc: Global, failures: Failures) -> Calls {
        Calls {
            failures,
            count: 0,
            opened: 0,
            beside: 0,
            failed: None,
            failed_name: Vec::new(alloc),
        }
    }

    /// The step of the call that failed, if one did.
    pub fn failed_step(&self) -> Option<Step> {
        self.failed
    }

    /// The name that it was given.
    pub fn failed_name(&self) -> &[u8] {
        self.failed_name.as_slice()
    }

    /// Its fault, if it is of this kind.
    pub fn fault(&self, step: Step) -> TreeFault {
        match self.failures.fault {
            Some(fault) => fault,
            None => step.usual_fault(),
        }
    }

    /// How many files there are beside others for which they were made.
    pub fn beside_count(&self) -> usize {
        self.beside
    }

    fn note_name(&mut self, name: &[u8]) {
        self.failed_name.clear();
        let _ = self.failed_name.extend_from_slice(name);
    }

    /// Another call, which fails if it is its turn.
    pub fn make(&mut self, step: Step, name: &[u8]) -> Result<(), TreeFault> {
        let number = self.count;
        self.count = number.saturating_add(1);
        if self.failures.call != Some(number) {
            return Ok(());
        }
        self.failed = Some(step);
        self.note_name(name);
        Err(self.fault(step))
    }

    /// A file is opened. Returns how many of its reads are good, if one is to fail.
    pub fn open(&mut self, name: &[u8]) -> Option<usize> {
        let number = self.opened;
        self.opened = number.saturating_add(1);
        match self.failures.read {
            Some((failing, good)) if failing == number => {
                self.note_name(name);
                Some(good)
            }
            _ => None,
        }
    }

    /// The read of the file that was to fail has failed.
    pub fn note_read(&mut self) {
        self.failed = Some(Step::Reading);
    }

    fn compare(&mut self, name: &[u8], is_same: bool) -> Result<(), TreeFault> {
        self.make(Step::Comparing, name)?;
        if is_same {
            Ok(())
        } else {
            Err(TreeFault::Changed)
        }
    }

    fn fill(&mut self, name: &[u8], is_same: bool, sync: bool) -> Result<(), TreeFault> {
        self.make(Step::Filling, name)?;
        if sync {
            self.make(Step::Flushing, name)?;
        }
        self.compare(name, is_same)?;
        self.make(Step::Renaming, name)
    }

    /// Makes a file beside the old one and renames it. If that fails, it is removed.
    fn put_beside(&mut self, name: &[u8], is_same: bool, sync: bool) -> Result<(), TreeFault> {
        self.make(Step::Making, name)?;
        if self.failures.making {
            return Err(TreeFault::NoneBeside);
        }
        self.beside = self.beside.saturating_add(1);
        let done = self.fill(name, is_same, sync);
        if done.is_ok() || !self.failures.removal {
            self.beside = self.beside.saturating_sub(1);
        }
        done
    }

    fn write_over(&mut self, name: &[u8], is_same: bool) -> Result<(), TreeFault> {
        self.compare(name, is_same)?;
        self.make(Step::Overwriting, name)
    }

    /// The rights of a new file in place of the old one.
    fn replacement(&self) -> Replaced {
        if self.failures.group {
            Replaced::Narrowed
        } else {
            Replaced::Kept
        }
    }

    /// All steps of a replacement before the new bytes are in place. A file that is overwritten keeps all rights.
    pub fn replace(
        &mut self,
        name: &[u8],
        is_link: bool,
        is_same: bool,
        writing: Writing,
    ) -> Result<Replaced, TreeFault> {
        if is_link {
            self.make(Step::Following, name)?;
        }
        self.make(Step::OpeningOld, name)?;
        match self.put_beside(name, is_same, writing.sync) {
            Ok(()) => Ok(self.replacement()),
            Err(TreeFault::NoneBeside | TreeFault::NotReplaced) if writing.in_place => {
                self.write_over(name, is_same)?;
                Ok(Replaced::Kept)
            }
            Err(fault) => Err(fault),
        }
    }
}
