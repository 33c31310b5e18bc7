//! Files in memory, for tests.

ghost use Rattle.std.specs.Prelude.{◌≡◌, false, None};

use hcl_scan::{ByteSource, Failed, MemorySource};
use tfrules_command::module_files::{ModuleFiles, OpenFault};

/// An opened file in memory. It tells no bytes.
#[derive(Drop)]
pub struct MemoryReader<'a> {
    source: MemorySource<'a>,
}

impl<'a> ByteSource for MemoryReader<'a> {
    ghost left = { λ s. None };

    ghost failed = { λ s. s.source.has_failed };

    fn read(&mut self, buffer: &mut [u8]) -> Result<usize, Failed> {
        self.source.give(buffer)
    }

    fn has_failed(&self) -> bool {
        self.source.has_failed()
    }
}

/// The failing call of the files, if one fails.
#[derive(Clone, Copy, PartialEq, Eq)]
pub enum FileFailure {
    None,
    /// The open of this number, from 0 on.
    Opening(usize),
    /// In the file opened at this number the read after this many good ones.
    Read(usize, usize),
}

/// Files in memory, by name; others can't be opened. It counts the readers that are opened and returned.
#[derive(Drop)]
pub struct MemoryFiles<'a> {
    files: &'a [(&'a str, &'a [u8])],
    most: usize,
    failure: FileFailure,
    opened: usize,
    given_back: usize,
    has_unopened: bool,
    has_unread: bool,
    is_out: bool,
}

impl<'a> MemoryFiles<'a> {
    /// These files; a read gives at most this many bytes.
    pub fn new(
        files: &'a [(&'a str, &'a [u8])],
        most: usize,
        failure: FileFailure,
    ) -> MemoryFiles<'a>
        ensures opened { ⟦<MemoryFiles<'a> as ModuleFiles>⟧.open_failed result ≡ false }
        ensures read { ⟦<MemoryFiles<'a> as ModuleFiles>⟧.read_failed result ≡ false }
        ensures back { ⟦<MemoryFiles<'a> as ModuleFiles>⟧.is_out result ≡ false }
    {
        MemoryFiles {
            files,
            most,
            failure,
            opened: 0,
            given_back: 0,
            has_unopened: false,
            has_unread: false,
            is_out: false,
        }
    }

    /// The number of opens.
    pub fn open_count(&self) -> usize {
        self.opened
    }

    /// The number of returned readers.
    pub fn given_back(&self) -> usize {
        self.given_back
    }

    /// The bytes of a file, or nothing if no file has this name.
    fn bytes_of(&self, name: &str) -> Option<&'a [u8]> {
        for file in self.files {
            if file.0 == name {
                return Some(file.1);
            }
        }
        None
    }

    /// A reader of these bytes, opened at this number.
    fn reader_of(&self, bytes: &'a [u8], number: usize) -> MemoryReader<'a>
        ensures { result.source.has_failed ≡ false }
    {
        let source = MemorySource::new(bytes, self.most.max(1));
        let source = match self.failure {
            FileFailure::Read(failing, good) if failing == number => source.failing_after(good),
            _ => source,
        };
        MemoryReader { source }
    }
}

impl<'a> ModuleFiles for MemoryFiles<'a> {
    type Reader = MemoryReader<'a>;

    ghost told = { λ s name. None };

    ghost open_failed = { λ s. s.has_unopened };

    ghost read_failed = { λ s. s.has_unread };

    ghost is_out = { λ s. s.is_out };

    fn reader(&mut self, name: &str) -> Result<MemoryReader<'a>, OpenFault> {
        let number = self.opened;
        self.opened = number.saturating_add(1);
        if self.failure != FileFailure::Opening(number) {
            if let Some(bytes) = self.bytes_of(name) {
                self.is_out = true;
                return Ok(self.reader_of(bytes, number));
            }
        }
        self.has_unopened = true;
        Err(OpenFault)
    }

    fn give_back(&mut self, reader: MemoryReader<'a>) {
        self.given_back = self.given_back.saturating_add(1);
        self.is_out = false;
        if reader.has_failed() {
            self.has_unread = true;
        }
    }

    fn has_failed(&self) -> bool {
        self.has_unopened || self.has_unread
    }
}
