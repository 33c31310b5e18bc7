//! The files of the system.

ghost use Rattle.std.specs.Prelude.{◌≡◌, ◌||◌, false, None};

use hcl_scan::{ByteSource, Failed, FromRead};
use std::fs::File;
use std::hash::RandomState;
use tfrules_command::Hashing;
use tfrules_command::module_files::{ModuleFiles, OpenFault};

/// An opened file. It tells no bytes. If the run got no seed, its first read fails.
#[derive(Drop)]
pub struct FileReader {
    reader: FromRead<File>,
    has_seed: bool,
    is_refused: bool,
}

impl ByteSource for FileReader {
    ghost left = { λ s. None };

    ghost failed = { λ s. s.is_refused || ⟦<FromRead<File> as ByteSource>⟧.failed s.reader };

    fn read(&mut self, buffer: &mut [u8]) -> Result<usize, Failed> {
        if !self.has_seed {
            self.is_refused = true;
            return Err(Failed);
        }
        self.reader.read(buffer)
    }

    fn has_failed(&self) -> bool {
        self.is_refused || self.reader.has_failed()
    }
}

/// Opens files by std. It tells no bytes.
#[derive(Drop)]
pub struct SystemFiles {
    rt: HostRuntime,
    seed: Option<RandomState>,
    has_unopened: bool,
    has_unread: bool,
    is_out: bool,
}

impl SystemFiles {
    /// The system's files, none opened yet. Names in them are hashed with the seed. If the system gave none, no file
    /// can be read, since names could be made that collide under a known seed.
    pub fn new(rt: HostRuntime, seed: Option<RandomState>) -> SystemFiles
        ensures opened { ⟦<SystemFiles as ModuleFiles>⟧.open_failed result ≡ false }
        ensures read { ⟦<SystemFiles as ModuleFiles>⟧.read_failed result ≡ false }
        ensures back { ⟦<SystemFiles as ModuleFiles>⟧.is_out result ≡ false }
    {
        SystemFiles {
            rt,
            seed,
            has_unopened: false,
            has_unread: false,
            is_out: false,
        }
    }
}

impl ModuleFiles for SystemFiles {
    type Reader = FileReader;

    ghost told = { λ s name. None };

    ghost open_failed = { λ s. s.has_unopened };

    ghost read_failed = { λ s. s.has_unread };

    ghost is_out = { λ s. s.is_out };

    fn reader(&mut self, name: &str) -> Result<FileReader, OpenFault> {
        match File::open(&self.rt, name) {
            Ok(file) => {
                self.is_out = true;
                Ok(FileReader {
                    reader: FromRead::new(file),
                    has_seed: self.seed.is_some(),
                    is_refused: false,
                })
            }
            Err(_) => {
                self.has_unopened = true;
                Err(OpenFault)
            }
        }
    }

    fn give_back(&mut self, reader: FileReader) {
        self.is_out = false;
        if reader.has_failed() {
            self.has_unread = true;
        }
    }

    fn has_failed(&self) -> bool {
        self.has_unopened || self.has_unread
    }

    fn hashing(&self) -> Hashing {
        match self.seed {
            Some(seed) => Hashing::with_seed(seed),
            None => Hashing::with_shared_seed(),
        }
    }
}
