//! Calls that are repeated if a signal interrupts them.

use std::fs::{File, Metadata};
use std::io::{ErrorKind, Seek, Write};
use std::os::unix::fs::fchown;
use std::path::PathBuf;
use std::rt::Files;
use std::{fs, io};

/// How often a call is made at most.
const TURNS: u32 = 1_000;

/// The body of a function that repeats a call if a signal interrupts it.
macro_rules! patiently {
    ($call:expr) => {{
        for _ in 0..TURNS {
            match $call {
                Err(error) if error.kind() == ErrorKind::Interrupted => {}
                done => return done,
            }
        }
        Err(io::Error::from(ErrorKind::Interrupted))
    }};
}

/// The metadata of the file that a path leads to.
pub fn metadata(rt: &HostRuntime, path: &str) -> io::Result<Metadata> {
    patiently!(fs::metadata(rt, path))
}

/// The metadata at a path, which may be a link.
pub fn symlink_metadata(rt: &HostRuntime, path: &str) -> io::Result<Metadata> {
    patiently!(fs::symlink_metadata(rt, path))
}

/// The metadata of an open file.
pub fn open_metadata(file: &File) -> io::Result<Metadata> {
    patiently!(file.metadata())
}

/// The text of a link.
pub fn read_link(rt: &HostRuntime, path: &str) -> io::Result<PathBuf> {
    patiently!(fs::read_link(rt, path))
}

/// The full path of the file that a path leads to, without links.
pub fn canonicalize(rt: &HostRuntime, path: &str) -> io::Result<PathBuf> {
    patiently!(fs::canonicalize(rt, path))
}

/// Opens a folder for its names.
pub fn open_dir(rt: &HostRuntime, path: &str) -> io::Result<<HostRuntime as Files>::Dir> {
    patiently!(rt.open_dir(path))
}

/// Moves to the start of a file.
pub fn rewind(file: &mut File) -> io::Result<()> {
    patiently!(file.rewind())
}

/// Gives a file an owner, if any, and a group.
pub fn give(file: &File, owner: Option<u32>, group: u32) -> io::Result<()> {
    patiently!(fchown(file, owner, Some(group)))
}

/// Renames a file.
pub fn rename(rt: &HostRuntime, from: &str, to: &str) -> io::Result<()> {
    patiently!(fs::rename(rt, from, to))
}

/// Removes a file.
pub fn remove_file(rt: &HostRuntime, path: &str) -> io::Result<()> {
    patiently!(fs::remove_file(rt, path))
}

/// A writer that repeats a write if a signal interrupts it. It tells no bytes.
#[derive(Drop)]
pub struct Patient<W: Drop> {
    writer: W,
}

impl<W: Write + Drop> Patient<W> {
    pub fn new(writer: W) -> Patient<W> {
        Patient { writer }
    }
}

impl<W: Write + Drop> Write for Patient<W> {
    fn write(&mut self, buf: &[u8]) -> io::Result<usize> {
        for _ in 0..TURNS {
            match self.writer.write(buf) {
                Err(error) if error.kind() == ErrorKind::Interrupted => {}
                done => return done,
            }
        }
        Err(io::Error::from(ErrorKind::Interrupted))
    }

    fn flush(&mut self) -> io::Result<()> {
        self.writer.flush()
    }
}
