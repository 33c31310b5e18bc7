//! A reader of an open document or of a file.

ghost use Rattle.open_files.specs.Views.{of_reader};

use hcl_source::{ByteSource, Failed};

/// A reader of the text of an open document, or of the file of a tree.
#[derive(Drop)]
pub enum OpenReader<O: Drop, R: Drop> {
    Text(O),
    File(R),
}

impl<O: ByteSource + Drop, R: ByteSource + Drop> ByteSource for OpenReader<O, R> {
    ghost left = { of_reader O.left R.left };

    ghost failed = { of_reader O.failed R.failed };

    fn read(&mut self, buffer: &mut [u8]) -> Result<usize, Failed> {
        match self {
            OpenReader::Text(reader) => reader.read(buffer),
            OpenReader::File(reader) => reader.read(buffer),
        }
    }

    fn has_failed(&self) -> bool {
        match self {
            OpenReader::Text(reader) => reader.has_failed(),
            OpenReader::File(reader) => reader.has_failed(),
        }
    }
}
