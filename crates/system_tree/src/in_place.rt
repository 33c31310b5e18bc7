//! The bytes of an open file, which are compared and overwritten.

use crate::patient;
use file_tree::fault::TreeFault;
use std::fs::File;
use std::io::{ErrorKind, Read, Write};

/// Whether a file of this length has these bytes from its position on.
pub fn has_rest(file: &mut File, bytes: &[u8], length: u64) -> bool {
    let mut buffer = [0; 16_384];
    let mut at = 0;
    for _ in 0..u64::MAX {
        // The length already says that the file ends here, so no read is needed.
        if at == bytes.len() && at as u64 == length {
            return true;
        }
        match file.read(&mut buffer) {
            Ok(0) => return at == bytes.len(),
            Ok(n) => {
                if n > bytes.len() - at || buffer[..n] != bytes[at..at + n] {
                    return false;
                }
                at += n;
            }
            Err(error) if error.kind() == ErrorKind::Interrupted => {}
            Err(_) => return false,
        }
    }
    false
}

/// Whether a file of this length has these bytes.
pub fn has_bytes(file: &mut File, bytes: &[u8], length: u64) -> bool {
    patient::rewind(file).is_ok() && has_rest(file, bytes, length)
}

/// Writes new bytes over the old ones.
pub fn write_over(file: &mut File, old: &[u8], new: &[u8], sync: bool) -> Result<(), TreeFault> {
    if patient::rewind(file).is_err() {
        return Err(TreeFault::NotWritable);
    }
    let is_whole = file.write_all(new).is_ok()
        && (old.len() <= new.len() || file.set_len(new.len() as u64).is_ok());
    if !is_whole || (sync && file.sync_all().is_err()) {
        return Err(TreeFault::WrittenInPart);
    }
    Ok(())
}
