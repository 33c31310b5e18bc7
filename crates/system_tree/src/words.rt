//! The arguments of the process, as bytes.

ghost use Rattle.std.specs.Prelude.{◌≡◌, IfOk, map};

use std::alloc::{AllocError, Global};
use std::env::FillError;
use std::rt::Env;

/// How many bytes a word has room for at first.
const FIRST_ROOM: usize = 256;

/// The word of this number, if there is one.
fn word_at(rt: &HostRuntime, number: usize) -> Result<Option<Vec<u8>>, AllocError> {
    let mut room = FIRST_ROOM;
    for _ in 0..usize::BITS {
        let mut word = Vec::from_elem(rt.alloc(), 0, room)?;
        match rt.arg(number, word.as_mut_slice()) {
            Ok(length) => {
                word.truncate(length);
                return Ok(Some(word));
            }
            Err(FillError::NotPresent) => return Ok(None),
            Err(FillError::TooLong) => {}
        }
        room = room.saturating_mul(2);
    }
    Err(AllocError)
}

/// The words of the process, with the program's name first.
pub fn process_words(rt: &HostRuntime) -> Result<Vec<Vec<u8>>, AllocError> {
    let mut words = Vec::new(rt.alloc());
    for number in 0..usize::MAX {
        match word_at(rt, number)? {
            Some(word) => {
                if words.push(word).is_err() {
                    return Err(AllocError);
                }
            }
            None => return Ok(words),
        }
    }
    Err(AllocError)
}

/// The words, borrowed.
pub fn borrowed_words<'a>(alloc: Global, words: &'a [Vec<u8>]) -> Result<Vec<&'a [u8]>, AllocError>
    ensures { IfOk result
        (λ borrowed. map (λ word. word.now) borrowed.items
        ≡ map (λ word. word.items) words.entry.now) }
{
    let mut borrowed = Vec::new(alloc);
    for word in words {
        if borrowed.push(word.as_slice()).is_err() {
            return Err(AllocError);
        }
    }
    Ok(borrowed)
}
