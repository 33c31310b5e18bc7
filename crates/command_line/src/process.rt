//! The arguments of a process.

ghost use Rattle.std.specs.Prelude.{◌≡◌, IfOk, map, string_bytes};

use std::alloc::{AllocError, Global};
use std::{env, io};

/// Why there are no words.
#[derive(Clone, Copy)]
pub enum NoWords {
    /// An argument isn't UTF-8.
    NotUtf8,
    /// The system gave no arguments, or memory ran out.
    NotGiven,
}

/// The arguments as a list. `collect` isn't used, since it continues after a refused reservation.
fn collect_words(alloc: Global, arguments: env::Args) -> Result<Vec<String>, AllocError> {
    let mut words = Vec::new(alloc);
    for argument in arguments {
        words.push(argument)?;
    }
    Ok(words)
}

/// The arguments of the process, with the program's name first: at least one.
pub fn process_words(rt: &HostRuntime) -> Result<Vec<String>, NoWords> {
    let arguments = match env::args(rt) {
        Ok(arguments) => arguments,
        Err(error) if error.kind() == io::ErrorKind::InvalidData => {
            return Err(NoWords::NotUtf8);
        }
        Err(_) => return Err(NoWords::NotGiven),
    };
    match collect_words(rt.alloc(), arguments) {
        Ok(words) if !words.is_empty() => Ok(words),
        _ => Err(NoWords::NotGiven),
    }
}

/// The words, borrowed.
pub fn borrowed_words<'a>(alloc: Global, words: &'a [String]) -> Result<Vec<&'a str>, AllocError>
    ensures { IfOk result (λ texts. map (λ text. text.now) texts.items
        ≡ map string_bytes words.entry.now) }
{
    let mut texts = Vec::new(alloc);
    for word in words {
        if texts.push(word.as_str()).is_err() {
            return Err(AllocError);
        }
    }
    Ok(texts)
}
