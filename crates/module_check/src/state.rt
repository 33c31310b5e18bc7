//! The state of a file.

ghost use Rattle.std.specs.Prelude.{◌≡◌, ◌≤◌};
ghost use Rattle.std.specs.List.{list_all};
ghost use Rattle.module_check.specs.Checks.{is_good_file, size_with};
ghost use Rattle.tfrules_command.specs.Files.{max_module};

use file_tree::fault::TreeFault;
use hcl_scan::{Fault, Source};

/// What a file of a module is.
#[derive(Drop)]
pub enum FileState {
    /// A file of the language, with its text.
    Good(Source),
    /// A text that is no file of the language, and why.
    Refused(Source, Fault),
    /// Bytes that are no text, and why.
    NoText(Fault),
    /// With it the accepted files have more than `MAX_MODULE` bytes.
    TooMuch,
    /// It can't be opened or read.
    Unread(TreeFault),
}

/// Whether it is a file of the language.
fn is_good_file(state: &FileState) -> bool
    ensures { result ≡ is_good_file state.now }
{
    matches!(state, FileState::Good(_))
}

/// Whether each is a file of the language.
pub(crate) fn are_good(states: &[FileState]) -> bool
    ensures { result ≡ list_all is_good_file states.now }
{
    for number in 0..states.len() {
        if !is_good_file(&states[number]) {
            return false;
        }
    }
    true
}

/// How many bytes the accepted files have together with this one.
pub(crate) fn size_with(size: usize, state: &FileState) -> usize
    requires { size_with size state.now ≤ max_module }
    ensures { result ≡ size_with size state.now }
{
    match state {
        FileState::Good(source) => size + source.text().len(),
        _ => size,
    }
}
