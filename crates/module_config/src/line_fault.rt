//! What is wrong with a line.

ghost use Rattle.std.specs.Prelude.{◌≡◌, IfOk, string_bytes};
ghost use Rattle.module_config.specs.Texts.{fault_words, reason, wrong_word};

use crate::line_parts::{parts, without_comment};
use crate::list::unknown_in;
use file_tree::quote::push_in_quotes;
use std::alloc::{AllocError, Global};

/// What is wrong with a line.
#[derive(Clone, Copy)]
pub enum ConfigFault {
    /// It begins with no option of a project, or gives one a value that takes none.
    UnknownOption,
    /// An earlier line has the same option.
    GivenTwice,
    /// A name of the list isn't a rule's.
    UnknownRule,
    /// The list removes every rule.
    NoRuleLeft,
    /// There is no such naming.
    UnknownNaming,
    /// There is no such severity.
    UnknownSeverity,
}

impl ConfigFault {
    /// Its message, before the wrong word.
    fn reason(self) -> &'static str
        ensures { result.now ≡ reason self }
    {
        match self {
            ConfigFault::UnknownOption => "no option of a project: ",
            ConfigFault::GivenTwice => "given twice: ",
            ConfigFault::UnknownRule => "unknown rule ",
            ConfigFault::NoRuleLeft => "no rule is left by ",
            ConfigFault::UnknownNaming => "unknown naming ",
            ConfigFault::UnknownSeverity => "unknown severity ",
        }
    }

    /// The wrong word of a line.
    fn word(self, line: &str) -> &str
        ensures { result.now ≡ wrong_word self line.now }
    {
        let parts = parts(without_comment(line));
        match self {
            ConfigFault::UnknownOption | ConfigFault::GivenTwice => parts.name,
            ConfigFault::UnknownRule => unknown_in(parts.value),
            ConfigFault::NoRuleLeft | ConfigFault::UnknownNaming | ConfigFault::UnknownSeverity =>
                parts.value,
        }
    }

    /// The message about a line, after the file, its number and a colon.
    pub(crate) fn words(self, alloc: Global, line: &str) -> Result<String, AllocError>
        ensures { IfOk result (λ words. string_bytes words ≡ fault_words self line.now) }
    {
        let mut words = Vec::from_slice(alloc, self.reason().as_bytes())?;
        push_in_quotes(&mut words, self.word(line).as_bytes())?;
        String::from_utf8_lossy(alloc, words.as_slice())
    }
}
