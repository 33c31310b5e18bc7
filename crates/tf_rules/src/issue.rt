//! The issues of a module, with messages that own their texts.

ghost use Rattle.std.specs.Prelude.{◌≡◌};
ghost use Rattle.std.specs.String.{string_bytes};

use hcl_tokens::Position;
use rule_set::Rule;
use std::marker::Model;

/// The message of an issue, in UTF-8 and without a line's end.
#[derive(Drop)]
pub struct Message {
    text: String,
}

impl Model for Message {
    ghost use Rattle.std.specs.Prelude.{List, ℕ};
    ghost use Rattle.std.specs.String.{string_bytes};

    ghost Value = { List ℕ };

    ghost view = { λ m. string_bytes m.text };
}

impl Message {
    /// The message of this text.
    pub(crate) fn new(text: String) -> Message
        ensures { result ≡ string_bytes text }
    {
        Message { text }
    }

    /// The message's text.
    pub fn as_str(&self) -> &str
        ensures { result.now ≡ self.now }
    {
        self.text.as_str()
    }
}

/// An issue: the number of its file, the position of its token, the rule that reports it, and its message.
#[derive(Drop)]
pub struct Issue {
    pub file: u32,
    pub at: Position,
    pub rule: Rule,
    pub message: Message,
}
