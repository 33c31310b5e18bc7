//! The stack of open constructs of a scan.

ghost use Rattle.std.specs.Prelude.{◌≡◌, ◌==◌, ◌<◌, ◌≤◌, ◌∷◌, [], length, drop, slice_index_or, MatchOption};
ghost use Rattle.hcl_tokens.specs.Lexemes.{max_open, same_opener};
ghost use Rattle.hcl_tokens.specs.Spelling.{context, context_in};
ghost use Rattle.hcl_tokens.specs.Scans.{must_be_closed};
ghost use Rattle.hcl_scan.specs.Inner.Openings.{opener_of, openers_of, is_group_by, popped_groups, popped_if, top_closes, opened_on, without_closed, quoted_in, template_top, innermost_unclosed};
ghost use Rattle.hcl_scan.specs.Inner.Readings.{closes_in, is_text, template_in, group_reading, reading_on};
ghost use Rattle.hcl_scan.specs.declared.stack.Opened.{Opened};

use hcl_tokens::{Kind, MAX_OPEN};
use std::marker::Model;

/// An opener. A heredoc is stored as the end of its closing marker and the end of the visible text around it.
#[derive(Clone, Copy)]
pub enum Opener {
    Quote,
    Heredoc { closer_end: u32, outer_end: u32 },
    Sequence,
    Brace,
    Bracket,
    Paren,
}

/// The scanner's mode: literal text, or code, and then what a `}` closes. It is one byte, kept in a register, since
/// each token needs it:
///
/// ```text
/// tags = ["a-${var.name}", <<EOT
/// |      ||  |          |       `- HeredocText
/// |      ||  `- SequenceCode    `- Code
/// |      |`- QuotedText
/// `------`- Code
/// ```
#[derive(Clone, Copy)]
pub enum Reading {
    Code,
    /// An expression in which a `}` closes a sequence.
    SequenceCode,
    QuotedText,
    HeredocText,
}

/// An opener, its offset, and the mode around it.
#[derive(Clone, Copy)]
pub struct Opened {
    pub by: Opener,
    pub at: u32,
    around: Reading,
}

/// Storage for the open constructs, and their number. A [`Stack`] borrows it, so that the mode is separate and can be
/// kept in a register.
#[derive(Drop)]
pub struct StackStorage {
    opened: [Opened; MAX_OPEN],
    depth: usize,
}

impl StackStorage {
    pub fn new() -> StackStorage {
        StackStorage {
            opened: [Opened {
                by: Opener::Quote,
                at: 0,
                around: Reading::Code,
            }; MAX_OPEN],
            depth: 0,
        }
    }

    /// The opener at this place.
    fn get(&self, place: usize) -> Opened
        requires { place < max_open }
        ensures { (d : Opened) → result ≡ slice_index_or self.now.opened place d }
    {
        self.opened[place]
    }
}

/// At most `MAX_OPEN` openers, the innermost on top.
#[derive(Drop)]
pub struct Stack<'k> {
    room: &'k mut StackStorage,
    /// The mode of the innermost opener.
    reading: Reading,
}

impl<'k> Model for Stack<'k> {
    ghost use Rattle.std.specs.Prelude.{List};
    ghost use Rattle.hcl_scan.specs.declared.stack.Opened.{Opened};

    ghost Value = { List Opened };

    ghost use Rattle.hcl_scan.specs.Inner.Readings.{IsStackStorage, stack_of};

    ghost view = { λ s. stack_of s.room.now.depth s.room.now.opened };

    ghost invariant = { λ s. IsStackStorage s.room.now.depth s.room.now.opened s.reading };
}

/// Whether a `}` closes a sequence.
fn closes_in(reading: Reading) -> bool
    ensures { result ≡ closes_in reading }
{
    matches!(reading, Reading::SequenceCode)
}

/// Whether this is literal text: one comparison, which all tests of it share.
fn is_text(reading: Reading) -> bool
    ensures { result ≡ is_text reading }
{
    !matches!(reading, Reading::Code | Reading::SequenceCode)
}

/// For literal text, whether it is in quotes.
fn template_in(reading: Reading) -> Option<bool>
    ensures { result ≡ template_in reading }
{
    if is_text(reading) {
        Some(matches!(reading, Reading::QuotedText))
    } else {
        None
    }
}

/// The mode in a bracket: that of the expression around it.
fn reading_in_group(around: Reading) -> Reading
    ensures { result ≡ group_reading around }
{
    if closes_in(around) {
        Reading::SequenceCode
    } else {
        Reading::Code
    }
}

/// The mode inside this opener.
fn reading_on(by: Opener, around: Reading) -> Reading
    ensures { result ≡ reading_on by around }
{
    match by {
        Opener::Quote => Reading::QuotedText,
        Opener::Heredoc { .. } => Reading::HeredocText,
        Opener::Sequence => Reading::SequenceCode,
        Opener::Brace => Reading::Code,
        Opener::Bracket | Opener::Paren => reading_in_group(around),
    }
}

/// Whether these are the same opener.
fn is_same(by: Opener, other: Opener) -> bool
    ensures { result ≡ same_opener (opener_of by) (opener_of other) }
{
    match by {
        Opener::Quote => matches!(other, Opener::Quote),
        Opener::Heredoc { .. } => matches!(other, Opener::Heredoc { .. }),
        Opener::Sequence => matches!(other, Opener::Sequence),
        Opener::Brace => matches!(other, Opener::Brace),
        Opener::Bracket => matches!(other, Opener::Bracket),
        Opener::Paren => matches!(other, Opener::Paren),
    }
}

/// If this opens a template, whether it is in quotes.
fn template_by(by: Opener) -> Option<bool>
    ensures { result ≡ quoted_in (context_in (opener_of by)) }
{
    match by {
        Opener::Quote => Some(true),
        Opener::Heredoc { .. } => Some(false),
        _ => None,
    }
}

fn is_group(by: Opener) -> bool
    ensures { result ≡ is_group_by by }
{
    matches!(by, Opener::Paren | Opener::Bracket)
}

/// Whether this must be closed before the end: groups, which only expressions have, need not.
fn must_be_closed(by: Opener) -> bool
    ensures { result ≡ must_be_closed (opener_of by) }
{
    !matches!(by, Opener::Brace | Opener::Bracket | Opener::Paren)
}

impl<'k> Stack<'k> {
    /// Nothing is open.
    pub fn new(room: &'k mut StackStorage) -> Stack<'k>
        ensures { result ≡ [] }
    {
        room.depth = 0;
        Stack {
            room,
            reading: Reading::Code,
        }
    }

    pub fn is_full(&self) -> bool
        ensures full { result ≡ (length self.now == max_open) }
        ensures small { length self.now ≤ max_open }
    {
        self.room.depth == MAX_OPEN
    }

    /// Pushes an opener.
    pub fn open(&mut self, by: Opener, at: u32)
        requires { length self.old < max_open }
        ensures { self.new ≡ opened_on by at self.old }
    {
        let around = self.reading;
        self.room.opened[self.room.depth] = Opened { by, at, around };
        self.room.depth += 1;
        self.reading = reading_on(by, around);
    }

    /// The innermost.
    pub fn top(&self) -> Option<Opened>
        ensures { MatchOption result (self.now ≡ []) (λ o. self.now ≡ o ∷ drop 1 self.now) }
    {
        if self.room.depth == 0 {
            return None;
        }
        Some(self.room.get(self.room.depth - 1))
    }

    pub fn pop(&mut self) -> Option<Opened>
        ensures popped { MatchOption result ((self.old ≡ []) × (self.new ≡ []))
            (λ o. self.old ≡ o ∷ self.new) }
        ensures rest { self.new ≡ drop 1 self.old }
    {
        if self.room.depth == 0 {
            return None;
        }
        self.room.depth -= 1;
        let top = self.room.get(self.room.depth);
        self.reading = top.around;
        Some(top)
    }
}

impl<'k> Stack<'k> {
    /// Whether a `}` closes a sequence.
    pub fn closes_sequence(&self) -> bool
        ensures { result ≡ top_closes self.now }
    {
        let _ = &self.room;
        closes_in(self.reading)
    }

    /// If the innermost is a template, whether it is in quotes.
    pub fn template(&self) -> Option<bool>
        ensures { result ≡ quoted_in (context (openers_of self.now)) }
    {
        let _ = &self.room;
        template_in(self.reading)
    }

    /// The innermost, if it is a template.
    pub fn template_top(&self) -> Option<Opened>
        ensures { result ≡ template_top self.now }
    {
        let Some(top) = self.top() else {
            return None;
        };
        match template_by(top.by) {
            Some(_) => Some(top),
            None => None,
        }
    }

    /// Drops the constructs that a token of this kind closes.
    pub fn close(&mut self, kind: Kind)
        ensures { self.new ≡ without_closed kind self.old }
    {
        match kind {
            Kind::ParenClose => self.pop_if(Opener::Paren),
            Kind::BracketClose => self.pop_if(Opener::Bracket),
            Kind::BraceClose => {
                self.pop_groups();
                self.pop_if(Opener::Brace);
            }
            Kind::SeqClose => {
                self.pop_groups();
                let _ = self.pop();
            }
            Kind::QuoteClose | Kind::HeredocClose => {
                let _ = self.pop();
            }
            _ => {}
        }
    }

    /// Drops the parens and brackets on top.
    fn pop_groups(&mut self)
        ensures { self.new ≡ popped_groups self.old }
    {
        while let Some(top) = self.top() {
            if !is_group(top.by) {
                return;
            }
            let _ = self.pop();
        }
    }

    /// Drops the top if it has this opener.
    fn pop_if(&mut self, by: Opener)
        ensures { self.new ≡ popped_if (opener_of by) self.old }
    {
        let Some(top) = self.top() else {
            return;
        };
        if is_same(top.by, by) {
            let _ = self.pop();
        }
    }

    /// The innermost quote, heredoc or sequence; this pops the stack down to it.
    pub fn pop_unclosed(&mut self) -> Option<Opened>
        ensures { result ≡ innermost_unclosed self.old }
    {
        while let Some(top) = self.pop() {
            if must_be_closed(top.by) {
                return Some(top);
            }
        }
        None
    }
}
