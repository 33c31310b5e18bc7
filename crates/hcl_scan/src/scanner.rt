//! One token after another.

ghost use Rattle.std.specs.Prelude.{◌≡◌, ◌<◌, ◌≤◌, ◌≢◌, ◌∷◌, [], List, true, false, None, Some, length, slice_range, IfSome, IfNone, IfOk, IfErr, OnOk};
ghost use Rattle.std.specs.Str.{IsCharBoundary};
ghost use Rattle.hcl_source.specs.Load.{max_source};
ghost use Rattle.hcl_tokens.specs.Lexemes.{in_heredoc};
ghost use Rattle.hcl_tokens.specs.Spelling.{context, Template, Expression};
ghost use Rattle.hcl_tokens.specs.Kinds.{is};
ghost use Rattle.hcl_tokens.specs.declared.token.Kind.TheVariants.{Dot, HeredocOpen};
ghost use Rattle.hcl_tokens.specs.Scans.{ahead, begin, HasNone, IsComplete};
ghost use Rattle.hcl_tokens.specs.Faults.{no_token_fault};
ghost use Rattle.hcl_scan.specs.Inner.Found.{Finds};
ghost use Rattle.hcl_scan.specs.Inner.Openings.{openers_of, opens_or_closes, opened_by};
ghost use Rattle.hcl_scan.specs.declared.stack.Opened.{Opened};
ghost use Rattle.hcl_scan.specs.Inner.Scanners.{state_of, IsSound, IsStart, IsNext, IsStopped, Moves};

use crate::expression::{Surroundings, next_in_expression};
use crate::found::FoundToken;
use crate::heredoc::{closer_len, marker_line, marker_of};
use crate::stack::{Opener, Stack, StackStorage};
use crate::template::next_in_template;
use crate::text::past_blanks;
use hcl_source::FaultKind;
use hcl_tokens::{Kind, TokenEntry};
use std::marker::Model;

/// A fault and its offset.
#[derive(Clone, Copy)]
pub struct FaultAt {
    pub kind: FaultKind,
    pub at: u32,
}

/// Whether the token before is a Dot, stored as its kind: few tokens need it.
#[derive(Drop)]
struct AfterDot {
    before: Kind,
}

impl Model for AfterDot {
    ghost use Rattle.std.specs.Prelude.{Bool};
    ghost use Rattle.hcl_tokens.specs.Kinds.{is};
    ghost use Rattle.hcl_tokens.specs.declared.token.Kind.TheVariants.{Dot};

    ghost Value = { Bool };

    ghost view = { λ a. is Dot a.before };
}

impl AfterDot {
    /// After a token of this kind.
    fn after(before: Kind) -> AfterDot
        ensures { result ≡ is Dot before }
    {
        AfterDot { before }
    }

    /// At the front, or after a token other than a Dot.
    fn no() -> AfterDot
        ensures { result ≡ false }
    {
        AfterDot {
            before: Kind::Newline,
        }
    }

    fn is_after_dot(&self) -> bool
        ensures { result ≡ self.now }
    {
        matches!(self.before, Kind::Dot)
    }
}

/// The state of a scan. The visible text goes from `at` up to `end`.
#[derive(Drop)]
pub struct Scanner<'s, 'k> {
    text: &'s str,
    /// How many bytes were read.
    at: usize,
    /// The beginning of the innermost open heredoc's marker line, or the end of the text.
    end: usize,
    /// The token before is a Dot.
    after_dot: AfterDot,
    stack: Stack<'k>,
}

/// The opener that a token of this kind is, heredocs aside.
fn opener(kind: Kind) -> Option<Opener>
    ensures { result ≡ opened_by kind }
{
    match kind {
        Kind::QuoteOpen => Some(Opener::Quote),
        Kind::InterpOpen | Kind::ControlOpen => Some(Opener::Sequence),
        Kind::ParenOpen => Some(Opener::Paren),
        Kind::BracketOpen => Some(Opener::Bracket),
        Kind::BraceOpen => Some(Opener::Brace),
        _ => None,
    }
}

fn is_heredoc_open(kind: Kind) -> bool
    ensures { result ≡ is HeredocOpen kind }
{
    matches!(kind, Kind::HeredocOpen)
}

/// Whether a token of this kind changes the open constructs. Most don't, and this one test shows it.
fn opens_or_closes(kind: Kind) -> bool
    ensures { result ≡ opens_or_closes kind }
{
    matches!(
        kind,
        Kind::HeredocOpen
            | Kind::QuoteOpen
            | Kind::ParenOpen
            | Kind::BracketOpen
            | Kind::BraceOpen
            | Kind::ParenClose
            | Kind::BracketClose
            | Kind::SeqClose
            | Kind::BraceClose
            | Kind::InterpOpen
            | Kind::ControlOpen
            | Kind::QuoteClose
            | Kind::HeredocClose
    )
}

/// Why no token of an expression begins here.
fn no_expression(seen: &[u8]) -> FaultKind
    ensures { result ≡ no_token_fault Expression seen.now }
{
    if seen.starts_with(b"/*") {
        FaultKind::UnterminatedComment
    } else {
        FaultKind::InvalidCharacter
    }
}

impl<'s, 'k> Scanner<'s, 'k> {
    /// At the front of a text.
    pub fn new(text: &'s str, room: &'k mut StackStorage) -> Scanner<'s, 'k>
        requires { length text.now ≤ max_source }
        ensures text { result.text ≡ text.entry }
        ensures sound { IsSound result }
        ensures state { state_of result ≡ begin text.now }
    {
        Scanner {
            text,
            at: 0,
            end: text.len(),
            after_dot: AfterDot::no(),
            stack: Stack::new(room),
        }
    }

    /// A heredoc hides its marker line, so the visible text ends before the text only inside a heredoc.
    fn inside_heredoc(&self) -> bool
        requires { IsSound self.now }
        ensures { result ≡ in_heredoc (openers_of self.now.stack) }
    {
        self.end < self.text.len()
    }

    /// The start of the next token: blanks are gaps in expressions outside heredocs.
    fn start(&self) -> usize
        requires { IsSound self.now }
        ensures { IsStart self.now result }
    {
        match self.stack.template() {
            Some(_) => self.at,
            None => if self.inside_heredoc() {
                self.at
            } else {
                past_blanks(self.text.as_bytes(), self.at, self.end)
            },
        }
    }

    /// The longest token that begins here.
    fn find(&self, start: usize) -> Option<FoundToken>
        requires sound { IsSound self.now }
        requires start { IsStart self.now start }
        ensures found { IfSome result (λ f. Finds (openers_of self.now.stack) self.now.after_dot
            (slice_range self.now.text.now start self.now.end) f.kind f.len) }
        ensures boundary { IfSome result
            (λ f. IsCharBoundary (slice_range self.now.text.now start self.now.end) f.len) }
        ensures none { IfNone result (HasNone (openers_of self.now.stack) self.now.after_dot
            (slice_range self.now.text.now start self.now.end)) }
    {
        let seen = &self.text[start..self.end];
        match self.stack.template() {
            Some(quoted) => next_in_template(seen.as_bytes(), quoted),
            None => next_in_expression(
                seen,
                Surroundings {
                    after_dot: self.after_dot.is_after_dot(),
                    inside_heredoc: self.inside_heredoc(),
                    closes_sequence: self.stack.closes_sequence(),
                },
            ),
        }
    }

    /// Why no token begins here.
    fn no_token(&self, start: usize) -> FaultAt
        requires sound { IsSound self.now }
        requires start { IsStart self.now start }
        requires some { start < self.now.end }
        requires none { HasNone (openers_of self.now.stack) self.now.after_dot
            (slice_range self.now.text.now start self.now.end) }
        ensures { IsStopped self.now result }
    {
        let seen = self.text[start..self.end].as_bytes();
        let Some(top) = self.stack.template_top() else {
            return FaultAt {
                kind: no_expression(seen),
                at: start as u32,
            };
        };
        if seen.starts_with(b"\\") {
            return FaultAt {
                kind: FaultKind::InvalidEscape,
                at: start as u32,
            };
        }
        FaultAt {
            kind: FaultKind::UnterminatedQuote,
            at: top.at,
        }
    }

    /// After the end of the visible text, without a heredoc that ends: the reason why more is needed, if a construct
    /// must still be closed.
    fn stop_if_unclosed(&mut self) -> Option<FaultAt>
        requires sound { IsSound self.old }
        requires read { ahead (state_of self.old) ≡ [] }
        requires no_heredoc { context (openers_of self.old.stack) ≢ Template false }
        ensures complete { IfNone result (IsComplete (state_of self.old)) }
        ensures stopped { IfSome result (IsStopped self.old) }
    {
        let Some(unclosed) = self.stack.pop_unclosed() else {
            return None;
        };
        let at = unclosed.at;
        match unclosed.by {
            Opener::Quote => Some(FaultAt {
                kind: FaultKind::UnterminatedQuote,
                at,
            }),
            _ => Some(FaultAt {
                kind: FaultKind::UnterminatedTemplate,
                at,
            }),
        }
    }

    /// Reads a token that neither opens nor closes.
    fn read_plain(&mut self, entry: TokenEntry)
        requires sound { IsSound self.old }
        requires next { IsNext self.old entry }
        requires plain { opens_or_closes entry.kind ≡ false }
        ensures { Moves self.old entry self.new }
    {
        self.at = entry.end as usize;
        self.after_dot = AfterDot::after(entry.kind);
    }

    /// Reads a closer.
    fn read_closer(&mut self, entry: TokenEntry)
        requires sound { IsSound self.old }
        requires next { IsNext self.old entry }
        requires closes { opens_or_closes entry.kind ≡ true }
        requires plain { opened_by entry.kind ≡ None }
        requires no_heredoc { is HeredocOpen entry.kind ≡ false }
        ensures { Moves self.old entry self.new }
    {
        self.stack.close(entry.kind);
        self.at = entry.end as usize;
        self.after_dot = AfterDot::no();
    }

    /// Reads an opener, heredocs aside.
    fn read_opener(&mut self, entry: TokenEntry, by: Opener) -> Result<(), FaultAt>
        requires sound { IsSound self.old }
        requires next { IsNext self.old entry }
        requires opens { opened_by entry.kind ≡ Some by }
        ensures read { OnOk result (Moves self.old entry self.new) }
        ensures stopped { IfErr result (IsStopped self.old) }
    {
        if self.stack.is_full() {
            return Err(FaultAt {
                kind: FaultKind::TooDeep,
                at: entry.start,
            });
        }
        self.stack.open(by, entry.start);
        self.at = entry.end as usize;
        self.after_dot = AfterDot::no();
        Ok(())
    }

    /// Reads the opener of a heredoc, and searches for its marker line.
    fn read_heredoc(&mut self, entry: TokenEntry) -> Result<(), FaultAt>
        requires sound { IsSound self.old }
        requires next { IsNext self.old entry }
        requires heredoc { is HeredocOpen entry.kind ≡ true }
        ensures read { OnOk result (Moves self.old entry self.new) }
        ensures stopped { IfErr result (IsStopped self.old) }
    {
        let at = entry.end as usize;
        if self.stack.is_full() {
            return Err(FaultAt {
                kind: FaultKind::TooDeep,
                at: entry.start,
            });
        }
        let marker = marker_of(self.text[entry.start as usize..at].as_bytes());
        let rest = self.text[at..self.end].as_bytes();
        let Some(line) = marker_line(rest, marker) else {
            return Err(FaultAt {
                kind: FaultKind::UnterminatedHeredoc,
                at: entry.start,
            });
        };
        let (_, hidden) = rest.split_at(line);
        let end = at + line;
        let by = Opener::Heredoc {
            closer_end: (end + closer_len(hidden, marker)) as u32,
            outer_end: self.end as u32,
        };
        self.stack.open(by, entry.start);
        self.at = at;
        self.end = end;
        self.after_dot = AfterDot::no();
        Ok(())
    }

    /// Reads the closing marker of the heredoc on top.
    fn close_heredoc(&mut self, closer_end: u32, outer_end: u32) -> TokenEntry
        requires sound { IsSound self.old }
        requires read { self.old.at ≡ self.old.end }
        requires top { (o : Opened) × (below : List Opened) × (self.old.stack ≡ o ∷ below)
            × (o.by ≡ Opener.Heredoc closer_end outer_end) }
        ensures { Moves self.old result self.new }
    {
        let entry = TokenEntry {
            kind: Kind::HeredocClose,
            inside_heredoc: true,
            // equal to `at`, which then needs no register of its own
            start: self.end as u32,
            end: closer_end,
        };
        let _ = self.stack.pop();
        self.at = closer_end as usize;
        self.end = outer_end as usize;
        self.after_dot = AfterDot::no();
        entry
    }

    /// Reads the longest next token.
    fn read(&mut self, entry: TokenEntry) -> Result<(), FaultAt>
        requires sound { IsSound self.old }
        requires next { IsNext self.old entry }
        ensures read { OnOk result (Moves self.old entry self.new) }
        ensures stopped { IfErr result (IsStopped self.old) }
    {
        if !opens_or_closes(entry.kind) {
            self.read_plain(entry);
            return Ok(());
        }
        if let Some(by) = opener(entry.kind) {
            return self.read_opener(entry, by);
        }
        if is_heredoc_open(entry.kind) {
            return self.read_heredoc(entry);
        }
        self.read_closer(entry);
        Ok(())
    }

    /// Reads the token that begins here.
    fn token(&mut self, start: usize) -> Result<TokenEntry, FaultAt>
        requires sound { IsSound self.old }
        requires start { IsStart self.old start }
        requires some { start < self.old.end }
        ensures read { IfOk result (λ entry. Moves self.old entry self.new) }
        ensures stopped { IfErr result (IsStopped self.old) }
    {
        let Some(found) = self.find(start) else {
            return Err(self.no_token(start));
        };
        let entry = TokenEntry {
            kind: found.kind,
            inside_heredoc: self.inside_heredoc(),
            start: start as u32,
            end: (start + found.len) as u32,
        };
        match self.read(entry) {
            Ok(()) => Ok(entry),
            Err(stopped) => Err(stopped),
        }
    }

    /// Reads a token, or returns `None` if all was read and nothing must still be closed.
    pub fn next_token(&mut self) -> Option<Result<TokenEntry, FaultAt>>
        requires { IsSound self.old }
        ensures complete { IfNone result (IsComplete (state_of self.old)) }
        ensures read { IfSome result (λ read. IfOk read (λ entry. Moves self.old entry self.new)) }
        ensures stopped { IfSome result (λ read. IfErr read (IsStopped self.old)) }
    {
        let start = self.start();
        if start < self.end {
            return Some(self.token(start));
        }
        if let Some(top) = self.stack.top() {
            if let Opener::Heredoc {
                closer_end,
                outer_end,
            } = top.by
            {
                return Some(Ok(self.close_heredoc(closer_end, outer_end)));
            }
        }
        match self.stop_if_unclosed() {
            Some(stopped) => Some(Err(stopped)),
            None => None,
        }
    }
}
