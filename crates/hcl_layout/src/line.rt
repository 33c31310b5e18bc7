//! One line, in one walk: its end, its depth, and its cells.
ghost use Rattle.std.specs.Prelude.{◌≡◌, ◌<◌, ◌≤◌, ◌+◌, ◌==◌, ◌||◌, ℕ, not, false, length, drop, slice_get, Some, None, if◌then◌else◌};
ghost use Rattle.std.specs.List.{list_any};
ghost use Rattle.hcl_tokens.specs.Lexemes.{Lexeme};
ghost use Rattle.hcl_tokens.specs.declared.token.Kind.TheVariants.{Assign, InlineComment, LineComment};
ghost use Rattle.hcl_tokens.specs.Balanced.{max_open};
ghost use Rattle.hcl_layout.specs.Cells.{is_multiline};
ghost use Rattle.hcl_layout.specs.Inner.Depths.{BalancedFrom};
ghost use Rattle.hcl_layout.specs.Inner.Survey.{AsksMore, IsLine, Notes, NotesAt, NotesFirst, PassesSteps, TellsEnd, body_of, facts_in, facts_of, seen_cell, step_of, survey_of, seen_at_start};

use crate::measured::Measured;
use hcl_tokens::Kind;

/// A line: the numbers of its first token and of the token after it, the depth after it, and the numbers of its cells.
#[derive(Clone, Copy)]
pub struct Line {
    pub first: usize,
    pub end: usize,
    pub depth: u32,
    /// The assignment sign that begins a cell.
    pub assign: Option<usize>,
    /// The comment at its end.
    pub comment: Option<usize>,
    /// Whether the comment is part of a run.
    pub runs: bool,
}

impl Line {
    /// The comment, if it is part of a run.
    pub fn run_comment(self) -> Option<usize>
        ensures { result ≡ (if not self.runs then None else self.comment) }
    {
        if self.runs {
            return self.comment;
        }
        None
    }
}

/// By kind, the depth after a token at depth 1, as a digit: `2` opens, `0` closes, and `1` does neither. A point marks
/// the kinds that need a closer look.
static DEPTH_STEPS: [u8; 256] = *b"\
    ...111112220000111111.1111111111\
    1111112211......................\
    ................................\
    ................................\
    ................................\
    ................................\
    ................................\
    ................................";

pub const SPECIAL: u8 = b'.';

/// The effect of a token of the kind on the depth.
#[inline(always)]
pub fn step_of(kind: Kind) -> u8
    ensures { result ≡ step_of kind }
{
    DEPTH_STEPS[kind as usize]
}

#[inline(always)]
pub fn depth_after(depth: u32, step: u8) -> u32
    requires fits { depth ≤ max_open }
    requires rises { step ≤ 50 }
    requires stays { 49 ≤ depth + step }
    ensures { result + 49 ≡ depth + step }
{
    depth + u32::from(step) - u32::from(b'1')
}

/// Whether a line ends with the token of this number, without reading its text.
#[inline(always)]
fn is_line_end(tokens: &Measured<'_, '_>, number: usize) -> bool
    requires { number < length tokens.now.tokens }
    ensures { TellsEnd tokens.now.tokens number result }
{
    if tokens.is_inside_heredoc(number) {
        return false;
    }
    matches!(tokens.kind(number), Kind::Newline)
}

fn holds_newline(text: &str) -> bool
    ensures { result ≡ list_any (λ b. b == 10) text.now }
{
    text.as_bytes().iter().any(|b| *b == b'\n')
}

/// The state of a walk along a line.
#[derive(Clone, Copy)]
pub struct LineState {
    pub assign: Option<usize>,
    pub sign_depth: u32,
    pub comment: Option<usize>,
    /// The depth before the comment.
    pub body_depth: u32,
    pub multiline: bool,
}

impl LineState {
    /// The state with a sign.
    #[inline(always)]
    fn with_assign(self, number: usize, depth: u32) -> LineState
        ensures { (t : Lexeme) → t.kind ≡ Assign → t.inside_heredoc ≡ false
            → Notes self number depth t result }
    {
        if self.assign.is_some() || self.comment.is_some() {
            return self;
        }
        LineState {
            assign: Some(number),
            sign_depth: depth,
            ..self
        }
    }

    /// The state with a comment to the end of its line.
    #[inline(always)]
    fn with_comment(self, number: usize, depth: u32) -> LineState
        ensures { (t : Lexeme) → t.kind ≡ LineComment → t.inside_heredoc ≡ false
            → Notes self number depth t result }
    {
        if self.comment.is_some() {
            return self;
        }
        LineState {
            comment: Some(number),
            body_depth: depth,
            ..self
        }
    }

    /// The state with an inline comment.
    #[inline(always)]
    fn with_text(self, number: usize, text: &str) -> LineState
        ensures { (t : Lexeme) (depth : ℕ) → t.kind ≡ InlineComment → t.inside_heredoc ≡ false
            → t.text ≡ text.now → Notes self number depth t result }
    {
        LineState {
            multiline: self.multiline || holds_newline(text),
            ..self
        }
    }

    /// The state after a token that needs a closer look and doesn't end the line.
    #[inline(always)]
    fn with(self, tokens: &Measured<'_, '_>, number: usize, depth: u32) -> LineState
        requires within { number < length tokens.now.tokens }
        requires more { AsksMore tokens.now.tokens number }
        requires on { TellsEnd tokens.now.tokens number false }
        ensures { NotesAt tokens.now.tokens self number depth result }
    {
        if tokens.is_inside_heredoc(number) {
            return self;
        }
        let kind = tokens.kind(number);
        if matches!(kind, Kind::Assign) {
            return self.with_assign(number, depth);
        }
        if matches!(kind, Kind::LineComment) {
            return self.with_comment(number, depth);
        }
        self.with_text(number, tokens.get(number).text)
    }

    /// The depth before the comment, if there is one.
    #[inline(always)]
    fn body_depth(self, depth: u32) -> u32
        ensures { result ≡ body_of self depth }
    {
        if self.comment.is_some() {
            return self.body_depth;
        }
        depth
    }

    /// The sign, if it begins a cell.
    #[inline(always)]
    fn cell(self, depth: u32) -> Option<usize>
        ensures { result ≡ seen_cell self depth }
    {
        if !self.multiline && self.sign_depth == self.body_depth(depth) {
            return self.assign;
        }
        None
    }

    /// The line that ends after it.
    #[inline(always)]
    fn line(self, first: usize, end: usize, depth: u32) -> Line
        ensures first { result.first ≡ first }
        ensures facts { facts_in result ≡ facts_of (survey_of self depth first end) }
    {
        Line {
            first,
            end,
            depth,
            assign: self.cell(depth),
            comment: self.comment,
            runs: !self.multiline,
        }
    }
}

/// Whether the token is an inline comment that holds a newline.
fn is_torn_by(tokens: &Measured<'_, '_>, number: usize) -> bool
    requires { number < length tokens.now.tokens }
    ensures { (t : Lexeme) → slice_get tokens.now.tokens number ≡ Some t
        → result ≡ is_multiline t }
{
    let token = tokens.get(number);
    matches!(token.kind, Kind::InlineComment) && !token.inside_heredoc && holds_newline(token.text)
}

/// The state of a line before a token that needs a closer look.
fn seen_at_start(multiline: bool) -> LineState
    ensures { result ≡ seen_at_start multiline }
{
    LineState {
        assign: None,
        sign_depth: 0,
        comment: None,
        body_depth: 0,
        multiline,
    }
}

/// After the first token of a line, which is no cell: the state, the depth, and whether the line ends with it.
#[inline(always)]
fn read_first(tokens: &Measured<'_, '_>, first: usize, before: u32) -> (LineState, u32, bool)
    requires within { first < length tokens.now.tokens }
    requires balanced { BalancedFrom before (drop first tokens.now.tokens) }
    requires fits { before ≤ max_open }
    ensures seen { NotesFirst tokens.now.tokens first before result.0 result.1 }
    ensures end { TellsEnd tokens.now.tokens first result.2 }
{
    let step = step_of(tokens.kind(first));
    if step != SPECIAL {
        return (seen_at_start(false), depth_after(before, step), false);
    }
    if is_line_end(tokens, first) {
        return (seen_at_start(false), before, true);
    }
    (seen_at_start(is_torn_by(tokens, first)), before, false)
}

/// Steps over tokens from a number on that open, close or do neither, and need no closer look. Returns the number of
/// the next token, or the number of tokens, and the depth there.
#[inline(always)]
fn pass_steps(tokens: &Measured<'_, '_>, from: usize, before: u32) -> (usize, u32)
    requires within { from ≤ length tokens.now.tokens }
    requires balanced { BalancedFrom before (drop from tokens.now.tokens) }
    requires fits { before ≤ max_open }
    ensures passes { PassesSteps tokens.now.tokens from before result.0 result.1 }
    ensures more { AsksMore tokens.now.tokens result.0 }
{
    let count = tokens.len();
    let mut number = from;
    let mut depth = before;
    while number < count {
        let step = step_of(tokens.kind(number));
        if step == SPECIAL {
            return (number, depth);
        }
        depth = depth_after(depth, step);
        number += 1;
    }
    (number, depth)
}

/// The line that begins at a token, given the depth there.
#[inline(always)]
pub fn line_at(tokens: &Measured<'_, '_>, first: usize, before: u32) -> Line
    requires within { first < length tokens.now.tokens }
    requires balanced { BalancedFrom before (drop first tokens.now.tokens) }
    requires fits { before ≤ max_open }
    ensures first { result.first ≡ first }
    ensures line { IsLine tokens.now.tokens first before (facts_in result) }
{
    let count = tokens.len();
    let (seen, depth, ends) = read_first(tokens, first, before);
    if ends {
        return seen.line(first, first + 1, depth);
    }
    let mut seen = seen;
    let (mut number, mut depth) = pass_steps(tokens, first + 1, depth);
    while number < count {
        if is_line_end(tokens, number) {
            return seen.line(first, number + 1, depth);
        }
        seen = seen.with(tokens, number, depth);
        let here = pass_steps(tokens, number + 1, depth);
        number = here.0;
        depth = here.1;
    }
    seen.line(first, number, depth)
}
