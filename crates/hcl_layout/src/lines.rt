//! The lines in turn, each with its level and its cells in the columns of their runs.
ghost use Rattle.std.specs.Prelude.{◌≡◌, ◌≢◌, ◌<◌, ◌≤◌, ◌+◌, ◌-◌, ◌^◌, not, length, slice_get, Some, IfSome, IfNone, [], option_map};
ghost use Rattle.hcl_tokens.specs.Scanned.{lexeme};
ghost use Rattle.hcl_tokens.specs.Balanced.{max_open};
ghost use Rattle.hcl_layout.specs.Gaps.{indent as indent_of};
ghost use Rattle.hcl_layout.specs.Inner.Depths.{Sound};
ghost use Rattle.hcl_layout.specs.Inner.Laid.{FindsComment, FindsAssign, GoesBack, HasGaps, HasOwnGap, HasAssignGaps, IsAt, IsCommentColumn, IsDone, IsLaid, IsPlainOn, IsAssignColumn, KeepsRuns, Laid, LeavesGaps, Moves, MovesAssign, Reads, RunsGrow, AssignsGrow, Spans, Stops, bare_after, cell_in, comment_width_on, comments_ended, ends_all_wrong, ends_wrong, gap_on, greatest_of, left_after, no_lines, shape, assign_width_on, assigns_ended, text_of, widest_comment, widest_assign, width_on, with_comment_in, with_assign_in};
ghost use Rattle.hcl_layout.specs.Inner.Left.{IsGapAt, IsGapBefore, token_before};
ghost use Rattle.hcl_layout.specs.Inner.LineGaps.{HasAssignSet, plain_of};
ghost use Rattle.hcl_layout.specs.Inner.Simple.{IsFrom};
ghost use Rattle.hcl_layout.specs.declared.lines.Columns.TheVariants.{Ahead};

use crate::levels::{DEPTHS, next_level};
use crate::line::{Line, line_at};
use crate::measured::Measured;
use hcl_spacing::{space_between, space_by_kinds};
use hcl_tokens::{Kind, Token};

/// A cell: the number of its token, the width before it, and the gap that sets it into its column. A line without one
/// has a cell after its end.
#[derive(Clone, Copy)]
pub struct Cell {
    pub number: usize,
    pub width: u64,
    pub gap: u64,
}

/// A line as it is printed.
#[derive(Clone, Copy)]
pub struct LaidLine {
    pub first: usize,
    pub end: usize,
    pub level: u32,
    pub assign: Cell,
    pub comment: Cell,
}

/// A token with the blanks before it.
#[derive(Clone, Copy)]
pub struct Piece<'s> {
    pub gap: u64,
    pub token: Token<'s>,
}

/// How the column of a run is found at its first line: by measuring the lines ahead, or from the place of the cell in
/// the source.
#[derive(Clone, Copy)]
pub enum Columns {
    Ahead,
    Found,
}

/// The current run of cells: its column, and the greatest width so far. If the two differ at its end, the column was
/// wrong.
#[derive(Clone, Copy)]
pub struct Run {
    pub column: u64,
    pub greatest: u64,
}

/// The state after the passed lines.
#[derive(Clone, Copy)]
pub struct Lines {
    pub next: usize,
    pub depth: u32,
    pub levels: [u32; DEPTHS],
    pub assigns: Option<Run>,
    pub comments: Option<Run>,
    pub columns: Columns,
    /// Whether a run had another column.
    pub wrong: bool,
}

fn is_wrong(run: Option<Run>) -> bool
    ensures { result ≡ ends_wrong run }
{
    let Some(run) = run else {
        return false;
    };
    run.column != run.greatest
}

/// The run with another line, by the width before its cell.
fn run_with(column: u64, run: Option<Run>, width: u64) -> Run
    ensures column { result.column ≡ column }
    ensures greatest { result.greatest ≡ greatest_of run width }
{
    let Some(run) = run else {
        return Run {
            column,
            greatest: width,
        };
    };
    Run {
        column,
        greatest: run.greatest.max(width),
    }
}

/// The column of a cell in the source, from the width before it.
fn column_in_source(tokens: &Measured<'_, '_>, number: usize, width: u64) -> u64
    requires within { number < length tokens.now.tokens }
    requires after { 0 < number }
    requires narrow { width < 2 ^ 34 }
    ensures order { width ≤ result }
    ensures small { result ≤ width + 2 ^ 22 }
{
    let before = tokens.get(number - 1);
    let gap = tokens
        .get(number)
        .start
        .saturating_sub(before.start + before.text.len());
    width + (gap as u64).saturating_sub(1)
}

fn token_before<'s>(tokens: &Measured<'_, 's>, first: usize, number: usize) -> Option<Token<'s>>
    requires { number ≤ length tokens.now.tokens }
    ensures { option_map lexeme result ≡ token_before tokens.now.tokens first number }
{
    if first < number {
        return Some(tokens.get(number - 1));
    }
    None
}

/// The blank before a token if the two kinds don't decide it.
#[cold]
fn gap_by_texts(tokens: &Measured<'_, '_>, first: usize, number: usize) -> u64
    requires within { number < length tokens.now.tokens }
    requires after { first < number }
    ensures { IsGapAt tokens.now.tokens first number result }
{
    let token = tokens.get(number);
    let subject = tokens.get(number - 1);
    let before = token_before(tokens, first, number - 1);
    u64::from(space_between(before, subject, token))
}

fn indent(level: u32, token: Token<'_>) -> u64
    requires { level ≤ max_open }
    ensures { result ≡ indent_of level (lexeme token.entry) }
{
    if matches!(token.kind, Kind::Newline) || token.inside_heredoc {
        return 0;
    }
    2 * u64::from(level)
}

/// The blank before a token of a line, except its first.
#[inline(always)]
fn gap_after(tokens: &Measured<'_, '_>, first: usize, number: usize, token: Token<'_>) -> u64
    requires there { slice_get tokens.now.tokens number ≡ Some (lexeme token) }
    requires within { number < length tokens.now.tokens }
    requires after { first < number }
    ensures { IsGapBefore tokens.now.tokens first number (lexeme token.entry) result }
{
    match space_by_kinds(tokens.get(number - 1), token) {
        Some(space) => u64::from(space),
        None => gap_by_texts(tokens, first, number),
    }
}

impl LaidLine {
    /// The blanks before the first token, the sign or the comment.
    #[inline(always)]
    fn own_gap(self, tokens: &Measured<'_, '_>, number: usize, token: Token<'_>) -> u64
        requires there { slice_get tokens.now.tokens number ≡ Some (lexeme token) }
        requires laid { Laid tokens.now.tokens self }
        requires own { HasOwnGap self number }
        requires within { number < self.end }
        ensures value { result ≡ gap_on tokens.now.tokens self number (lexeme token.entry) }
        ensures small { result ≤ 2 ^ 34 }
    {
        let _ = tokens;
        if number == self.comment.number {
            return self.comment.gap;
        }
        if number == self.assign.number {
            return self.assign.gap;
        }
        indent(self.level, token)
    }

    /// The blanks before another token.
    #[inline(always)]
    fn other_gap(self, tokens: &Measured<'_, '_>, number: usize, token: Token<'_>) -> u64
        requires there { slice_get tokens.now.tokens number ≡ Some (lexeme token) }
        requires laid { Laid tokens.now.tokens self }
        requires after { self.first < number }
        requires within { number < self.end }
        requires comment { number ≢ self.comment.number }
        requires assign { number ≢ self.assign.number }
        ensures value { result ≡ gap_on tokens.now.tokens self number (lexeme token.entry) }
        ensures small { result ≤ 2 ^ 34 }
    {
        gap_after(tokens, self.first, number, token)
    }

    /// The next cell after a token, or the end.
    #[inline(always)]
    fn stop_after(self, number: usize) -> usize
        requires order { self.first ≤ number }
        requires within { number < self.end }
        ensures { Stops self (number + 1) result }
    {
        if self.assign.number <= number {
            if number < self.comment.number {
                return self.comment.number;
            }
            return self.end;
        }
        if number < self.comment.number && self.comment.number < self.assign.number {
            return self.comment.number;
        }
        self.assign.number
    }

    /// A token of the line with the blanks before it, if no token before the stop has a gap of its own; and the next
    /// stop.
    #[inline(always)]
    pub fn piece<'s>(
        self,
        tokens: &Measured<'_, 's>,
        number: usize,
        stop: usize,
    ) -> (Piece<'s>, usize)
        requires laid { Laid tokens.now.tokens self }
        requires order { self.first ≤ number }
        requires within { number < self.end }
        requires stops { Stops self number stop }
        ensures gap { result.0.gap ≡ gap_on tokens.now.tokens self number (lexeme result.0.token) }
        ensures small { result.0.gap ≤ 2 ^ 34 }
        ensures token { slice_get tokens.now.tokens number ≡ Some (lexeme result.0.token) }
        ensures source { IsFrom tokens.now.text result.0.token.start result.0.token.text.now }
        ensures text { length result.0.token.text.now < 2 ^ 32 }
        ensures stops { Stops self (number + 1) result.1 }
    {
        let token = tokens.get(number);
        if number == stop {
            let gap = self.own_gap(tokens, number, token);
            return (Piece { gap, token }, self.stop_after(number));
        }
        let gap = self.other_gap(tokens, number, token);
        (Piece { gap, token }, stop)
    }

    /// The width before a token, from a known width before an earlier one.
    #[inline(always)]
    fn width(self, tokens: &Measured<'_, '_>, from: usize, sum: u64, number: usize) -> u64
        requires laid { Laid tokens.now.tokens self }
        requires begins { self.first ≤ from }
        requires own { HasOwnGap self from }
        requires order { from < number }
        requires plain { IsPlainOn self from number }
        requires within { number ≤ self.end }
        requires narrow { sum + width_on tokens.now.tokens self from number < 2 ^ 35 }
        ensures { result ≡ sum + width_on tokens.now.tokens self from number }
    {
        let token = tokens.get(from);
        let mut sum = sum + self.own_gap(tokens, from, token) + tokens.clusters(token);
        for k in from + 1..number {
            let token = tokens.get(k);
            sum += self.other_gap(tokens, k, token) + tokens.clusters(token);
        }
        sum
    }

    /// The width before a sign, before any cell is set.
    #[inline(always)]
    fn assign_cell_width(self, tokens: &Measured<'_, '_>, number: usize) -> u64
        requires laid { Laid tokens.now.tokens self }
        requires bare { shape self ≡ plain_of self.level }
        requires order { self.first < number }
        requires within { number ≤ self.end }
        ensures value { result ≡ assign_width_on tokens.now.tokens self number }
        ensures small { result ≤ 2 ^ 24 }
    {
        // so the texts are short
        let _count = tokens.len();
        self.width(tokens, self.first, 0, number)
    }

    /// The width before a comment, once the sign is set. This is a call, since [`Lines::next`] would grow too large to
    /// be inlined with it.
    #[inline(never)]
    fn comment_width(self, tokens: &Measured<'_, '_>, number: usize) -> u64
        requires laid { Laid tokens.now.tokens self }
        requires signed { HasAssignSet (shape self) (text_of tokens.now.tokens self) }
        requires order { self.first < number }
        requires within { number < self.end }
        ensures value { result ≡ comment_width_on tokens.now.tokens self number }
        ensures narrow { result ≤ 2 ^ 33 + 2 ^ 24 }
    {
        // so the texts are short
        let _count = tokens.len();
        if self.assign.number < number {
            return self.width(tokens, self.assign.number, self.assign.width, number);
        }
        self.width(tokens, self.first, 0, number)
    }

    /// The line with its sign in a column, given the width before the sign.
    fn with_assign(self, number: usize, width: u64, column: u64) -> LaidLine
        requires fits { column < 2 ^ 33 }
        ensures { result ≡ with_assign_in self number width column }
    {
        LaidLine {
            assign: cell_at(number, width, column),
            ..self
        }
    }

    /// The line with its comment in a column, given the width before the comment.
    fn with_comment(self, number: usize, width: u64, column: u64) -> LaidLine
        requires fits { column < 2 ^ 34 }
        ensures { result ≡ with_comment_in self number width column }
    {
        LaidLine {
            comment: cell_at(number, width, column),
            ..self
        }
    }
}

/// A cell in a column.
fn cell_at(number: usize, width: u64, column: u64) -> Cell
    requires fits { column < 2 ^ 34 }
    ensures { result ≡ cell_in number width column }
{
    Cell {
        number,
        width,
        gap: column.saturating_sub(width) + 1,
    }
}

impl Lines {
    pub fn new(columns: Columns) -> Lines
        ensures { result ≡ no_lines columns }
    {
        Lines {
            next: 0,
            depth: 0,
            levels: [0; DEPTHS],
            assigns: None,
            comments: None,
            columns,
            wrong: false,
        }
    }

    /// Whether every run had the right column, at the end of the text.
    pub fn are_right(&self) -> bool
        ensures { result ≡ not (ends_all_wrong self.now) }
    {
        !(self.wrong || is_wrong(self.assigns) || is_wrong(self.comments))
    }

    /// Passes a line, except for its cells.
    #[inline(always)]
    fn pass(&mut self, line: Line) -> LaidLine
        requires before { self.old.depth ≤ max_open }
        requires now { line.depth ≤ max_open }
        requires sound { Sound self.old.depth self.old.levels }
        ensures moved { Moves self.old line self.new }
        ensures kept { KeepsRuns self.old self.new }
        ensures sound { Sound line.depth self.new.levels }
        ensures laid { result ≡ bare_after self.old line }
        ensures small { result.level ≤ max_open }
    {
        let level = next_level(&mut self.levels, self.depth, line.depth);
        self.depth = line.depth;
        self.next = line.end;
        let none = Cell {
            number: line.end,
            width: 0,
            gap: 0,
        };
        LaidLine {
            first: line.first,
            end: line.end,
            level,
            assign: none,
            comment: none,
        }
    }

    /// The greatest width before the signs of the run that continues with the next line.
    #[cold]
    fn assigns_ahead(&self, tokens: &Measured<'_, '_>) -> u64
        requires at { IsAt tokens.now.tokens self.now }
        ensures value { result ≡ widest_assign tokens.now.tokens self.now }
        ensures small { result ≤ 2 ^ 24 }
    {
        let mut ahead = *self;
        let mut greatest = 0;
        while ahead.next < tokens.len() {
            let line = line_at(tokens, ahead.next, ahead.depth);
            let Some(number) = line.assign else {
                return greatest;
            };
            greatest = greatest.max(ahead.pass(line).assign_cell_width(tokens, number));
        }
        greatest
    }

    /// The column of a sign, from the width before it, when the next line begins after it.
    #[inline(always)]
    fn assign_cell_column(&self, tokens: &Measured<'_, '_>, number: usize, width: u64) -> u64
        requires at { IsAt tokens.now.tokens self.now }
        requires within { number < length tokens.now.tokens }
        requires after { 0 < number }
        requires narrow { width ≤ 2 ^ 24 }
        ensures kept { IfSome self.now.assigns (λ r. result ≡ r.column) }
        ensures ahead { IsAssignColumn tokens.now.tokens self.now width result }
        ensures small { result < 2 ^ 33 }
    {
        if let Some(run) = self.assigns {
            return run.column;
        }
        match self.columns {
            Columns::Ahead => width.max(self.assigns_ahead(tokens)),
            Columns::Found => column_in_source(tokens, number, width),
        }
    }

    /// Passes a line, except for its comment.
    #[inline(always)]
    fn pass_assign(&mut self, tokens: &Measured<'_, '_>, line: Line) -> LaidLine
        requires { Reads tokens.now.tokens self.old line }
        ensures spans { Spans result line }
        ensures laid { Laid tokens.now.tokens result }
        ensures signed { HasAssignSet (shape result) (text_of tokens.now.tokens result) }
        ensures gaps { HasAssignGaps tokens.now.tokens self.old self.new result }
        ensures moved { MovesAssign tokens.now.tokens self.old line self.new }
        ensures grows { AssignsGrow tokens.now.tokens self.old self.new result }
        ensures ahead { FindsAssign tokens.now.tokens self.old self.new }
    {
        let laid = self.pass(line);
        let Some(number) = line.assign else {
            self.end_assigns();
            return laid;
        };
        let width = laid.assign_cell_width(tokens, number);
        let column = self.assign_cell_column(tokens, number, width);
        self.assigns = Some(run_with(column, self.assigns, width));
        laid.with_assign(number, width, column)
    }

    /// The greatest width before the comments of the run that continues with the next line.
    #[cold]
    fn comments_ahead(&self, tokens: &Measured<'_, '_>) -> u64
        requires at { IsAt tokens.now.tokens self.now }
        requires ahead { self.now.columns ≡ Ahead }
        ensures value { result ≡ widest_comment tokens.now.tokens self.now }
        ensures small { result < 2 ^ 34 }
    {
        let mut ahead = *self;
        let mut greatest = 0;
        while ahead.next < tokens.len() {
            let line = line_at(tokens, ahead.next, ahead.depth);
            let Some(number) = line.run_comment() else {
                return greatest;
            };
            let laid = ahead.pass_assign(tokens, line);
            greatest = greatest.max(laid.comment_width(tokens, number));
        }
        greatest
    }

    /// The column of a comment, from the width before it, when the next line begins after it.
    #[inline(always)]
    fn comment_column(&self, tokens: &Measured<'_, '_>, number: usize, width: u64) -> u64
        requires at { IsAt tokens.now.tokens self.now }
        requires within { number < length tokens.now.tokens }
        requires after { 0 < number }
        requires narrow { width ≤ 2 ^ 33 + 2 ^ 24 }
        ensures kept { IfSome self.now.comments (λ r. result ≡ r.column) }
        ensures ahead { IsCommentColumn tokens.now.tokens self.now width result }
        ensures small { result < 2 ^ 34 }
    {
        if let Some(run) = self.comments {
            return run.column;
        }
        match self.columns {
            Columns::Ahead => width.max(self.comments_ahead(tokens)),
            Columns::Found => column_in_source(tokens, number, width),
        }
    }

    /// Ends the run of comments.
    fn end_comments(&mut self)
        ensures { self.new ≡ comments_ended self.old }
    {
        let Some(run) = self.comments else {
            return;
        };
        self.wrong = self.wrong || run.column != run.greatest;
        self.comments = None;
    }

    /// Ends the run of signs.
    fn end_assigns(&mut self)
        ensures { self.new ≡ assigns_ended self.old }
    {
        let Some(run) = self.assigns else {
            return;
        };
        self.wrong = self.wrong || run.column != run.greatest;
        self.assigns = None;
    }

    /// Passes a line, and returns it with both cells in their columns.
    #[inline(always)]
    fn pass_line(&mut self, tokens: &Measured<'_, '_>, line: Line) -> LaidLine
        requires { Reads tokens.now.tokens self.old line }
        ensures spans { Spans result line }
        ensures laid { Laid tokens.now.tokens result }
        ensures gaps { HasGaps tokens.now.tokens self.old self.new result }
        ensures moved { Moves self.old line self.new × IsAt tokens.now.tokens self.new }
        ensures runs { RunsGrow self.old (text_of tokens.now.tokens result) self.new }
        ensures ahead_sign { FindsAssign tokens.now.tokens self.old self.new }
        ensures ahead_comment { FindsComment tokens.now.tokens self.old self.new }
    {
        let laid = self.pass_assign(tokens, line);
        let Some(number) = line.comment else {
            self.end_comments();
            return laid;
        };
        let width = laid.comment_width(tokens, number);
        if !line.runs {
            self.end_comments();
            return laid.with_comment(number, width, width);
        }
        let column = self.comment_column(tokens, number, width);
        self.comments = Some(run_with(column, self.comments, width));
        laid.with_comment(number, width, column)
    }

    /// The next line.
    #[inline(always)]
    pub fn next(&mut self, tokens: &Measured<'_, '_>) -> Option<LaidLine>
        requires at { IsAt tokens.now.tokens self.old }
        ensures done { IfNone result (left_after tokens.now.tokens self.old ≡ []) }
        ensures laid { IfSome result (IsLaid tokens.now.tokens self.old self.new) }
        ensures at { IsAt tokens.now.tokens self.new × (self.new.columns ≡ self.old.columns) }
        ensures end { IfNone result (IsDone tokens.now.tokens self.old self.new) }
        ensures right { IfSome result (λ l. GoesBack tokens.now.tokens self.old l self.new) }
        ensures left { LeavesGaps tokens.now.tokens self.old self.new result }
    {
        if self.next >= tokens.len() {
            return None;
        }
        let line = line_at(tokens, self.next, self.depth);
        Some(self.pass_line(tokens, line))
    }
}
