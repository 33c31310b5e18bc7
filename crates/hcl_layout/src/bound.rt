//! Whether a print fits into a number of bytes.
//!
//! A bound that needs no spacing and no column shows that most prints fit. Each token takes its text and a blank, and a
//! line two more blanks for each opener that is open before it. A group is adjacent lines that have a cell. Without its
//! one blank, the gap before a cell is no wider than the text before a cell in some line of its group; before a comment
//! it is at most twice that, since a sign before it may have been moved too:
//!
//! ```text
//! line             each token and a blank     indent   before its last cell    cells, a comment for two
//! locals {             7 + 2 + 2                 0
//! a=1# one             2 + 2 + 2 + 6 + 2         2            2 + 6                      3
//! long="x"# two        5 + 2 + 2 + 2 + 2 + 6     2            2 + 13                     3
//! }                    2 + 2                     2
//! ```
//!
//! Here two lines are a group, which takes at most 6 * 15 more blanks.
ghost use Rattle.std.specs.Prelude.{◌≡◌, ◌↔◌, ◌<◌, ◌≤◌, ◌+◌, ◌*◌, ◌^◌, ℕ, IsTrue, Some, length};
ghost use Rattle.hcl_tokens.specs.Balanced.{max_open};
ghost use Rattle.hcl_layout.specs.Inner.Depths.{BalancedFrom};
ghost use Rattle.hcl_layout.specs.Inner.Rooms.{IsSmall, cells_of, room_in, with_line_at};
ghost use Rattle.hcl_layout.specs.Inner.Survey.{IsLine, facts_in};
ghost use Rattle.hcl_layout.specs.Print.{print};

use crate::line::{Line, line_at};
use crate::measured::Measured;
use crate::print::printed_len;
use hcl_grammar::Accepted;

/// A bound of the gaps of the passed lines, apart from a blank before each token, and the current group: the number of
/// its cells (a comment counts for two), and the greatest width before one.
#[derive(Clone, Copy)]
pub struct Extent {
    pub passed: u64,
    pub cells: u64,
    pub width: u64,
}

/// At least the length of the texts before a cell, each with a blank: no byte belongs to two of them.
fn room_before(tokens: &Measured<'_, '_>, line: Line, cell: Option<usize>) -> u64
    requires line { line.end ≤ length tokens.now.tokens }
    requires some { line.first < line.end }
    requires there { (n : ℕ) → cell ≡ Some n → n < line.end }
    requires order { (n : ℕ) → cell ≡ Some n → line.first ≤ n }
    ensures value { result ≡ room_in tokens.now.tokens line cell }
    ensures small { result ≤ 2 ^ 23 }
{
    let Some(number) = cell else {
        return 0;
    };
    let start = tokens.get(line.first).start;
    let room = tokens.get(number).start + (number - line.first);
    room.saturating_sub(start) as u64
}

/// The number of cells of a line; a comment counts for two.
fn cells_in(line: Line) -> u64
    ensures { result ≡ cells_of (facts_in line).assign (facts_in line).running }
{
    let assigns = u64::from(line.assign.is_some());
    if line.run_comment().is_some() {
        return assigns + 2;
    }
    assigns
}

impl Extent {
    /// The extent with a line that begins at a depth.
    fn with_line(self, tokens: &Measured<'_, '_>, depth: u32, line: Line) -> Extent
        requires line { IsLine tokens.now.tokens line.first depth (facts_in line) }
        requires depth { depth ≤ max_open }
        requires few { IsSmall line.first self }
        ensures value { result ≡ with_line_at tokens.now.tokens depth line self }
        ensures few { IsSmall line.end result }
    {
        let indent = 2 * u64::from(depth);
        let cells = cells_in(line);
        if cells == 0 {
            return Extent {
                passed: self.passed + indent + self.cells * self.width,
                cells: 0,
                width: 0,
            };
        }
        let assign = room_before(tokens, line, line.assign);
        let comment = room_before(tokens, line, line.run_comment());
        Extent {
            passed: self.passed + indent,
            cells: self.cells + cells,
            width: self.width.max(indent + assign.max(comment)),
        }
    }
}

/// At least the length of the print, in bytes.
#[inline(never)]
fn bound(tokens: &Measured<'_, '_>) -> u64
    requires balanced { BalancedFrom 0 tokens.now.tokens }
    ensures { length (print tokens.now.tokens) ≤ result }
{
    let count = tokens.len();
    let mut extent = Extent {
        passed: 0,
        cells: 0,
        width: 0,
    };
    let mut depth = 0;
    let mut at = 0;
    while at < count {
        let line = line_at(tokens, at, depth);
        extent = extent.with_line(tokens, depth, line);
        depth = line.depth;
        at = line.end;
    }
    tokens.len_bound() + extent.passed + extent.cells * extent.width
}

/// Whether the print has at most this many bytes.
pub fn fits(accepted: &Accepted<'_, '_>, most: u64) -> bool
    ensures { IsTrue result ↔ (length (print accepted.now.tokens) ≤ most) }
{
    let tokens = Measured::without_widths(accepted);
    if tokens.len_bound() <= most && bound(&tokens) <= most {
        return true;
    }
    printed_len(accepted) <= most
}
