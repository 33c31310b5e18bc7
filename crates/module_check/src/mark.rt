//! The parts of a text that are marked for places.

ghost use Rattle.std.specs.Prelude.{◌≡◌, ◌==◌, ◌+◌, ◌≤◌, ◌<◌, ◌^◌, length};
ghost use Rattle.std.specs.List.{before_first};
ghost use Rattle.source_snippet.specs.Snippets.{nth_line};
ghost use Rattle.module_check.specs.Marks.{line_start, marked_range as marked_range_of};

use crate::columns::{Columns, Part};
use hcl_scan::Position;
use source_snippet::Lines;
use std::marker::Model;
use text_places::{Range, Units, Walk};

/// The first line of a text.
fn first_line(text: &str) -> &str
    ensures line { result.now ≡ before_first (λ b. b == 10) text.now }
{
    match text.split_once('\n') {
        Some((line, _)) => line,
        None => text,
    }
}

/// A line of a text: its number, the offset at which it begins, and its columns.
#[derive(Drop)]
struct MarkedLine<'t> {
    number: u32,
    start: usize,
    columns: Columns<'t>,
}

/// The line of this number.
fn line_in<'t>(text: &'t str, lines: &mut Lines<'t>, number: u32) -> MarkedLine<'t>
    requires { lines.old ≡ text.now }
    ensures number { result.number ≡ number }
    ensures start { result.start ≡ line_start number text.now }
    ensures columns { result.columns ≡ nth_line number text.now }
    ensures within { result.start + length (nth_line number text.now) ≤ length text.now }
    ensures same { lines.new ≡ lines.old }
{
    let rest = lines.after(number.saturating_sub(1));
    MarkedLine {
        number,
        start: text.len() - rest.len(),
        columns: Columns::new(first_line(rest)),
    }
}

/// The ranges of places in a text. Those of places in order take one walk through it.
#[derive(Drop)]
pub struct Marker<'t> {
    units: Units,
    text: &'t str,
    lines: Lines<'t>,
    line: MarkedLine<'t>,
    walk: Walk,
}

impl<'t> Model for Marker<'t> {
    ghost use Rattle.std.specs.Prelude.{◌≡◌, ◌≤◌, ◌<◌, ◌+◌, ◌^◌, length};
    ghost use Rattle.module_check.specs.Marks.{MarkedText, line_start};
    ghost use Rattle.source_snippet.specs.Snippets.{nth_line};
    ghost use Rattle.text_places.specs.Places.{walk_to};

    ghost Value = { MarkedText };

    ghost view = { λ m. record { units = m.units; text = m.text.now } };

    ghost invariant = { λ m. (m.lines ≡ m.text.now)
        × (m.line.start ≡ line_start m.line.number m.text.now)
        × (m.line.columns ≡ nth_line m.line.number m.text.now)
        × (m.line.start + length (nth_line m.line.number m.text.now) ≤ length m.text.now)
        × (m.walk ≡ walk_to m.units m.text.now m.walk.offset)
        × (m.walk.offset ≤ length m.text.now) × (length m.text.now < 2 ^ 32) };
}

impl<'t> Marker<'t> {
    /// The ranges of places in this text.
    pub fn new(units: Units, text: &'t str) -> Marker<'t>
        requires { length text.now < 2 ^ 32 }
        ensures { result ≡ record { units = units; text = text.now } }
    {
        let mut lines = Lines::new(text);
        let line = line_in(text, &mut lines, 1);
        Marker {
            units,
            text,
            lines,
            line,
            walk: Walk::start(),
        }
    }

    /// The range of the part that is marked for a place.
    pub fn range(&mut self, at: Position) -> Range
        ensures range { result ≡ marked_range_of self.old.units self.old.text at }
        ensures same { self.new ≡ self.old }
    {
        if at.line != self.line.number {
            self.line = line_in(self.text, &mut self.lines, at.line);
        }
        let part = self.line.columns.part(at.column);
        let (from, to) = (self.line.start + part.from, self.line.start + part.to);
        if from < self.walk.offset {
            self.walk = Walk::start();
        }
        let bytes = self.text.as_bytes();
        let start = self.walk.go_on(self.units, bytes, from);
        let end = start.go_on(self.units, bytes, to);
        // Not from the end: the next place may be the same.
        self.walk = start;
        Range {
            start: start.place(),
            end: end.place(),
        }
    }
}

/// The range of the part that is marked for a place.
pub fn marked_range(units: Units, text: &str, at: Position) -> Range
    requires { length text.now < 2 ^ 32 }
    ensures { result ≡ marked_range_of units text.now at }
{
    Marker::new(units, text).range(at)
}
