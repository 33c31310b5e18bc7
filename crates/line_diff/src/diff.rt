//! The diff of two texts, as `diff -u` shows it. A print has the lines of its text, so lines of the same number are
//! compared.

ghost use Rattle.std.specs.Prelude.{◌≡◌, ◌<◌, ◌≤◌, ◌+◌, ◌-◌, ◌++◌, OnOk, IfOk, codes, decimal};
ghost use Rattle.line_diff.specs.Diffs.{run_begins, body_at, change_at, count, diff_of, each, ended_line, head, hunk_at, hunks, is_changed, is_shown, line_at, range, range_by, run_length, signed_line};

use crate::lines::{Lines, lines_of};
use itoa::Buffer;
use std::alloc::{AllocError, Global};

/// Appends bytes.
fn push(to: &mut Vec<u8>, bytes: &[u8]) -> Result<(), AllocError>
    ensures { OnOk result (to.new.items ≡ to.old.items ++ bytes.now) }
{
    to.extend_from_slice(bytes)
}

/// Appends a number in decimal.
fn push_number(to: &mut Vec<u8>, number: u64) -> Result<(), AllocError>
    ensures { OnOk result (to.new.items ≡ to.old.items ++ decimal number) }
{
    let mut digits = Buffer::new();
    push(to, digits.format(number).as_bytes())
}

/// Whether a line is shown: one of those up to three lines from it is changed.
fn is_shown(lines: &Lines<'_>, number: usize) -> bool
    requires { number < count lines.now }
    ensures { result ≡ is_shown lines.now number }
{
    lines.is_near(number, 0)
        || lines.is_near(number, 1)
        || lines.is_near(number, 2)
        || lines.is_near(number, 3)
}

/// Whether a run of changed lines begins here.
fn begins_change(lines: &Lines<'_>, number: usize) -> bool
    ensures { result ≡ run_begins (is_changed lines.now) number }
{
    lines.is_changed(number) && (number == 0 || !lines.is_changed(number - 1))
}

/// Whether a run of shown lines begins here.
fn begins_hunk(lines: &Lines<'_>, number: usize) -> bool
    requires { number < count lines.now }
    ensures { result ≡ run_begins (is_shown lines.now) number }
{
    is_shown(lines, number) && (number == 0 || !is_shown(lines, number - 1))
}

/// The end of the run of changed lines from here on.
#[tactic(auto, using(crate::proofs::DiffLemmas::end_goes, crate::proofs::DiffLemmas::end_stops, crate::proofs::DiffLemmas::end_done))]
fn end_of_change(lines: &Lines<'_>, start: usize) -> usize
    requires { start ≤ count lines.now }
    ensures end { result ≡ start + run_length (is_changed lines.now) start
        (count lines.now - start) }
    ensures after { start ≤ result }
    ensures within { result ≤ count lines.now }
{
    for number in start..lines.len() {
        if !lines.is_changed(number) {
            return number;
        }
    }
    lines.len()
}

/// The end of the run of shown lines from here on.
#[tactic(auto, using(crate::proofs::DiffLemmas::end_goes, crate::proofs::DiffLemmas::end_stops, crate::proofs::DiffLemmas::end_done))]
fn end_of_hunk(lines: &Lines<'_>, start: usize) -> usize
    requires { start ≤ count lines.now }
    ensures end { result ≡ start + run_length (is_shown lines.now) start (count lines.now - start) }
    ensures after { start ≤ result }
    ensures within { result ≤ count lines.now }
{
    for number in start..lines.len() {
        if !is_shown(lines, number) {
            return number;
        }
    }
    lines.len()
}

/// Appends a line, and says so if it has no LF.
fn push_ended(to: &mut Vec<u8>, line: &[u8]) -> Result<(), AllocError>
    ensures { OnOk result (to.new.items ≡ to.old.items ++ ended_line line.now) }
{
    push(to, line)?;
    if line.ends_with(b"\n") {
        return Ok(());
    }
    push(to, b"\n\\ No newline at end of file\n")
}

/// Appends a line, with a sign before it.
fn push_line(to: &mut Vec<u8>, sign: &[u8], line: &[u8]) -> Result<(), AllocError>
    ensures { OnOk result (to.new.items ≡ to.old.items ++ signed_line sign.now line.now) }
{
    if line.is_empty() {
        return Ok(());
    }
    push(to, sign)?;
    push_ended(to, line)
}

/// Appends the removed lines.
#[tactic(auto, using(crate::proofs::DiffLemmas::each_goes, crate::proofs::DiffLemmas::each_done))]
fn push_old(to: &mut Vec<u8>, lines: &Lines<'_>, start: usize, end: usize) -> Result<(), AllocError>
    requires { start ≤ end }
    ensures { OnOk result (to.new.items
        ≡ to.old.items ++ each (λ k. signed_line (codes "-") (line_at lines.now.old k)) start
        (end - start)) }
{
    for number in start..end {
        push_line(to, b"-", lines.old_line(number))?;
    }
    Ok(())
}

/// Appends the added lines.
#[tactic(auto, using(crate::proofs::DiffLemmas::each_goes, crate::proofs::DiffLemmas::each_done))]
fn push_new(to: &mut Vec<u8>, lines: &Lines<'_>, start: usize, end: usize) -> Result<(), AllocError>
    requires { start ≤ end }
    ensures { OnOk result (to.new.items
        ≡ to.old.items ++ each (λ k. signed_line (codes "+") (line_at lines.now.new k)) start
        (end - start)) }
{
    for number in start..end {
        push_line(to, b"+", lines.new_line(number))?;
    }
    Ok(())
}

/// Appends a run of changed lines.
fn push_change(to: &mut Vec<u8>, lines: &Lines<'_>, start: usize) -> Result<(), AllocError>
    requires { start ≤ count lines.now }
    ensures { OnOk result (to.new.items ≡ to.old.items ++ change_at lines.now start) }
{
    let end = end_of_change(lines, start);
    push_old(to, lines, start, end)?;
    push_new(to, lines, start, end)
}

/// Appends the text for a line of a hunk.
fn push_at(to: &mut Vec<u8>, lines: &Lines<'_>, number: usize) -> Result<(), AllocError>
    requires { number < count lines.now }
    ensures { OnOk result (to.new.items ≡ to.old.items ++ body_at lines.now number) }
{
    if !lines.is_changed(number) {
        return push_line(to, b" ", lines.old_line(number));
    }
    if !begins_change(lines, number) {
        return Ok(());
    }
    push_change(to, lines, number)
}

/// Appends the line numbers of a hunk, from one number up to another.
fn push_range_by(to: &mut Vec<u8>, start: usize, end: usize) -> Result<(), AllocError>
    requires { start ≤ end }
    ensures { OnOk result (to.new.items ≡ to.old.items ++ range_by start end) }
{
    let count = end - start;
    if count == 1 {
        return push_number(to, end as u64);
    }
    let first = if count == 0 { start } else { start + 1 };
    push_number(to, first as u64)?;
    push(to, b",")?;
    push_number(to, count as u64)
}

/// Appends the line numbers of a hunk in a text of this many lines.
fn push_range(to: &mut Vec<u8>, start: usize, end: usize, len: usize) -> Result<(), AllocError>
    ensures { OnOk result (to.new.items ≡ to.old.items ++ range start end len) }
{
    let end = end.min(len);
    push_range_by(to, start.min(end), end)
}

/// Appends the head of a hunk.
fn push_head(
    to: &mut Vec<u8>,
    lines: &Lines<'_>,
    start: usize,
    end: usize,
) -> Result<(), AllocError>
    ensures { OnOk result (to.new.items ≡ to.old.items ++ head lines.now start end) }
{
    push(to, b"@@ -")?;
    push_range(to, start, end, lines.old_len())?;
    push(to, b" +")?;
    push_range(to, start, end, lines.new_len())?;
    push(to, b" @@\n")
}

/// Appends the lines of a hunk.
#[tactic(auto, using(crate::proofs::DiffLemmas::each_goes, crate::proofs::DiffLemmas::each_done))]
fn push_body(
    to: &mut Vec<u8>,
    lines: &Lines<'_>,
    start: usize,
    end: usize,
) -> Result<(), AllocError>
    requires order { start ≤ end }
    requires within { end ≤ count lines.now }
    ensures { OnOk result (to.new.items
        ≡ to.old.items ++ each (body_at lines.now) start (end - start)) }
{
    for number in start..end {
        push_at(to, lines, number)?;
    }
    Ok(())
}

/// Appends the hunk that begins at this line, if one does.
fn push_hunk_at(to: &mut Vec<u8>, lines: &Lines<'_>, number: usize) -> Result<(), AllocError>
    requires { number < count lines.now }
    ensures { OnOk result (to.new.items ≡ to.old.items ++ hunk_at lines.now number) }
{
    if !begins_hunk(lines, number) {
        return Ok(());
    }
    let end = end_of_hunk(lines, number);
    push_head(to, lines, number, end)?;
    push_body(to, lines, number, end)
}

/// Appends all hunks.
#[tactic(auto, using(crate::proofs::DiffLemmas::each_goes, crate::proofs::DiffLemmas::each_done))]
fn push_hunks(to: &mut Vec<u8>, lines: &Lines<'_>) -> Result<(), AllocError>
    ensures { OnOk result (to.new.items ≡ to.old.items ++ hunks lines.now) }
{
    for number in 0..lines.len() {
        push_hunk_at(to, lines, number)?;
    }
    Ok(())
}

/// The diff from one text to the other, under two names as they are to be shown.
pub fn diff(
    alloc: Global,
    old_name: &[u8],
    new_name: &[u8],
    old: &[u8],
    new: &[u8],
) -> Result<Vec<u8>, AllocError>
    ensures { IfOk result (λ text. text.items ≡ diff_of old_name.now new_name.now old.now new.now) }
{
    let old = lines_of(alloc, old)?;
    let new = lines_of(alloc, new)?;
    let lines = Lines::new(old, new);
    let mut to = Vec::new(alloc);
    push(&mut to, b"--- ")?;
    push(&mut to, old_name)?;
    push(&mut to, b"\n+++ ")?;
    push(&mut to, new_name)?;
    push(&mut to, b"\n")?;
    push_hunks(&mut to, &lines)?;
    Ok(to)
}
