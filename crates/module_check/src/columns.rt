//! Columns of one line in turn.

ghost use Rattle.std.specs.Prelude.{◌≡◌, ◌≤◌, drop, length, true};
ghost use Rattle.unicode_segmentation.specs.Grapheme.{graphemes};
ghost use Rattle.unicode_segmentation.specs.Iter.{graphemes_left};
ghost use Rattle.source_snippet.specs.Snippets.{before_column, first_clusters};

use std::marker::Model;
use unicode_segmentation::{Graphemes, UnicodeSegmentation};

/// A part of a text or of a line, from one offset up to another.
#[derive(Clone, Copy)]
pub struct Part {
    pub from: usize,
    pub to: usize,
}

/// A line, and how many of its clusters were passed: columns in order take one walk over the line.
#[derive(Drop)]
pub struct Columns<'t> {
    line: &'t str,
    clusters: Graphemes<'t>,
    passed: u32,
}

impl<'t> Model for Columns<'t> {
    ghost use Rattle.std.specs.Prelude.{◌≡◌, List, ℕ, drop, true};
    ghost use Rattle.unicode_segmentation.specs.Grapheme.{graphemes};
    ghost use Rattle.unicode_segmentation.specs.Iter.{graphemes_left};

    ghost Value = { List ℕ };

    ghost view = { λ c. c.line.now };

    ghost invariant = { λ c. graphemes_left c.clusters
        ≡ drop c.passed (graphemes true c.line.now) };
}

/// Passes this many clusters, or all that are left.
fn pass(clusters: &mut Graphemes<'_>, count: u32)
    ensures { graphemes_left clusters.new ≡ drop count (graphemes_left clusters.old) }
{
    for _ in 0..count {
        match clusters.next() {
            Some(_) => {}
            None => return,
        }
    }
}

/// Passes the first clusters of a line, if some of them were passed, or others too.
fn go_on<'t>(line: &'t str, clusters: &mut Graphemes<'t>, passed: u32, count: u32)
    requires { graphemes_left clusters.old ≡ drop passed (graphemes true line.now) }
    ensures { graphemes_left clusters.new ≡ drop count (graphemes true line.now) }
{
    if count < passed {
        *clusters = line.graphemes(true);
        pass(clusters, count);
        return;
    }
    pass(clusters, count - passed);
}

/// How many bytes of a line stand before the clusters that are left of it.
fn len_before(line: &str, clusters: &Graphemes<'_>, passed: u32) -> usize
    requires { graphemes_left clusters.now ≡ drop passed (graphemes true line.now) }
    ensures len { result ≡ length (first_clusters passed line.now) }
    ensures within { result ≤ length line.now }
{
    line.len() - clusters.as_str().len()
}

impl<'t> Columns<'t> {
    pub fn new(line: &'t str) -> Columns<'t>
        ensures { result ≡ line.now }
    {
        Columns {
            line,
            clusters: line.graphemes(true),
            passed: 0,
        }
    }

    /// Where the cluster in a column begins and ends, by bytes of the line: both at the line's end if it has no such
    /// column.
    pub fn part(&mut self, column: u32) -> Part
        ensures from { result.from ≡ length (before_column column self.old) }
        ensures to { result.to ≡ length (first_clusters column self.old) }
        ensures order { result.from ≤ result.to }
        ensures within { result.to ≤ length self.old }
        ensures same { self.new ≡ self.old }
    {
        let count = column.saturating_sub(1);
        go_on(self.line, &mut self.clusters, self.passed, count);
        self.passed = count;
        let Ok(mut ahead) = self.clusters.clone() else {
            unreachable!();
        };
        pass(&mut ahead, column - count);
        Part {
            from: len_before(self.line, &self.clusters, count),
            to: len_before(self.line, &ahead, column),
        }
    }
}
