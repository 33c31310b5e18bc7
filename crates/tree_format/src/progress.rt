//! The progress of a run.

ghost use Rattle.std.specs.Prelude.{◌≡◌, Bool};

use crate::outcome::Outcome;

/// An observer of a run, which may show its progress on a terminal.
pub trait Progress {
    /// Messages are read on a terminal.
    ghost shows: { Self → Bool };

    /// Whether lines of the source are shown below faults.
    fn shows_lines(&self) -> bool
        ensures { result ≡ shows self.now };

    /// A file was looked at, and its outcome is about to be reported.
    fn after_look(&mut self, outcome: &Outcome);

    /// The outcome was reported.
    fn after_report(&mut self);

    /// The run is at its end.
    fn end(&mut self);
}
