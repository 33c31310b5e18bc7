//! A line of progress on a terminal.

use std::io::{IsTerminal, Write};
use std::time::{Duration, Instant};
use tree_format::outcome::Outcome;
use tree_format::progress::Progress;

/// The interval at which the line is shown anew, in milliseconds.
const EVERY: u64 = 1_000;

/// On a terminal the lines of faults are shown, and work that takes longer than a second shows on standard error how
/// many files were looked at, and how many of them change. That line is removed before anything else is printed, and at
/// the end.
#[derive(Drop)]
pub struct ProgressLine {
    rt: HostRuntime,
    is_terminal: bool,
    /// The time when the run began or the line was last shown. None if nothing is shown.
    last: Option<Instant>,
    looked: u64,
    changed: u64,
    is_shown: bool,
}

impl ProgressLine {
    pub fn new(rt: HostRuntime) -> ProgressLine {
        let is_terminal = rt.stderr().is_terminal();
        let last = if is_terminal {
            Instant::now(&rt).ok()
        } else {
            None
        };
        ProgressLine {
            rt,
            is_terminal,
            last,
            looked: 0,
            changed: 0,
            is_shown: false,
        }
    }

    /// Whether it is time to show the line anew.
    fn is_due(&self) -> bool {
        let Some(last) = self.last else {
            return false;
        };
        match last.elapsed(&self.rt) {
            Ok(passed) => passed >= Duration::from_millis(EVERY),
            Err(_) => false,
        }
    }

    fn show(&mut self) {
        let looked = self.looked;
        let changed = self.changed;
        if let Ok(line) = format!(in self.rt.alloc();
            "\r{looked} files, {changed} of them not formatted"
        ) {
            let _ = self.rt.stderr().write_all(line.as_bytes());
            self.is_shown = true;
        }
        self.last = Instant::now(&self.rt).ok();
    }

    fn wipe(&mut self) {
        if self.is_shown {
            let _ = self.rt.stderr().write_all(b"\r\x1b[K");
            self.is_shown = false;
        }
    }
}

impl Progress for ProgressLine {
    ghost shows = { λ p. p.is_terminal };

    fn shows_lines(&self) -> bool {
        self.is_terminal
    }

    fn after_look(&mut self, outcome: &Outcome) {
        self.looked = self.looked.saturating_add(1);
        match outcome {
            Outcome::Formatted => {}
            Outcome::Changed(_) | Outcome::Differs(_) => {
                self.changed = self.changed.saturating_add(1);
                self.wipe();
            }
            Outcome::Refused(..) | Outcome::Failed(_) => self.wipe(),
        }
    }

    fn after_report(&mut self) {
        if self.is_due() {
            self.show();
        }
    }

    fn end(&mut self) {
        self.wipe();
    }
}
