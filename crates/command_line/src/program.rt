//! The end of a run on its devices: the program's message and its status.

ghost use Rattle.std.specs.Prelude.{◌≡◌, ◌||◌, ◌<◌, List, [], ℕ, false, true, length, if◌then◌else◌, is_err};
ghost use Rattle.hcl_source.specs.Devices.{one_more};
ghost use Rattle.command_line.specs.Rows.{IsLineRow, Took, Shows, ShowsOne, end_of, message_row, out_of_memory, output_row, write_failed, writer};

use crate::texts::Program;
use hcl_source::{ByteSink, write_fully};
use std::alloc::AllocError;

impl Program {
    /// Writes a message, and returns the status, or that of a failure if the write failed.
    fn complain<E: ByteSink>(&self, err: &mut E, message: &[u8], status: u8) -> u8
        requires { E.failed err.old ≡ false }
        ensures took { Took (writer E.ByteSink err.old err.new) message.now }
        ensures exit { result ≡ (if E.failed err.new then self.now.failure else status) }
        ensures unflushed { E.failed err.new ≡ false → 0 < length message.now
            → E.flushed err.new ≡ false }
        ensures untouched { length message.now ≡ 0 → E.failed err.new ≡ false }
        ensures no_flush { E.flushes err.new ≡ E.flushes err.old }
    {
        match write_fully(err, message) {
            Ok(()) => status,
            Err(_) => self.failure(),
        }
    }

    /// Shows a message and nothing else.
    pub fn tell<O: ByteSink, E: ByteSink>(
        &self,
        out: &mut O,
        err: &mut E,
        message: &str,
        status: u8,
    ) -> u8
        requires out { O.failed out.old ≡ false }
        requires err { E.failed err.old ≡ false }
        ensures { Shows self.now (message_row message.now status)
            (end_of O.ByteSink out.old out.new E.ByteSink err.old err.new result) }
    {
        self.tell_bytes(out, err, message.as_bytes(), status)
    }

    /// Shows a message that may contain names, and nothing else.
    pub(crate) fn tell_bytes<O: ByteSink, E: ByteSink>(
        &self,
        out: &mut O,
        err: &mut E,
        message: &[u8],
        status: u8,
    ) -> u8
        requires out { O.failed out.old ≡ false }
        requires err { E.failed err.old ≡ false }
        ensures { Shows self.now (message_row message.now status)
            (end_of O.ByteSink out.old out.new E.ByteSink err.old err.new result) }
    {
        let _ = &*out;
        self.complain(err, message, status)
    }

    /// Shows that memory ran out.
    pub fn tell_out_of_memory<O: ByteSink, E: ByteSink>(&self, out: &mut O, err: &mut E) -> u8
        requires out { O.failed out.old ≡ false }
        requires err { E.failed err.old ≡ false }
        ensures { Shows self.now (out_of_memory self.now)
            (end_of O.ByteSink out.old out.new E.ByteSink err.old err.new result) }
    {
        self.tell(out, err, self.out_of_memory(), self.failure())
    }

    /// Shows a message, or, if there was no memory for its text, that memory ran out.
    pub fn tell_line<O: ByteSink, E: ByteSink>(
        &self,
        out: &mut O,
        err: &mut E,
        line: Result<String, AllocError>,
        status: u8,
    ) -> u8
        requires out { O.failed out.old ≡ false }
        requires err { E.failed err.old ≡ false }
        ensures { ShowsOne self.now (IsLineRow self.now line status)
            (end_of O.ByteSink out.old out.new E.ByteSink err.old err.new result) }
    {
        match line {
            Ok(line) => self.tell(out, err, line.as_str(), status),
            Err(_) => self.tell_out_of_memory(out, err),
        }
    }

    /// Ends a run that wrote to standard output: returns the status, or reports that a write failed.
    pub fn finish<O: ByteSink, E: ByteSink>(&self, out: &O, err: &mut E, status: u8) -> u8
        requires err { E.failed err.old ≡ false }
        ensures took { Took (writer E.ByteSink err.old err.new)
            (if O.failed out.now then write_failed self.now else []) }
        ensures exit { result ≡ (if O.failed out.now || E.failed err.new then self.now.failure
            else status) }
        ensures unflushed { E.failed err.new ≡ false → O.failed out.now ≡ true
            → E.flushed err.new ≡ false }
        ensures untouched { O.failed out.now ≡ false → E.failed err.new ≡ false }
        ensures no_flush { E.flushes err.new ≡ E.flushes err.old }
    {
        if out.has_failed() {
            return self.complain(err, self.write_failed().as_bytes(), self.failure());
        }
        status
    }

    /// Shows a text on standard output, which is flushed after it, and nothing else.
    pub fn deliver<O: ByteSink, E: ByteSink>(
        &self,
        out: &mut O,
        err: &mut E,
        text: &str,
        status: u8,
    ) -> u8
        requires out { O.failed out.old ≡ false }
        requires err { E.failed err.old ≡ false }
        ensures { Shows self.now (output_row text.now status)
            (end_of O.ByteSink out.old out.new E.ByteSink err.old err.new result) }
    {
        say(out, text);
        self.finish(out, err, status)
    }
}

/// Writes a text, and flushes it unless it is empty.
fn say<O: ByteSink>(out: &mut O, text: &str)
    requires { O.failed out.old ≡ false }
    ensures took { Took (writer O.ByteSink out.old out.new) text.now }
    ensures flushed { O.failed out.new ≡ false → 0 < length text.now → O.flushed out.new ≡ true }
    ensures once { O.failed out.new ≡ false → 0 < length text.now
        → O.flushes out.new ≡ one_more (O.flushes out.old) }
    ensures untouched { length text.now ≡ 0 → O.failed out.new ≡ false }
    ensures no_flush { length text.now ≡ 0 → O.flushes out.new ≡ O.flushes out.old }
{
    if write_fully(out, text.as_bytes()).is_ok() && !text.is_empty() {
        let _ = out.flush();
    }
}
