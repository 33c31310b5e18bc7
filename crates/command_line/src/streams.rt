//! Standard output and standard error.

ghost use Rattle.std.specs.Prelude.{◌≡◌, ◌||◌, false};
ghost use Rattle.command_line.specs.Rows.{Shows, end_of_streams, message_row, out_of_memory, output_row};

use crate::texts::Program;
use hcl_source::ByteSink;

/// The outputs of a run.
#[derive(Drop)]
pub struct Streams<O, E> {
    /// The requested output: names, reports, differences.
    pub out: O,
    /// The messages about faults, and about the run as a whole.
    pub err: E,
}

impl<O: ByteSink, E: ByteSink> Streams<O, E> {
    /// Whether a call of one of them has failed.
    pub fn has_failed(&self) -> bool
        ensures { result ≡ (O.failed self.now.out || E.failed self.now.err) }
    {
        self.out.has_failed() || self.err.has_failed()
    }

    /// Shows a message and nothing else.
    pub fn tell(&mut self, program: &Program, message: &str, status: u8) -> u8
        requires out { O.failed self.old.out ≡ false }
        requires err { E.failed self.old.err ≡ false }
        ensures { Shows program.now (message_row message.now status)
            (end_of_streams O.ByteSink E.ByteSink self.old self.new result) }
    {
        program.tell(&mut self.out, &mut self.err, message, status)
    }

    /// Shows a message that may contain names, and nothing else.
    pub fn tell_bytes(&mut self, program: &Program, message: &[u8], status: u8) -> u8
        requires out { O.failed self.old.out ≡ false }
        requires err { E.failed self.old.err ≡ false }
        ensures { Shows program.now (message_row message.now status)
            (end_of_streams O.ByteSink E.ByteSink self.old self.new result) }
    {
        program.tell_bytes(&mut self.out, &mut self.err, message, status)
    }

    /// Shows that memory ran out.
    pub fn tell_out_of_memory(&mut self, program: &Program) -> u8
        requires out { O.failed self.old.out ≡ false }
        requires err { E.failed self.old.err ≡ false }
        ensures { Shows program.now (out_of_memory program.now)
            (end_of_streams O.ByteSink E.ByteSink self.old self.new result) }
    {
        program.tell_out_of_memory(&mut self.out, &mut self.err)
    }

    /// Shows a text on standard output, which is flushed after it, and nothing else.
    pub fn deliver(&mut self, program: &Program, text: &str, status: u8) -> u8
        requires out { O.failed self.old.out ≡ false }
        requires err { E.failed self.old.err ≡ false }
        ensures { Shows program.now (output_row text.now status)
            (end_of_streams O.ByteSink E.ByteSink self.old self.new result) }
    {
        program.deliver(&mut self.out, &mut self.err, text, status)
    }
}
