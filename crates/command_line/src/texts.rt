//! A program's own messages, which need no memory.

ghost use Rattle.std.specs.Prelude.{◌≡◌};
ghost use Rattle.command_line.specs.Rows.{write_failed, out_of_memory};

use std::marker::Model;

/// A program, for its messages: its name, its status if a device failed or memory ran out, and the two lines for these
/// cases, which exist beforehand.
#[derive(Drop)]
pub struct Program {
    name: &'static str,
    failure: u8,
    failed_write: &'static str,
    no_memory: &'static str,
}

impl Model for Program {
    ghost use Rattle.std.specs.Prelude.{◌≡◌};
    ghost use Rattle.command_line.specs.Rows as rows;

    ghost Value = { rows.Program };

    ghost view = { λ p. record { name = p.name.now; failure = p.failure } };

    ghost invariant = { λ p. (p.failed_write.now
        ≡ rows.write_failed (record { name = p.name.now; failure = p.failure }))
        × (p.no_memory.now ≡ (rows.out_of_memory
        (record { name = p.name.now; failure = p.failure })).err) };
}

impl Program {
    /// The program of this name and status, with its two lines.
    pub fn new(
        name: &'static str,
        failure: u8,
        failed_write: &'static str,
        no_memory: &'static str,
    ) -> Program
        requires failed_write { failed_write.now
            ≡ write_failed (record { name = name.now; failure = failure }) }
        requires no_memory { no_memory.now
            ≡ (out_of_memory (record { name = name.now; failure = failure })).err }
        ensures { result ≡ record { name = name.entry.now; failure = failure } }
    {
        Program {
            name,
            failure,
            failed_write,
            no_memory,
        }
    }

    /// The name in its messages.
    pub fn name(&self) -> &'static str
        ensures { result.now ≡ self.now.name }
    {
        self.name
    }

    /// Its status if a device failed or memory ran out.
    pub fn failure(&self) -> u8
        ensures { result ≡ self.now.failure }
    {
        self.failure
    }

    /// Its line for a failed write.
    pub(crate) fn write_failed(&self) -> &'static str
        ensures { result.now ≡ write_failed self.now }
    {
        let _ = &self.name;
        self.failed_write
    }

    /// Its line for running out of memory.
    pub(crate) fn out_of_memory(&self) -> &'static str
        ensures { result.now ≡ (out_of_memory self.now).err }
    {
        let _ = &self.name;
        self.no_memory
    }
}
