//! How a run ends.

ghost use Rattle.std.specs.Prelude.{◌≡◌};
ghost use Rattle.tfls_command.specs.Endings.{ending_message, ending_status};

/// How a run ends.
#[derive(Clone, Copy)]
pub enum Ending {
    /// A message asked for the end, with this status.
    Exit(u8),
    /// The input ended before that, perhaps within a message.
    InputEnded,
    /// What follows in the input is no message.
    Malformed,
    ReadFailed,
    WriteFailed,
    OutOfMemory,
}

impl Ending {
    /// The message about it on standard error.
    pub fn message(self) -> &'static str
        ensures { result.now ≡ ending_message self }
    {
        match self {
            Ending::Exit(_) => "",
            Ending::InputEnded => "tfls: error: input ended without exit\n",
            Ending::Malformed => "tfls: error: malformed message\n",
            Ending::ReadFailed => "tfls: error: read failed\n",
            Ending::WriteFailed => "tfls: error: write failed\n",
            Ending::OutOfMemory => "tfls: error: out of memory\n",
        }
    }

    /// The exit status.
    pub fn status(self) -> u8
        ensures { result ≡ ending_status self }
    {
        match self {
            Ending::Exit(status) => status,
            _ => 1,
        }
    }
}
