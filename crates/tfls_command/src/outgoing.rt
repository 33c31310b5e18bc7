//! Messages that go out.

ghost use Rattle.std.specs.Prelude.{◌≡◌, false, true, is_err, OnOk};
ghost use Rattle.command_line.specs.Rows.{Took, writer};
ghost use Rattle.tfls_command.specs.Frames.{frame};

use command_line::write_parts;
use hcl_source::{ByteSink, Failed};
use itoa::Buffer;

/// Writes the parts of a frame.
fn write_message<W: ByteSink>(sink: &mut W, body: &[u8]) -> Result<(), Failed>
    requires { W.failed sink.old ≡ false }
    ensures took { Took (writer W.ByteSink sink.old sink.new) (frame body.now) }
    ensures failed { W.failed sink.new ≡ is_err result }
{
    let mut length = Buffer::new();
    let length = length.format(body.len()).as_bytes();
    write_parts(sink, &[b"Content-Length: ", length, b"\r\n\r\n", body])
}

/// Writes a message with this body and flushes it. It needs no memory.
pub fn write_frame<W: ByteSink>(sink: &mut W, body: &[u8]) -> Result<(), Failed>
    requires { W.failed sink.old ≡ false }
    ensures took { Took (writer W.ByteSink sink.old sink.new) (frame body.now) }
    ensures failed { W.failed sink.new ≡ is_err result }
    ensures flushed { OnOk result (W.flushed sink.new ≡ true) }
{
    if write_message(sink, body).is_err() {
        return Err(Failed);
    }
    sink.flush()
}
