//! The whole program over any devices.

ghost use Rattle.std.specs.Prelude.{◌≡◌, false, map};
ghost use Rattle.command_line.specs.Rows.{Shows, Took, end_of, message_row, writer};
ghost use Rattle.tfls_command.specs.Answer.{IsAnswer, IsRun, server, usage_line};
ghost use Rattle.tfls_command.specs.Endings.{ending_message, ending_status};

use crate::ending::Ending;
use crate::host::Host;
use crate::options::{Usage, request};
use crate::serve::serve;
use command_line::Program;
use hcl_source::{ByteSink, ByteSource, write_fully};
use open_files::Disk;
use std::alloc::Global;

static USAGE: &str = "usage: tfls [--stdio] [--help]\n";

/// This program in its messages.
fn server() -> Program
    ensures { result ≡ server }
{
    Program::new(
        "tfls",
        1,
        "tfls: error: write failed\n",
        "tfls: error: out of memory\n",
    )
}

/// Says how a run ended, if there is something to say, and returns the status.
fn finish<E: ByteSink>(ending: Ending, err: &mut E) -> u8
    requires { E.failed err.old ≡ false }
    ensures took { Took (writer E.ByteSink err.old err.new) (ending_message ending) }
    ensures status { result ≡ ending_status ending }
{
    let _ = write_fully(err, ending.message().as_bytes());
    ending.status()
}

/// Answers an editor, and says how the run ended.
fn run<D: Disk + Drop, I: ByteSource, O: ByteSink, E: ByteSink>(
    alloc: Global,
    host: &Host<D>,
    input: &mut I,
    out: &mut O,
    err: &mut E,
) -> u8
    requires input { I.failed input.old ≡ false }
    requires out { O.failed out.old ≡ false }
    requires err { E.failed err.old ≡ false }
    ensures { IsRun (D.files host.now.disk) (I.left input.old) (I.left input.new)
        (I.failed input.new) (end_of O.ByteSink out.old out.new E.ByteSink err.old err.new result) }
{
    let ending = serve(alloc, host, input, out);
    finish(ending, err)
}

/// Prints the usage line. It reads nothing.
pub fn bad_line<O: ByteSink, E: ByteSink>(out: &mut O, err: &mut E) -> u8
    requires out { O.failed out.old ≡ false }
    requires err { E.failed err.old ≡ false }
    ensures { Shows server (message_row usage_line 2)
        (end_of O.ByteSink out.old out.new E.ByteSink err.old err.new result) }
{
    server().tell(out, err, USAGE, 2)
}

/// The whole program over any devices: reads the words, with the program's name first, and then answers an editor, and
/// returns the exit status.
pub fn program<D: Disk + Drop, I: ByteSource, O: ByteSink, E: ByteSink>(
    alloc: Global,
    host: &Host<D>,
    words: &[&str],
    input: &mut I,
    out: &mut O,
    err: &mut E,
) -> u8
    requires input { I.failed input.old ≡ false }
    requires out { O.failed out.old ≡ false }
    requires err { E.failed err.old ≡ false }
    ensures { IsAnswer (D.files host.now.disk) (map (λ word. word.now) words.now)
        (I.left input.old) (I.left input.new) (I.failed input.new)
        (end_of O.ByteSink out.old out.new E.ByteSink err.old err.new result) }
{
    match request(alloc, words) {
        Ok(()) => run(alloc, host, input, out, err),
        Err(Usage::Help) => server().deliver(out, err, USAGE, 0),
        Err(Usage::BadLine) => bad_line(out, err),
        Err(Usage::OutOfMemory) => server().tell_out_of_memory(out, err),
    }
}
