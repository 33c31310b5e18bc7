//! Texts that are written part by part, without memory.

ghost use Rattle.std.specs.Prelude.{◌≡◌, false, is_err, map};
ghost use Rattle.std.specs.List.{concat};
ghost use Rattle.command_line.specs.Rows.{Took, writer};

use hcl_source::{ByteSink, Failed, write_fully};

/// Writes the parts one after the other, up to the first write that fails. So a line needs no memory.
pub fn write_parts<S: ByteSink>(sink: &mut S, parts: &[&[u8]]) -> Result<(), Failed>
    requires { S.failed sink.old ≡ false }
    ensures took { Took (writer S.ByteSink sink.old sink.new)
        (concat (map (λ part. part.now) parts.now)) }
    ensures failed { S.failed sink.new ≡ is_err result }
{
    for part in parts {
        if let Err(_fault) = write_fully(sink, part) {
            return Err(Failed);
        }
    }
    Ok(())
}
