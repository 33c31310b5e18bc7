//! The number of LFs in a text.

ghost use Rattle.std.specs.Prelude.{◌≡◌, ◌≤◌, ◌==◌, length, count_by};

/// How many bytes are counted at a time: a multiple of a processor's comparison width, and so few that a byte holds the
/// count.
const BLOCK: usize = 240;

/// How many lines end in a block. Its count is a byte, so that the compiler adds many at a time.
#[inline(always)]
fn block_line_ends(bytes: &[u8]) -> u8
    requires { length bytes.now ≤ BLOCK }
    ensures { result ≡ count_by (λ b. b == 10) bytes.now }
{
    let mut count = 0;
    for byte in bytes {
        if *byte == b'\n' {
            count += 1;
        }
    }
    count
}

/// How many lines end in a text, block by block.
pub fn line_ends(bytes: &[u8]) -> usize
    ensures count { result ≡ count_by (λ b. b == 10) bytes.now }
    ensures within { result ≤ length bytes.now }
{
    let mut count = 0;
    let mut from = 0;
    while bytes.len() - from > BLOCK {
        let block = block_line_ends(&bytes[from..from + BLOCK]);
        count += block as usize;
        from += BLOCK;
    }
    let rest = block_line_ends(&bytes[from..]);
    count + rest as usize
}
