//! The bytes that wait to be written.
ghost use Rattle.std.specs.Prelude.{◌≤◌};

/// The bytes that wait to be written: the first `len` of the array. `sent` counts those written before.
#[derive(Drop)]
pub struct Buffer {
    pub bytes: [u8; 8192],
    pub len: usize,
    pub sent: u64,
    ghost within: { len ≤ 8192 },
}

/// A stretch of the source that is printed unchanged: the bytes from `start` to `end`, with a number of blanks before
/// them.
#[derive(Clone, Copy)]
pub struct Stretch {
    pub gap: u64,
    pub start: usize,
    pub end: usize,
}
