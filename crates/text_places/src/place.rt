//! Places, and the walk that finds them.

ghost use Rattle.std.specs.Prelude.{◌≡◌, ◌≤◌, ◌<◌, ◌+◌, ◌^◌, length};
ghost use Rattle.text_places.specs.Places.{place_after, units_of, walk_start, walk_step, walk_to};

/// How characters are counted: in bytes of UTF-8, or in code units of UTF-16.
#[derive(Clone, Copy)]
pub enum Units {
    Bytes,
    Utf16,
}

/// A line and a character of it, from 0 on.
#[derive(Clone, Copy, PartialEq, Eq)]
pub struct Place {
    pub line: usize,
    pub character: usize,
}

/// A walk through a text from its front: how far it has come, the place there, and whether the last byte was a CR.
#[derive(Clone, Copy)]
pub struct Walk {
    pub offset: usize,
    pub line: usize,
    pub character: usize,
    pub after_cr: bool,
}

/// How many units the character has that begins with this byte. A byte within a character has none.
pub(crate) fn units_of(units: Units, byte: u8) -> usize
    ensures is { result ≡ units_of units byte }
    ensures small { result ≤ 2 }
{
    match units {
        Units::Bytes => 1,
        Units::Utf16 => utf16_units(byte),
    }
}

fn utf16_units(byte: u8) -> usize
    ensures is { result ≡ units_of Units.Utf16 byte }
    ensures small { result ≤ 2 }
{
    if byte < 0x80 {
        return 1;
    }
    if byte < 0xC0 {
        return 0;
    }
    if byte < 0xF0 {
        return 1;
    }
    2
}

impl Walk {
    /// The walk that has not begun.
    pub fn start() -> Walk
        ensures { result ≡ walk_start }
    {
        Walk {
            offset: 0,
            line: 0,
            character: 0,
            after_cr: false,
        }
    }

    /// The place that the walk has reached.
    pub fn place(self) -> Place
        ensures { result ≡ place_after self }
    {
        Place {
            line: self.line,
            character: self.character,
        }
    }

    /// The walk over one more byte.
    pub(crate) fn step(self, units: Units, byte: u8) -> Walk
        requires offset { self.offset + 1 < 2 ^ 64 }
        requires line { self.line + 1 < 2 ^ 64 }
        requires character { self.character + 2 < 2 ^ 64 }
        ensures { result ≡ walk_step units self byte }
    {
        let offset = self.offset + 1;
        if byte == b'\n' {
            return Walk {
                offset,
                line: if self.after_cr {
                    self.line
                } else {
                    self.line + 1
                },
                character: 0,
                after_cr: false,
            };
        }
        if byte == b'\r' {
            return Walk {
                offset,
                line: self.line + 1,
                character: 0,
                after_cr: true,
            };
        }
        Walk {
            offset,
            line: self.line,
            character: self.character + units_of(units, byte),
            after_cr: false,
        }
    }

    /// The walk through the same text up to a later offset.
    pub fn go_on(self, units: Units, text: &[u8], to: usize) -> Walk
        requires walk { self ≡ walk_to units text.now self.offset }
        requires order { self.offset ≤ to }
        requires within { to ≤ length text.now }
        requires small { length text.now < 2 ^ 32 }
        ensures walk { result ≡ walk_to units text.now to }
        ensures offset { result.offset ≡ to }
    {
        let mut walk = self;
        for at in self.offset..to {
            walk = walk.step(units, text[at]);
        }
        walk
    }
}
