//! The print, written.
ghost use Rattle.std.specs.Prelude.{◌≡◌, ◌<◌, ◌≤◌, ◌+◌, ◌-◌, ◌^◌, ◌++◌, IsTrue, false, length, take, drop, replicate, is_err, IfErr, IfSome, OnOk};
ghost use Rattle.std.specs.Io.KnownBytes.{Appends};
ghost use Rattle.hcl_layout.specs.Inner.Left.{bytes_of};
ghost use Rattle.hcl_layout.specs.Inner.Out.{BeginsWith, Fails, FailsBefore, Finishes, Keeps, Lies, Pushes, buffered_bytes, passed_count, stretch_len, stretch_text};
ghost use Rattle.hcl_layout.specs.Inner.Simple.{IsFrom};
ghost use Rattle.hcl_layout.specs.Print.{print};

use crate::buffer::{Buffer, Stretch};
use crate::lines::{Columns, Lines, Piece};
use crate::measured::Measured;
use crate::print::stays_in_place;
use hcl_grammar::Accepted;
use hcl_tokens::{ByteSink, WriteFault, write_fully};

/// Writes a block over another. As arrays the two are known not to overlap; a copy of slices would test it.
fn push_block(room: &mut [u8], block: &[u8; 32])
    requires { length room.old ≡ 32 }
    ensures len { length room.new ≡ length room.old }
    ensures after { room.new ≡ block.now }
{
    let Some(place) = room.as_mut_array::<32>() else {
        return;
    };
    *place = *block;
}

/// The block of the source that begins with a short stretch, if the source is long enough.
fn block_at(source: &[u8], stretch: Stretch) -> Option<&[u8; 32]>
    requires lies { Lies source.now stretch }
    requires short { stretch.end ≤ stretch.start + 32 }
    ensures { IfSome result (λ b. BeginsWith source.now stretch b.now) }
{
    let (_, rest) = source.split_at(stretch.start);
    let Some(block) = rest.first_chunk::<32>() else {
        return None;
    };
    Some(block)
}

impl Buffer {
    fn new() -> Self
        ensures len { result.len ≡ 0 }
        ensures sent { result.sent ≡ 0 }
    {
        Buffer {
            bytes: [0; 8192],
            len: 0,
            sent: 0,
        }
    }

    /// Appends bytes for which there is room.
    fn hold(&mut self, text: &[u8])
        requires { self.old.len + length text.now ≤ 8192 }
        ensures buffered { buffered_bytes self.new ≡ buffered_bytes self.old ++ text.now }
        ensures len { self.new.len ≡ self.old.len + length text.now }
        ensures sent { self.new.sent ≡ self.old.sent }
    {
        let end = self.len + text.len();
        self.bytes[self.len..end].copy_from_slice(text);
        self.len = end;
    }

    /// Appends a number of spaces, for which there is room.
    fn hold_blanks(&mut self, count: usize)
        requires { self.old.len + count ≤ 8192 }
        ensures buffered { buffered_bytes self.new ≡ buffered_bytes self.old ++ replicate count 32 }
        ensures len { self.new.len ≡ self.old.len + count }
        ensures sent { self.new.sent ≡ self.old.sent }
    {
        let end = self.len + count;
        self.bytes[self.len..end].fill(b' ');
        self.len = end;
    }

    /// Appends a number of spaces: writes a block of spaces and keeps only that part of it.
    fn hold_few_blanks(&mut self, count: usize)
        requires few { count ≤ 16 }
        requires room { self.old.len + 16 ≤ 8192 }
        ensures buffered { buffered_bytes self.new ≡ buffered_bytes self.old ++ replicate count 32 }
        ensures len { self.new.len ≡ self.old.len + count }
        ensures sent { self.new.sent ≡ self.old.sent }
    {
        let at = self.len;
        self.bytes[at..at + 16].fill(b' ');
        self.len = at + count;
    }

    /// Appends a number of bytes of a block: writes the block and keeps only that part of it.
    fn hold_front(&mut self, block: &[u8; 32], count: usize)
        requires few { count ≤ 32 }
        requires room { self.old.len + 32 ≤ 8192 }
        ensures buffered { buffered_bytes self.new
            ≡ buffered_bytes self.old ++ take count block.now }
        ensures len { self.new.len ≡ self.old.len + count }
        ensures sent { self.new.sent ≡ self.old.sent }
    {
        let at = self.len;
        push_block(&mut self.bytes[at..at + 32], block);
        self.len = at + count;
    }

    /// Whether a stretch of the source is short, and there is room for the blocks that write it.
    fn has_room(&self, stretch: Stretch) -> bool
        requires order { stretch.start ≤ stretch.end }
        ensures gap { IsTrue result → stretch.gap ≤ 16 }
        ensures short { IsTrue result → stretch.end ≤ stretch.start + 32 }
        ensures room { IsTrue result → self.now.len + 48 ≤ 8192 }
    {
        stretch.gap <= 16 && stretch.end - stretch.start <= 32 && self.len <= 8192 - 48
    }
}

/// Writes the waiting bytes.
fn send<W: ByteSink>(to: &mut W, buffer: &mut Buffer) -> Result<(), WriteFault>
    requires fresh { W.failed to.old ≡ false }
    requires room { buffer.old.sent < 2 ^ 63 }
    ensures ok { OnOk result (Keeps (W.taken to.old) (W.taken to.new) buffer.old buffer.new) }
    ensures err { IfErr result (FailsBefore (W.taken to.old) (W.taken to.new) buffer.old) }
    ensures failed { W.failed to.new ≡ is_err result }
    ensures flushes { W.flushes to.new ≡ W.flushes to.old }
    ensures empty { OnOk result (buffer.new.len ≡ 0) }
    ensures sent { OnOk result (buffer.new.sent ≡ buffer.old.sent + buffer.old.len) }
{
    if let Err(fault) = write_fully(to, &buffer.bytes[..buffer.len]) {
        return Err(WriteFault {
            written: buffer.sent + fault.written,
        });
    }
    buffer.sent += buffer.len as u64;
    buffer.len = 0;
    Ok(())
}

/// Writes bytes that don't fit into the buffer, which is empty.
fn send_past<W: ByteSink>(to: &mut W, buffer: &mut Buffer, text: &[u8]) -> Result<(), WriteFault>
    requires fresh { W.failed to.old ≡ false }
    requires empty { buffer.old.len ≡ 0 }
    requires room { buffer.old.sent + length text.now < 2 ^ 63 }
    ensures ok { OnOk result
        (Pushes (W.taken to.old) (W.taken to.new) buffer.old buffer.new text.now) }
    ensures err { IfErr result (Fails (W.taken to.old) (W.taken to.new) buffer.old text.now) }
    ensures failed { W.failed to.new ≡ is_err result }
    ensures flushes { W.flushes to.new ≡ W.flushes to.old }
    ensures count { OnOk result (passed_count buffer.new
        ≡ passed_count buffer.old + length text.now) }
{
    if let Err(fault) = write_fully(to, text) {
        return Err(WriteFault {
            written: buffer.sent + fault.written,
        });
    }
    buffer.sent += text.len() as u64;
    Ok(())
}

/// Writes bytes after those before, or lets them wait in the buffer.
#[inline(always)]
fn push<W: ByteSink>(to: &mut W, buffer: &mut Buffer, text: &[u8]) -> Result<(), WriteFault>
    requires fresh { W.failed to.old ≡ false }
    requires room { passed_count buffer.old + length text.now < 2 ^ 63 }
    ensures ok { OnOk result
        (Pushes (W.taken to.old) (W.taken to.new) buffer.old buffer.new text.now) }
    ensures err { IfErr result (Fails (W.taken to.old) (W.taken to.new) buffer.old text.now) }
    ensures failed { W.failed to.new ≡ is_err result }
    ensures flushes { W.flushes to.new ≡ W.flushes to.old }
    ensures count { OnOk result (passed_count buffer.new
        ≡ passed_count buffer.old + length text.now) }
{
    if text.len() <= 8192 - buffer.len {
        buffer.hold(text);
        return Ok(());
    }
    if let Err(fault) = send(to, buffer) {
        return Err(fault);
    }
    if text.len() <= 8192 {
        buffer.hold(text);
        return Ok(());
    }
    send_past(to, buffer, text)
}

/// Writes a number of spaces.
fn push_blanks<W: ByteSink>(to: &mut W, buffer: &mut Buffer, gap: u64) -> Result<(), WriteFault>
    requires fresh { W.failed to.old ≡ false }
    requires room { passed_count buffer.old + gap < 2 ^ 63 }
    ensures ok { OnOk result
        (Pushes (W.taken to.old) (W.taken to.new) buffer.old buffer.new (replicate gap 32)) }
    ensures err { IfErr result
        (Fails (W.taken to.old) (W.taken to.new) buffer.old (replicate gap 32)) }
    ensures failed { W.failed to.new ≡ is_err result }
    ensures flushes { W.flushes to.new ≡ W.flushes to.old }
    ensures count { OnOk result (passed_count buffer.new ≡ passed_count buffer.old + gap) }
{
    // a single blank is appended quicker by itself
    if gap > 1 && gap <= 8192 - buffer.len as u64 {
        buffer.hold_blanks(gap as usize);
        return Ok(());
    }
    if gap > 1 && gap <= 8192 {
        if let Err(fault) = send(to, buffer) {
            return Err(fault);
        }
        buffer.hold_blanks(gap as usize);
        return Ok(());
    }
    for _ in 0..gap {
        if let Err(fault) = push(to, buffer, b" ") {
            return Err(fault);
        }
    }
    Ok(())
}

/// Writes a text, with a number of spaces before it.
#[cold]
fn push_text<W: ByteSink>(
    to: &mut W,
    buffer: &mut Buffer,
    gap: u64,
    text: &[u8],
) -> Result<(), WriteFault>
    requires fresh { W.failed to.old ≡ false }
    requires room { passed_count buffer.old + gap + length text.now < 2 ^ 63 }
    ensures ok { OnOk result
        (Pushes (W.taken to.old) (W.taken to.new) buffer.old buffer.new
        (replicate gap 32 ++ text.now)) }
    ensures err { IfErr result
        (Fails (W.taken to.old) (W.taken to.new) buffer.old (replicate gap 32 ++ text.now)) }
    ensures failed { W.failed to.new ≡ is_err result }
    ensures flushes { W.flushes to.new ≡ W.flushes to.old }
    ensures count { OnOk result (passed_count buffer.new
        ≡ passed_count buffer.old + gap + length text.now) }
{
    if let Err(fault) = push_blanks(to, buffer, gap) {
        return Err(fault);
    }
    push(to, buffer, text)
}

/// Writes a stretch of the source. Most are a few bytes: blocks of a fixed length are written quicker than so few
/// bytes, and the surplus is overwritten by the next ones.
#[inline(always)]
fn push_stretch<W: ByteSink>(
    to: &mut W,
    buffer: &mut Buffer,
    source: &[u8],
    stretch: Stretch,
) -> Result<(), WriteFault>
    requires fresh { W.failed to.old ≡ false }
    requires lies { Lies source.now stretch }
    requires room { passed_count buffer.old + stretch_len stretch < 2 ^ 63 }
    ensures ok { OnOk result
        (Pushes (W.taken to.old) (W.taken to.new) buffer.old buffer.new
        (stretch_text source.now stretch)) }
    ensures err { IfErr result
        (Fails (W.taken to.old) (W.taken to.new) buffer.old (stretch_text source.now stretch)) }
    ensures failed { W.failed to.new ≡ is_err result }
    ensures flushes { W.flushes to.new ≡ W.flushes to.old }
    ensures count { OnOk result (passed_count buffer.new
        ≡ passed_count buffer.old + stretch_len stretch) }
{
    let (start, end) = (stretch.start, stretch.end);
    if !buffer.has_room(stretch) {
        return push_text(to, buffer, stretch.gap, &source[start..end]);
    }
    let Some(block) = block_at(source, stretch) else {
        return push_text(to, buffer, stretch.gap, &source[start..end]);
    };
    buffer.hold_few_blanks(stretch.gap as usize);
    buffer.hold_front(block, end - start);
    Ok(())
}

/// Writes the last stretch, and all waiting bytes.
fn finish<W: ByteSink>(
    to: &mut W,
    buffer: &mut Buffer,
    source: &[u8],
    stretch: Stretch,
) -> Result<(), WriteFault>
    requires fresh { W.failed to.old ≡ false }
    requires lies { Lies source.now stretch }
    requires room { passed_count buffer.old + stretch_len stretch < 2 ^ 62 }
    ensures ok { OnOk result
        (Finishes (W.taken to.old) (W.taken to.new) buffer.old (stretch_text source.now stretch)) }
    ensures err { IfErr result
        (Fails (W.taken to.old) (W.taken to.new) buffer.old (stretch_text source.now stretch)) }
    ensures failed { W.failed to.new ≡ is_err result }
    ensures flushes { W.flushes to.new ≡ W.flushes to.old }
{
    if let Err(fault) = push_stretch(to, buffer, source, stretch) {
        return Err(fault);
    }
    send(to, buffer)
}

/// A piece by itself.
fn stretch_of(source: &[u8], piece: Piece<'_>) -> Stretch
    requires source { IsFrom source.now piece.token.start piece.token.text.now }
    ensures same { stretch_text source.now result ≡ bytes_of piece.entry }
    ensures lies { Lies source.now result }
    ensures gap { result.gap ≡ piece.entry.gap }
    ensures end { result.end ≡ piece.entry.token.start + length piece.entry.token.text.now }
    ensures len { result.end ≡ result.start + length piece.entry.token.text.now }
{
    Stretch {
        gap: piece.gap,
        start: piece.token.start,
        end: piece.token.start + piece.token.text.len(),
    }
}

/// Writes the print of accepted tokens to a sink that hasn't failed, in pieces of some KiB. A fault has the number of
/// bytes that went out: a front of the print. Nothing is flushed.
#[inline(never)]
pub fn emit<W: ByteSink>(accepted: &Accepted<'_, '_>, to: &mut W) -> Result<(), WriteFault>
    requires { W.failed to.old ≡ false }
    ensures ok { OnOk result
        (Appends (W.taken to.old) (W.taken to.new) (print accepted.now.tokens)) }
    ensures err { IfErr result
        (λ fault. Appends (W.taken to.old) (W.taken to.new)
        (take fault.written (print accepted.now.tokens))) }
    ensures written { IfErr result (λ fault. fault.written < length (print accepted.now.tokens)) }
    ensures failed { W.failed to.new ≡ is_err result }
    ensures flushes { W.flushes to.new ≡ W.flushes to.old }
{
    let tokens = Measured::new(accepted);
    let source = tokens.source();
    let mut lines = Lines::new(Columns::Ahead);
    let mut buffer = Buffer::new();
    let mut waiting = Stretch {
        gap: 0,
        start: 0,
        end: 0,
    };
    while let Some(line) = lines.next(&tokens) {
        let mut stop = line.first;
        for number in line.first..line.end {
            let (piece, next) = line.piece(&tokens, number, stop);
            stop = next;
            let alone = stretch_of(source, piece);
            if stays_in_place(source, waiting.end, piece) {
                waiting.end = alone.end;
                continue;
            }
            if let Err(fault) = push_stretch(to, &mut buffer, source, waiting) {
                return Err(fault);
            }
            waiting = alone;
        }
    }
    finish(to, &mut buffer, source, waiting)
}
