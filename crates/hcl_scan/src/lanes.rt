//! Many bytes at a time, as the lanes of a vector.
//!
//! A marker `AB` may be after a place if all of these hold (`_` is a blank):
//!
//! ```text
//! \n A  B  C \n  _  A  B \n  x
//!  x  .  .  .  x  x  .  .  x  .    a byte up to a blank stands there
//!  x  .  .  .  .  x  .  .  .  .    and after it the marker's first byte
//!  x  .  .  .  .  x  .  .  .  .    and its last one where the marker would end
//!  .  .  .  .  .  x  .  .  .  .    and then a byte up to a blank
//! ```

ghost use Rattle.std.specs.Prelude.{◌≡◌, ◌≢◌, ◌==◌, ℕ, ◌+◌, ◌<◌, ◌≤◌, length};
ghost use Rattle.std.specs.Int.{bit_at};
ghost use Rattle.std.specs.List.{position_or_len, prefix_len};
ghost use Rattle.hcl_scan.specs.Inner.Found.{is_ordinary};
ghost use Rattle.hcl_scan.specs.Inner.Lanes.{first_set, MarksLikely};

use std::simd::prelude::*;

/// How many bytes of a run one step reads.
pub(crate) const LANES: usize = 16;

/// How many places for a marker one step tests.
pub(crate) const PLACES: usize = 32;

/// The lane of the lowest bit that is set, or the number of lanes.
#[inline(always)]
fn first_set(mask: u64) -> usize
    ensures { result ≡ first_set mask LANES }
{
    if mask == 0 {
        LANES
    } else {
        mask.trailing_zeros() as usize
    }
}

/// How many bytes are before the first LF, within the lanes.
#[inline(always)]
pub(crate) fn line_run(seen: &[u8]) -> usize
    requires { length seen.now ≡ LANES }
    ensures count { result ≡ position_or_len (λ b. b == 10) seen.now }
    ensures within { result ≤ LANES }
{
    let v = u8x16::from_slice(seen);
    first_set(v.simd_eq(u8x16::splat(b'\n')).to_bitmask())
}

/// How many bytes at the front are each an element of literal text by itself, within the lanes.
#[inline(always)]
pub(crate) fn ordinary_run(seen: &[u8]) -> usize
    requires { length seen.now ≡ LANES }
    ensures count { result ≡ prefix_len is_ordinary seen.now }
    ensures within { result ≤ LANES }
{
    let v = u8x16::from_slice(seen);
    let special = v.simd_eq(u8x16::splat(b'\n'))
        | v.simd_eq(u8x16::splat(b'\r'))
        | v.simd_eq(u8x16::splat(b'"'))
        | v.simd_eq(u8x16::splat(b'$'))
        | v.simd_eq(u8x16::splat(b'%'))
        | v.simd_eq(u8x16::splat(b'\\'));
    first_set(special.to_bitmask())
}

/// The lowest bit that is set.
#[inline(always)]
pub(crate) fn lowest_bit(mask: u64) -> usize
    requires { mask ≢ 0 }
    ensures set { bit_at mask result ≡ 1 }
    ensures below { (k : ℕ) → k < result → bit_at mask k ≡ 0 }
    ensures bound { result < 64 }
{
    mask.trailing_zeros() as usize
}

/// The mask without one of its bits.
#[inline(always)]
pub(crate) fn clear_bit(mask: u64, bit: usize) -> u64
    requires bound { bit < 64 }
    requires set { bit_at mask bit ≡ 1 }
    ensures smaller { result < mask }
    ensures kept { (k : ℕ) → k < 64 → k ≢ bit → bit_at result k ≡ bit_at mask k }
    ensures no_more { (k : ℕ) → bit_at result k ≡ 1 → bit_at mask k ≡ 1 }
{
    mask & !(1 << bit)
}

/// The places among the next ones after which a marker line's marker may be. Before it is a blank or an LF, and after
/// it a blank, an LF, a CR or nothing: none of these is above a blank.
#[inline(always)]
pub(crate) fn likely_places(text: &[u8], at: usize, marker: &[u8]) -> u64
    requires some { 0 < length marker.now }
    requires room { at + PLACES + length marker.now < length text.now }
    ensures { MarksLikely text.now marker.now at result }
{
    let len = marker.len();
    let blank = u8x32::splat(b' ');
    let first = u8x32::splat(marker[0]);
    let last = u8x32::splat(marker[len - 1]);
    let before = u8x32::from_slice(&text[at..]).simd_le(blank);
    let front = u8x32::from_slice(&text[at + 1..]).simd_eq(first);
    let back = u8x32::from_slice(&text[at + len..]).simd_eq(last);
    let after = u8x32::from_slice(&text[at + len + 1..]).simd_le(blank);
    // next to each other, the two tests of blanks are one of the larger bytes
    (before & after & front & back).to_bitmask()
}
