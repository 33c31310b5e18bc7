//! The places of many offsets of one text.

ghost use Rattle.std.specs.Prelude.{◌≡◌, ◌≤◌, ◌<◌, ◌+◌, ◌/◌, ◌^◌, IfOk, length, vec_len};
ghost use Rattle.text_places.specs.Places.{place_at};
ghost use Rattle.text_places.specs.Inner.Indexes.{AreWalks};

use crate::place::{Place, Units, Walk};
use std::alloc::{AllocError, Global};
use std::marker::Model;

/// How many bytes there are for each walk that is stored: a place takes at most as many steps from the walk before it.
const STRIDE: usize = 64;

/// The walks through a text up to each multiple of `STRIDE`.
fn walks_of(alloc: Global, units: Units, text: &[u8]) -> Result<Vec<Walk>, AllocError>
    requires { length text.now < 2 ^ 32 }
    ensures walks { IfOk result (λ walks. AreWalks units text.now walks.items) }
    ensures count { IfOk result (λ walks. vec_len walks ≡ length text.now / 64 + 1) }
{
    let count = text.len() / STRIDE + 1;
    let mut walks = Vec::with_capacity(alloc, count)?;
    let mut walk = Walk::start();
    for number in 0..count {
        walk = walk.go_on(units, text, number * STRIDE);
        walks.push(walk)?;
    }
    Ok(walks)
}

/// The places of a text, each found in constant time.
#[derive(Drop)]
pub struct PlaceIndex<'t> {
    units: Units,
    text: &'t str,
    walks: Vec<Walk>,
}

impl<'t> Model for PlaceIndex<'t> {
    ghost use Rattle.std.specs.Prelude.{◌<◌, ◌/◌, ◌^◌, length, vec_len};
    ghost use Rattle.text_places.specs.Indexes.{IndexedText};
    ghost use Rattle.text_places.specs.Inner.Indexes.{AreWalks};

    ghost Value = { IndexedText };

    ghost view = { λ p. record { units = p.units; text = p.text.now } };

    ghost invariant = { λ p. AreWalks p.units p.text.now p.walks.items
        × (length p.text.now / 64 < vec_len p.walks) × (length p.text.now < 2 ^ 32) };
}

impl<'t> PlaceIndex<'t> {
    pub fn new(alloc: Global, units: Units, text: &'t str) -> Result<PlaceIndex<'t>, AllocError>
        requires { length text.now < 2 ^ 32 }
        ensures { IfOk result (λ p. p ≡ record { units = units; text = text.now }) }
    {
        Ok(PlaceIndex {
            units,
            text,
            walks: walks_of(alloc, units, text.as_bytes())?,
        })
    }

    /// The place of an offset.
    pub fn place(&self, offset: usize) -> Place
        requires { offset ≤ length self.now.text }
        ensures { result ≡ place_at self.now.units self.now.text offset }
    {
        let before = self.walks[offset / STRIDE];
        before
            .go_on(self.units, self.text.as_bytes(), offset)
            .place()
    }
}
