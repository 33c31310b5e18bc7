//! Texts made of fragments.

ghost use Rattle.std.specs.Prelude.{◌≤◌};

use crate::draw::Draw;
use std::alloc::{AllocError, Global};

/// A fragment, as the texts between its numbers.
#[derive(Drop)]
pub struct Fragment {
    parts: Vec<&'static str>,
}

/// A kind of text: the fragments that it is made of.
#[derive(Drop)]
pub struct Shape {
    fragments: Vec<Fragment>,
}

fn fragment_of(alloc: Global, text: &'static str) -> Result<Fragment, AllocError> {
    let mut parts = Vec::new(alloc);
    for part in text.split('@') {
        parts.push(part)?;
    }
    Ok(Fragment { parts })
}

impl Shape {
    pub fn new(alloc: Global, texts: &[&'static str]) -> Result<Shape, AllocError> {
        let mut fragments = Vec::new(alloc);
        for text in texts {
            fragments.push(fragment_of(alloc, text)?)?;
        }
        Ok(Shape { fragments })
    }
}

/// The least number of seven digits.
const FIRST: u32 = 1_000_000;

/// The last seven digits of a number; the first isn't 0.
fn digits_of(number: u32) -> [u8; 7] {
    let mut left = FIRST + number % (9 * FIRST);
    let mut digits = [b'0'; 7];
    for place in 0..7 {
        digits[6 - place] = b'0' + (left % 10) as u8;
        left /= 10;
    }
    digits
}

/// Adds a fragment with this number.
fn add_fragment(text: &mut Vec<u8>, fragment: &Fragment, number: u32) -> Result<(), AllocError> {
    let digits = digits_of(number);
    let mut is_after = false;
    for part in fragment.parts.as_slice() {
        if is_after {
            text.extend_from_slice(&digits)?;
        }
        text.extend_from_slice(part.as_bytes())?;
        is_after = true;
    }
    Ok(())
}

/// A generator of texts, with numbers that all differ.
#[derive(Clone, Copy)]
pub struct Maker {
    draw: Draw,
    number: u32,
}

impl Maker {
    pub fn new(seed: u64) -> Maker {
        let mut draw = Draw::new(seed);
        let number = draw.below(1_000_000_000) as u32;
        Maker { draw, number }
    }

    /// A number below a bound.
    pub fn below(&mut self, bound: usize) -> usize
        ensures { result ≤ bound }
    {
        self.draw.below(bound)
    }

    /// Appends fragments of a shape until the text has at least this many bytes.
    pub fn add(
        &mut self,
        text: &mut Vec<u8>,
        shape: &Shape,
        size: usize,
    ) -> Result<(), AllocError> {
        for _ in 0..u64::MAX {
            if text.len() >= size {
                return Ok(());
            }
            let Some(fragment) = self.draw.one_of(shape.fragments.as_slice()) else {
                return Ok(());
            };
            add_fragment(text, fragment, self.number)?;
            self.number = self.number.wrapping_add(1);
        }
        Ok(())
    }

    /// A text of fragments of a shape, of at least this many bytes.
    pub fn text(
        &mut self,
        alloc: Global,
        shape: &Shape,
        size: usize,
    ) -> Result<Vec<u8>, AllocError> {
        let mut text = Vec::with_capacity(alloc, size)?;
        self.add(&mut text, shape, size)?;
        Ok(text)
    }
}
