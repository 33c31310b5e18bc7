//! Files that are formatted, in turn.

use crate::digest::{Digest, DigestSink};
use crate::fragments::{CARRIAGE, DEEP, HEREDOCS, MESSY, PARTS, SCRIPTS, SHORT, SIGNS, TIDY};
use crate::made_text::MadeText;
use crate::texts::{Maker, Shape};
use std::alloc::{AllocError, Global};
use tffmt_command::run::program;

/// Formats a text, like the program.
fn format(alloc: Global, text: Vec<u8>, digest: &mut Digest) {
    let mut input = MadeText::new(text);
    let mut out = DigestSink::new(*digest);
    let mut err = DigestSink::new(Digest::new());
    let status = program(alloc, &["tffmt"], &mut input, &mut out, &mut err);
    *digest = out.digest();
    digest.add_status(status);
    digest.add_words(err.digest());
}

/// The sizes of files that people edit, and of a generated file, in bytes.
static SIZES: [usize; 16] = [
    1_000, 40_000, 4_000, 12_000, 2_000, 25_000, 7_000, 1_500, 350_000, 3_000, 9_000, 50_000,
    1_000_000, 5_000, 18_000, 600,
];

/// Formats files of fragments of a shape, of all sizes, a number of times.
fn format_sizes(
    alloc: Global,
    shape: &Shape,
    turns: u64,
    maker: &mut Maker,
    digest: &mut Digest,
) -> Result<(), AllocError> {
    for turn in 0..turns {
        for size in &SIZES {
            let text = maker.text(alloc, shape, *size)?;
            format(alloc, text, digest);
        }
        if turn % 8 == 0 {
            let text = maker.text(alloc, shape, 4_000_000)?;
            format(alloc, text, digest);
        }
    }
    Ok(())
}

/// Files that are in the style.
pub fn format_tidy(
    alloc: Global,
    turns: u64,
    maker: &mut Maker,
    digest: &mut Digest,
) -> Result<(), AllocError> {
    format_sizes(alloc, &Shape::new(alloc, TIDY)?, turns, maker, digest)
}

/// Files that aren't in the style.
pub fn format_messy(
    alloc: Global,
    turns: u64,
    maker: &mut Maker,
    digest: &mut Digest,
) -> Result<(), AllocError> {
    format_sizes(alloc, &Shape::new(alloc, MESSY)?, turns, maker, digest)
}

/// One long line.
fn format_line(
    alloc: Global,
    size: usize,
    maker: &mut Maker,
    digest: &mut Digest,
) -> Result<(), AllocError> {
    let shape = Shape::new(alloc, PARTS)?;
    let mut text = Vec::with_capacity(alloc, size)?;
    text.extend_from_slice(b"a=[")?;
    maker.add(&mut text, &shape, size)?;
    text.extend_from_slice(b"]\n")?;
    format(alloc, text, digest);
    Ok(())
}

/// Rare files of all kinds that take long.
pub fn format_awkward(
    alloc: Global,
    turns: u64,
    maker: &mut Maker,
    digest: &mut Digest,
) -> Result<(), AllocError> {
    for _ in 0..turns {
        for texts in [SIGNS, SHORT, SCRIPTS, CARRIAGE, HEREDOCS, DEEP] {
            let shape = Shape::new(alloc, texts)?;
            for size in [4_000, 40_000, 700_000] {
                let text = maker.text(alloc, &shape, size)?;
                format(alloc, text, digest);
            }
        }
        format_line(alloc, 700_000, maker, digest)?;
    }
    Ok(())
}
