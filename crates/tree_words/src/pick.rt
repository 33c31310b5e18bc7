//! The names in a part of the files.

ghost use Rattle.std.specs.Prelude.{◌≡◌, ◌<◌, ◌++◌, ◌∷◌, [], IfOk, OnOk, filter};
ghost use Rattle.tree_words.specs.Shards.{has_name, hides_nothing, is_of, picked_of, sum_of, worth};

use crate::shard::Shard;
use file_tree::fault::TreeFault;
use file_tree::walk::Found;
use std::alloc::{AllocError, Global};

/// The factor by which a sum is multiplied before a byte is added.
const FACTOR: u64 = 31;

/// The sum is less than this, the largest prime below 2 to the 32.
const MODULUS: u64 = 4_294_967_291;

/// The number that a byte adds to the sum: a newline counts as 1.
fn worth(byte: u8) -> u8
    ensures { result ≡ worth byte }
{
    if byte == b'\n' { 1 } else { byte }
}

/// The sum of a name's bytes.
fn sum_of(name: &[u8]) -> u64
    ensures { result ≡ sum_of name.now }
{
    let mut sum = 0;
    for byte in name {
        sum = (sum * FACTOR + worth(*byte) as u64) % MODULUS;
    }
    sum
}

/// Whether nothing can be below a name with this fault.
fn hides_nothing(fault: TreeFault) -> bool
    ensures { result ≡ hides_nothing fault }
{
    matches!(
        fault,
        TreeFault::OtherKind | TreeFault::Missing | TreeFault::NoInput | TreeFault::DeadLink
    )
}

impl Shard {
    /// Whether a name is in this part.
    fn has_name(self, name: &[u8]) -> bool
        ensures { result ≡ has_name self name.now }
    {
        self.count > 0 && sum_of(name) % self.count as u64 + 1 == self.number as u64
    }

    /// Whether a found name is to be looked at in this part.
    fn has(self, found: &Found) -> bool
        ensures { result ≡ is_of self found.now }
    {
        match found.fault {
            Some(fault) if !hides_nothing(fault) => true,
            _ => self.has_name(found.name.as_slice()),
        }
    }

    /// Adds a found name, if it is in this part.
    fn keep(self, found: Found, kept: &mut Vec<Found>) -> Result<(), AllocError>
        ensures { OnOk result
            (kept.new.items ≡ kept.old.items ++ filter (is_of self) (found ∷ [])) }
    {
        if !self.has(&found) {
            return Ok(());
        }
        match kept.push(found) {
            Ok(()) => Ok(()),
            Err(_) => Err(AllocError),
        }
    }
}

/// The found names that are to be looked at in this part, in the same order, or all of them if there are no parts.
pub fn pick(
    alloc: Global,
    found: Vec<Found>,
    shard: Option<Shard>,
) -> Result<Vec<Found>, AllocError>
    ensures { IfOk result (λ picked. picked.items ≡ picked_of shard found.items) }
{
    let Some(shard) = shard else {
        return Ok(found);
    };
    let mut kept = Vec::new(alloc);
    for each in found {
        shard.keep(each, &mut kept)?;
    }
    Ok(kept)
}
