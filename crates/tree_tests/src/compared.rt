//! The comparisons of the tests, with one assertion each, so that it is proved once. A failure shows the words of the
//! run and its failed calls.

use crate::devices::Devices;
use std::alloc::Global;
use std::process::Abort;

/// The words of a run.
pub type Words = &'static [&'static str];

/// A run, as a failure shows it.
#[derive(Clone, Copy, Debug)]
pub struct At {
    pub words: Words,
    pub devices: Devices,
}

/// Checks a property of a run.
pub fn holds(rt: &impl Abort, is_so: bool, at: At) {
    assert!(rt; is_so, "at {at:?}");
}

/// Checks a number of a run.
pub fn same_number(rt: &impl Abort, found: u64, wanted: u64, at: At) {
    assert_eq!(rt; found, wanted, "at {at:?}");
}

/// Checks bytes of a run.
pub fn same_bytes(rt: &impl Abort, found: &[u8], wanted: &[u8], at: At) {
    assert_eq!(rt; found, wanted, "at {at:?}");
}

/// A text this many times.
pub fn repeat_text(rt: &impl Abort, alloc: Global, text: &[u8], count: usize) -> Vec<u8> {
    let mut bytes = Vec::new(alloc);
    for _ in 0..count {
        bytes.extend_from_slice(text).expect(rt, "memory");
    }
    bytes
}
