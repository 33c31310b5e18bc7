//! Laws of the definitions alone. No program needs these functions for their effect: their contracts are the laws.

ghost use Rattle.std.specs.Prelude.{◌≡◌, ℕ, IfSome, IfNone, List};
ghost use Rattle.hcl_source.specs.Load.{IsText, IsLoadFault};
ghost use Rattle.hcl_source.specs.declared.fault.Fault.{Fault};

use crate::source::load_fault;

/// Bytes have one load fault at most.
pub fn one_load_fault()
    ensures { (bytes : List ℕ) (fault other : Fault) → IsLoadFault bytes fault
        → IsLoadFault bytes other → fault ≡ other }
{}

/// Bytes that have a load fault are no source.
pub fn fault_or_text()
    ensures { (bytes : List ℕ) (fault : Fault) → IsLoadFault bytes fault → ¬ IsText bytes }
{}

/// Bytes are a source, and are returned as a text, or they have a load fault. The body shows it: it loads without a
/// copy.
pub fn text_or_fault(bytes: &[u8]) -> Option<&str>
    ensures text { IfSome result (λ text. (text.now ≡ bytes.now) × IsText bytes.now) }
    ensures fault { IfNone result ((fault : Fault) × IsLoadFault bytes.now fault) }
{
    match load_fault(bytes) {
        Some(_) => None,
        None => simdutf8::compat::from_utf8(bytes).ok(),
    }
}
