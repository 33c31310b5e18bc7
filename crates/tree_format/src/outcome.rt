//! The outcome for a file.

use file_tree::fault::TreeFault;
use file_tree::tree::Replaced;
use hcl_scan::Fault;

/// The outcome for a file.
#[derive(Drop)]
pub enum Outcome {
    /// It is formatted.
    Formatted,
    /// It isn't formatted, or wasn't before. For a file that was written, the rights to it that could be kept.
    Changed(Replaced),
    /// It isn't formatted; this text shows the changes.
    Differs(Vec<u8>),
    /// It has no format; this text shows the line of the fault, if that is to be shown.
    Refused(Fault, Option<Vec<u8>>),
    /// It could not be read, written or shown.
    Failed(TreeFault),
}
