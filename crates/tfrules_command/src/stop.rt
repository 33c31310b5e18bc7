//! Why a run stops before its report.

use hcl_scan::Fault;

/// Why a file isn't kept.
#[derive(Clone, Copy)]
pub enum Stop {
    /// It can't be opened.
    NotOpened,
    /// A read of it failed.
    NotRead,
    /// It is no file of the language.
    Refused(Fault),
    /// With it the module is larger than `MAX_MODULE`.
    TooLarge,
    /// Memory ran out.
    OutOfMemory,
}

/// The name of the file at which a run stopped, and why.
#[derive(Clone, Copy)]
pub struct Stopped<'a> {
    pub name: &'a str,
    pub why: Stop,
}
