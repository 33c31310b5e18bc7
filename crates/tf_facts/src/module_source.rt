//! The sorts of a module's source.

/// The sort of a source: not pinned to a revision, pinned to a default branch, an address in a registry, or another.
#[derive(Clone, Copy, PartialEq, Eq)]
pub enum ModuleSource {
    Other,
    NotPinned,
    DefaultBranch(&'static str),
    Registry,
}
