//! The shape of an entry in a JSON array.

/// The shape of an entry in a JSON array.
#[derive(Clone, Copy)]
pub enum Shape {
    TflintIssue,
    TflintError,
    SarifResult,
    GitlabEntry,
}
