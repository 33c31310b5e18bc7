//! A module.

/// The files of one folder that are linted together.
#[derive(Drop)]
pub struct Module {
    /// The name of the folder, with a `/` at its end, or empty for the current one.
    pub folder: Vec<u8>,
    /// The names of the files, in order.
    pub files: Vec<String>,
    /// Whether the folder and each of its files can be looked at.
    pub is_whole: bool,
}
