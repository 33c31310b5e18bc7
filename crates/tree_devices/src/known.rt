//! What a tree in memory tells of a name.

use file_tree::kind::Kind;

/// A name as it may be looked up, and the answers.
#[derive(Drop)]
pub struct Known {
    pub name: Vec<u8>,
    /// Links followed, unless the link leads nowhere.
    pub kind: Option<Kind>,
    /// Links not followed.
    pub entry: Kind,
    /// The names in it, each ended by NUL, if it is a folder.
    pub listing: Option<Vec<u8>>,
}
