//! What the server has of its machine.

use open_files::Disk;
use tf_rules::Hashing;

/// What the server has of its machine: the disk, and how names in files are hashed.
#[derive(Drop)]
pub struct Host<D: Drop> {
    pub disk: D,
    pub hashing: Hashing,
}
