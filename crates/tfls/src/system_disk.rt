//! The files of the system, from which trees are made.

ghost use Rattle.std.specs.Prelude.{◌≡◌};
ghost use Rattle.file_tree.specs.Files.{silent_files};

use open_files::Disk;
use std::alloc::AllocError;
use system_tree::system::SystemTree;

/// The files of the system.
#[derive(Drop)]
pub struct SystemDisk {
    rt: HostRuntime,
}

impl SystemDisk {
    pub fn new(rt: HostRuntime) -> SystemDisk {
        SystemDisk { rt }
    }
}

impl Disk for SystemDisk {
    type Tree = SystemTree;

    ghost files = { λ d. silent_files };

    fn tree(&self) -> Result<SystemTree, AllocError> {
        match self.rt.clone() {
            Ok(rt) => Ok(SystemTree::new(rt)),
            Err(_) => Err(AllocError),
        }
    }
}
