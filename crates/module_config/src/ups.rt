//! A folder and those above it.

ghost use Rattle.std.specs.Prelude.{◌≡◌, ◌≤◌, ◌<◌, ◌-◌, ◌==◌, ◌++◌, ◌∷◌, [], IfOk, OnOk, get_or, if◌then◌else◌, length, map, take};
ghost use Rattle.module_config.specs.Governs.{ups};
ghost use Rattle.module_config.specs.Inner.Looking.{up_at};

use std::alloc::{AllocError, Global};

/// Appends the folder that ends before this byte, if one does.
fn add_up<'p>(path: &'p [u8], end: usize, folders: &mut Vec<&'p [u8]>) -> Result<(), AllocError>
    requires some { 0 < end }
    requires within { end ≤ length path.now }
    ensures { OnOk result (map (λ folder. folder.now) folders.new.items
        ≡ map (λ folder. folder.now) folders.old.items ++ up_at path.entry.now end) }
{
    if path[end - 1] != b'/' {
        return Ok(());
    }
    match folders.push(&path[..end]) {
        Ok(()) => Ok(()),
        Err(_) => Err(AllocError),
    }
}

/// A folder and those above it, by its full path: the nearest first.
pub(crate) fn ups<'p>(alloc: Global, path: &'p [u8]) -> Result<Vec<&'p [u8]>, AllocError>
    ensures { IfOk result (λ folders. map (λ folder. folder.now) folders.items
        ≡ ups path.entry.now) }
{
    let mut folders = Vec::new(alloc);
    let mut end = path.len();
    while end > 0 {
        add_up(path, end, &mut folders)?;
        end -= 1;
    }
    Ok(folders)
}
