//! The names that a call gives, in its line or on standard input.

ghost use Rattle.std.specs.Prelude.{◌≡◌, [], false, IfOk, map};
ghost use Rattle.file_tree.specs.Files.{Tells};
ghost use Rattle.tree_words.specs.Paths.{paths_of_input, paths_of_line, without_last_nul};

use file_tree::path::names_in;
use hcl_scan::{ByteSource, Failed};
use std::alloc::{AllocError, Global};

/// The rest of a device's bytes, unless a read fails or memory runs out.
pub fn read_names<R: ByteSource>(alloc: Global, input: &mut R) -> Result<Vec<u8>, AllocError>
    requires { R.failed input.old ≡ false }
    ensures { IfOk result (λ names. Tells (R.left input.old) names.items) }
{
    let mut bytes = Vec::new(alloc);
    let mut buffer = [0; 16_384];
    for _ in 0..u64::MAX {
        match input.read(&mut buffer) {
            Ok(0) => return Ok(bytes),
            Ok(n) => bytes.extend_from_slice(&buffer[..n])?,
            Err(Failed) => return Err(AllocError),
        }
    }
    Err(AllocError)
}

/// The names without the last NUL.
fn without_last_nul(names: &[u8]) -> &[u8]
    ensures { result.now ≡ without_last_nul names.now }
{
    if names.ends_with(b"\0") {
        &names[..names.len() - 1]
    } else {
        names
    }
}

/// The names, each ended by NUL; the last one needs none.
pub fn operands_in<'a>(alloc: Global, names: &'a [u8]) -> Result<Vec<&'a [u8]>, AllocError>
    ensures { IfOk result
        (λ operands. map (λ operand. operand.now) operands.items ≡ paths_of_input names.entry.now) }
{
    let names = without_last_nul(names);
    if names.is_empty() {
        return Ok(Vec::new(alloc));
    }
    names_in(alloc, names)
}

/// The current folder.
fn here<'a>(alloc: Global) -> Result<Vec<&'a [u8]>, AllocError>
    ensures { IfOk result
        (λ operands. map (λ operand. operand.now) operands.items ≡ paths_of_line []) }
{
    let mut operands = Vec::new(alloc);
    match operands.push(b".".as_slice()) {
        Ok(()) => Ok(operands),
        Err(_) => Err(AllocError),
    }
}

/// The names of a line, or the current folder if there are none.
pub fn operands_of<'a>(alloc: Global, names: &[&'a [u8]]) -> Result<Vec<&'a [u8]>, AllocError>
    ensures { IfOk result
        (λ operands. map (λ operand. operand.now) operands.items
        ≡ paths_of_line (map (λ name. name.now) names.now)) }
{
    if names.is_empty() {
        return here(alloc);
    }
    Vec::from_slice(alloc, names)
}
