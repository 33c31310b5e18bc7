//! The names of modules and of their files.

ghost use Rattle.std.specs.Prelude.{◌≡◌, ◌-◌, ◌==◌, ◌≤◌, length, not};
ghost use Rattle.std.specs.List.{suffix_len};
ghost use Rattle.module_find.specs.Modules.{folder_of, is_module_file, is_of_module};

/// Whether a file of this name is one of a module.
pub fn is_module_file(name: &[u8]) -> bool
    ensures { result ≡ is_module_file name.now }
{
    name.ends_with(b".tf") || name.ends_with(b".tofu")
}

/// Whether a name matters to a module: that of one of its files, or of a folder.
pub fn is_of_module(name: &[u8]) -> bool
    ensures { result ≡ is_of_module name.now }
{
    is_module_file(name) || name.ends_with(b"/")
}

/// How many bytes of a path are before its last slash, including it.
fn folder_len(path: &[u8]) -> usize
    ensures { result ≡ length path.now - suffix_len (λ b. not (b == 47)) path.now }
{
    let mut len = path.len();
    while len > 0 && path[len - 1] != b'/' {
        len -= 1;
    }
    len
}

/// The folder of a path, with the slash at its end: empty if it has none.
pub fn folder_of(path: &[u8]) -> &[u8]
    ensures { result.now ≡ folder_of path.now }
{
    &path[..folder_len(path)]
}
