//! Laws of the definitions alone. No program calls this function: its contract is the law.

ghost use Rattle.std.specs.Prelude.{◌≡◌, ◌<◌, ℕ, All, List, Some, codes, false, true};
ghost use Rattle.open_files.specs.Uris.{begins_with, has_byte, path_of, uri_of};

/// The URI of a path leads back to it, if the path is bytes, begins with `/` and has no NUL.
pub fn a_uri_leads_to_its_path()
    ensures { (path : List ℕ) → All (λ b. b < 256) path → begins_with (codes "/") path ≡ true
        → has_byte 0 path ≡ false → path_of (uri_of path) ≡ Some path }
{}
