//! Which names are passed over, and which files are taken.

ghost use Rattle.std.specs.Prelude.{◌≡◌};
ghost use Rattle.file_tree.specs.Names.{is_passed_over, is_taken};

/// Whether a file or folder of this name is passed over.
pub fn is_passed_over(name: &[u8]) -> bool
    ensures { result ≡ is_passed_over name.now }
{
    name.starts_with(b".")
        || name.ends_with(b"~")
        || (name.len() > 1 && name.starts_with(b"#") && name.ends_with(b"#"))
}

/// Whether a file of this name is taken.
pub fn is_taken(name: &[u8]) -> bool
    ensures { result ≡ is_taken name.now }
{
    name.ends_with(b".tf")
        || name.ends_with(b".tfvars")
        || name.ends_with(b".tofu")
        || name.ends_with(b".tftest.hcl")
        || name.ends_with(b".tfmock.hcl")
        || name.ends_with(b".tfquery.hcl")
        || name.ends_with(b".tofutest.hcl")
}
