//! Names that outlive their file.

ghost use Rattle.std.specs.Prelude.{◌≡◌, IfOk};
ghost use Rattle.tf_names.specs.Views.{name_seen};
ghost use Rattle.editor_names.specs.Views.{owned_seen};

use std::alloc::{AllocError, Global};
use tf_names::Name;

/// A name that a file of a module declares or refers to.
#[derive(Drop)]
pub enum OwnedName {
    Variable(String),
    Local(String),
    /// The type of a data source, and its name.
    Data(String, String),
    /// A call of a module.
    Module(String),
}

impl OwnedName {
    /// A copy of a name.
    pub(crate) fn copy_of(alloc: Global, name: Name<'_>) -> Result<OwnedName, AllocError>
        ensures { IfOk result (λ owned. owned_seen owned ≡ name_seen name.entry) }
    {
        match name {
            Name::Variable(name) => Ok(OwnedName::Variable(String::from_str(alloc, name)?)),
            Name::Local(name) => Ok(OwnedName::Local(String::from_str(alloc, name)?)),
            Name::Data(kind, name) => {
                let kind = String::from_str(alloc, kind)?;
                Ok(OwnedName::Data(kind, String::from_str(alloc, name)?))
            }
            Name::Module(name) => Ok(OwnedName::Module(String::from_str(alloc, name)?)),
        }
    }

    /// The name.
    pub fn name(&self) -> Name<'_>
        ensures { name_seen result ≡ owned_seen self.now }
    {
        match self {
            OwnedName::Variable(name) => Name::Variable(name.as_str()),
            OwnedName::Local(name) => Name::Local(name.as_str()),
            OwnedName::Data(kind, name) => Name::Data(kind.as_str(), name.as_str()),
            OwnedName::Module(name) => Name::Module(name.as_str()),
        }
    }
}
