//! Names as they are stored.

ghost use Rattle.std.specs.Prelude.{◌≡◌, IfOk};
ghost use Rattle.tf_rules.specs.Inner.StoredViews.{stored_name};

use crate::stored::StoredName;
use arrayvec::ArrayString;
use std::alloc::{AllocError, Global};

impl StoredName {
    /// A copy of a text.
    pub fn new(alloc: Global, text: &str) -> Result<StoredName, AllocError>
        ensures { IfOk result (λ kept. stored_name kept ≡ text.now) }
    {
        match ArrayString::from(text) {
            Ok(short) => Ok(StoredName::Short(short)),
            Err(_) => Ok(StoredName::Long(String::from_str(alloc, text)?)),
        }
    }

    /// The text of the name.
    pub fn as_str(&self) -> &str
        ensures { result.now ≡ stored_name self.now }
    {
        match self {
            StoredName::Short(text) => text.as_str(),
            StoredName::Long(text) => text.as_str(),
        }
    }
}
