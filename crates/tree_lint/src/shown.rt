//! The quoted names of a module's files.

ghost use Rattle.std.specs.Prelude.{◌≡◌, ◌++◌, ◌∷◌, [], IfOk, List, OnOk, map, string_bytes, ℕ};
ghost use Rattle.file_tree.specs.Quotes.{shown_name};

use file_tree::quote::quote_name;
use std::alloc::{AllocError, Global};
use tfrules_command::shown_names::ShownNames;

/// Quoted names, by the numbers of the files.
#[derive(Drop)]
pub(crate) struct Shown {
    names: Vec<Vec<u8>>,
}

impl Shown {
    /// Adds the name of one more file.
    fn add(&mut self, alloc: Global, name: &str) -> Result<(), AllocError>
        ensures { OnOk result (map (λ shown. shown.items) self.new.names.items
            ≡ map (λ shown. shown.items) self.old.names.items ++ shown_name name.now ∷ []) }
    {
        let shown = quote_name(alloc, name.as_bytes())?;
        let Ok(()) = self.names.push(shown) else {
            return Err(AllocError);
        };
        Ok(())
    }

    /// These names, quoted.
    pub(crate) fn new(alloc: Global, names: &[String]) -> Result<Shown, AllocError>
        ensures { IfOk result (λ shown. map (λ name. name.items) shown.names.items
            ≡ map (λ name. shown_name (string_bytes name)) names.now) }
    {
        let mut shown = Shown {
            names: Vec::new(alloc),
        };
        for name in names {
            shown.add(alloc, name.as_str())?;
        }
        Ok(shown)
    }
}

impl ShownNames for Shown {
    ghost names = { λ shown. map (λ name. name.items) shown.names.items };

    fn name_of(&self, number: u32) -> &[u8] {
        let number = number as usize;
        if number < self.names.len() {
            return self.names[number].as_slice();
        }
        b""
    }
}
