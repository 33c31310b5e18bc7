//! The names of files as a report shows them.

ghost use Rattle.std.specs.Prelude.{◌≡◌, ℕ, [], List, get_or};

/// Names of files, each by its number.
pub trait ShownNames {
    /// The names, in the order of their numbers.
    ghost names: { Self → List (List ℕ) };

    /// The name of this number, from 0 on, or nothing if there is none.
    fn name_of(&self, number: u32) -> &[u8]
        ensures { result.now ≡ get_or (names self.now) number [] };
}
