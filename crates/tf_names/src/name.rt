//! The names that a module declares or refers to.

ghost use Rattle.std.specs.Prelude.{◌≡◌};
ghost use Rattle.std.specs.Str.{bytes_eq};
ghost use Rattle.tf_names.specs.Names.{is_same, last_part, with_last_part};
ghost use Rattle.tf_names.specs.Views.{name_seen};

/// A name that a file of a module declares or refers to.
#[derive(Clone, Copy)]
pub enum Name<'s> {
    Variable(&'s str),
    Local(&'s str),
    /// The type of a data source, and its name.
    Data(&'s str, &'s str),
    /// A call of a module.
    Module(&'s str),
}

/// Whether two texts are the same.
fn equals(text: &str, other: &str) -> bool
    ensures { result ≡ bytes_eq text.now other.now }
{
    text == other
}

/// Whether two names are the same.
pub fn is_same(one: Name<'_>, other: Name<'_>) -> bool
    ensures { result ≡ is_same (name_seen one.entry) (name_seen other.entry) }
{
    match one {
        Name::Variable(name) => match other {
            Name::Variable(second) => equals(name, second),
            Name::Local(_) | Name::Data(_, _) | Name::Module(_) => false,
        },
        Name::Local(name) => match other {
            Name::Local(second) => equals(name, second),
            Name::Variable(_) | Name::Data(_, _) | Name::Module(_) => false,
        },
        Name::Data(kind, name) => match other {
            Name::Data(other_kind, second) => equals(kind, other_kind) && equals(name, second),
            Name::Variable(_) | Name::Local(_) | Name::Module(_) => false,
        },
        Name::Module(name) => match other {
            Name::Module(second) => equals(name, second),
            Name::Variable(_) | Name::Local(_) | Name::Data(_, _) => false,
        },
    }
}

/// The name with another last part.
pub fn with_last_part<'s>(name: Name<'s>, new: &'s str) -> Name<'s>
    ensures { name_seen result ≡ with_last_part new.now (name_seen name.entry) }
{
    match name {
        Name::Variable(_) => Name::Variable(new),
        Name::Local(_) => Name::Local(new),
        Name::Data(kind, _) => Name::Data(kind, new),
        Name::Module(_) => Name::Module(new),
    }
}

/// The last part of a name, which a rename replaces.
pub fn last_part<'s>(name: Name<'s>) -> &'s str
    ensures { result.now ≡ last_part (name_seen name.entry) }
{
    match name {
        Name::Variable(last) => last,
        Name::Local(last) => last,
        Name::Data(_, last) => last,
        Name::Module(last) => last,
    }
}
