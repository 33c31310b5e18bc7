//! The two namings.

ghost use Rattle.std.specs.Prelude.{◌≡◌, ◌==◌};
ghost use Rattle.std.specs.List.{list_all, slice_split};
ghost use Rattle.tf_rules.specs.Naming.{begins_with_letter, matches_naming, is_letter, is_word, is_word_byte, naming_text};

/// How names are to be written.
#[derive(Clone, Copy, PartialEq, Eq)]
pub enum Naming {
    SnakeCase,
    MixedSnakeCase,
}

impl Naming {
    /// The word by which users request it.
    pub fn text(self) -> &'static str
        ensures { result.now ≡ naming_text self }
    {
        match self {
            Naming::SnakeCase => "snake_case",
            Naming::MixedSnakeCase => "mixed_snake_case",
        }
    }
}

fn is_letter(naming: Naming, byte: u8) -> bool
    ensures { result ≡ is_letter naming byte }
{
    match naming {
        Naming::SnakeCase => byte.is_ascii_lowercase(),
        Naming::MixedSnakeCase => byte.is_ascii_lowercase() || byte.is_ascii_uppercase(),
    }
}

fn is_word_byte(naming: Naming, byte: u8) -> bool
    ensures { result ≡ is_word_byte naming byte }
{
    is_letter(naming, byte) || byte.is_ascii_digit()
}

fn are_word_bytes(naming: Naming, word: &[u8]) -> bool
    ensures { result ≡ list_all (is_word_byte naming) word.now }
{
    word.iter().all(|byte| is_word_byte(naming, *byte))
}

fn is_word(naming: Naming, word: &[u8]) -> bool
    ensures { result ≡ is_word naming word.now }
{
    !word.is_empty() && are_word_bytes(naming, word)
}

fn begins_with_letter(naming: Naming, name: &[u8]) -> bool
    ensures { result ≡ begins_with_letter naming name.now }
{
    match name.first() {
        Some(byte) => is_letter(naming, *byte),
        None => false,
    }
}

/// Whether all parts between underscores are words.
fn are_words(naming: Naming, name: &[u8]) -> bool
    ensures { result ≡ list_all (is_word naming) (slice_split (λ b. b == 95) name.now) }
{
    name.split(|byte| *byte == b'_')
        .all(|word| is_word(naming, word))
}

/// Whether a name has the naming.
pub fn matches_naming(naming: Naming, name: &str) -> bool
    ensures { result ≡ matches_naming naming name.now }
{
    let bytes = name.as_bytes();
    begins_with_letter(naming, bytes) && are_words(naming, bytes)
}
