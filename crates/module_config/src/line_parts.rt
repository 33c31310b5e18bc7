//! The parts of a line.

ghost use Rattle.std.specs.Prelude.{◌≡◌, ◌<◌};
ghost use Rattle.module_config.specs.Lines.{without_comment, cut_or, parts};
ghost use Rattle.module_config.specs.Inner.Cut.{cut_of};

/// A line without its comment, and without surrounding white space.
pub(crate) fn without_comment(line: &str) -> &str
    ensures { result.now ≡ without_comment line.now }
{
    match line.split_once('#') {
        Some((front, _)) => front.trim(),
        None => line.trim(),
    }
}

/// An option's name and its value, which is empty if it has none.
#[derive(Clone, Copy)]
pub(crate) struct OptionParts<'a> {
    pub name: &'a str,
    pub value: &'a str,
}

/// A text that is cut at the first of this character, or these parts if it has none.
fn cut_or<'a>(c: char, text: &'a str, others: OptionParts<'a>) -> OptionParts<'a>
    requires { c < 128 }
    ensures { cut_of result ≡ cut_or c text.now (cut_of others.entry) }
{
    match text.split_once(c) {
        Some((name, value)) => OptionParts {
            name: name.trim(),
            value: value.trim(),
        },
        None => others,
    }
}

/// The parts of a line.
pub(crate) fn parts(text: &str) -> OptionParts<'_>
    ensures { cut_of result ≡ parts text.now }
{
    let whole = OptionParts {
        name: text,
        value: "",
    };
    cut_or('=', text, cut_or(' ', text, cut_or('\t', text, whole)))
}
