//! How to write the results for modules.

ghost use Rattle.std.specs.Prelude.{◌≡◌};
ghost use Rattle.tree_lint.specs.Verdicts.{shows_lines};

use lint_forms::Form;

/// The outputs that are read on a terminal: lines of files are shown there.
#[derive(Clone, Copy)]
pub struct Terminals {
    pub out: bool,
    pub err: bool,
}

impl Terminals {
    /// Whether one of the outputs is read on a terminal.
    pub(crate) fn shows_lines(self) -> bool
        ensures { result ≡ shows_lines self }
    {
        self.out || self.err
    }
}

/// How to write the results for modules.
#[derive(Clone, Copy)]
pub struct Manner {
    /// The form; none for the reports of `tfrules`.
    pub form: Option<Form>,
    pub terminals: Terminals,
}

/// How to write the results for modules, and the head of the output.
#[derive(Clone, Copy)]
pub struct Written<'h> {
    pub manner: Manner,
    pub head: &'h [u8],
}
