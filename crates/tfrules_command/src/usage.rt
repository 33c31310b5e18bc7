//! Why a line of words is refused.

/// Why there are no options.
#[derive(Clone, Copy, Debug, PartialEq, Eq)]
pub enum Usage {
    /// The words ask for help.
    Help,
    /// The words are no line of this program.
    BadLine,
    /// `--rules` has a name that no rule has.
    UnknownRule,
    /// `--naming` has an unknown value.
    BadNaming,
    /// `--minimum-failure-severity` has an unknown value.
    BadSeverity,
    /// More than `MAX_FILES` files are given.
    TooManyFiles,
    /// Memory ran out.
    OutOfMemory,
}
