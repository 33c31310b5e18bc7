//! Why the files of a module aren't all read.

ghost use Rattle.std.specs.Prelude.{◌≡◌};
ghost use Rattle.tree_lint.specs.Verdicts.{stop_refusal};
ghost use Rattle.module_find.specs.Refusals.{refusal_view};

use file_tree::fault::TreeFault;
use hcl_scan::Fault;
use module_find::refusal::Refusal;

/// Why a file isn't kept.
#[derive(Drop)]
pub enum Stop {
    /// It is no file of the language. The text is the line of the fault, or empty.
    Refused(Fault, Vec<u8>),
    /// With it the module is larger than `MAX_MODULE`.
    TooLarge,
    /// It can't be opened or read, or memory ran out.
    Failed(TreeFault),
}

/// The name of the file at which a module is refused, and why.
#[derive(Drop)]
pub(crate) struct Stopped<'n> {
    pub name: &'n str,
    pub why: Stop,
}

impl<'n> Stopped<'n> {
    /// The refusal for this file.
    pub(crate) fn refusal(&self) -> Refusal<'_>
        ensures { refusal_view result ≡ stop_refusal self.now.name.now self.now.why }
    {
        let name = self.name.as_bytes();
        match &self.why {
            Stop::Refused(fault, line) => Refusal {
                name,
                at: Some(fault.at),
                text: fault.kind.text(),
                snippet: line.as_slice(),
            },
            Stop::TooLarge => Refusal::of_name(name, "module too large"),
            Stop::Failed(fault) => Refusal::of_name(name, fault.text()),
        }
    }
}
