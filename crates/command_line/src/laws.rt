//! Laws about clap's reading of words. No program calls these functions: their contracts are the laws.

ghost use Rattle.std.specs.Prelude.{◌≡◌, [], true, List};
ghost use Rattle.clap.specs.Walk.{Text};
ghost use Rattle.clap.specs.Simple.{App, built};
ghost use Rattle.clap.specs.Faults.{fault_of};
ghost use Rattle.command_line.specs.Faults.{One};

/// A line of words for a command without subcommands has one fault at most, so the fault that a program reports is a
/// function of the words. Running out of memory is never that fault.
pub fn one_fault()
    ensures { (app : App) (words : List Text) → (built app).subs ≡ []
        → (built app).top.is_leaf ≡ true → One (fault_of app words) }
{}
