//! What is proved of the definitions alone. No program calls these functions: their contracts are the laws.

ghost use Rattle.std.specs.Prelude.{◌≡◌, ◌≤◌, ◌++◌, ℕ, List, length};
ghost use Rattle.tfls_command.specs.Frames.{frame, max_body};
ghost use Rattle.tfls_command.specs.Fronts.{front_of};
ghost use Rattle.tfls_command.specs.Streams.{Begins};
ghost use Rattle.tfls_command.specs.declared.front.Front.TheVariants.{Malformed};

/// A stream begins with one message at most.
pub fn one_message()
    ensures { (stream body rest other others : List ℕ) → Begins stream body rest
        → Begins stream other others → (body ≡ other) × (rest ≡ others) }
{}

/// What goes out is read back.
pub fn frames_are_messages()
    ensures { (body rest : List ℕ) → length body ≤ max_body
        → Begins (frame body ++ rest) body rest }
{}

/// What is malformed begins with no message, however the stream goes on.
pub fn malformed_for_good()
    ensures { (stream more body rest : List ℕ) → front_of stream ≡ Malformed
        → Begins (stream ++ more) body rest → ⊥ }
{}
