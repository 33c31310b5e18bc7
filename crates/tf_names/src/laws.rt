//! Laws about the definitions alone. No program calls these functions: their contracts are the laws.

ghost use Rattle.std.specs.Prelude.{◌≡◌, ◌-◌, ℕ, All, List, drop, flat_map, map, take};
ghost use Rattle.hcl_grammar.specs.Numbered.{Numbered, number_tokens};
ghost use Rattle.hcl_tokens.specs.Lexemes.{Lexeme};
ghost use Rattle.hcl_tokens.specs.Scans.{Scans};
ghost use Rattle.tf_facts.specs.Declarations.{declarations};
ghost use Rattle.tf_facts.specs.References.{references, unless_self_reference, variable_blocks};
ghost use Rattle.tf_names.specs.Agreement.{name_of_declaration, reference_text};
ghost use Rattle.tf_names.specs.Names.{last_part, name_declarations, name_references, occurrences};

/// The references, without those to calls of modules and without self-references, are those that the linter counts.
pub fn references_are_the_linters()
    ensures { (ts : List Numbered) → flat_map (λ r. unless_self_reference (variable_blocks ts)
        r.word (reference_text r.name)) (name_references ts) ≡ references ts }
{}

/// The names that a file declares are those that the linter finds, without outputs and resources.
pub fn declarations_are_the_linters()
    ensures { (tokens : List Lexeme) → map (λ o. o.name) (name_declarations tokens)
        ≡ flat_map name_of_declaration (declarations (number_tokens tokens)) }
{}

/// The last part of each name that occurs in a text is spelled there, between the offsets of the occurrence: what a
/// rename replaces is exactly that part.
pub fn names_are_spelled_there()
    ensures { (text : List ℕ) (tokens : List Lexeme) → Scans text tokens
        → All (λ o. take (o.end - o.start) (drop o.start text) ≡ last_part o.name)
        (occurrences (record { text = text; tokens = tokens })) }
{}
