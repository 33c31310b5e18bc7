//! Laws about the definitions alone. No program calls these functions: their contracts are the laws.

ghost use Rattle.std.specs.Prelude.{◌≡◌, List};
ghost use Rattle.hcl_tokens.specs.Lexemes.{Lexeme};
ghost use Rattle.hcl_grammar.specs.Numbered.{number_tokens};
ghost use Rattle.tf_facts.specs.VariableBlocks.{AreDisjoint};
ghost use Rattle.tf_facts.specs.References.{variable_blocks};

/// The blocks of the variables of a file follow one another.
pub fn variable_blocks_are_disjoint()
    ensures { (tokens : List Lexeme) → AreDisjoint 0 (variable_blocks (number_tokens tokens)) }
{}
