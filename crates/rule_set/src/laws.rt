//! Laws of the definitions alone. No program calls these functions: their contracts are the laws.

ghost use Rattle.std.specs.Prelude.{◌≡◌};
ghost use Rattle.std.specs.Cmp.Lexicographic.{slice_cmp};
ghost use Rattle.std.specs.Ordering.{nat_cmp};
ghost use Rattle.rule_set.specs.Rules.{rank, rule_name};
ghost use Rattle.rule_set.specs.declared.rule.Rule.{Rule};

/// The order of the rules is that of their names, by bytes.
pub fn ranked_by_name()
    ensures { (a b : Rule) → nat_cmp (rank a) (rank b)
        ≡ slice_cmp nat_cmp (rule_name a) (rule_name b) }
{}
