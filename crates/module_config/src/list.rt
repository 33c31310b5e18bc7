//! A whole list.

ghost use Rattle.std.specs.Prelude.{◌≡◌, ◌==◌, ℕ, List, Some, find, not, option_map};
ghost use Rattle.std.specs.List.{slice_split};
ghost use Rattle.module_config.specs.Lists.{is_known_part, rules_found, rules_in, rules_of_parts, unknown_in};
ghost use Rattle.module_config.specs.Inner.Listed.{Listed};

use crate::list_fault::ListFault;
use crate::list_part::{is_known_part, part_name, with_part};
use rule_set::RuleSet;

/// The set after all parts of a list, or nothing if a part names no rule.
fn after_parts(list: &str) -> Option<RuleSet>
    ensures { Listed (slice_split (λ b. b == 44) list.now) result }
{
    let mut set = Some(RuleSet::none());
    for part in list.split(',') {
        set = with_part(set, part);
    }
    set
}

/// The set of all parts, unless no rule is left in it.
fn unless_empty(set: RuleSet) -> Result<RuleSet, ListFault>
    ensures { (parts : List (List ℕ)) → Listed parts (Some set)
        → rules_found result ≡ rules_of_parts parts }
{
    if set.holds_any() {
        return Ok(set);
    }
    Err(ListFault::NoneLeft)
}

/// The rules of a list of names with commas between them: `all` means each rule, `default` the recommended ones, and
/// any other name its own rule. A dash before a name removes its rules; the last name that covers a rule decides.
///
/// # Errors
///
/// `UnknownRule` if a name isn't a rule's, and `NoneLeft` if the list removes every rule.
pub fn rules_in(list: &str) -> Result<RuleSet, ListFault>
    ensures { rules_found result ≡ rules_in list.now }
{
    match after_parts(list) {
        Some(set) => unless_empty(set),
        None => Err(ListFault::UnknownRule),
    }
}

/// The first part of a list that names no rule.
fn unknown_part(list: &str) -> Option<&str>
    ensures { option_map (λ part. part.now) result
        ≡ find (λ part. not (is_known_part part)) (slice_split (λ b. b == 44) list.now) }
{
    for part in list.split(',') {
        if !is_known_part(part) {
            return Some(part);
        }
    }
    None
}

/// The first name of a list that isn't a rule's, or nothing if each is.
pub fn unknown_in(list: &str) -> &str
    ensures { result.now ≡ unknown_in list.now }
{
    match unknown_part(list) {
        Some(part) => part_name(part),
        None => "",
    }
}
