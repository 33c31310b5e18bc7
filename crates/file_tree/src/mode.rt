//! The mode of a new file.

ghost use Rattle.std.specs.Prelude.{◌≡◌, ◌<◌, if◌then◌else◌};
ghost use Rattle.file_tree.specs.Modes.{GivesNoMore, both, new_mode};

/// The rights that both digits of a mode allow.
fn both(one: u32, other: u32) -> u32
    requires one { one < 8 }
    requires other { other < 8 }
    ensures within { result < 8 }
    ensures both { result ≡ both one other }
{
    (one / 4 % 2) * (other / 4 % 2) * 4
        + ((one / 2 % 2) * (other / 2 % 2) * 2 + (one % 2) * (other % 2))
}

/// One number or another, by a condition.
fn either(is_so: bool, one: u32, other: u32) -> u32
    requires one { one < 8 }
    requires other { other < 8 }
    ensures within { result < 8 }
    ensures either { result ≡ (if is_so then one else other) }
{
    if is_so { one } else { other }
}

/// The mode of a new file in place of one with this mode, given whether owner and group are kept. Nobody but the owner
/// gets a right that he hadn't, whichever groups he is in.
pub fn new_mode(old: u32, has_owner: bool, has_group: bool) -> u32
    ensures mode { result ≡ new_mode old has_owner has_group }
    ensures no_more { GivesNoMore has_group old result }
{
    let group = old / 8 % 8;
    let others = old % 8;
    // A member of the old group is now one of the others, and the other way round.
    let common = both(group, others);
    let special = either(has_owner && has_group, old / 512 % 8, 0);
    let group = either(has_group, group, common);
    let others = either(has_group, others, common);
    special * 512 + (old / 64 % 8 * 64 + (group * 8 + others))
}
