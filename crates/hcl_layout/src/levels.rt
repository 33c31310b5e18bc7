//! Levels, by depth: the indentation of a line.
//!
//! The depth is the number of open openers. A line that ends deeper than it began starts one level, however many
//! openers it has, and all depths that it reaches have that level from then on. A line has the level of the less deep
//! of its two ends.
//!
//! ```text
//!                  depth after    level    levels of the depths 0, 1, 2, 3 after it
//!                       0                   0
//! rules = [{            2            0      0 1 1
//!   port = 80           2            1      0 1 1
//!   tags = {            3            1      0 1 1 2
//!     a = 1             3            2      0 1 1 2
//!   }                   2            1      0 1 1
//! }]                    0            0      0
//! ```
ghost use Rattle.std.specs.Prelude.{◌≡◌, ◌≤◌, ◌+◌, ◌*◌, ◌-◌};
ghost use Rattle.hcl_tokens.specs.Balanced.{max_open};
ghost use Rattle.hcl_layout.specs.Inner.Depths.{Sound, level_at, next_levels, with_level};

use hcl_tokens::MAX_OPEN;

/// The depths at which a line can end: from 0 to the most openers that may be open.
pub const DEPTHS: usize = MAX_OPEN + 1;

/// Sets the level of a range of depths.
fn raise(levels: &mut [u32; DEPTHS], level: u32, from: u32, to: u32)
    requires order { from ≤ to }
    requires within { to ≤ max_open + 1 }
    ensures { levels.new ≡ with_level levels.old level from (to - from) }
{
    for depth in from..to {
        levels[depth as usize] = level;
    }
}

/// The level of a line, from the depths before and after it. The levels are then those after it.
#[inline(always)]
pub fn next_level(levels: &mut [u32; DEPTHS], before: u32, now: u32) -> u32
    requires before { before ≤ max_open }
    requires now { now ≤ max_open }
    requires sound { Sound before levels.old }
    ensures level { result ≡ level_at before now levels.old }
    ensures levels { levels.new ≡ next_levels before now levels.old }
    ensures small { result ≤ max_open }
    ensures sound { Sound now levels.new }
{
    let level = levels[before.min(now) as usize];
    if before < now {
        let own = levels[before as usize] + 1;
        raise(levels, own, before + 1, now + 1);
    }
    level
}
