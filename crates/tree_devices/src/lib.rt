//! Trees in memory, for tests and as devices that tell: in one the named calls fail, and in the other calls fail by a
//! plan.
#![tactic(auto)]

pub mod calls;
pub mod entry;
pub mod known;
pub mod memory_reader;
pub mod memory_tree;
pub mod planned_tree;
pub mod runs;
pub mod stored;
pub mod uses;
