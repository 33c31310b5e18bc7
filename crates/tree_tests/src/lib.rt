//! Tests of `tree_command` by its public items: whole runs of `program` over a tree in memory with calls that fail, and
//! the mode of a new file, which no such run shows. They are in a crate of their own, since a crate with tests is
//! proved twice.
#![tactic(auto)]

#[cfg(test)]
mod checks;
#[cfg(test)]
mod compared;
#[cfg(test)]
mod devices;
#[cfg(test)]
mod expected;
#[cfg(test)]
mod failure_tests;
#[cfg(test)]
mod mode_tests;
#[cfg(test)]
mod rows;
#[cfg(test)]
mod tests;
#[cfg(test)]
mod wrong_tests;
