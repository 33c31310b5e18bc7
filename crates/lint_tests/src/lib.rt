//! Tests of the linter of trees by its public items. They are in a crate of their own, since a crate with tests is
//! proved twice.
#![tactic(auto)]

#[cfg(test)]
mod checks;
#[cfg(test)]
mod comments;
#[cfg(test)]
mod config_lines;
#[cfg(test)]
mod configs;
#[cfg(test)]
mod documents;
#[cfg(test)]
mod form_rows;
#[cfg(test)]
mod form_runs;
#[cfg(test)]
mod forms;
#[cfg(test)]
mod lists;
#[cfg(test)]
mod programs;
#[cfg(test)]
mod runs;
#[cfg(test)]
mod terminals;
