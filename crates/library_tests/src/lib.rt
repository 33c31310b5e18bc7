//! Tests of the libraries of the language and of the rules by their public items: `hcl_source`, `hcl_scan`, `hcl_syntax`,
//! `rule_set`, `tf_facts`, `tf_names` and `tf_rules`. They are in a crate of their own, since a crate with tests is proved
//! twice.
#![tactic(auto)]

#[cfg(test)]
mod checks;
#[cfg(test)]
mod devices;
#[cfg(test)]
mod expressions;
#[cfg(test)]
mod facts;
#[cfg(test)]
mod grammar;
#[cfg(test)]
mod issues;
#[cfg(test)]
mod kept;
#[cfg(test)]
mod memory;
#[cfg(test)]
mod names;
#[cfg(test)]
mod outlines;
#[cfg(test)]
mod pairs;
#[cfg(test)]
mod reports;
#[cfg(test)]
mod rules;
#[cfg(test)]
mod shown;
#[cfg(test)]
mod sources;
#[cfg(test)]
mod tokens;
