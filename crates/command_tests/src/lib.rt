//! Tests of `tffmt_command` and `tfrules_command` by their public items: `options`, and whole runs of `program`; and of the
//! length of a print by `hcl_layout`. They are in a crate of their own, since a crate with tests is proved twice.
#![tactic(auto)]

#[cfg(test)]
mod compared;
#[cfg(test)]
mod devices;
#[cfg(test)]
mod format_calls;
#[cfg(test)]
mod format_failures;
#[cfg(test)]
mod format_rows;
#[cfg(test)]
mod format_runs;
#[cfg(test)]
mod lint_devices;
#[cfg(test)]
mod lint_failures;
#[cfg(test)]
mod lint_runs;
#[cfg(test)]
mod memory_files;
#[cfg(test)]
mod print_lengths;
