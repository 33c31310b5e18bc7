//! Which folders are modules, which files are those of a module, and the options by which it is linted. The lines about
//! what can't be linted, and refusals that are kept for the end of a form.
#![tactic(auto)]

mod folders;
pub mod kept;
mod lost;
mod module;
pub mod modules;
pub mod names;
mod policy;
pub mod refusal;

pub use folders::{faults_of, folders_of};
pub use module::Module;
pub use policy::{Governed, Policy};
