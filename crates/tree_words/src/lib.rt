//! The code that the programs for trees share: how they read the words of a line, the names that a call gives, the part
//! of the found files that is taken, and the message for a wrong line.
#![tactic(auto)]

pub mod argument;
pub mod jobs;
pub mod number;
pub mod operands;
pub mod options;
pub mod pick;
pub mod shard;
pub mod vocabulary;
pub mod words;
pub mod wrong;
