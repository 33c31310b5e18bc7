//! The block of a variable.

/// The block of a variable: its name, and the numbers of its first token and of the one after its last.
#[derive(Clone, Copy)]
pub struct VariableBlock<'s> {
    pub name: &'s str,
    pub first: usize,
    pub end: usize,
}
