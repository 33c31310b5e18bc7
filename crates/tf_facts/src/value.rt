//! The values of attributes, and the body of a block.

/// The tokens of a value, by the number of the first and the one after the last.
#[derive(Clone, Copy)]
pub struct Value {
    pub first: usize,
    pub end: usize,
}

/// The attributes directly in the body of a block: which of these names there are, and the value of the first `source`.
#[derive(Clone, Copy)]
pub struct Body {
    pub is_described: bool,
    pub is_typed: bool,
    pub is_versioned: bool,
    pub source: Option<Value>,
}

/// A quote with at most one literal: the number of its opening quote, and its text.
#[derive(Clone, Copy)]
pub struct Plain<'s> {
    pub quote: usize,
    pub text: &'s str,
}
