//! The labels of a block.

/// At most two labels, or more.
#[derive(Clone, Copy)]
pub enum Names<'s> {
    None,
    One(&'s str),
    Two(&'s str, &'s str),
    More,
}
