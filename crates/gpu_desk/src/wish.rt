//! What a caller wishes apart from the request, and what is kept of it.

use crate::Dedicated;

/// What a caller wishes for a block apart from what its request says.
#[derive(Clone, Copy, Debug, PartialEq, Eq)]
pub struct Wish {
    /// A hint that the block wants an object of its own, or `None`.
    pub dedicated: Option<Dedicated>,

    /// Whether the block is for an optimal resource, such as an image with optimal tiling, and not for a linear one.
    pub optimal: bool,

    /// A value of the caller's own, which is kept with the block and returned with it.
    pub user: u64,
}

/// What is kept with a block for its caller.
#[derive(Clone, Copy)]
pub(crate) struct Tag {
    /// The caller's own value.
    pub(crate) user: u64,

    /// How many bytes were requested.
    pub(crate) asked: u64,

    /// Whether they are for an optimal resource.
    pub(crate) optimal: bool,
}
