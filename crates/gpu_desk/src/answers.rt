//! What the calls of a desk return.

/// Where a block lies.
#[derive(Clone, Copy, Debug, PartialEq, Eq)]
pub struct Grant {
    /// The key of the block. It is never 0, and never that of another block.
    pub key: u64,

    /// The name of its object.
    pub object: u64,

    /// Where it starts in the object, in bytes.
    pub offset: u64,

    /// Its size, in bytes.
    pub size: u64,

    /// The index of its memory type.
    pub memory_type: u32,

    /// Whether its object is new: the one that was made last for this grant. For an import this is false.
    pub fresh: bool,

    /// The caller's own value: the latest of [`set_user`](crate::Desk::set_user), or else the wish's, or 0 for an
    /// import.
    pub user: u64,

    /// How many bytes were requested, at most the size. For an import it is the size.
    pub asked: u64,

    /// Whether the request was for an optimal resource. For an import this is false.
    pub optimal: bool,
}

/// A range of an object.
#[derive(Clone, Copy, Debug, PartialEq, Eq)]
pub struct ObjectRange {
    /// The name of the object.
    pub object: u64,

    /// Where it starts in the object, in bytes.
    pub offset: u64,

    /// Its size, in bytes.
    pub size: u64,
}

/// How many there are.
#[derive(Clone, Copy, Debug, PartialEq, Eq)]
pub struct Counts {
    /// How many blocks are live.
    pub blocks: u64,

    /// How many names of released objects are still to be read.
    pub unread: u64,

    /// How many objects are held.
    pub held: u32,

    /// How many more objects may be held.
    pub remaining: u32,
}

/// How much is held of a heap.
#[derive(Clone, Copy, Debug, PartialEq, Eq)]
pub struct HeapCounts {
    /// How many bytes the held objects of its memory types count.
    pub used: u128,

    /// How many bytes may still be asked of it.
    pub budget: u64,

    /// How many bytes of it may be held before no more are asked for: its size where no limit was set.
    pub limit: u64,
}
