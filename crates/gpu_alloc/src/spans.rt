//! Rows of what an allocator holds and has given out, as it lists them.

use gpu_alloc_block::Kind;

/// A live span of a held object, with two keys of the store that holds its block. `chunk` is the key of the chunk for a
/// block of a buddy chunk or a fit chunk, and 0 for any other. `index` is the key of the pair of halves for a block of
/// a buddy chunk, the key of the block for a block of a free list, and 0 for any other. (Contracts mention only spans;
/// these two fields are for reports.)
pub use gpu_alloc_base::buddy_block::Leaf as LiveSpan;

/// What is known of a held object, apart from its name.
#[derive(Clone, Copy, Debug, PartialEq, Eq)]
pub struct HeldRow {
    /// The index of the object's memory type.
    pub memory_type: u32,

    /// What the object adds to its heap's ledger, in bytes.
    pub counted: u64,

    /// What the object is held for.
    pub kind: Kind,
}
