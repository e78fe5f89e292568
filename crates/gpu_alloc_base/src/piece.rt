//! Pieces of buddy chunks.

/// 2^order bytes of a chunk. Orders are at most 63, and a piece ends at 2^63 at most. It is public for the buddy
/// allocator and for the laws of free pieces.
#[derive(Clone, Copy, PartialEq, Eq)]
pub struct Piece {
    /// The key of the chunk.
    pub chunk: usize,

    /// Where it starts in the chunk, in bytes: at a multiple of its length.
    pub start: u64,

    /// Its length is 2 to this power, in bytes.
    pub order: u32,
}
