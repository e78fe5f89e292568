//! Blocks of a buddy allocator. The function that takes one apart is not a method: `gpu_alloc`, where users find the
//! type, does not export it.

ghost use Rattle.std.specs.Prelude.{◌≡◌};

use gpu_alloc_types::MemoryObject;
use std::marker::Model;

/// What identifies a live block of a buddy allocator, as [`into_parts`] returns it.
#[derive(Clone, Copy, Debug, PartialEq, Eq)]
pub struct Leaf {
    /// The name of its chunk's object.
    pub object: u64,

    /// The key of its chunk.
    pub chunk: usize,

    /// Where it starts in the object, in bytes.
    pub offset: u64,

    /// Its size, in bytes.
    pub size: u64,

    /// Its place in the allocator's own store: the key of its pair of halves.
    pub index: usize,
}

/// A block of a buddy allocator: a range of one of its chunks whose size is a power of two, in bytes, at a multiple of
/// that size. It cannot be dropped, only returned to its allocator.
pub struct BuddyBlock<M: MemoryObject> {
    memory: M,
    chunk: usize,
    offset: u64,
    size: u64,
    index: usize,
}

impl<M: MemoryObject> Model for BuddyBlock<M> {
    ghost use Rattle.gpu_alloc_base.specs.declared.buddy_block.Leaf.{Leaf};
    ghost use Rattle.gpu_alloc_base.specs.Codes.{leaf_code};

    ghost Value = { Leaf };

    ghost coded = { leaf_code };

    ghost view = { λ b. record {
      object = M.object b.memory;
      chunk = b.chunk;
      offset = b.offset;
      size = b.size;
      index = b.index;
    } };
}

impl<M: MemoryObject> BuddyBlock<M> {
    /// A block with this handle of its chunk's object. It is public for the crates above: users get their blocks from a
    /// buddy allocator.
    #[inline(always)]
    pub fn new(memory: M, leaf: Leaf) -> Self
        requires { leaf.object ≡ M.object memory }
        ensures { result ≡ leaf }
    {
        BuddyBlock {
            memory,
            chunk: leaf.chunk,
            offset: leaf.offset,
            size: leaf.size,
            index: leaf.index,
        }
    }

    /// A handle of the chunk's memory object.
    #[inline(always)]
    pub fn memory(&self) -> &M
        ensures { M.object result.now ≡ self.now.object }
    {
        &self.memory
    }

    /// Where the block starts in its object, in bytes.
    #[inline(always)]
    pub fn offset(&self) -> u64
        ensures { result ≡ self.now.offset }
    {
        self.offset
    }

    /// The block's size, in bytes: a power of two.
    #[inline(always)]
    pub fn size(&self) -> u64
        ensures { result ≡ self.now.size }
    {
        self.size
    }

    /// The key of its chunk in its allocator.
    #[inline(always)]
    pub fn chunk(&self) -> usize
        ensures { result ≡ self.now.chunk }
    {
        self.chunk
    }

    /// Its place in its allocator's own store: the key of its pair of halves.
    #[inline(always)]
    pub fn index(&self) -> usize
        ensures { result ≡ self.now.index }
    {
        self.index
    }
}

/// Takes a block apart, into its handle and what identifies it.
#[inline(always)]
pub fn into_parts<M: MemoryObject>(block: BuddyBlock<M>) -> (M, Leaf)
    ensures handle { M.object result.0 ≡ block.object }
    ensures leaf { result.1 ≡ block }
{
    let BuddyBlock {
        memory,
        chunk,
        offset,
        size,
        index,
    } = block;
    let leaf = Leaf {
        object: memory.object(),
        chunk,
        offset,
        size,
        index,
    };
    (memory, leaf)
}
