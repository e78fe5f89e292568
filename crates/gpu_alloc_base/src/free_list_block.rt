//! Blocks of a free list, and of fit chunks. The function that takes one apart is not a method: `gpu_alloc`, where users
//! find the type, does not export it.

ghost use Rattle.std.specs.Prelude.{◌≡◌};

use gpu_alloc_types::MemoryObject;
use std::marker::Model;

/// What identifies a live block, as [`into_parts`] and [`slot_of`] return it.
#[derive(Clone, Copy, PartialEq, Eq)]
pub struct Slot {
    /// The name of its chunk's object.
    pub object: u64,

    /// Its chunk in its store: the number in a free list, the key in fit chunks.
    pub chunk: u64,

    /// Where it starts in the object, in bytes.
    pub offset: u64,

    /// Its size, in bytes.
    pub size: u64,
}

/// A block of a free list, or of a fit chunk: a run of one of its chunks. It cannot be dropped, only returned to its
/// store.
pub struct FreeListBlock<M: MemoryObject> {
    memory: M,
    chunk: u64,
    offset: u64,
    size: u64,
    // The key under which its store keeps it. The store confirms it, so contracts need not mention it.
    key: usize,
}

impl<M: MemoryObject> Model for FreeListBlock<M> {
    ghost use Rattle.gpu_alloc_base.specs.declared.free_list_block.Slot.{Slot};
    ghost use Rattle.gpu_alloc_base.specs.Codes.{slot_code};

    ghost Value = { Slot };

    ghost coded = { slot_code };

    ghost view = { λ b. record { object = M.object b.memory; chunk = b.chunk; offset = b.offset; size = b.size } };
}

impl<M: MemoryObject> FreeListBlock<M> {
    /// A block with this handle of its chunk's object, which its store keeps under this key. With another key the store
    /// still finds it, in time linear in its live blocks, in fit chunks in its free runs too. It is public for the crates
    /// above: users get their blocks from a store.
    #[inline(always)]
    pub fn new(memory: M, slot: Slot, key: usize) -> Self
        requires { slot.object ≡ M.object memory }
        ensures { result ≡ slot }
    {
        FreeListBlock {
            memory,
            chunk: slot.chunk,
            offset: slot.offset,
            size: slot.size,
            key,
        }
    }

    /// A handle of the chunk's memory object.
    #[inline(always)]
    pub fn memory(&self) -> &M
        ensures { M.object result.now ≡ self.now.object }
    {
        &self.memory
    }

    /// Its chunk in its store: the number in a free list, at least 1, and the key in fit chunks.
    #[inline(always)]
    pub fn chunk(&self) -> u64
        ensures { result ≡ self.now.chunk }
    {
        self.chunk
    }

    /// Where the block starts in its object, in bytes.
    #[inline(always)]
    pub fn offset(&self) -> u64
        ensures { result ≡ self.now.offset }
    {
        self.offset
    }

    /// The block's size, in bytes: at least what was asked for; in a fit chunk what its store was asked for.
    #[inline(always)]
    pub fn size(&self) -> u64
        ensures { result ≡ self.now.size }
    {
        self.size
    }
}

/// What identifies a block.
#[inline(always)]
pub fn slot_of<M: MemoryObject>(block: &FreeListBlock<M>) -> Slot
    ensures { result ≡ block.now }
{
    Slot {
        object: block.memory.object(),
        chunk: block.chunk,
        offset: block.offset,
        size: block.size,
    }
}

/// The key under which its store keeps a block.
#[inline(always)]
pub fn key_of<M: MemoryObject>(block: &FreeListBlock<M>) -> usize {
    block.key
}

/// Takes a block apart, into its handle, what identifies it, and the key under which its store keeps it.
#[inline(always)]
pub fn into_parts<M: MemoryObject>(block: FreeListBlock<M>) -> (M, Slot, usize)
    ensures handle { M.object result.0 ≡ block.object }
    ensures slot { result.1 ≡ block }
{
    let slot = slot_of(&block);
    let FreeListBlock {
        memory,
        chunk: _,
        offset: _,
        size: _,
        key,
    } = block;
    (memory, slot, key)
}
