//! How large blocks and new chunks are, for stores whose blocks have any size in whole atoms.

ghost use Rattle.std.specs.Prelude.{◌≡◌, ◌+◌, ◌<◌, ◌≤◌, nat_le};
ghost use Rattle.gpu_alloc_base.specs.Sizes.{doubled_chunk, grown_chunk, up};
ghost use Rattle.gpu_alloc_shared.specs.Sized.{AreSizes, IsWholeAsk, ServesWhole, whole_ask};

use crate::store::Ask;
use gpu_alloc_base::sizes::next_power_of_two;
use gpu_alloc_types::MemoryPropertyFlags;

/// What the sizes of one memory type's chunks and blocks follow from. Sizes are in bytes, and multiples of the atom.
#[derive(Drop)]
pub struct ChunkSizes {
    /// The least size of the next chunk: at least one atom, and at most the final size.
    pub chunk_size: u64,

    /// The size that no chunk exceeds: at most 2^62.
    pub final_chunk_size: u64,

    /// The index of the memory type.
    pub memory_type: u32,

    /// The memory type's properties.
    pub props: MemoryPropertyFlags,

    /// The atom less one. The atom is a power of two of at most 2^62.
    pub atom_mask: u64,
}

impl ChunkSizes {
    /// A request for `size` bytes at a multiple of `align_mask + 1`: the size in whole atoms, at a multiple of the atom.
    /// The size is at least 1, and in whole atoms at most the final size; `align_mask + 1` is a power of two.
    #[inline(always)]
    pub fn asked(&self, size: u64, align_mask: u64) -> Ask
        requires sizes { AreSizes self.now.chunk_size self.now.final_chunk_size (self.now.atom_mask + 1) }
        requires serves { ServesWhole self.now.final_chunk_size (self.now.atom_mask + 1) size align_mask }
        ensures asked { result ≡ whole_ask (self.now.atom_mask + 1) size align_mask }
        ensures whole { IsWholeAsk (self.now.atom_mask + 1) result }
    {
        Ask {
            size: self.rounded_size(size),
            align_mask: align_mask.max(self.atom_mask),
        }
    }

    /// The size of a new chunk for a block of this size: the next one's, or where that is below the block's, doubled
    /// until it suffices, and at most the final size. The block has at least one byte, and at most the final size.
    #[inline(always)]
    pub fn chunk_size(&self, size: u64) -> u64
        requires sizes { AreSizes self.now.chunk_size self.now.final_chunk_size (self.now.atom_mask + 1) }
        requires nonempty { 0 < size }
        requires fits { size ≤ self.now.final_chunk_size }
        ensures is { result ≡ grown_chunk self.now.chunk_size self.now.final_chunk_size size }
        ensures some { 0 < result }
    {
        if size <= self.chunk_size {
            return self.chunk_size;
        }
        let multiple = next_power_of_two((size - 1) / self.chunk_size + 1);
        self.chunk_size
            .saturating_mul(multiple)
            .min(self.final_chunk_size)
    }

    /// A chunk of `whole` bytes, at most the final size, was made: the next one is twice as large, and at most the final
    /// size.
    #[inline(always)]
    pub fn grow(&mut self, whole: u64)
        requires sizes { AreSizes self.old.chunk_size self.old.final_chunk_size (self.old.atom_mask + 1) }
        requires bound { whole ≤ self.old.final_chunk_size }
        ensures { self.new ≡ record self.old { chunk_size = doubled_chunk self.old.final_chunk_size whole } }
    {
        self.chunk_size = (2 * whole).min(self.final_chunk_size);
    }

    /// Whether `size` bytes in whole atoms fit the largest chunk.
    #[inline(always)]
    pub fn fits_a_chunk(&self, size: u64) -> bool
        requires { AreSizes self.now.chunk_size self.now.final_chunk_size (self.now.atom_mask + 1) }
        ensures { result ≡ nat_le (up size (self.now.atom_mask + 1)) self.now.final_chunk_size }
    {
        // (the largest chunk has whole atoms already)
        size <= self.final_chunk_size
    }

    /// A size in whole atoms.
    #[inline(always)]
    fn rounded_size(&self, size: u64) -> u64
        requires sizes { AreSizes self.now.chunk_size self.now.final_chunk_size (self.now.atom_mask + 1) }
        requires nonempty { 0 < size }
        requires fits { up size (self.now.atom_mask + 1) ≤ self.now.final_chunk_size }
        ensures { result ≡ up size (self.now.atom_mask + 1) }
    {
        let last = size - 1;
        last - (last & self.atom_mask) + (self.atom_mask + 1)
    }
}
