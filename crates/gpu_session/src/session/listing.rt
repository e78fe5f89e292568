//! What a session reports of itself apart from its replies.

ghost use Rattle.std.specs.Prelude.{◌≡◌, ◌↔◌, Contains, IfOk};
ghost use Rattle.gpu_session.specs.Listing.{IsNamed};
ghost use Rattle.gpu_session.specs.Sound.{IsSoundSession};
ghost use Rattle.gpu_session.specs.declared.session.listing.NamedSpan.{NamedSpan as Row};

use super::Session;
use gpu_alloc::{GpuAllocator, MemoryBlock};
use gpu_alloc_types::{MemoryDevice, MemoryObject};
use std::alloc::{AllocError, Allocator};

/// A live block's name, and where the block lies.
#[derive(Clone, Copy, Debug, PartialEq, Eq)]
pub struct NamedSpan {
    /// The block's name.
    pub name: u32,

    /// The name of its object.
    pub object: u64,

    /// Where it starts in the object, in bytes.
    pub offset: u64,

    /// Its size, in bytes.
    pub size: u64,
}

impl<M: MemoryObject, D: MemoryDevice<M>, A: Allocator + Copy> Session<M, D, A> {
    /// The allocator, as it is between two commands.
    pub fn allocator(&self) -> &GpuAllocator<M, A>
        ensures { result.now ≡ (self.now.books).allocator }
    {
        &self.allocator
    }

    /// The live blocks by name, each once, in no particular order.
    ///
    /// The list takes its memory from `alloc`, and the only error is want of it. Nothing changes.
    pub fn named_spans<B: Allocator>(&self, alloc: B) -> Result<Vec<NamedSpan, B>, AllocError>
        ensures exact { IfOk result (λ rows. (row : Row) → Contains rows.items row ↔ IsNamed self.now.books row) }
        ensures sound { IsSoundSession (D.properties self.now.device) (D.objects self.now.device) self.now.books }
    {
        self.keeps_sound();
        let mut rows = Vec::new(alloc);
        for (name, block) in self.blocks.iter() {
            rows.push(row_of(*name, block))?;
        }
        Ok(rows)
    }
}

/// Where a block of this name lies.
fn row_of<M: MemoryObject>(name: u32, block: &MemoryBlock<M>) -> NamedSpan
    ensures { result ≡ record {
      name = name;
      object = block.now.object;
      offset = block.now.offset;
      size = block.now.size;
    } }
{
    NamedSpan {
        name,
        object: block.memory().object(),
        offset: block.offset(),
        size: block.size(),
    }
}
