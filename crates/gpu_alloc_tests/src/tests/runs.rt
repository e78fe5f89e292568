//! Drawn lists of calls of the free-list allocator.

use super::drawn::{Came, Done, Keys, State, Store, atom_mask, range_of, state_of};
use super::lists::{FIRST, LARGEST, MOST, Range, Rule, try_runs};
use super::offers::{LOCAL, offer};
use super::same::{holds, same_at};
use gpu_alloc::freelist::{FreeListAllocator, FreeListBlock};
use gpu_alloc::heap::Heap;
use gpu_alloc::{AllocationError, AllocationFlags};
use gpu_alloc_base::free_list_block::{into_parts, key_of};
use gpu_alloc_types::MemoryObject;
use gpu_sim::{Cause, Question, Sim, SimMemory};
use std::alloc::{AllocError, Global};
use std::marker::Model;
use std::process::Abort;
use std::test::Fail;

/// A free-list allocator with its device, its ledger and its count of objects. Contracts see the allocator.
struct Listed {
    allocator: FreeListAllocator<SimMemory>,
    device: Sim,
    heap: Heap,
    remaining: u32,
}

impl Model for Listed {
    ghost use Rattle.std.specs.Prelude.{◌≡◌};
    ghost use Rattle.gpu_alloc.specs.Codes.{listing_code};
    ghost use Rattle.gpu_alloc.specs.Accounts.{IsCounted, chunks_and_remaining};
    ghost use Rattle.gpu_alloc.specs.FreeListAllocator.{Agrees};
    ghost use Rattle.gpu_alloc.specs.FreeListSound.{IsSoundFreeList};
    ghost use Rattle.gpu_alloc.specs.FreeListState.{FreeListState};
    ghost use Rattle.gpu_sim.specs.Sim.{objects_of};

    ghost Value = { FreeListState };

    ghost coded = { listing_code };

    ghost view = { λ c. c.allocator };

    ghost invariant = { λ c. Agrees c.allocator (c.device).properties (objects_of c.device) ×
        (IsCounted ((c.allocator).space).chunks c.heap c.remaining ×
        ((chunks_and_remaining ((c.allocator).space).chunks c.remaining ≡ 3) ×
        (IsSoundFreeList c.allocator × ((c.allocator).final_chunk ≡ 32768)))) };
}

impl Store for Listed {
    type Block = FreeListBlock<SimMemory>;

    fn new(alloc: Global, by_atoms: bool) -> Result<Listed, Fail> {
        let atom_mask = atom_mask(by_atoms);
        let device = Sim::new(alloc, offer(&[LOCAL], 1))?;
        let allocator = FreeListAllocator::new(alloc, FIRST, LARGEST, 0, LOCAL.props, atom_mask);
        Ok(Listed {
            allocator,
            device,
            heap: Heap::new(1 << 20),
            remaining: MOST,
        })
    }

    fn refuse(&mut self, nth: u64) -> Done {
        self.device.refuse(Question::Allocate, nth, Cause::Device)
    }

    fn told(&mut self, rt: &impl Abort, size: u64, align_mask: u64) -> Option<AllocationError> {
        assert!(rt; size <= LARGEST);
        self.allocator
            .refuses(size, align_mask, &self.heap, self.remaining)
    }

    fn ask(&mut self, rt: &impl Abort, size: u64, align_mask: u64) -> Came<Self::Block> {
        assert!(rt; size <= LARGEST);
        self.allocator.alloc(
            &mut self.device,
            size,
            align_mask,
            AllocationFlags::empty(),
            &mut self.heap,
            &mut self.remaining,
        )
    }

    fn place_of(rt: &impl Abort, block: &FreeListBlock<SimMemory>) -> (Range, usize) {
        let place = range_of(block.memory().object(), block.offset(), block.size());
        same_at(rt, "the chunk of", &place, &block.chunk(), &place.object);
        (place, key_of(block))
    }

    fn dealloc(&mut self, rt: &impl Abort, block: FreeListBlock<SimMemory>, key: Option<usize>) {
        let (memory, slot, own) = into_parts(block);
        assert!(rt; self.allocator.is_live(own, slot));
        self.allocator.dealloc(
            &mut self.device,
            FreeListBlock::new(memory, slot, key.unwrap_or(own)),
            &mut self.heap,
            &mut self.remaining,
        );
    }

    fn clean(&mut self) {
        self.allocator
            .cleanup(&mut self.device, &mut self.heap, &mut self.remaining);
    }

    fn state(&self) -> State {
        state_of(&self.device, &self.heap, self.remaining)
    }

    fn free_ranges(&self, _alloc: Global) -> Result<Vec<Range>, AllocError> {
        self.allocator.free_ranges()
    }

    fn end(self, rt: &impl Abort) {
        let Listed {
            allocator,
            device,
            heap: _,
            remaining,
        } = self;
        drop(device);
        holds(rt, remaining == MOST, "objects held at the end");
        allocator.close();
    }
}

/// Whatever is allocated and returned, each block is the tail of the last free run with room, or of a new chunk where
/// none has room. A wholly free chunk is released, except that of the last run before a cleanup. If not, blocks would
/// share bytes, bytes would be lost, or a device would be asked for chunks that nobody needs.
#[test]
fn drawn_calls_leave_what_live_blocks_say(rt: HostRuntime) -> Result<(), Fail> {
    try_runs::<Listed>(&rt, rt.alloc(), 11, Rule::Last, Keys::Own)
}

/// A block is returned whatever key it has: its own, that of another block, or an invalid one. If not, a list would
/// free another block in its place.
#[test]
fn a_block_comes_back_under_any_key(rt: HostRuntime) -> Result<(), Fail> {
    try_runs::<Listed>(&rt, rt.alloc(), 12, Rule::Last, Keys::Drawn)
}
