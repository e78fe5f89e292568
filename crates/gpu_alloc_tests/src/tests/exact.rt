//! Drawn lists of calls of the allocator of exact runs.

ghost use Rattle.std.specs.Prelude.{◌<◌};
ghost use Rattle.gpu_alloc.specs.AlignMasks.{IsAlignMask};
ghost use Rattle.gpu_alloc.specs.Steps.{Begins};

use super::drawn::{Came, Done, Keys, State, Store, atom_mask, range_of, state_of};
use super::lists::{FIRST, LARGEST, MOST, Range, Rule, try_runs};
use super::offers::{LOCAL, offer};
use super::same::holds;
use gpu_alloc::heap::Heap;
use gpu_alloc::steps::Steps;
use gpu_alloc::{AllocationError, AllocationFlags};
use gpu_alloc_base::free_list_block::{into_parts, key_of};
use gpu_alloc_fit::{FitAllocator, FitBlock};
use gpu_alloc_types::MemoryObject;
use gpu_sim::{Cause, Question, Sim, SimMemory};
use std::alloc::{AllocError, Global};
use std::marker::{Brand, Model};
use std::process::Abort;
use std::sync::ledger::{Blank, Ledger};
use std::test::Fail;

/// An allocator with its device, its ledger and its count of objects. Contracts see the allocator.
struct Exact {
    allocator: FitAllocator<SimMemory>,
    device: Sim,
    heap: Heap,
    remaining: u32,
}

impl Model for Exact {
    ghost use Rattle.std.specs.Prelude.{◌≡◌};
    ghost use Rattle.gpu_alloc.specs.Accounts.{IsCounted, chunks_and_remaining};
    ghost use Rattle.gpu_alloc_fit.specs.Codes.{fitting_code};
    ghost use Rattle.gpu_alloc_fit.specs.Fit.{Agrees, FitState};
    ghost use Rattle.gpu_alloc_fit.specs.FitSound.{IsSoundFit};
    ghost use Rattle.gpu_sim.specs.Sim.{objects_of};

    ghost Value = { FitState };

    ghost coded = { fitting_code };

    ghost view = { λ c. c.allocator };

    ghost invariant = { λ c. Agrees c.allocator (c.device).properties (objects_of c.device) ×
        (IsCounted ((c.allocator).space).chunks c.heap c.remaining ×
        ((chunks_and_remaining ((c.allocator).space).chunks c.remaining ≡ 3) ×
        (IsSoundFit c.allocator × ((c.allocator).final_chunk ≡ 32768)))) };
}

impl Exact {
    /// The refusal that is known before a request. Counts nothing.
    fn refusal<L: Ledger>(
        &mut self,
        rt: &impl Abort,
        size: u64,
        align_mask: u64,
        blank: Blank,
    ) -> Option<AllocationError>
        requires begins { Begins blank L.name L.parts }
        requires nonempty { 0 < size }
        requires alignment { IsAlignMask align_mask }
    {
        assert!(rt; size <= LARGEST);
        let mut looks = Steps::<L>::new(blank);
        self.allocator
            .refuses(size, align_mask, &self.heap, self.remaining, &mut looks)
    }

    /// Makes a request. Counts nothing.
    fn grant<L: Ledger>(
        &mut self,
        rt: &impl Abort,
        size: u64,
        align_mask: u64,
        blank: Blank,
    ) -> Came<FitBlock<SimMemory>>
        requires begins { Begins blank L.name L.parts }
        requires nonempty { 0 < size }
        requires alignment { IsAlignMask align_mask }
    {
        assert!(rt; size <= LARGEST);
        self.allocator.alloc(
            &mut self.device,
            size,
            align_mask,
            AllocationFlags::empty(),
            &mut self.heap,
            &mut self.remaining,
            &mut Steps::<L>::new(blank),
        )
    }

    /// Finds a block under its own key, and returns it under this one, if any. Counts nothing.
    fn put_back<L: Ledger>(
        &mut self,
        rt: &impl Abort,
        block: FitBlock<SimMemory>,
        key: Option<usize>,
        blank: Blank,
    )
        requires begins { Begins blank L.name L.parts }
    {
        let (memory, slot, own) = into_parts(block);
        let found = self
            .allocator
            .find(own, memory.object(), slot.offset, slot.size);
        let Some((slot, under)) = found else {
            panic!(rt; "a block that is not found");
        };
        holds(rt, under == own, "a block under another key");
        self.allocator.dealloc(
            &mut self.device,
            FitBlock::new(memory, slot, key.unwrap_or(own)),
            &mut self.heap,
            &mut self.remaining,
            &mut Steps::<L>::new(blank),
        );
    }
}

impl Store for Exact {
    type Block = FitBlock<SimMemory>;

    fn new(alloc: Global, by_atoms: bool) -> Result<Exact, Fail> {
        let atom_mask = atom_mask(by_atoms);
        let device = Sim::new(alloc, offer(&[LOCAL], 1))?;
        let allocator = FitAllocator::new(alloc, FIRST, LARGEST, 0, LOCAL.props, atom_mask);
        Ok(Exact {
            allocator,
            device,
            heap: Heap::new(1 << 20),
            remaining: MOST,
        })
    }

    fn refuse(&mut self, nth: u64) -> Done {
        self.device.refuse(Question::Allocate, nth, Cause::Device)
    }

    fn told(&mut self, rt: &impl Abort, size: u64, align_mask: u64) -> Option<AllocationError> {
        self.refusal::<Brand>(rt, size, align_mask, Blank::new(1))
    }

    fn ask(&mut self, rt: &impl Abort, size: u64, align_mask: u64) -> Came<Self::Block> {
        self.grant::<Brand>(rt, size, align_mask, Blank::new(1))
    }

    fn place_of(_rt: &impl Abort, block: &FitBlock<SimMemory>) -> (Range, usize) {
        let place = range_of(block.memory().object(), block.offset(), block.size());
        (place, key_of(block))
    }

    fn dealloc(&mut self, rt: &impl Abort, block: FitBlock<SimMemory>, key: Option<usize>) {
        self.put_back::<Brand>(rt, block, key, Blank::new(1));
    }

    fn clean(&mut self) {
        self.allocator
            .cleanup(&mut self.device, &mut self.heap, &mut self.remaining);
    }

    fn searches(&self) -> u64 {
        self.allocator.searches()
    }

    fn state(&self) -> State {
        state_of(&self.device, &self.heap, self.remaining)
    }

    fn free_ranges(&self, alloc: Global) -> Result<Vec<Range>, AllocError> {
        self.allocator.free_ranges(alloc)
    }

    fn end(self, rt: &impl Abort) {
        let Exact {
            allocator,
            device,
            heap: _,
            remaining,
        } = self;
        drop(device);
        holds(rt, remaining == MOST, "objects held at the end");
        assert!(rt; allocator.is_empty());
        allocator.close();
    }
}

/// Whatever is allocated and returned, each block lies exactly as long as requested at the last place of a free run
/// that its class allows, or begins a chunk where no run has room. A wholly free chunk is released where there is
/// another one, and no block is searched for by its own key. If not, blocks would share bytes, a device would be asked
/// for chunks that nobody needs, long runs would be cut up while short ones have room, or returns would be slow.
#[test]
fn drawn_calls_leave_exact_runs(rt: HostRuntime) -> Result<(), Fail> {
    try_runs::<Exact>(&rt, rt.alloc(), 31, Rule::ByClass, Keys::Own)
}

/// A block is returned whatever key it has. If not, a store would free another block in its place.
#[test]
fn a_block_of_an_exact_run_comes_back_under_any_key(rt: HostRuntime) -> Result<(), Fail> {
    try_runs::<Exact>(&rt, rt.alloc(), 32, Rule::ByClass, Keys::Drawn)
}
