//! Memory of frames in flight.

ghost use Rattle.std.specs.Prelude.{◌≡◌, ℕ, ◌+◌, ◌<◌, ◌++◌, [], ◌∷◌, drop, All, List, length, IfOk, IfErr, OnOk, OnErr, IsSome, IsTrue, slice_get, slice_index, sum, take, option_copied};
ghost use Rattle.std.specs.FinSet as set;
ghost use Rattle.gpu_alloc_types.specs.Properties.{IsUsable, properties_of};
ghost use Rattle.gpu_alloc.specs.Owned.{AreOwned};
ghost use Rattle.gpu_alloc.specs.Request.{IsAskable};
ghost use Rattle.gpu_alloc.specs.Served.{ServesFirst};
ghost use Rattle.gpu_clients.specs.Frames.{beside, LeavesQueued};

mod queue;

use gpu_alloc::{AllocationError, Config, DeviceProperties, MemoryBlock, Request};
use gpu_alloc_types::{MemoryObject, ObjectDevice};
use queue::Queue;
use std::alloc::{Allocator, Global};
use std::collections::VecDeque;
use std::marker::Model;

/// Blocks of the frames in flight, each of which is freed with its frame, the oldest frame first. It cannot be dropped:
/// [`end`](FramePlanner::end) ends it.
pub struct FramePlanner<M: MemoryObject, D: ObjectDevice<M>, A: Allocator + Copy = Global> {
    hand: Queue<M, D, A>,
    counts: VecDeque<usize, A>,
}

impl<M: MemoryObject, D: ObjectDevice<M>, A: Allocator + Copy> Model for FramePlanner<M, D, A> {
    ghost use Rattle.std.specs.Prelude.{◌≡◌, sum, length};
    ghost use Rattle.gpu_clients.specs.Frames.{PlannerState, planner_code};

    ghost Value = { PlannerState D };

    ghost coded = { planner_code D.code };

    ghost view = { λ p. record { hand = p.hand; counts = p.counts.items } };

    ghost invariant = { λ p. sum p.counts.items ≡ length p.hand.blocks };
}

impl<M: MemoryObject, D: ObjectDevice<M>, A: Allocator + Copy> FramePlanner<M, D, A> {
    /// A planner without flights, over a device with these properties. Its tables take host memory from `alloc`.
    ///
    /// The properties must be usable (`DeviceProperties::is_usable`) and the device's own. The only error is want of
    /// host memory: the device comes back unchanged.
    pub fn new(alloc: A, config: Config, props: DeviceProperties<'_>, device: D) -> Result<Self, D>
        requires usable { IsUsable (properties_of props) }
        requires same { D.properties device ≡ properties_of props }
        ensures none { IfOk result (λ planner. planner.counts ≡ []) }
        ensures empty { IfOk result (λ planner. planner.hand.blocks ≡ []) }
        ensures properties { IfOk result (λ planner. planner.hand.allocator.properties ≡ properties_of props.entry) }
        ensures beside { IfOk result (λ planner. (name : ℕ) → beside D.objects planner.hand name ≡ D.objects device name) }
        ensures given_back { IfErr result (λ other. other ≡ device) }
    {
        match Queue::new(alloc, config, props, device) {
            Ok(hand) => Ok(FramePlanner {
                hand,
                counts: VecDeque::new(alloc),
            }),
            Err(device) => Err(device),
        }
    }

    /// Begins a flight with a block for each request, in their order: all of them, or none.
    ///
    /// Each request must be askable (`Request::is_askable`, with the device's `buffer_device_address`). The errors are
    /// those of `GpuAllocator::alloc`, and `OutOfHostMemory` where there is no memory for the table. The flights are
    /// then unchanged.
    pub fn begin_flight(&mut self, requests: &[Request]) -> Result<(), AllocationError>
        requires askable { All (IsAskable (self.old.hand.allocator.properties).buffer_device_address) requests.now }
        ensures begun { OnOk result (self.new.counts ≡ self.old.counts ++ length requests.now ∷ []) }
        ensures granted { OnOk result
            (ServesFirst requests.now (length requests.now) self.old.hand.blocks self.new.hand.blocks) }
        ensures refused { OnErr result (self.new.counts ≡ self.old.counts) }
        ensures as_before { OnErr result (self.new.hand.blocks ≡ self.old.hand.blocks) }
        ensures leaves { LeavesQueued D.objects self.old.hand self.new.hand self.old.hand.blocks }
    {
        self.hand.keeps_blocks();
        if self.counts.reserve(1).is_err() {
            return Err(AllocationError::OutOfHostMemory);
        }
        self.hand.take_all(requests)?;
        self.counts.push_back_reserved(requests.len());
        Ok(())
    }

    /// Frees the blocks of the oldest flight, mapped or not, and returns whether there was a flight. It allocates
    /// nothing and cannot fail.
    pub fn retire_oldest(&mut self) -> bool
        ensures retired { IsTrue result → (count : ℕ) × (self.old.counts ≡ count ∷ self.new.counts)
            × (self.new.hand.blocks ≡ drop count self.old.hand.blocks) }
        ensures none { (IsTrue result → ⊥) → (self.old.counts ≡ []) × (self.new ≡ self.old) }
        ensures leaves { LeavesQueued D.objects self.old.hand self.new.hand self.new.hand.blocks }
    {
        match self.counts.pop_front() {
            Some(count) => {
                self.hand.dealloc_first(count);
                true
            }
            None => false,
        }
    }

    /// How many flights there are.
    pub fn flights(&self) -> usize
        ensures { result ≡ length self.now.counts }
    {
        self.counts.len()
    }

    /// A block of a flight, by its place among the flight's requests, or `None` where there is no such place. The
    /// oldest flight is flight 0. It takes time linear in the flights before this one.
    #[tactic(auto, using(std::proofs::lemmas::List::Sums::sum_by_more_le))]
    pub fn block(&self, flight: usize, index: usize) -> Option<&MemoryBlock<M>>
        ensures found { flight < length self.now.counts → index < slice_index self.now.counts flight
            → option_copied result ≡ slice_get self.now.hand.blocks (sum (take flight self.now.counts) + index) }
        ensures none { IsSome result → (flight < length self.now.counts) × (index < slice_index self.now.counts flight) }
    {
        if flight >= self.counts.len() || index >= self.counts[flight] {
            return None;
        }
        // A place among all blocks is at most their number.
        let _ = self.hand.len();
        let mut first = 0;
        for earlier in 0..flight {
            first += self.counts[earlier];
        }
        self.hand.block(first + index)
    }

    /// A lemma about every planner, whatever calls were made: does nothing at run time. Each block is live, and two at
    /// different places, such as those of two flights, share no byte; and nothing else is live.
    pub fn keeps_blocks(&self)
        ensures owned { AreOwned self.now.hand.allocator self.now.hand.blocks }
        ensures live { set.len self.now.hand.allocator.live ≡ length self.now.hand.blocks }
        ensures counted { sum self.now.counts ≡ length self.now.hand.blocks }
    {
        self.hand.keeps_blocks();
        let _ = &self.counts;
    }

    /// Frees every block, and then returns the device, which no longer holds anything of the planner's. It allocates
    /// nothing and cannot fail.
    pub fn end(self) -> D
        ensures beside { (name : ℕ) → D.objects result name ≡ beside D.objects self.hand name }
    {
        let FramePlanner { hand, counts: _ } = self;
        hand.end()
    }
}
