//! Drawn lists of calls of the buddy allocator, and their expected results by plain lists of free pieces and live
//! blocks.

ghost use Rattle.std.specs.Prelude.{◌<◌};
ghost use Rattle.gpu_alloc.specs.AlignMasks.{IsAlignMask};
ghost use Rattle.gpu_alloc.specs.Steps.{Begins};

use super::drawn::{
    Answer, Call, Came, Chance, Done, Keys, Plain, State, Store, came_often, count, held_of,
    length_of, range_of, state_of, try_lists,
};
use super::lists::{front_of, is_used};
use super::offers::{LOCAL, offer};
use super::same::{holds, never_with, same, same_at};
use gpu_alloc::buddy::{BuddyAllocator, BuddyBlock};
use gpu_alloc::heap::Heap;
use gpu_alloc::steps::Steps;
use gpu_alloc::{AllocationError, AllocationFlags, FreeRange};
use gpu_alloc_base::buddy_block::into_parts;
use gpu_alloc_types::MemoryObject;
use gpu_sim::{Cause, Question, Sim, SimMemory};
use std::alloc::{AllocError, Global};
use std::marker::{Brand, Model};
use std::process::Abort;
use std::sync::ledger::{Blank, Ledger};
use std::test::Fail;

/// How many lists are drawn.
const LISTS: u64 = 48;

/// How many objects may be held in all.
const MOST: u32 = 4096;

/// The size of the first chunk, in bytes, unless the first block is too large for it.
const FIRST: u64 = 8192;

/// A free piece, a live block or a chunk.
type Piece = FreeRange;

/// Whether a block has bytes of a piece.
fn meets(block: &Piece, piece: &Piece) -> bool {
    block.object == piece.object && block.start < piece.end && piece.start < block.end
}

/// The free pieces of chunks: a chunk, a half of it, or a half of that, and so on, where it is the largest without a
/// live block. They come by object, then by start.
pub(super) fn pieces_of(
    alloc: Global,
    chunks: &[Piece],
    live: &[Piece],
) -> Result<Vec<Piece>, AllocError> {
    let mut free = Vec::new(alloc);
    let mut rest = Vec::new(alloc);
    for chunk in chunks {
        rest.push(*chunk)?;
    }
    for _ in 0..u64::MAX {
        let Some(piece) = rest.pop() else {
            break;
        };
        if !live.iter().any(|block| meets(block, &piece)) {
            free.push(piece)?;
        } else if !live.contains(&piece) {
            let half = length_of(&piece) / 2;
            rest.push(range_of(piece.object, piece.start, half))?;
            rest.push(range_of(piece.object, piece.start.saturating_add(half), half))?;
        }
    }
    free.sort_unstable_by_key(|piece| (piece.object, piece.start));
    Ok(free)
}

/// The front of a shortest piece with room for this many bytes: of the one where the block lies, if it is as short.
pub(super) fn front_of_shortest(pieces: &[Piece], size: u64, came: Option<Piece>) -> Option<Piece> {
    let mut shortest = u64::MAX;
    let mut front = None;
    for piece in pieces {
        let room = length_of(piece);
        let here = Some(front_of(*piece, size));
        if room >= size && (room < shortest || room == shortest && here == came) {
            shortest = room;
            front = here;
        }
    }
    front
}

/// The cases that must occur in the lists.
const CASES: [&str; 3] = [
    "a chunk larger than the one before",
    "a chunk goes while others are held",
    "halves are joined",
];

/// The size of a block for a request: the least power of two that is not below its size and its alignment.
pub(super) fn block_size(size: u64, align_mask: u64) -> u64 {
    let mut length = 1;
    for _ in 0..63 {
        if length < size || length <= align_mask {
            length <<= 1;
        }
    }
    length
}

/// What is free, live and held by a plain list of each.
#[derive(Drop)]
struct Pieces {
    alloc: Global,

    /// What is free, by object, then by start.
    free: Vec<Piece>,

    /// The live blocks, in the order in which they were granted.
    live: Vec<Piece>,

    chunks: Vec<Piece>,

    /// The size of the latest chunk that was made.
    latest: u64,

    /// How often the device was asked for a chunk, and for how many bytes the last time.
    asked: (u64, Option<u64>),

    /// How often each case occurred: rows of [`CASES`].
    tally: [u64; 3],
}

impl Pieces {
    /// Finds what is free.
    fn find_free(&mut self) -> Done {
        self.free = pieces_of(self.alloc, self.chunks.as_slice(), self.live.as_slice())?;
        Ok(())
    }

    /// Begins the chunk of which a block is the front. It has twice the bytes of the block, or as many as the latest
    /// chunk where that is more.
    fn begin(&mut self, rt: &impl Abort, block: Piece) -> Done {
        let length = self.latest.max(length_of(&block) << 1);
        count(&mut self.asked.0);
        self.asked.1 = Some(length);
        same_at(rt, "the start in a new chunk of", &block, &block.start, &0);
        let is_held = is_used(block.object, self.chunks.as_slice());
        same_at(rt, "an object held before has", &block, &is_held, &false);
        if length > self.latest {
            count(&mut self.tally[0]);
        }
        self.latest = length;
        self.chunks.push(range_of(block.object, 0, length))?;
        Ok(())
    }
}

impl Plain for Pieces {
    fn open(&mut self, _chance: &mut Chance, _by_atoms: bool) -> u64 {
        self.latest = FIRST;
        self.asked = (0, None);
        0
    }

    fn call(&self, chance: &mut Chance) -> Call {
        if chance.next() % 16 < 9 {
            Call::Take
        } else {
            Call::Return
        }
    }

    fn size(&self, chance: &mut Chance) -> u64 {
        chance.size()
    }

    // The block is the front of a shortest free piece that is long enough, or, where there is none, of a new chunk.
    fn take(&mut self, rt: &impl Abort, size: u64, mask: u64, (told, came): Answer) -> Done {
        same(rt, "what is told", &told, &None);
        let Ok(block) = came else {
            return never_with(rt, "a request:", &came);
        };
        let length = block_size(size, mask);
        same_at(rt, "the size of", &block, &length_of(&block), &length);
        match front_of_shortest(self.free.as_slice(), length, came.ok()) {
            None => self.begin(rt, block)?,
            Some(front) => same(rt, "a front of a shortest piece", &block, &front),
        }
        self.live.push(block)?;
        self.find_free()
    }

    // Its chunk is released where no other block in it is live.
    fn put_back(&mut self, rt: &impl Abort, at: usize) -> Done {
        holds(rt, at < self.live.len(), "no such block");
        let block = self.live.remove(at);
        let free = self.free.len();
        if is_used(block.object, self.live.as_slice()) {
            self.find_free()?;
            if self.free.len() <= free {
                count(&mut self.tally[2]);
            }
            return Ok(());
        }
        self.chunks.retain(|chunk| chunk.object != block.object);
        if !self.chunks.is_empty() {
            count(&mut self.tally[1]);
        }
        self.find_free()
    }

    fn clean(&mut self) -> Done {
        Ok(())
    }

    fn state(&self) -> State {
        (self.asked, held_of(self.chunks.as_slice(), MOST))
    }

    fn free(&self) -> &[Piece] {
        self.free.as_slice()
    }
}

/// A buddy allocator with its device, its ledger and its count of objects. Contracts see the allocator.
struct Buddies {
    allocator: BuddyAllocator<SimMemory>,
    device: Sim,
    heap: Heap,
    remaining: u32,
}

impl Model for Buddies {
    ghost use Rattle.std.specs.Prelude.{◌≡◌};
    ghost use Rattle.gpu_alloc.specs.Accounts.{IsCounted, chunks_and_remaining};
    ghost use Rattle.gpu_alloc.specs.Buddy.{Agrees};
    ghost use Rattle.gpu_alloc.specs.BuddyState.{Buddy};
    ghost use Rattle.gpu_alloc.specs.Codes.{buddy_code};
    ghost use Rattle.gpu_sim.specs.Sim.{objects_of};

    ghost Value = { Buddy };

    ghost coded = { buddy_code };

    ghost view = { λ c. c.allocator };

    ghost invariant = { λ c. Agrees c.allocator (c.device).properties (objects_of c.device) ×
        (IsCounted (c.allocator).chunks c.heap c.remaining ×
        (chunks_and_remaining (c.allocator).chunks c.remaining ≡ 4096)) };
}

impl Buddies {
    /// The refusal that is known before a request, which counts nothing.
    fn told_uncounted<L: Ledger>(
        &self,
        size: u64,
        align_mask: u64,
        blank: Blank,
    ) -> Option<AllocationError>
        requires nonempty { 0 < size }
        requires alignment { IsAlignMask align_mask }
        requires begins { Begins blank L.name L.parts }
    {
        let looks = &mut Steps::<L>::new(blank);
        self.allocator
            .refuses(size, align_mask, &self.heap, self.remaining, looks)
    }

    /// Makes a request, which counts nothing.
    fn ask_uncounted<L: Ledger, K: Ledger>(
        &mut self,
        size: u64,
        align_mask: u64,
        looks: Blank,
        splits: Blank,
    ) -> Result<BuddyBlock<SimMemory>, AllocationError>
        requires nonempty { 0 < size }
        requires alignment { IsAlignMask align_mask }
        requires looks { Begins looks L.name L.parts }
        requires splits { Begins splits K.name K.parts }
    {
        self.allocator.alloc(
            &mut self.device,
            size,
            align_mask,
            AllocationFlags::empty(),
            &mut self.heap,
            &mut self.remaining,
            &mut Steps::<L>::new(looks),
            &mut Steps::<K>::new(splits),
        )
    }

    /// Finds a block under this key or its own, and returns it. Counts nothing.
    fn put_back<L: Ledger>(
        &mut self,
        rt: &impl Abort,
        block: BuddyBlock<SimMemory>,
        key: Option<usize>,
        blank: Blank,
    )
        requires begins { Begins blank L.name L.parts }
    {
        let (memory, leaf) = into_parts(block);
        let key = key.unwrap_or(leaf.index);
        let found = self
            .allocator
            .find(key, memory.object(), leaf.offset, leaf.size);
        same(rt, "a block that is found", &found, &Some(leaf));
        let Some(leaf) = found else {
            panic!(rt; "a block that is not found");
        };
        self.allocator.dealloc(
            &mut self.device,
            BuddyBlock::new(memory, leaf),
            &mut self.heap,
            &mut self.remaining,
            &mut Steps::<L>::new(blank),
        );
    }
}

impl Store for Buddies {
    type Block = BuddyBlock<SimMemory>;

    fn new(alloc: Global, _by_atoms: bool) -> Result<Buddies, Fail> {
        let device = Sim::new(alloc, offer(&[LOCAL], 1))?;
        match BuddyAllocator::new(alloc, 1, FIRST, 0, LOCAL.props, 0) {
            Ok(allocator) => Ok(Buddies {
                allocator,
                device,
                heap: Heap::new(1 << 20),
                remaining: MOST,
            }),
            Err(e) => {
                drop(device);
                Err(Fail::from(e))
            }
        }
    }

    fn refuse(&mut self, nth: u64) -> Done {
        self.device.refuse(Question::Allocate, nth, Cause::Device)
    }

    fn told(&mut self, _rt: &impl Abort, size: u64, align_mask: u64) -> Option<AllocationError> {
        self.told_uncounted::<Brand>(size, align_mask, Blank::new(1))
    }

    fn ask(&mut self, _rt: &impl Abort, size: u64, align_mask: u64) -> Came<Self::Block> {
        self.ask_uncounted::<Brand, Brand>(size, align_mask, Blank::new(1), Blank::new(1))
    }

    fn place_of(_rt: &impl Abort, block: &BuddyBlock<SimMemory>) -> (Piece, usize) {
        let place = range_of(block.memory().object(), block.offset(), block.size());
        (place, block.index())
    }

    fn dealloc(&mut self, rt: &impl Abort, block: BuddyBlock<SimMemory>, key: Option<usize>) {
        self.put_back::<Brand>(rt, block, key, Blank::new(1));
    }

    // No chunk without a live block is held between calls.
    fn clean(&mut self) {}

    fn state(&self) -> State {
        state_of(&self.device, &self.heap, self.remaining)
    }

    fn free_ranges(&self, _alloc: Global) -> Result<Vec<Piece>, AllocError> {
        self.allocator.free_ranges()
    }

    fn end(self, rt: &impl Abort) {
        let Buddies {
            allocator,
            device,
            heap: _,
            remaining,
        } = self;
        drop(device);
        holds(rt, remaining == MOST, "objects held at the end");
        allocator.close();
    }
}

/// Whatever is allocated and returned, each block is the front of a shortest free piece that is long enough, any of
/// those that are as short, or of a new chunk where there is none. Halves are joined, and a chunk without a live block
/// is released. If not, blocks would share bytes, or bytes would be lost.
#[test]
fn drawn_calls_leave_what_plain_lists_say(rt: HostRuntime) -> Result<(), Fail> {
    let mut pieces = Pieces {
        alloc: rt.alloc(),
        free: Vec::new(rt.alloc()),
        live: Vec::new(rt.alloc()),
        chunks: Vec::new(rt.alloc()),
        latest: FIRST,
        asked: (0, None),
        tally: [0; 3],
    };
    try_lists::<Buddies>(&rt, rt.alloc(), &mut pieces, 7, LISTS, Keys::Own)?;
    came_often(&rt, &CASES, &pieces.tally, LISTS / 2 + 1);
    Ok(())
}
