//! Lists of calls of a store, drawn from a fixed seed. Where each block lies, what the device is asked for, what is
//! held and what is free is compared with a plain model. What other drawn lists share stands here too: the numbers, and
//! how often each case occurred.

ghost use Rattle.std.specs.Prelude.{◌≤◌, ◌<◌, ◌+◌, ◌^◌, IsTrue};
ghost use Rattle.std.specs.Int.{is_power_of_two};
ghost use Rattle.gpu_alloc.specs.AlignMasks.{IsAlignMask};
ghost use Rattle.gpu_alloc.specs.FreeSpace.{IsMultipleOf};

use super::same::{holds, same, same_at};
use gpu_alloc::heap::Heap;
use gpu_alloc::laws::align_masks_of_powers;
use gpu_alloc::{AllocationError, FreeRange};
use gpu_sim::{Question, Sim};
use std::alloc::{AllocError, Global};
use std::process::Abort;
use std::test::Fail;

/// Pseudorandom numbers, the same in each run.
#[derive(Drop)]
pub(super) struct Chance {
    pub(super) state: u64,
}

impl Chance {
    /// The next number, below 2^31.
    pub(super) fn next(&mut self) -> u64 {
        self.state = self
            .state
            .wrapping_mul(6364136223846793005)
            .wrapping_add(1442695040888963407);
        self.state >> 33
    }

    /// A size of 1 to 8192 bytes, small ones as often as large ones.
    pub(super) fn size(&mut self) -> u64
        ensures { 0 < result }
    {
        let below = self.next() % 14;
        (self.next() >> (18 + below)).saturating_add(1)
    }

    /// The mask of an alignment of up to 4096 bytes, and often of 1.
    pub(super) fn align_mask(&mut self) -> u64
        ensures { IsAlignMask result }
    {
        if self.next() % 4 == 0 {
            mask_of((self.next() % 13) as u32)
        } else {
            mask_of(0)
        }
    }
}

/// The mask of an alignment of 2^order bytes.
fn mask_of(order: u32) -> u64
    requires { order < 63 }
    ensures { IsAlignMask result }
{
    align_masks_of_powers();
    (1 << order) - 1
}

/// The mask of the atom of a store: of one byte, or of 64. Whole atoms fill a first chunk and a largest one.
pub(super) fn atom_mask(by_atoms: bool) -> u64
    ensures power { IsTrue (is_power_of_two (result + 1)) }
    ensures bound { result + 1 ≤ 2 ^ 62 }
    ensures starting { IsMultipleOf (result + 1) 8192 }
    ensures largest { IsMultipleOf (result + 1) 32768 }
{
    if by_atoms { 63 } else { 0 }
}

/// One more.
pub(super) fn count(number: &mut u64) {
    *number = number.saturating_add(1);
}

/// Each of these cases must have occurred at least `least` times. The tally has a number for each.
pub(super) fn came_often(rt: &impl Abort, cases: &[&str], tally: &[u64], least: u64) {
    holds(rt, cases.len() <= tally.len(), "a case that is not counted");
    for (case, times) in cases.iter().zip(tally.iter()) {
        let often = *times >= least;
        same_at(rt, "it came often enough:", &(case, times), &often, &true);
    }
}

/// How many calls a list has, before those that return what is left.
const CALLS: u64 = 96;

/// The refusal that is known before a request, and where its block lies or why it is refused.
pub(super) type Answer = (Option<AllocationError>, Result<FreeRange, AllocationError>);

/// A block, or why there is none.
pub(super) type Came<B> = Result<B, AllocationError>;

/// The result of a step of a model, which takes memory.
pub(super) type Done = Result<(), AllocError>;

/// How often a device was asked for a chunk, and for how many bytes the last time. Then how many objects are held, of
/// how many bytes, and how many more may be.
pub(super) type State = ((u64, Option<u64>), (usize, u128, u32));

/// The state by a device, its ledger and its count of objects.
pub(super) fn state_of(device: &Sim, heap: &Heap, remaining: u32) -> State {
    let size = match device.last_allocation() {
        Some((size, _, _)) => Some(size),
        None => None,
    };
    let asked = (device.asked(Question::Allocate), size);
    (asked, (device.objects(), heap.used(), remaining))
}

/// The range of an object from this start on, of this length.
pub(super) fn range_of(object: u64, start: u64, length: u64) -> FreeRange {
    FreeRange {
        object,
        start,
        end: start.saturating_add(length),
    }
}

/// How many bytes a range has.
pub(super) fn length_of(range: &FreeRange) -> u64 {
    range.end.saturating_sub(range.start)
}

/// How many of these chunks there are, of how many bytes, and how many more there may be.
pub(super) fn held_of(chunks: &[FreeRange], most: u32) -> (usize, u128, u32) {
    let mut bytes = 0u128;
    let mut remaining = most;
    for chunk in chunks {
        bytes = bytes.saturating_add(u128::from(chunk.end));
        remaining = remaining.saturating_sub(1);
    }
    (chunks.len(), bytes, remaining)
}

/// An allocator of chunks of one device-local type, with its device, its ledger and its count of objects. Contracts see
/// nothing of it.
pub(super) trait Store: Sized {
    /// What it gives out.
    type Block;

    /// One that holds nothing, by bytes or by atoms of 64 bytes.
    fn new(alloc: Global, by_atoms: bool) -> Result<Self, Fail>;

    /// Has the device refuse a question for a chunk, by its number from 1.
    fn refuse(&mut self, nth: u64) -> Done;

    /// The refusal that is known before a request for this many bytes at a multiple of the mask plus one.
    fn told(&mut self, rt: &impl Abort, size: u64, align_mask: u64) -> Option<AllocationError>
        requires nonempty { 0 < size }
        requires alignment { IsAlignMask align_mask };

    /// Makes such a request.
    fn ask(&mut self, rt: &impl Abort, size: u64, align_mask: u64) -> Came<Self::Block>
        requires nonempty { 0 < size }
        requires alignment { IsAlignMask align_mask };

    /// Where a block lies, and its key.
    fn place_of(rt: &impl Abort, block: &Self::Block) -> (FreeRange, usize);

    /// Returns a block, which must be live, under this key if there is one.
    fn dealloc(&mut self, rt: &impl Abort, block: Self::Block, key: Option<usize>);

    /// Releases each wholly free chunk.
    fn clean(&mut self);

    /// How often all live blocks and free runs were searched, if that is counted.
    fn searches(&self) -> u64 {
        0
    }

    /// What was asked, and what is held.
    fn state(&self) -> State;

    /// What is free, by object, then by start.
    fn free_ranges(&self, alloc: Global) -> Result<Vec<FreeRange>, AllocError>;

    /// Ends the allocator, which holds nothing.
    fn end(self, rt: &impl Abort);
}

/// The expected results of the calls of a store.
pub(super) trait Plain {
    /// Begins a list, before which nothing is held. Returns which question for a chunk the device is to refuse, or 0.
    fn open(&mut self, chance: &mut Chance, by_atoms: bool) -> u64;

    /// Draws a call.
    fn call(&self, chance: &mut Chance) -> Call;

    /// Draws the size of a request.
    fn size(&self, chance: &mut Chance) -> u64
        ensures { 0 < result };

    /// Takes in the answer to a request, which must be right.
    fn take(&mut self, rt: &impl Abort, size: u64, align_mask: u64, answer: Answer) -> Done;

    /// Returns the block at this place.
    fn put_back(&mut self, rt: &impl Abort, at: usize) -> Done;

    /// Releases each wholly free chunk.
    fn clean(&mut self) -> Done;

    /// What was asked, and what is held.
    fn state(&self) -> State;

    /// What is free, by object, then by start.
    fn free(&self) -> &[FreeRange];
}

/// A request, the return of a block, or a cleanup.
#[derive(Clone, Copy)]
pub(super) enum Call {
    Take,
    Return,
    Clean,
}

/// Under which keys blocks are returned.
#[derive(Clone, Copy, PartialEq, Eq)]
pub(super) enum Keys {
    /// Their own.
    Own,

    /// A drawn key: the block's own, that of another block, or an invalid one.
    Drawn,
}

/// A store with the blocks that it gave out.
struct Hand<S: Store> {
    alloc: Global,
    store: S,
    blocks: Vec<S::Block>,
}

impl<S: Store> Hand<S> {
    /// One without blocks. It has room for as many as a list has calls.
    fn new(alloc: Global, by_atoms: bool) -> Result<Hand<S>, Fail> {
        let blocks = Vec::with_capacity(alloc, CALLS as usize)?;
        match S::new(alloc, by_atoms) {
            Ok(store) => Ok(Hand {
                alloc,
                store,
                blocks,
            }),
            Err(e) => {
                blocks.destroy_empty();
                Err(e)
            }
        }
    }

    /// Asks which refusal is known before a request, and then makes it. Keeps the block. Neither searches for a block.
    fn take(&mut self, rt: &impl Abort, size: u64, align_mask: u64) -> Answer
        requires nonempty { 0 < size }
        requires alignment { IsAlignMask align_mask }
    {
        holds(rt, self.blocks.len() < self.blocks.capacity(), "no place");
        let told = self.store.told(rt, size, align_mask);
        let came = self.store.ask(rt, size, align_mask);
        match came {
            Ok(block) => {
                let (place, _) = S::place_of(rt, &block);
                self.blocks.push_reserved(block);
                (told, Ok(place))
            }
            Err(refusal) => {
                let again = self.store.told(rt, size, align_mask);
                same(rt, "what is told again", &again, &told);
                (told, Err(refusal))
            }
        }
    }

    /// A key, or `None` for the block's own.
    fn draw_key(&self, rt: &impl Abort, chance: &mut Chance, keys: Keys) -> Option<usize> {
        if keys == Keys::Own {
            return None;
        }
        match chance.next() % 4 {
            0 => None,
            1 => Some(usize::MAX),
            2 => Some(chance.next() as usize % 64),
            _ => match self.blocks.get(chance.next() as usize % 8) {
                Some(block) => Some(S::place_of(rt, block).1),
                None => None,
            },
        }
    }

    /// Returns the block at this place, under this key if there is one. Its own key is not searched for.
    fn dealloc(&mut self, rt: &impl Abort, at: usize, key: Option<usize>) {
        assert!(rt; at < self.blocks.len());
        let block = self.blocks.remove(at);
        let most = self
            .store
            .searches()
            .saturating_add(u64::from(key.is_some()));
        self.store.dealloc(rt, block, key);
        holds(rt, self.store.searches() <= most, "searched by its own key");
    }

    /// Compares what was asked, what is held and what is free.
    fn compare(&self, rt: &impl Abort, plain: &impl Plain) {
        let (came, wanted) = (self.store.state(), plain.state());
        same(rt, "what was asked and is held", &came, &wanted);
        match self.store.free_ranges(self.alloc) {
            Ok(found) => same(rt, "what is free", &found.as_slice(), &plain.free()),
            Err(_) => panic!(rt; "no memory"),
        }
    }

    /// Ends the store, which holds nothing.
    fn end(self, rt: &impl Abort) {
        let Hand {
            alloc: _,
            store,
            blocks,
        } = self;
        holds(rt, blocks.is_empty(), "blocks at the end");
        blocks.destroy_empty();
        store.end(rt);
    }
}

/// Makes a drawn call, and compares its result. A return takes one of the blocks in hand, if there is one.
fn step<S: Store>(
    rt: &impl Abort,
    hand: &mut Hand<S>,
    plain: &mut impl Plain,
    chance: &mut Chance,
    keys: Keys,
    call: Call,
) -> Done {
    match call {
        Call::Take => {
            let size = plain.size(chance);
            let align_mask = chance.align_mask();
            let answer = hand.take(rt, size, align_mask);
            plain.take(rt, size, align_mask, answer)?;
        }
        Call::Return if hand.blocks.is_empty() => {}
        Call::Return => {
            let at = chance.next() as usize % hand.blocks.len();
            let key = hand.draw_key(rt, chance, keys);
            hand.dealloc(rt, at, key);
            plain.put_back(rt, at)?;
        }
        Call::Clean => {
            hand.store.clean();
            plain.clean()?;
        }
    }
    hand.compare(rt, plain);
    Ok(())
}

/// Makes the calls of a list, more than half of which allocate a block, and then returns what is left and cleans up.
fn run<S: Store>(
    rt: &impl Abort,
    hand: &mut Hand<S>,
    plain: &mut impl Plain,
    chance: &mut Chance,
    keys: Keys,
) -> Done {
    for _ in 0..CALLS {
        let call = plain.call(chance);
        step(rt, hand, plain, chance, keys, call)?;
    }
    for _ in 0..hand.blocks.len() {
        step(rt, hand, plain, chance, keys, Call::Return)?;
    }
    step(rt, hand, plain, chance, keys, Call::Clean)
}

/// Draws lists from this seed on, by bytes and by atoms in turn, and makes their calls.
pub(super) fn try_lists<S: Store>(
    rt: &impl Abort,
    alloc: Global,
    plain: &mut impl Plain,
    seed: u64,
    lists: u64,
    keys: Keys,
) -> Result<(), Fail> {
    let mut chance = Chance { state: seed };
    for nth in 0..lists {
        let by_atoms = nth % 2 == 1;
        let refused = plain.open(&mut chance, by_atoms);
        let mut hand = Hand::<S>::new(alloc, by_atoms)?;
        same(rt, "a plan", &hand.store.refuse(refused), &Ok(()));
        let ran = run(rt, &mut hand, plain, &mut chance, keys);
        same(rt, "a list", &ran, &Ok(()));
        let (_, (objects, bytes, _)) = plain.state();
        same(rt, "what is held at the end", &(objects, bytes), &(0, 0));
        hand.end(rt);
    }
    Ok(())
}
