//! What a session must answer, and what it holds, by plain lists of objects and live blocks.

use super::{Ask, HEAPS};
use crate::tests::drawn::{Done, count, length_of, range_of};
use crate::tests::lists::{
    Range, Rule, chunk_size, first_block, is_used, kept_after, place, runs_of,
};
use crate::tests::pieces::{block_size, front_of_shortest, pieces_of};
use crate::tests::same::{holds, never_with, same_at};
use gpu_alloc::{AllocationError, Dedicated, MemoryForUsage, Sharing};
use gpu_report::ObjectKind;
use std::alloc::{AllocError, Global};
use std::process::Abort;

/// How often each case occurred in the drawn lists: rows of [`CASES`].
pub(super) type Tally = [u64; 17];

/// The cases that must occur in the lists.
pub(super) const CASES: [&str; 17] = [
    "a fit chunk four times as large as the first",
    "an atom over the least grain",
    "an alignment over the grain",
    "a transient block, beside a chunk of the other kind",
    "an object of its own: since it is required",
    "since it is preferred",
    "in a heap too small for chunks",
    "larger than the first chunk",
    "the first type is passed, and another serves",
    "no more objects",
    "over the budget",
    "the device refuses",
    "the device finds no host memory",
    "a chunk cannot be mapped",
    "of no type",
    "larger than its heap",
    "a buddy chunk larger than the first",
];

/// How a memory type serves a request.
#[derive(Clone, Copy, PartialEq, Eq)]
pub(super) enum Way {
    /// By an object of its own.
    Own,

    /// By a block of a buddy chunk.
    Buddy,

    /// By a block of a fit chunk.
    Fit,

    /// By a block of a free list.
    List,
}

/// A held object.
#[derive(Clone, Copy)]
struct Held {
    memory_type: u32,
    way: Way,
    range: Range,
}

/// The result of a request: a memory type and a range of it, or a refusal.
pub(super) type Came = Result<(u32, Range), AllocationError>;

/// Why a memory type is passed over, and in the end the refusal where each is.
const PASSED: AllocationError = AllocationError::OutOfDeviceMemory;

/// What a session holds and has live, how often the device was asked to make and to map an object, which of these
/// questions it refuses, and which cases the lists met.
#[derive(Drop)]
pub(super) struct Model {
    alloc: Global,

    /// How chunks are shared, apart from those of free lists.
    shared: Way,
    ranks: MemoryForUsage,
    atom_mask: u64,
    most: u32,
    plan: [u64; 3],

    /// The held objects in the order of their names.
    held: Vec<Held>,

    /// The live blocks, and the names that commands give them, in the order in which they were granted.
    live: Vec<Range>,
    pub(super) names: Vec<u32>,

    /// The least size of the next chunk of each way and memory type, if one was made before.
    next: [[u64; 4]; 4],
    made: u64,
    asked: u64,
    mapped: u64,
    pub(super) tally: Tally,
}

/// A memory type's heap, by index, with its size.
fn heap_of(memory_type: u32) -> (usize, u64) {
    match memory_type {
        0 | 1 => (0, HEAPS[0].size),
        2 => (1, HEAPS[1].size),
        _ => (2, HEAPS[2].size),
    }
}

/// A size, rounded up to a multiple of the mask plus one.
fn up(size: u64, mask: u64) -> u64 {
    size.saturating_add(mask) & !mask
}

impl Model {
    /// Nothing is held of a device with this atom that allows this many objects.
    pub(super) fn new(
        alloc: Global,
        sharing: Sharing,
        ranks: MemoryForUsage,
        atom: u64,
        most: u32,
        plan: [u64; 3],
        tally: Tally,
    ) -> Model {
        let shared = match sharing {
            Sharing::Buddy => Way::Buddy,
            Sharing::Fit => Way::Fit,
        };
        Model {
            alloc,
            shared,
            ranks,
            atom_mask: atom.saturating_sub(1),
            most,
            plan,
            held: Vec::new(alloc),
            live: Vec::new(alloc),
            names: Vec::new(alloc),
            next: [[0; 4]; 4],
            made: 0,
            asked: 0,
            mapped: 0,
            tally,
        }
    }

    /// The mask of what sizes and places are multiples of: of the atom, or of the grain.
    fn mask(&self, memory_type: u32, way: Way) -> u64 {
        let atom = if memory_type == 1 { self.atom_mask } else { 0 };
        match way {
            Way::Own => 0,
            Way::Fit => atom.max(255),
            Way::Buddy | Way::List => atom,
        }
    }

    /// The sizes of a first chunk and of a largest one: at most the 32nd part of a heap, in multiples of the mask plus
    /// one, and at least one. A buddy chunk has a power of two of bytes, and no largest size.
    fn sizes(&self, memory_type: u32, way: Way) -> (u64, u64) {
        let (_, heap) = heap_of(memory_type);
        let mask = self.mask(memory_type, way);
        let cut = |size: u64| (size.min(heap / 32) & !mask).max(mask.saturating_add(1));
        let (first, last) = (cut(8192), cut(131072));
        match way {
            Way::Buddy => (block_size(8192.min(heap / 32), 0), u64::MAX),
            Way::Fit => (first, last.min(first.saturating_mul(4))),
            Way::Own | Way::List => (first, last),
        }
    }

    /// How a memory type serves a request.
    fn way(&self, ask: &Ask, memory_type: u32) -> Way {
        match ask.hint {
            Some(Dedicated::Required) => Way::Own,
            Some(Dedicated::Preferred) if ask.request.size >= 1024 => Way::Own,
            _ => self.unhinted(ask, memory_type),
        }
    }

    /// How a memory type serves a request by its size and its usage: from any chunk of a free list or of buddies, or
    /// from a fit chunk what the first one has room for.
    fn unhinted(&self, ask: &Ask, memory_type: u32) -> Way {
        let heap = heap_of(memory_type).1 / 32;
        let (least, way) = if ask.is_brief() {
            (131072, Way::List)
        } else {
            (32768, self.shared)
        };
        let most = match way {
            Way::Own | Way::Buddy => heap,
            Way::Fit => self.sizes(memory_type, way).0,
            Way::List => self.sizes(memory_type, way).1,
        };
        let size = up(ask.request.size, self.mask(memory_type, way));
        if most <= heap && ask.request.size < least.min(heap) && size <= most {
            way
        } else {
            Way::Own
        }
    }

    /// What is free of a memory type, by chunk, then by start: of chunks of this kind, or of all.
    pub(super) fn gaps(
        &self,
        memory_type: u32,
        way: Option<Way>,
    ) -> Result<Vec<Range>, AllocError> {
        let mut gaps = Vec::new(self.alloc);
        for held in &self.held {
            if held.memory_type == memory_type && (way == None || way == Some(held.way)) {
                let mut live = Vec::new(self.alloc);
                for block in &self.live {
                    if block.object == held.range.object {
                        live.push(*block)?;
                    }
                }
                let (chunk, live) = ([held.range], live.as_slice());
                let free = match held.way {
                    Way::Buddy => pieces_of(self.alloc, &chunk, live)?,
                    Way::Own | Way::Fit | Way::List => runs_of(self.alloc, &chunk, live)?,
                };
                for gap in &free {
                    gaps.push(*gap)?;
                }
            }
        }
        Ok(gaps)
    }

    /// The expected result of a request: the actual one, if that is one of the permitted places. The questions to the
    /// device for it are counted, and what is made is held.
    fn decide(&mut self, ask: &Ask, came: Came) -> Result<Came, AllocError> {
        if ask.hint == Some(Dedicated::Required) && self.counts().0 == 0 {
            count(&mut self.tally[9]);
            return Ok(Err(AllocationError::TooManyObjects));
        }
        let mut passed = 0u64;
        for rank in 0..32 {
            let Some(memory_type) = self.ranks.types(ask.request.usage).get(rank).copied() else {
                break;
            };
            if ask.request.memory_types >> (memory_type & 31) & 1 == 1 {
                let wanted = self.try_type(ask, memory_type, came)?;
                if wanted != Err(PASSED) {
                    if passed > 0 && wanted.is_ok() {
                        count(&mut self.tally[8]);
                    }
                    return Ok(wanted);
                }
                count(&mut passed);
            }
        }
        if passed == 0 {
            count(&mut self.tally[14]);
            return Ok(Err(AllocationError::NoCompatibleMemoryTypes));
        }
        Ok(Err(PASSED))
    }

    /// How a memory type serves a request.
    fn try_type(&mut self, ask: &Ask, memory_type: u32, came: Came) -> Result<Came, AllocError> {
        if ask.request.size > heap_of(memory_type).1 {
            count(&mut self.tally[15]);
            return Ok(Err(PASSED));
        }
        let way = self.way(ask, memory_type);
        let mask = self.mask(memory_type, way);
        let align_mask = ask.request.align_mask.max(mask);
        let size = match way {
            Way::Buddy => block_size(ask.request.size, align_mask),
            Way::Own | Way::Fit | Way::List => up(ask.request.size, mask),
        };
        let gaps = self.gaps(memory_type, Some(way))?;
        let came = match came {
            Ok((_, block)) => Some(block),
            Err(_) => None,
        };
        let gaps = gaps.as_slice();
        let found = match way {
            Way::Buddy => front_of_shortest(gaps, size, came),
            Way::Own | Way::Fit | Way::List => place(
                rule_of(way),
                gaps,
                self.live.as_slice(),
                size,
                align_mask,
                came,
            ),
        };
        let served = match found {
            Some(block) => Ok(block),
            None => self.begin(memory_type, way, size, align_mask)?,
        };
        if let Ok(block) = served {
            self.count_way(ask, memory_type, way, block);
        }
        Ok(served.map(|block| (memory_type, block)))
    }

    /// Asks for an object, and finds a block of this size in it.
    fn begin(
        &mut self,
        memory_type: u32,
        way: Way,
        size: u64,
        align_mask: u64,
    ) -> Result<Result<Range, AllocationError>, AllocError> {
        let (heap, heap_size) = heap_of(memory_type);
        let (first, largest) = self.sizes(memory_type, way);
        let next = self.next[way as usize % 4][memory_type as usize % 4].max(first);
        let length = match way {
            Way::Own => size,
            Way::Buddy => next.max(size.saturating_mul(2)),
            Way::Fit | Way::List => chunk_size(next, size, largest),
        };
        let (remaining, _, used) = self.counts();
        if remaining == 0 {
            count(&mut self.tally[9]);
            return Ok(Err(AllocationError::TooManyObjects));
        }
        if used[heap % 3].saturating_add(u128::from(length)) > u128::from(heap_size) {
            count(&mut self.tally[10]);
            return Ok(Err(PASSED));
        }
        count(&mut self.asked);
        if self.asked == self.plan[0] {
            count(&mut self.tally[11]);
            return Ok(Err(PASSED));
        }
        if self.asked == self.plan[1] {
            count(&mut self.tally[12]);
            return Ok(Err(AllocationError::OutOfHostMemory));
        }
        count(&mut self.made);
        if way != Way::Own && (memory_type == 1 || memory_type == 2) {
            count(&mut self.mapped);
            if self.mapped == self.plan[2] {
                count(&mut self.tally[13]);
                return Ok(Err(AllocationError::OutOfHostMemory));
            }
        }
        match way {
            Way::Fit if length == first.saturating_mul(4) => count(&mut self.tally[0]),
            Way::Buddy if length > first => count(&mut self.tally[16]),
            _ => {}
        }
        let larger = match way {
            Way::Buddy => length,
            Way::Own | Way::Fit | Way::List => length.saturating_mul(2),
        };
        self.next[way as usize % 4][memory_type as usize % 4] = largest.min(larger);
        let range = range_of(self.made, 0, length);
        self.held.push(Held {
            memory_type,
            way,
            range,
        })?;
        Ok(Ok(first_block(rule_of(way), range, size, align_mask)))
    }

    /// Counts how a memory type served a request by this block.
    fn count_way(&mut self, ask: &Ask, memory_type: u32, way: Way, block: Range) {
        let heap = heap_of(memory_type).1 / 32;
        let mask = self.mask(memory_type, Way::Fit);
        let (first, _) = self.sizes(memory_type, Way::Fit);
        match way {
            Way::Fit if mask > 255 => count(&mut self.tally[1]),
            Way::Fit if ask.request.align_mask > mask && block.start > 0 => count(
                &mut self.tally[2],
            ),
            Way::List if self.sums(memory_type).0 > 0 => count(&mut self.tally[3]),
            Way::Own if ask.hint == Some(Dedicated::Required) => count(&mut self.tally[4]),
            Way::Own if self.unhinted(ask, memory_type) != Way::Own => count(&mut self.tally[5]),
            Way::Own if ask.is_brief() || ask.request.size >= heap.min(32768) => {}
            Way::Own if first > heap => count(&mut self.tally[6]),
            Way::Own => count(&mut self.tally[7]),
            Way::Buddy | Way::Fit | Way::List => {}
        }
    }

    /// Takes in the result of a request, which must be right. A block is then live.
    pub(super) fn take(&mut self, rt: &impl Abort, name: u32, ask: &Ask, came: Came) -> Done {
        let wanted = self.decide(ask, came)?;
        same_at(rt, "what comes of", ask, &came, &wanted);
        if let Ok((_, block)) = wanted {
            self.names.push(name)?;
            self.live.push(block)?;
        }
        Ok(())
    }

    /// Returns the block at this place, and releases what no block of its kind needs any more.
    pub(super) fn put_back(&mut self, rt: &impl Abort, at: usize) -> Done {
        holds(rt, at < self.names.len(), "no such name");
        holds(rt, at < self.live.len(), "no such block");
        let _ = self.names.remove(at);
        let block = self.live.remove(at);
        let mut all = self.held.iter();
        let Some(held) = all.find(|held| held.range.object == block.object).copied() else {
            return never_with(rt, "of no object:", &block);
        };
        let runs = self.gaps(held.memory_type, Some(held.way))?;
        let kept = match held.way {
            Way::Own | Way::Buddy => 0,
            Way::Fit | Way::List => kept_after(
                rule_of(held.way),
                runs.as_slice(),
                self.live.as_slice(),
                block.object,
            ),
        };
        self.release(held.memory_type, held.way, kept)
    }

    /// Releases each object of a memory type and a kind in which nothing is live, except this one.
    fn release(&mut self, memory_type: u32, way: Way, kept: u64) -> Done {
        let mut left = Vec::new(self.alloc);
        for held in &self.held {
            let is_such = held.memory_type == memory_type && held.way == way;
            let object = held.range.object;
            if !is_such || object == kept || is_used(object, self.live.as_slice()) {
                left.push(*held)?;
            }
        }
        self.held = left;
        Ok(())
    }

    /// Releases each chunk in which nothing is live.
    pub(super) fn clean(&mut self) -> Done {
        for memory_type in 0..4 {
            self.release(memory_type, self.shared, 0)?;
            self.release(memory_type, Way::List, 0)?;
        }
        Ok(())
    }

    /// How many more objects may be held, how many are, and how many bytes of each heap.
    pub(super) fn counts(&self) -> (u32, u32, [u128; 3]) {
        let (mut remaining, mut number, mut used) = (self.most, 0u32, [0u128; 3]);
        for held in &self.held {
            let heap = heap_of(held.memory_type).0 % 3;
            used[heap] = used[heap].saturating_add(u128::from(held.range.end));
            remaining = remaining.saturating_sub(1);
            number = number.saturating_add(1);
        }
        (remaining, number, used)
    }

    /// The kind of chunks that are shared that way.
    pub(super) fn kind(&self) -> ObjectKind {
        match self.shared {
            Way::Buddy => ObjectKind::BuddyChunk,
            Way::Own | Way::Fit | Way::List => ObjectKind::FitChunk,
        }
    }

    /// The chunks of a memory type that are shared that way: how many there are, how many blocks are live in them, of
    /// how many bytes, and how many bytes are free.
    pub(super) fn sums(&self, memory_type: u32) -> (u64, u64, u128, u128) {
        let (mut chunks, mut blocks, mut bytes, mut live) = (0, 0, 0u128, 0u128);
        for held in &self.held {
            if held.memory_type == memory_type && held.way == self.shared {
                count(&mut chunks);
                bytes = bytes.saturating_add(u128::from(held.range.end));
                for block in &self.live {
                    if block.object == held.range.object {
                        count(&mut blocks);
                        live = live.saturating_add(u128::from(length_of(block)));
                    }
                }
            }
        }
        (chunks, blocks, live, bytes.saturating_sub(live))
    }

    /// How often the device was asked to make an object and to map one.
    pub(super) fn asked(&self) -> (u64, u64) {
        (self.asked, self.mapped)
    }
}

/// By which rule a block is placed.
fn rule_of(way: Way) -> Rule {
    match way {
        Way::Buddy | Way::Fit => Rule::ByClass,
        Way::Own | Way::List => Rule::Last,
    }
}
