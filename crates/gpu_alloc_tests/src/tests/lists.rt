//! The expected results of calls of an allocator of free runs, by plain lists of chunks and live blocks.

ghost use Rattle.std.specs.Prelude.{◌<◌};

use super::drawn::{
    Answer, Call, Chance, Done, Keys, Plain, State, Store, came_often, count, held_of, length_of,
    range_of, try_lists,
};
use super::same::{holds, same_at};
use gpu_alloc::{AllocationError, FreeRange};
use std::alloc::{AllocError, Global};
use std::process::Abort;
use std::test::Fail;

/// How many lists are drawn, by bytes and by atoms each, and twice as many where blocks are placed by class.
const LISTS: u64 = 32;

/// How many objects may be held at once.
pub(super) const MOST: u32 = 3;

/// The size of the first chunk, in bytes, where the first block is not larger.
pub(super) const FIRST: u64 = 8192;

/// The size of the largest chunk.
pub(super) const LARGEST: u64 = 32768;

/// A range of a chunk: its object is named by its number, since the device is asked for nothing else.
pub(super) type Range = FreeRange;

/// The tail of a run with room for this many bytes from a multiple of the mask plus one on: it starts at the last such
/// multiple.
fn tail_of(run: Range, size: u64, align_mask: u64) -> Option<Range> {
    let start = run.end.checked_sub(size)? & !align_mask;
    if start < run.start {
        return None;
    }
    Some(Range { start, ..run })
}

/// The first bytes of a range, this many.
pub(super) fn front_of(range: Range, size: u64) -> Range {
    Range {
        end: range.start.saturating_add(size),
        ..range
    }
}

/// The free runs, by chunk, then by start: what the live blocks leave of each chunk.
pub(super) fn runs_of(
    alloc: Global,
    chunks: &[Range],
    live: &[Range],
) -> Result<Vec<Range>, AllocError> {
    let mut blocks = Vec::new(alloc);
    for block in live {
        blocks.push(*block)?;
    }
    // The last run of a chunk ends where a block after it would begin.
    for chunk in chunks {
        blocks.push(range_of(chunk.object, chunk.end, 0))?;
    }
    blocks.sort_unstable_by_key(|block| (block.object, block.start));
    let mut runs = Vec::new(alloc);
    for chunk in chunks {
        let mut start = chunk.start;
        for block in &blocks {
            if block.object == chunk.object {
                if start < block.start {
                    runs.push(range_of(chunk.object, start, block.start - start))?;
                }
                start = block.end;
            }
        }
    }
    Ok(runs)
}

/// On which sides of a block there are runs: before it, and after it.
fn sides_of(runs: &[Range], block: Range) -> (bool, bool) {
    let mut before = false;
    let mut behind = false;
    for run in runs {
        if run.object == block.object {
            before |= run.end == block.start;
            behind |= run.start == block.end;
        }
    }
    (before, behind)
}

/// The size of a chunk for this many bytes: the next one's, doubled until it is enough, and cut at the largest.
pub(super) fn chunk_size(next: u64, size: u64, largest: u64) -> u64 {
    let mut length = next;
    for _ in 0..63 {
        if length < size {
            length <<= 1;
        }
    }
    length.min(largest)
}

/// Whether a range lies in one of these.
fn is_within(range: Range, ranges: &[Range]) -> bool {
    ranges.iter().any(|other| {
        range.object == other.object && other.start <= range.start && range.end <= other.end
    })
}

/// Where blocks lie, and which wholly free chunk a return keeps.
#[derive(Clone, Copy, PartialEq, Eq)]
pub(super) enum Rule {
    /// A block is the tail of the last run with room. That run's chunk is kept.
    Last,

    /// A block is as long as requested, at the last place of a run that its class allows, or the front of a new chunk.
    /// One chunk is kept, and not the block's where another one is free.
    ByClass,
}

/// How many runs without room are passed before a run with room is left for one that is sure to have it.
const PASSED: u64 = 4;

/// The class of a length in bytes. A length of fewer than 64 whole grains of 256 bytes has one for each of these
/// numbers. From there on eight classes of the same width go from one power of two to the next.
fn class_of(length: u64) -> u64 {
    let grains = length / 256;
    let (mut class, mut next, mut width) = (0, 1u64, 1);
    for _ in 0..128 {
        if grains < next {
            return class;
        }
        if next >= 64 && next & (next - 1) == 0 {
            width = next / 8;
        }
        count(&mut class);
        next = next.saturating_add(width);
    }
    class
}

/// A request for this many bytes at a multiple of the mask plus one, beside what is free and live.
#[derive(Clone, Copy)]
struct Choice<'a> {
    runs: &'a [Range],
    live: &'a [Range],
    size: u64,
    align_mask: u64,
}

impl Choice<'_> {
    /// Whether a run has room.
    fn has_room(&self, run: Range) -> bool {
        tail_of(run, self.size, self.align_mask).is_some()
    }

    /// The first class in which each run has room, wherever it starts.
    fn sure(&self) -> u64 {
        let longest = (self.size.saturating_sub(1)).saturating_add(self.align_mask);
        class_of(longest).saturating_add(1)
    }

    /// How many runs lack room, of the classes from that of the size up to this one.
    fn lacking(&self, class: u64) -> u64 {
        let mut number = 0;
        let own = class_of(self.size);
        for run in self.runs {
            let of_run = class_of(length_of(run));
            if own <= of_run && of_run <= class && !self.has_room(*run) {
                count(&mut number);
            }
        }
        number
    }

    /// Whether a block may be taken from a run with room. No run of a lower class is sure to have room. One of a lower
    /// class that has it nevertheless is passed over only for a sure one, after enough that lack it. A wholly free
    /// chunk is the last of its class.
    fn allows(&self, run: Range) -> bool {
        let class = class_of(length_of(&run));
        let is_whole = !is_used(run.object, self.live);
        for other in self.runs {
            let of_other = class_of(length_of(other));
            let may_pass = class >= self.sure() && self.lacking(of_other) >= PASSED;
            let is_left = of_other < class && !may_pass;
            let is_sooner = of_other == class && is_whole && *other != run;
            if of_other < class && of_other >= self.sure() {
                return false;
            }
            if self.has_room(*other) && (is_left || is_sooner) {
                return false;
            }
        }
        true
    }

    /// Counts the cases of [`CHOSEN`] that occur when a block is taken from a run.
    fn count(&self, run: Range, tally: &mut [u64; 4]) {
        let class = class_of(length_of(&run));
        let is_whole = !is_used(run.object, self.live);
        let (mut passed, mut alone, mut spared) = (false, true, false);
        for other in self.runs {
            if self.has_room(*other) && *other != run {
                let of_other = class_of(length_of(other));
                passed |= of_other < class;
                spared |= of_other == class && !is_used(other.object, self.live);
                alone = false;
            }
        }
        let sure = self.sure();
        if passed {
            count(&mut tally[0]);
        }
        if class >= sure && !passed && self.lacking(sure.saturating_sub(1)) > 0 {
            count(&mut tally[1]);
        }
        if is_whole && alone {
            count(&mut tally[2]);
        }
        if spared {
            count(&mut tally[3]);
        }
    }
}

/// Where a block must lie if some run has room for it: where it actually lies, if the rule allows that.
pub(super) fn place(
    rule: Rule,
    runs: &[Range],
    live: &[Range],
    size: u64,
    align_mask: u64,
    came: Option<Range>,
) -> Option<Range> {
    let choice = Choice {
        runs,
        live,
        size,
        align_mask,
    };
    let mut wanted = None;
    for run in runs {
        if let Some(tail) = tail_of(*run, size, align_mask) {
            let block = Some(front_of(tail, size));
            match rule {
                Rule::Last => wanted = Some(tail),
                Rule::ByClass if choice.allows(*run) && (wanted == None || block == came) => {
                    wanted = block;
                }
                Rule::ByClass => {}
            }
        }
    }
    wanted
}

/// Whether a block of an object is live.
pub(super) fn is_used(object: u64, live: &[Range]) -> bool {
    live.iter().any(|block| block.object == object)
}

/// The object that the return of a block of this one keeps, if nothing in it is live. The runs are those after it.
pub(super) fn kept_after(rule: Rule, runs: &[Range], live: &[Range], object: u64) -> u64 {
    let mut kept = object;
    for run in runs {
        let is_other = run.object != object && !is_used(run.object, live);
        if rule == Rule::Last || is_other {
            kept = run.object;
        }
    }
    kept
}

/// The block that a chunk is made for.
pub(super) fn first_block(rule: Rule, chunk: Range, size: u64, align_mask: u64) -> Range {
    match rule {
        Rule::Last => tail_of(chunk, size, align_mask).unwrap_or(chunk),
        Rule::ByClass => front_of(chunk, size),
    }
}

/// A drawn size: small ones most often, now and then that of a run, which may then be taken whole, or up to the
/// largest.
fn drawn_size(runs: &[Range], chance: &mut Chance) -> u64
    ensures { 0 < result }
{
    match chance.next() % 16 {
        0..=2 => chance.next() % LARGEST + 1,
        3..=6 => run_length(runs, chance.next() as usize),
        _ => chance.size(),
    }
}

/// The length of a run, whichever the number draws. There is always one where no chunk is full.
fn run_length(runs: &[Range], drawn: usize) -> u64
    ensures { 0 < result }
{
    let len = runs.len();
    if len == 0 {
        return 1;
    }
    let run = runs[drawn % len];
    length_of(&run).max(1)
}

/// How often each case occurred in the drawn lists: rows of [`CASES`], and then how often a block had more bytes than
/// requested, because of its alignment.
type Tally = [u64; 14];

/// The cases that must occur in the lists.
const CASES: [&str; 13] = [
    "a part of a run",
    "a whole run",
    "the last run has no room, and one before it has",
    "a chunk larger than the next was to be",
    "no more objects",
    "the device refuses",
    "back beside no run",
    "beside one before",
    "beside one behind",
    "between two",
    "a wholly free chunk stays",
    "a return releases one",
    "a cleanup releases one",
];

/// The cases that must occur where blocks are placed by class: how a run was chosen.
const CHOSEN: [&str; 4] = [
    "a class with room is passed over behind runs that lack it",
    "the first sure class, since runs of lower ones lack room",
    "a wholly free chunk, since nothing else has room",
    "another run of the class of a wholly free chunk",
];

/// What is held and live by plain lists, and the expected result of a call.
#[derive(Drop)]
struct Lists {
    alloc: Global,
    rule: Rule,
    atom_mask: u64,

    /// The held chunks, the oldest first.
    chunks: Vec<Range>,

    /// The live blocks, in the order in which they were granted.
    live: Vec<Range>,

    /// What is free, by chunk, then by start.
    runs: Vec<Range>,

    /// How many chunks were made.
    made: u64,

    /// The size of the next chunk, if that is enough.
    next: u64,

    /// How often the device was asked for a chunk, and for how many bytes the last time.
    asked: (u64, Option<u64>),

    /// Which of these questions it refuses.
    refused: u64,

    /// Whether each of a list's first blocks is as long as a first chunk. Then one may leave its chunk wholly free,
    /// while another chunk has a free run as long.
    begins_long: bool,

    tally: Tally,

    /// How often each of the cases of [`CHOSEN`] occurred.
    chosen: [u64; 4],
}

impl Lists {
    /// Nothing is held.
    fn new(alloc: Global, rule: Rule) -> Lists {
        Lists {
            alloc,
            rule,
            atom_mask: 0,
            chunks: Vec::new(alloc),
            live: Vec::new(alloc),
            runs: Vec::new(alloc),
            made: 0,
            next: FIRST,
            asked: (0, None),
            refused: 0,
            begins_long: false,
            tally: [0; 14],
            chosen: [0; 4],
        }
    }

    /// Finds what is free.
    fn find_runs(&mut self) -> Done {
        self.runs = runs_of(self.alloc, self.chunks.as_slice(), self.live.as_slice())?;
        Ok(())
    }

    /// Begins a chunk, and finds the block in it. Where no more objects may be held it is refused without a question,
    /// and otherwise the device may refuse it.
    fn begin(
        &mut self,
        size: u64,
        align_mask: u64,
    ) -> Result<Result<Range, AllocationError>, AllocError> {
        if self.chunks.len() >= MOST as usize {
            count(&mut self.tally[4]);
            return Ok(Err(AllocationError::TooManyObjects));
        }
        let length = chunk_size(self.next, size, LARGEST);
        count(&mut self.asked.0);
        self.asked.1 = Some(length);
        if self.asked.0 == self.refused {
            count(&mut self.tally[5]);
            return Ok(Err(AllocationError::OutOfDeviceMemory));
        }
        if length > self.next {
            count(&mut self.tally[3]);
        }
        self.next = LARGEST.min(length << 1);
        count(&mut self.made);
        let chunk = range_of(self.made, 0, length);
        self.chunks.push(chunk)?;
        Ok(Ok(first_block(self.rule, chunk, size, align_mask)))
    }

    /// Counts how the run of a block was chosen.
    fn count_choice(&mut self, block: Range, size: u64, align_mask: u64) {
        let choice = Choice {
            runs: self.runs.as_slice(),
            live: self.live.as_slice(),
            size,
            align_mask,
        };
        for run in &self.runs {
            if is_within(block, &[*run]) {
                choice.count(*run, &mut self.chosen);
            }
        }
    }

    /// Releases each wholly free chunk, except the one of this number. Returns how many were released.
    fn release(&mut self, kept: u64) -> Result<u64, AllocError> {
        let mut left = Vec::new(self.alloc);
        let mut gone = 0;
        for chunk in &self.chunks {
            if is_used(chunk.object, self.live.as_slice()) {
                left.push(*chunk)?;
            } else if chunk.object == kept {
                count(&mut self.tally[10]);
                left.push(*chunk)?;
            } else {
                count(&mut gone);
            }
        }
        self.chunks = left;
        self.find_runs()?;
        Ok(gone)
    }
}

impl Plain for Lists {
    fn open(&mut self, chance: &mut Chance, by_atoms: bool) -> u64 {
        self.atom_mask = if by_atoms { 63 } else { 0 };
        self.made = 0;
        self.next = FIRST;
        self.asked = (0, None);
        self.refused = chance.next() % 8;
        self.begins_long = self.rule == Rule::ByClass && chance.next() % 2 == 0;
        self.refused
    }

    fn call(&self, chance: &mut Chance) -> Call {
        match chance.next() % 32 {
            0 => Call::Clean,
            1..=13 => Call::Return,
            _ => Call::Take,
        }
    }

    fn size(&self, chance: &mut Chance) -> u64 {
        if self.begins_long && self.live.len() < 3 {
            return FIRST;
        }
        drawn_size(self.runs.as_slice(), chance)
    }

    fn take(&mut self, rt: &impl Abort, size: u64, mask: u64, (told, came): Answer) -> Done {
        let size = size.saturating_add(self.atom_mask) & !self.atom_mask;
        let mask = mask.max(self.atom_mask);
        let wanted = match place(
            self.rule,
            self.runs.as_slice(),
            self.live.as_slice(),
            size,
            mask,
            came.ok(),
        ) {
            Some(block) => Ok(block),
            None => self.begin(size, mask)?,
        };
        same_at(rt, "the block for", &(size, mask), &came, &wanted);
        let refusal = wanted
            .err()
            .filter(|e| *e == AllocationError::TooManyObjects);
        same_at(rt, "what is told of", &(size, mask), &told, &refusal);
        let Ok(block) = wanted else {
            return Ok(());
        };
        if is_within(block, self.runs.as_slice()) {
            let last = self.runs.last().copied();
            if last.is_some_and(|run| tail_of(run, size, mask).is_none()) {
                count(&mut self.tally[2]);
            }
            count(&mut self.tally[usize::from(self.runs.contains(&block))]);
            self.count_choice(block, size, mask);
        }
        if length_of(&block) > size {
            count(&mut self.tally[13]);
        }
        self.live.push(block)?;
        self.find_runs()
    }

    fn put_back(&mut self, rt: &impl Abort, at: usize) -> Done {
        holds(rt, at < self.live.len(), "no such block");
        let block = self.live.remove(at);
        match sides_of(self.runs.as_slice(), block) {
            (false, false) => count(&mut self.tally[6]),
            (true, false) => count(&mut self.tally[7]),
            (false, true) => count(&mut self.tally[8]),
            (true, true) => count(&mut self.tally[9]),
        }
        self.find_runs()?;
        let (runs, live) = (self.runs.as_slice(), self.live.as_slice());
        let kept = kept_after(self.rule, runs, live, block.object);
        let gone = self.release(kept)?;
        self.tally[11] = self.tally[11].saturating_add(gone);
        Ok(())
    }

    fn clean(&mut self) -> Done {
        let gone = self.release(0)?;
        self.tally[12] = self.tally[12].saturating_add(gone);
        Ok(())
    }

    fn state(&self) -> State {
        (self.asked, held_of(self.chunks.as_slice(), MOST))
    }

    fn free(&self) -> &[Range] {
        self.runs.as_slice()
    }
}

/// Draws lists from this seed on, as many by bytes as by atoms.
pub(super) fn try_runs<S: Store>(
    rt: &impl Abort,
    alloc: Global,
    seed: u64,
    rule: Rule,
    keys: Keys,
) -> Result<(), Fail> {
    let number = match rule {
        Rule::Last => 2 * LISTS,
        Rule::ByClass => 4 * LISTS,
    };
    let mut lists = Lists::new(alloc, rule);
    try_lists::<S>(rt, alloc, &mut lists, seed, number, keys)?;
    came_often(rt, &CASES, &lists.tally, LISTS / 2);
    match rule {
        Rule::Last => {
            let longer = lists.tally[13] >= LISTS / 2;
            holds(rt, longer, "few blocks are longer than requested");
        }
        Rule::ByClass => came_often(rt, &CHOSEN, &lists.chosen, LISTS / 8),
    }
    Ok(())
}
