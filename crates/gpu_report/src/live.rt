//! Live blocks under their owner's names for them.

ghost use Rattle.std.specs.Prelude.{◌≡◌, ◌↔◌, All, Contains, IfNone, IfOk, IfSome, MatchOption, map as mapped};
ghost use Rattle.std.specs.FinSet as set;
ghost use Rattle.std.specs.List.Sorted.{IsNonDecreasingBy};
ghost use Rattle.gpu_alloc.specs.Listing.{AreOnce};
ghost use Rattle.gpu_alloc.specs.Sound as Sound;
ghost use Rattle.gpu_alloc.specs.State.{span_numbers, span_of};
ghost use Rattle.gpu_alloc.specs.Spans.{span_in};
ghost use Rattle.gpu_report.specs.Live.{live_block_span, AreBySpan, AreLive, LacksSpan};
ghost use Rattle.gpu_report.specs.declared.live.LiveBlock.{LiveBlock as Block};

use gpu_alloc::spans::LiveSpan;
use gpu_alloc::{GpuAllocator, MemoryBlock, MemoryObject};
use std::alloc::{AllocError, Allocator, Global};

/// Where a live block lies, its owner's name for it, and how many bytes were asked for.
#[derive(Clone, Copy, Debug, PartialEq, Eq)]
pub struct LiveBlock {
    /// The block's name: any number.
    pub name: u64,

    /// The name of its object.
    pub object: u64,

    /// Where it starts in the object, in bytes.
    pub offset: u64,

    /// Its size, in bytes.
    pub size: u64,

    /// How many bytes its owner asked for.
    pub asked: u64,
}

impl LiveBlock {
    /// A block under a name, of which its owner asked for `asked` bytes. Any number is taken as it is: a
    /// [`MemoryBlock`] keeps no request.
    pub fn of<M: MemoryObject>(name: u64, asked: u64, block: &MemoryBlock<M>) -> LiveBlock
        ensures name { result.name ≡ name }
        ensures asked { result.asked ≡ asked }
        ensures span { live_block_span result ≡ span_of block.now }
    {
        LiveBlock {
            name,
            object: block.memory().object(),
            offset: block.offset(),
            size: block.size(),
            asked,
        }
    }

    /// The numbers of its span, by which blocks are sorted and found.
    fn numbers(&self) -> [u64; 3]
        ensures { result ≡ span_numbers (live_block_span self.now) }
    {
        [self.object, self.offset, self.size]
    }
}

/// The live spans, by the name of their object.
fn spans_by_object<M: MemoryObject, A: Allocator>(
    alloc: Global,
    allocator: &GpuAllocator<M, A>,
) -> Result<Vec<LiveSpan>, AllocError>
    ensures exact { IfOk result (λ spans. set.from_list (mapped span_in spans.items) ≡ allocator.now.live) }
    ensures once { IfOk result (λ spans. AreOnce (mapped span_in spans.items)) }
    ensures by_object { IfOk result (λ spans. IsNonDecreasingBy (λ span. span.object) spans.items) }
    ensures sound { Sound.IsSound allocator.now }
{
    let mut spans = allocator.live(alloc)?;
    spans.sort_unstable_by_key(|span| span.object);
    Ok(spans)
}

/// The blocks by their spans.
fn blocks_by_span(alloc: Global, blocks: &[LiveBlock]) -> Result<Vec<LiveBlock>, AllocError>
    ensures same { IfOk result (λ sorted. (b : Block) → Contains sorted.items b ↔ Contains blocks.now b) }
    ensures sorted { IfOk result (λ sorted. AreBySpan sorted.items) }
{
    let mut sorted = Vec::from_slice(alloc, blocks)?;
    sorted.sort_unstable_by(|block, other| block.numbers().cmp(&other.numbers()));
    Ok(sorted)
}

/// A block with this span, from blocks that are sorted by their spans.
fn find(blocks: &[LiveBlock], span: &LiveSpan) -> Option<LiveBlock>
    requires { AreBySpan blocks.now }
    ensures { MatchOption result (Contains (mapped live_block_span blocks.now) (span_in span.now) → ⊥)
        (λ b. Contains blocks.now b × (live_block_span b ≡ span_in span.now)) }
{
    let wanted = [span.object, span.offset, span.size];
    match blocks.binary_search_by(|block| block.numbers().cmp(&wanted)) {
        Ok(index) => Some(blocks[index]),
        Err(_) => None,
    }
}

/// For each live span a block with that span, by the name of their object, or `None` where a span has no block.
pub(crate) fn live_blocks<M: MemoryObject, A: Allocator>(
    alloc: Global,
    allocator: &GpuAllocator<M, A>,
    blocks: &[LiveBlock],
) -> Result<Option<Vec<LiveBlock>>, AllocError>
    ensures live { IfOk result (λ answer. IfSome answer (λ live. AreLive allocator.now live.items)) }
    ensures given { IfOk result (λ answer. IfSome answer (λ live. All (Contains blocks.now) live.items)) }
    ensures sound { Sound.IsSound allocator.now }
    ensures missing { IfOk result (λ answer. IfNone answer (LacksSpan allocator.now blocks.now)) }
{
    let spans = spans_by_object(alloc, allocator)?;
    let sorted = blocks_by_span(alloc, blocks)?;
    let mut live = Vec::new(alloc);
    for span in &spans {
        match find(&sorted, span) {
            Some(block) => live.push(block)?,
            None => return Ok(None),
        }
    }
    Ok(Some(live))
}
