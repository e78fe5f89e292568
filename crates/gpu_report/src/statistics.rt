//! The sums of one memory type, for callers that need no more of it.

ghost use Rattle.std.specs.Prelude.{◌≡◌, ◌<◌, ◌≤◌, ◌↔◌, IfErr, IfNone, IfOk, IfSome, None, OnErr, length};
ghost use Rattle.gpu_report.specs.Live.{LacksSpan};
ghost use Rattle.gpu_report.specs.Statistics.{AreDeskStatistics, AreStatistics};
ghost use Rattle.gpu_report.specs.declared.error.ReportError.TheVariants.{BlockMissing};

use crate::build::free_of;
use crate::desk::keyed_blocks;
use crate::held::held_by_name;
use crate::kind::kind_report;
use crate::live::live_blocks;
use crate::part::Part;
use crate::{KindReport, LiveBlock, ObjectKind, ReportError};
use gpu_alloc::{GpuAllocator, MemoryObject};
use gpu_desk::Desk;
use std::alloc::{AllocError, Allocator, Global};

/// What is held of a memory type, by what it is held for: zeros for a kind of which no object is held.
#[derive(Clone, Copy, Debug, PartialEq, Eq)]
pub struct Statistics {
    /// Objects of one block each.
    pub dedicated: KindReport,

    /// Objects that the allocator did not make, of one block each.
    pub imported: KindReport,

    /// Objects of buddy allocators.
    pub buddy: KindReport,

    /// Objects of free lists.
    pub free_list: KindReport,

    /// Fit chunks.
    pub fit: KindReport,
}

impl Statistics {
    /// What an allocator holds of a memory type, which must exist, from its live blocks under names. Nothing changes.
    ///
    /// `blocks` must have a block for each live span: where one is missing, the error is `BlockMissing`. Blocks that
    /// are not live are ignored, and of two with the same span either may be used. The only other error is
    /// `OutOfHostMemory`.
    pub fn of<M: MemoryObject, A: Allocator + Copy>(
        alloc: Global,
        allocator: &GpuAllocator<M, A>,
        blocks: &[LiveBlock],
        memory_type: u32,
    ) -> Result<Statistics, ReportError>
        requires { memory_type < length (allocator.now.properties).memory_types }
        ensures told { IfOk result (AreStatistics allocator.now blocks.now memory_type) }
        ensures missing { IfErr result (λ e. e ≡ BlockMissing → LacksSpan allocator.now blocks.now) }
    {
        match statistics_of(alloc, allocator, blocks, memory_type) {
            Ok(Some(statistics)) => Ok(statistics),
            Ok(None) => Err(ReportError::BlockMissing),
            Err(_) => Err(ReportError::OutOfHostMemory),
        }
    }

    /// What a desk holds of a memory type, or `None` exactly where the type does not exist. A block's
    /// requested size, as in its grant, counts as asked for. Nothing changes.
    ///
    /// The only error is want of host memory, and only for a type that exists.
    pub fn of_desk(
        alloc: Global,
        desk: &Desk,
        memory_type: u32,
    ) -> Result<Option<Statistics>, AllocError>
        ensures told { IfOk result (λ answer. IfSome answer (AreDeskStatistics desk.now memory_type)) }
        ensures none { IfOk result (λ answer. (answer ≡ None)
            ↔ (length (desk.now.allocator.properties).memory_types ≤ memory_type)) }
        ensures known { OnErr result (memory_type < length (desk.now.allocator.properties).memory_types) }
    {
        if memory_type >= desk.allocator().type_count() {
            return Ok(None);
        }
        desk.keeps_sound();
        let blocks = keyed_blocks(alloc, desk)?;
        match statistics_of(alloc, desk.allocator(), &blocks, memory_type)? {
            Some(statistics) => Ok(Some(statistics)),
            None => unreachable!(),
        }
    }
}

/// The sums of a memory type, or `None` where a live span has no block.
fn statistics_of<M: MemoryObject, A: Allocator + Copy>(
    alloc: Global,
    allocator: &GpuAllocator<M, A>,
    blocks: &[LiveBlock],
    memory_type: u32,
) -> Result<Option<Statistics>, AllocError>
    requires { memory_type < length (allocator.now.properties).memory_types }
    ensures told { IfOk result (λ answer. IfSome answer (AreStatistics allocator.now blocks.now memory_type)) }
    ensures missing { IfOk result (λ answer. IfNone answer (LacksSpan allocator.now blocks.now)) }
{
    let Some(live) = live_blocks(alloc, allocator, blocks)? else {
        return Ok(None);
    };
    let held = held_by_name(alloc, allocator)?;
    let free = free_of(allocator, memory_type)?;
    let dedicated = Part {
        memory_type,
        kind: ObjectKind::Dedicated,
    };
    let imported = Part {
        memory_type,
        kind: ObjectKind::Imported,
    };
    let buddy = Part {
        memory_type,
        kind: ObjectKind::BuddyChunk,
    };
    let free_list = Part {
        memory_type,
        kind: ObjectKind::FreeListChunk,
    };
    let fit = Part {
        memory_type,
        kind: ObjectKind::FitChunk,
    };
    Ok(Some(Statistics {
        dedicated: kind_report(alloc, allocator, dedicated, &held, &live, &free)?,
        imported: kind_report(alloc, allocator, imported, &held, &live, &free)?,
        buddy: kind_report(alloc, allocator, buddy, &held, &live, &free)?,
        free_list: kind_report(alloc, allocator, free_list, &held, &live, &free)?,
        fit: kind_report(alloc, allocator, fit, &held, &live, &free)?,
    }))
}
