//! How a report is built: heaps, then memory type by memory type.

ghost use Rattle.std.specs.Prelude.{◌≡◌, ◌<◌, ◌++◌, IfErr, IfNone, IfOk, IfSome, OnOk, List, length, map as mapped};
ghost use Rattle.gpu_alloc.specs.Sound as Sound;
ghost use Rattle.gpu_alloc.specs.Spans.{held_entry_of};
ghost use Rattle.gpu_report.specs.Free.{AreFreeRanges};
ghost use Rattle.gpu_report.specs.Held.{parts_of_type, AreHeld};
ghost use Rattle.gpu_report.specs.Live.{AreLive, LacksSpan};
ghost use Rattle.gpu_report.specs.Report.{ArePartsTold, IsReport};
ghost use Rattle.gpu_report.specs.Session.{block_of, IsSessionReport};
ghost use Rattle.gpu_report.specs.declared.error.ReportError.TheVariants.{BlockMissing};
ghost use Rattle.gpu_report.specs.declared.part.Part.{Part as APart};

use crate::held::{heap_reports, held_by_name};
use crate::kind::add_kind;
use crate::live::live_blocks;
use crate::part::Part;
use crate::{KindReport, LiveBlock, ObjectKind, ObjectReport, Report, ReportError};
use gpu_alloc::spans::HeldRow;
use gpu_alloc::{FreeRange, GpuAllocator, MemoryDevice, MemoryObject};
use gpu_session::{NamedSpan, Session};
use std::alloc::{AllocError, Allocator, Global};

impl Report {
    /// A report of what an allocator holds, from its live blocks under names. Nothing changes.
    ///
    /// `blocks` must have a block for each live span: where one is missing, the error is `BlockMissing`. Blocks that
    /// are not live are ignored, and of two with the same span either may be used. Names may be any numbers, even equal
    /// ones. The only other error is `OutOfHostMemory`.
    pub fn of<M: MemoryObject, A: Allocator + Copy>(
        alloc: Global,
        allocator: &GpuAllocator<M, A>,
        blocks: &[LiveBlock],
    ) -> Result<Report, ReportError>
        ensures report { IfOk result (IsReport allocator.now blocks.now) }
        ensures missing { IfErr result (λ e. e ≡ BlockMissing → LacksSpan allocator.now blocks.now) }
    {
        match report_of(alloc, allocator, blocks) {
            Ok(Some(report)) => Ok(report),
            Ok(None) => Err(ReportError::BlockMissing),
            Err(_) => Err(ReportError::OutOfHostMemory),
        }
    }

    /// A report of what a session's allocator holds, with the live blocks under their names there. Nothing changes. A
    /// session keeps no requests, so each block's size counts as asked for.
    ///
    /// The only error is want of host memory.
    pub fn of_session<M: MemoryObject, D: MemoryDevice<M>, A: Allocator + Copy>(
        alloc: Global,
        session: &Session<M, D, A>,
    ) -> Result<Report, AllocError>
        ensures report { IfOk result (IsSessionReport session.now.books) }
    {
        let rows = session.named_spans(alloc)?;
        let blocks = named_blocks(alloc, &rows)?;
        match report_of(alloc, session.allocator(), &blocks)? {
            Some(report) => Ok(report),
            None => unreachable!(),
        }
    }
}

/// A session's rows as blocks, whose sizes count as asked for.
fn named_blocks(alloc: Global, rows: &[NamedSpan]) -> Result<Vec<LiveBlock>, AllocError>
    ensures { IfOk result (λ blocks. blocks.items ≡ mapped block_of rows.now) }
{
    let mut blocks = Vec::new(alloc);
    for row in rows {
        blocks.push(LiveBlock {
            name: u64::from(row.name),
            object: row.object,
            offset: row.offset,
            size: row.size,
            asked: row.size,
        })?;
    }
    Ok(blocks)
}

/// The report, or `None` where a live span has no block.
pub(crate) fn report_of<M: MemoryObject, A: Allocator + Copy>(
    alloc: Global,
    allocator: &GpuAllocator<M, A>,
    blocks: &[LiveBlock],
) -> Result<Option<Report>, AllocError>
    ensures report { IfOk result (λ answer. IfSome answer (IsReport allocator.now blocks.now)) }
    ensures missing { IfOk result (λ answer. IfNone answer (LacksSpan allocator.now blocks.now)) }
{
    let Some(live) = live_blocks(alloc, allocator, blocks)? else {
        return Ok(None);
    };
    let held = held_by_name(alloc, allocator)?;
    let heaps = heap_reports(alloc, allocator)?;
    let mut kinds = Vec::new(alloc);
    let mut objects = Vec::new(alloc);
    for memory_type in 0..allocator.type_count() {
        add_type(
            alloc,
            allocator,
            memory_type,
            &held,
            &live,
            &mut kinds,
            &mut objects,
        )?;
    }
    Ok(Some(Report {
        heaps,
        kinds,
        objects,
    }))
}

/// Adds the rows of a memory type, kind by kind.
fn add_type<M: MemoryObject, A: Allocator + Copy>(
    alloc: Global,
    allocator: &GpuAllocator<M, A>,
    memory_type: u32,
    held: &[(u64, HeldRow)],
    live: &[LiveBlock],
    kinds: &mut Vec<KindReport>,
    objects: &mut Vec<ObjectReport>,
) -> Result<(), AllocError>
    requires sound { Sound.IsSound allocator.now }
    requires known { memory_type < length (allocator.now.properties).memory_types }
    requires are_held { AreHeld allocator.now (mapped held_entry_of held.now) }
    requires are_live { AreLive allocator.now live.now }
    ensures { OnOk result ((ps : List APart)
        → ArePartsTold allocator.now (mapped held_entry_of held.now) live.now ps kinds.old.items objects.old.items
        → ArePartsTold allocator.now (mapped held_entry_of held.now) live.now (ps ++ parts_of_type memory_type)
        kinds.new.items objects.new.items) }
{
    let free = free_of(allocator, memory_type)?;
    let dedicated = Part {
        memory_type,
        kind: ObjectKind::Dedicated,
    };
    add_kind(
        alloc, allocator, dedicated, held, live, &free, kinds, objects,
    )?;
    let imported = Part {
        memory_type,
        kind: ObjectKind::Imported,
    };
    add_kind(
        alloc, allocator, imported, held, live, &free, kinds, objects,
    )?;
    let buddies = Part {
        memory_type,
        kind: ObjectKind::BuddyChunk,
    };
    add_kind(alloc, allocator, buddies, held, live, &free, kinds, objects)?;
    let lists = Part {
        memory_type,
        kind: ObjectKind::FreeListChunk,
    };
    add_kind(alloc, allocator, lists, held, live, &free, kinds, objects)?;
    let fits = Part {
        memory_type,
        kind: ObjectKind::FitChunk,
    };
    add_kind(alloc, allocator, fits, held, live, &free, kinds, objects)?;
    Ok(())
}

/// The free ranges of a memory type.
pub(crate) fn free_of<M: MemoryObject, A: Allocator + Copy>(
    allocator: &GpuAllocator<M, A>,
    memory_type: u32,
) -> Result<Vec<FreeRange, A>, AllocError>
    requires { memory_type < length (allocator.now.properties).memory_types }
    ensures { IfOk result (λ free. AreFreeRanges allocator.now memory_type free.items) }
{
    match allocator.free_ranges(memory_type) {
        Ok(free) => Ok(free),
        Err(_) => Err(AllocError),
    }
}
