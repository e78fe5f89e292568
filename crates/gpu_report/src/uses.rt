//! Callers, checked.

ghost use Rattle.std.specs.Prelude.{◌<◌, IfOk, List, length};
ghost use Rattle.gpu_report.specs.Report.{IsReport};
ghost use Rattle.gpu_report.specs.Statistics.{AreStatistics};
ghost use Rattle.gpu_report.specs.declared.live.LiveBlock.{LiveBlock as Block};

use crate::{LiveBlock, Report, ReportError, Statistics};
use gpu_alloc::{GpuAllocator, MemoryBlock, MemoryObject};
use std::alloc::Global;

/// A report where exactly two blocks are live, of which all bytes were asked for.
pub fn report_of_two<M: MemoryObject>(
    alloc: Global,
    allocator: &GpuAllocator<M>,
    first: &MemoryBlock<M>,
    second: &MemoryBlock<M>,
) -> Result<Report, ReportError>
    ensures { IfOk result (λ report. (blocks : List Block) × IsReport allocator.now blocks report) }
{
    let blocks = [
        LiveBlock::of(1, first.size(), first),
        LiveBlock::of(2, second.size(), second),
    ];
    Report::of(alloc, allocator, &blocks)
}

/// The sums of a memory type where exactly one block is live, of which `asked` bytes were asked for.
pub fn statistics_of_one<M: MemoryObject>(
    alloc: Global,
    allocator: &GpuAllocator<M>,
    block: &MemoryBlock<M>,
    asked: u64,
    memory_type: u32,
) -> Result<Statistics, ReportError>
    requires { memory_type < length (allocator.now.properties).memory_types }
    ensures { IfOk result (λ sums. (blocks : List Block) × AreStatistics allocator.now blocks memory_type sums) }
{
    let blocks = [LiveBlock::of(1, asked, block)];
    Statistics::of(alloc, allocator, &blocks, memory_type)
}
