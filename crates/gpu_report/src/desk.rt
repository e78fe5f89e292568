//! A report of a desk.

ghost use Rattle.std.specs.Prelude.{◌≡◌, IfOk};
ghost use Rattle.gpu_report.specs.DeskReport.{AreKeyed, IsDeskReport, user_of};

use crate::build::report_of;
use crate::{LiveBlock, Report};
use gpu_desk::Desk;
use std::alloc::{AllocError, Global};

impl Report {
    /// A report of what a desk's allocator holds, with the live blocks under their keys, and how many bytes their
    /// requests asked for. Nothing changes.
    ///
    /// The only error is want of host memory.
    pub fn of_desk(alloc: Global, desk: &Desk) -> Result<Report, AllocError>
        ensures report { IfOk result (IsDeskReport desk.now) }
    {
        desk.keeps_sound();
        let blocks = keyed_blocks(alloc, desk)?;
        match report_of(alloc, desk.allocator(), &blocks)? {
            Some(report) => Ok(report),
            None => unreachable!(),
        }
    }
}

/// The live blocks of a desk, under their keys and with the bytes asked for.
pub(crate) fn keyed_blocks(alloc: Global, desk: &Desk) -> Result<Vec<LiveBlock>, AllocError>
    ensures { IfOk result (λ blocks. AreKeyed desk.now blocks.items) }
{
    let mut blocks = Vec::new(alloc);
    let mut after = 0;
    while let Some(grant) = desk.block_after(after) {
        blocks.push(LiveBlock {
            name: grant.key,
            object: grant.object,
            offset: grant.offset,
            size: grant.size,
            asked: grant.asked,
        })?;
        after = grant.key;
    }
    Ok(blocks)
}

/// The caller's own value of the block of a key, 0 where the key has no live block.
pub(crate) fn user_of(desk: &Desk, key: u64) -> u64
    ensures { result ≡ user_of desk.now key }
{
    match desk.block(key) {
        Ok(grant) => grant.user,
        Err(_) => 0,
    }
}
