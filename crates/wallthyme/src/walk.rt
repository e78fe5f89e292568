//! The call that walks over live blocks.

ghost use Rattle.std.specs.Prelude.{◌≡◌, ◌≢◌, ◌↔◌, ◌⊎◌, ◌<◌, ◌≤◌, IsNone, drop, length, take};
ghost use Rattle.gpu_desk.specs.Walk.{IsLast};
ghost use Rattle.wallthyme.specs.Handles.{OnDesks, desk_of};
ghost use Rattle.wallthyme.specs.Walk.{AreNext, key_behind};

use crate::handle::Handle;
use crate::layout;
use crate::status::{NOT_OPEN, OK};
use gpu_desk::Desk;
use std::alloc::Global;

#[unsafe(no_mangle)]
pub extern "C" fn wt_blocks(
    alloc: Global,
    handle: &mut Handle,
    after: u64,
    blocks: &mut [layout::Block],
    count: &mut usize,
) -> u32
    ensures closed { (result ≡ NOT_OPEN) ↔ IsNone (desk_of handle.old) }
    ensures status { (result ≡ OK) ⊎ (result ≡ NOT_OPEN) }
    ensures fits { result ≡ OK → count.new ≤ length blocks.new }
    ensures next { result ≡ OK → OnDesks (λ old _. AreNext old after (take count.new blocks.new)) handle.old handle.new }
    ensures all { result ≡ OK → count.new < length blocks.new
        → OnDesks (λ old _. IsLast old (key_behind after (take count.new blocks.new))) handle.old handle.new }
    ensures rest { result ≡ OK → drop count.new blocks.new ≡ drop count.new blocks.old }
    ensures kept { result ≢ OK → (blocks.new ≡ blocks.old) × (count.new ≡ count.old) }
    ensures same { desk_of handle.new ≡ desk_of handle.old }
{
    let Some(kept) = handle.take(alloc) else {
        return NOT_OPEN;
    };
    *count = walk_on(&kept.desk, after, blocks);
    handle.put(kept);
    OK
}

/// Writes the live blocks after the place of a key, as many as there are and as fit. Returns how many.
fn walk_on(desk: &Desk, after: u64, blocks: &mut [layout::Block]) -> usize
    ensures fits { result ≤ length blocks.new }
    ensures next { AreNext desk.now after (take result blocks.new) }
    ensures all { result < length blocks.new → IsLast desk.now (key_behind after (take result blocks.new)) }
    ensures rest { drop result blocks.new ≡ drop result blocks.old }
{
    let mut last = after;
    for (count, place) in blocks.iter_mut().enumerate() {
        let Some(grant) = desk.block_after(last) else {
            return count;
        };
        last = grant.key;
        *place = grant.into();
    }
    blocks.len()
}
