//! A free list by itself, over its caller's own memory.

ghost use Rattle.std.specs.Prelude.{◌≡◌, ◌≤◌};
ghost use Rattle.std.specs.FinSet as set;

use gpu_alloc_base::steps::Steps;
use gpu_alloc_freelist::FreeList;
use gpu_alloc_types::MemoryObject;
use std::alloc::Global;
use std::sync::ledger::Ledger;

/// Puts a memory of `memory_size` bytes into a list of its own, takes two blocks of it, and returns them in the order
/// in which they were granted. Returns whether the memory had room for both, and the host for what is stored. A test
/// stands before each call that needs one. The memory is dropped in the end. `steps` never falls.
pub fn two_of_a_memory<M: MemoryObject, L: Ledger>(
    alloc: Global,
    memory: M,
    memory_size: u64,
    align_mask: u64,
    size: u64,
    steps: &mut Steps<L>,
) -> bool
    ensures counted { steps.old ≤ steps.new }
{
    if size == 0 || size > memory_size {
        return false;
    }
    if align_mask >= 1 << 63 || !(align_mask + 1).is_power_of_two() {
        return false;
    }
    let mut list: FreeList<M> = FreeList::new(alloc);
    if list.reserve().is_err() || !list.has_number() {
        list.close();
        return false;
    }
    let Ok(early) = list.get_block_from_new_memory(memory, memory_size, align_mask, size) else {
        list.close();
        return false;
    };
    match list.get_block(align_mask, size) {
        Ok(Some(late)) => {
            list.insert_block(early, steps);
            list.insert_block(late, steps);
            end(list);
            true
        }
        _ => {
            list.insert_block(early, steps);
            end(list);
            false
        }
    }
}

/// Takes each chunk out of a list without live blocks, the oldest first, and closes it, without a test. (A program with
/// a device would release what is dropped here.)
fn end<M: MemoryObject>(list: FreeList<M>)
    requires { set.len (list.space).live ≡ 0 }
{
    let mut list = list;
    while let Some((memory, _, _)) = list.take_whole(false) {
        let _ = memory;
    }
    list.close();
}
