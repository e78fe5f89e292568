//! How a block is returned, and how a chunk is released.

ghost use Rattle.std.specs.Prelude.{◌≡◌, ◌≤◌, ◌<◌, ◌↔◌, IsTrue};
ghost use Rattle.gpu_alloc_types.specs.Device.{Asked};
ghost use Rattle.gpu_alloc_base.specs.Accounts.{account, IsCounted, chunks_and_remaining};
ghost use Rattle.gpu_alloc_shared.specs.Shared.{Agrees, Frees, ObjectsFreed, ReleasesNext, Removes};

use crate::store::Store;
use gpu_alloc_base::booking;
use gpu_alloc_base::heap::Heap;
use gpu_alloc_base::steps::Steps;
use gpu_alloc_types::{MemoryObject, ObjectDevice};
use std::sync::ledger::Ledger;

/// Returns a live block, and releases its chunk where the rule releases it with the block: `heap` is then lowered by its
/// size, and one more object may be held. It allocates nothing and cannot fail.
///
/// `returned` must be that of a live block. The device must be the one that made this store's chunks. `heap` must count
/// no less than the sum of the held chunks, and how many more objects may be held plus the number of held chunks must
/// fit 32 bits. All this holds again after the call, but for the block.
///
/// Each other block that a caller has in hand is still live, and may be returned next (`removed`). The ledger does not
/// grow (`ledger`). `steps` counts what the rule says (`steps`).
#[inline(always)]
pub fn dealloc<S: Store<M>, M: MemoryObject, D: ObjectDevice<M>, L: Ledger>(
    store: &mut S,
    device: &mut D,
    returned: S::Returned,
    heap: &mut Heap,
    allocations_remains: &mut u32,
    steps: &mut Steps<L>,
)
    requires live { (block : S.Block) × S.Returns (S.state store.old) returned block }
    requires agrees { Agrees S.rule (S.state store.old) (D.properties device.old) (D.objects device.old) }
    requires counted { IsCounted (S.rule.chunks (S.state store.old)) heap.old allocations_remains.old }
    ensures frees { (block : S.Block) → S.Returns (S.state store.old) returned block
        → Asked D.step device.old device.new
        (λ es. Frees S.rule (account (S.state store.old) heap.old allocations_remains.old) block es
        (account (S.state store.new) heap.new allocations_remains.new)) }
    ensures objects { (block : S.Block) → S.Returns (S.state store.old) returned block
        → ObjectsFreed S.rule (S.state store.old) block (D.objects device.old) (D.objects device.new) }
    ensures agrees { Agrees S.rule (S.state store.new) (D.properties device.new) (D.objects device.new) }
    ensures properties { D.properties device.new ≡ D.properties device.old }
    ensures removed { (block : S.Block) → S.Returns (S.state store.old) returned block
        → Removes S.rule (S.state store.old) block (S.state store.new) }
    ensures ledger { heap.new.used ≤ heap.old.used }
    ensures sound { S.rule.IsSound (S.state store.new) }
    ensures counted { IsCounted (S.rule.chunks (S.state store.new)) heap.new allocations_remains.new }
    ensures total { chunks_and_remaining (S.rule.chunks (S.state store.new)) allocations_remains.new
        ≡ chunks_and_remaining (S.rule.chunks (S.state store.old)) allocations_remains.old }
    ensures steps { (block : S.Block) → S.Returns (S.state store.old) returned block
        → S.rule.Joins (S.state store.old) block steps.old steps.new }
{
    store.keeps_sound();
    let gone = store.put_back(returned, steps);
    store.keeps_sound();
    let Some((memory, whole)) = gone else {
        return;
    };
    device.deallocate_memory(&memory);
    booking::release(heap, allocations_remains, whole);
}

/// Releases the chunk that the rule releases next, if there is one, and returns whether there was: exactly then `heap`
/// is lowered by its size, and one more object may be held (`found`). `keep_last` keeps the chunk of the last free run,
/// where the rule knows one. It allocates nothing and cannot fail.
///
/// The device must be the one that made this store's chunks. `heap` must count no less than the sum of the held chunks,
/// and how many more objects may be held plus the number of held chunks must fit 32 bits. All this holds again after
/// the call. No block is returned (`live`), and the ledger does not grow (`ledger`).
#[inline(always)]
pub fn release_next<S: Store<M>, M: MemoryObject, D: ObjectDevice<M>>(
    store: &mut S,
    device: &mut D,
    keep_last: bool,
    heap: &mut Heap,
    allocations_remains: &mut u32,
) -> bool
    requires agrees { Agrees S.rule (S.state store.old) (D.properties device.old) (D.objects device.old) }
    requires counted { IsCounted (S.rule.chunks (S.state store.old)) heap.old allocations_remains.old }
    ensures releases { Asked D.step device.old device.new
        (λ es. ReleasesNext S.rule (account (S.state store.old) heap.old allocations_remains.old) keep_last es
        (account (S.state store.new) heap.new allocations_remains.new) (D.objects device.old) (D.objects device.new)) }
    ensures agrees { Agrees S.rule (S.state store.new) (D.properties device.new) (D.objects device.new) }
    ensures properties { D.properties device.new ≡ D.properties device.old }
    ensures live { S.rule.live (S.state store.new) ≡ S.rule.live (S.state store.old) }
    ensures left { S.rule.Left (S.state store.new) keep_last result }
    ensures found { IsTrue result ↔ allocations_remains.old < allocations_remains.new }
    ensures ledger { heap.new.used ≤ heap.old.used }
    ensures sound { S.rule.IsSound (S.state store.new) }
    ensures counted { IsCounted (S.rule.chunks (S.state store.new)) heap.new allocations_remains.new }
    ensures total { chunks_and_remaining (S.rule.chunks (S.state store.new)) allocations_remains.new
        ≡ chunks_and_remaining (S.rule.chunks (S.state store.old)) allocations_remains.old }
{
    store.keeps_sound();
    let gone = store.take_whole(keep_last);
    store.keeps_sound();
    let Some((memory, size)) = gone else {
        return false;
    };
    device.deallocate_memory(&memory);
    booking::release(heap, allocations_remains, size);
    true
}
