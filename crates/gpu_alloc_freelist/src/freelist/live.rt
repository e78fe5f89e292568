//! The live blocks of a free list. Each stands under a key that it carries, so that it is found in constant time.

ghost use Rattle.std.specs.Prelude.{◌≡◌, ◌≢◌, ◌↔◌, ◌+◌, ◌<◌, ◌≤◌, ℕ, Some, false, IsOk, IsTrue, MatchOption, OnOk};
ghost use Rattle.std.specs.FinSet as set;
ghost use Rattle.slab.specs.Slab.{get};
ghost use Rattle.gpu_alloc_freelist.specs.Live.{ListsSlots};

use gpu_alloc_base::free_list_block::Slot;
use slab::{Iter, Slab};
use std::alloc::{AllocError, Allocator, Global};
use std::marker::Model;

/// The live blocks of a free list, each under a key that its block carries.
///
/// With that key a block is found in constant time, and with any other in time linear in the live blocks.
#[derive(Drop)]
pub(super) struct Live<A: Allocator = Global> {
    slots: Slab<Slot, A>,
}

impl<A: Allocator> Model for Live<A> {
    ghost use Rattle.gpu_alloc_freelist.specs.Live.{LiveBlocks};
    ghost use Rattle.gpu_alloc_freelist.specs.Codes.{live_blocks_code};

    ghost Value = { LiveBlocks };

    ghost coded = { live_blocks_code };

    ghost use Rattle.gpu_alloc_base.specs.SlabViews.{HasOneKeyEach};
    ghost use Rattle.gpu_alloc_freelist.specs.Live.{live_blocks_in};

    ghost view = { λ l. live_blocks_in l.slots };

    ghost invariant = { λ l. HasOneKeyEach (λ slot. slot) l.slots };
}

impl<A: Allocator> Live<A> {
    /// No live blocks. They take their memory from `alloc`; this call takes none.
    pub(super) fn new(alloc: A) -> Self
        ensures empty { result.slots ≡ set.empty }
        ensures count { result.count ≡ 0 }
    {
        Live {
            slots: Slab::new(alloc),
        }
    }

    /// How many blocks are live.
    pub(super) fn len(&self) -> usize
        ensures { result ≡ self.now.count }
    {
        self.slots.len()
    }

    /// The live blocks, each once, in no particular order, with their keys.
    pub(super) fn iter(&self) -> Iter<'_, Slot>
        ensures { ListsSlots self.now.slots result }
    {
        self.slots.iter()
    }

    /// Whether a block is live. The answer is the same for any key. The key that `keep` returned for the block makes it
    /// fast.
    pub(super) fn has(&self, key: usize, slot: Slot) -> bool
        ensures { IsTrue result ↔ IsTrue (set.contains self.now.slots slot) }
    {
        key_of(&self.slots, key, slot).is_some()
    }

    /// Makes room for one more block, so that one `keep` cannot fail.
    ///
    /// The only error is want of memory. Nothing but the room changes, and it never shrinks, even after an error.
    pub(super) fn reserve(&mut self) -> Result<(), AllocError>
        ensures room { OnOk result (0 < self.new.room) }
        ensures stays { self.old.room ≤ self.new.room }
        ensures succeeds { 0 < self.old.room → IsOk result }
        ensures kept { (self.new.slots ≡ self.old.slots) × (self.new.count ≡ self.old.count) }
    {
        self.slots.reserve(1)
    }

    /// Adds a block that is not live, into room that was made, and returns its key, which the block must carry.
    pub(super) fn keep(&mut self, slot: Slot) -> usize
        requires room { 0 < self.old.room }
        requires fresh { set.contains self.old.slots slot ≡ false }
        ensures slots { self.new.slots ≡ set.insert self.old.slots slot }
        ensures count { self.new.count ≡ self.old.count + 1 }
        ensures room { self.old.room ≡ self.new.room + 1 }
    {
        self.slots.insert_reserved(slot)
    }

    /// Removes a block from the live ones. It allocates nothing and cannot fail.
    ///
    /// The result is the same for any key. The key that `keep` returned for the block makes it fast.
    pub(super) fn forget(&mut self, key: usize, slot: Slot)
        requires live { IsTrue (set.contains self.old.slots slot) }
        ensures slots { self.new.slots ≡ set.remove self.old.slots slot }
        ensures count { self.new.count + 1 ≡ self.old.count }
        ensures room { self.new.room ≡ self.old.room + 1 }
    {
        match key_of(&self.slots, key, slot) {
            Some(found) => {
                let _ = self.slots.remove(found);
            }
            None => unreachable!(),
        }
    }
}

/// The key of a block: `key` if the block stands under it, or else the one that a search of all blocks finds.
#[inline(always)]
fn key_of<A: Allocator>(slots: &Slab<Slot, A>, key: usize, slot: Slot) -> Option<usize>
    ensures { MatchOption result ((key : ℕ) → get slots.now key ≢ Some slot)
        (λ key. get slots.now key ≡ Some slot) }
{
    match slots.get(key) {
        Some(there) if *there == slot => Some(key),
        _ => search(slots, slot),
    }
}

/// The key of a block, by a search of all blocks.
fn search<A: Allocator>(slots: &Slab<Slot, A>, slot: Slot) -> Option<usize>
    ensures { MatchOption result ((key : ℕ) → get slots.now key ≢ Some slot)
        (λ key. get slots.now key ≡ Some slot) }
{
    for (key, there) in slots.iter() {
        if *there == slot {
            return Some(key);
        }
    }
    None
}
