//! The objects that are held for one block each.

ghost use Rattle.std.specs.Prelude.{◌≡◌, ◌↔◌, ◌+◌, ◌++◌, ◌<◌, ◌≤◌, ℕ, List, IsOk, IsSome, IsTrue};
ghost use Rattle.std.specs.Prelude.{MatchOption, None, OnOk, nat_eq, map as mapped};
ghost use Rattle.std.specs.FinMap as map;
ghost use Rattle.std.specs.FinSet as set;
ghost use Rattle.std.specs.List.{IsDistinct};
ghost use Rattle.std.specs.Map.{keys_of};
ghost use Rattle.std.specs.Option.{option_map};
ghost use Rattle.gpu_alloc.specs.Listing.{AreOnce};
ghost use Rattle.gpu_alloc.specs.Own.{own_held, own_span, row_of, live_span_of, IsRowOf, StandsNowhere, StandsUnder};
ghost use Rattle.gpu_alloc.specs.Spans.{held_objects_in, held_of, span_at, span_in};

use crate::spans::{HeldRow, LiveSpan};
use gpu_alloc_block::Kind;
use slab::Slab;
use std::alloc::{AllocError, Allocator, Global};
use std::marker::Model;

/// An object that is held for one block, with the span of that block.
#[derive(Clone, Copy, Debug, PartialEq, Eq)]
pub struct OwnRow {
    /// The object's name.
    pub object: u64,

    /// Where the block starts in the object, in bytes: 0 except in an import.
    pub offset: u64,

    /// The block's size, in bytes, which is what the object adds to its heap's ledger.
    pub size: u64,

    /// The index of the object's memory type.
    pub memory_type: u32,

    /// Whether the object is an import.
    pub imported: bool,
}

impl OwnRow {
    /// What the object is held for.
    #[inline(always)]
    fn kind(&self) -> Kind
        ensures { result ≡ (own_held self.now).kind }
    {
        if self.imported {
            Kind::Imported
        } else {
            Kind::Dedicated
        }
    }

    /// What is known of the object apart from its name.
    fn held(&self) -> HeldRow
        ensures { result ≡ row_of self.now }
    {
        HeldRow {
            memory_type: self.memory_type,
            counted: self.size,
            kind: self.kind(),
        }
    }

    /// The block's span.
    fn span(&self) -> LiveSpan
        ensures { result ≡ live_span_of self.now }
    {
        LiveSpan {
            object: self.object,
            offset: self.offset,
            size: self.size,
            chunk: 0,
            index: 0,
        }
    }

    /// Whether this is the object of this name.
    #[inline(always)]
    fn is_of(&self, object: u64) -> bool
        ensures { IsTrue result ↔ (self.now.object ≡ object) }
    {
        self.object == object
    }

    /// Whether its block has this span, and the object is of this memory type and kind.
    #[inline(always)]
    pub(crate) fn is(&self, offset: u64, size: u64, memory_type: u32, kind: Kind) -> bool
        ensures { IsTrue result ↔ ((own_span self.now ≡ span_at self.now.object offset size)
            × (((own_held self.now).memory_type ≡ memory_type) × ((own_held self.now).kind ≡ kind))) }
    {
        self.offset == offset
            && self.size == size
            && self.memory_type == memory_type
            && self.kind() == kind
    }
}

/// The objects that are held for one block each.
///
/// An object stands under a key, which its block carries. With that key it is found in constant time, and with any
/// other in time linear in the number of these objects.
#[derive(Drop)]
pub struct OwnObjects<A: Allocator = Global> {
    rows: Slab<OwnRow, A>,
}

impl<A: Allocator> Model for OwnObjects<A> {
    ghost use Rattle.gpu_alloc.specs.Own.{OwnTable};
    ghost use Rattle.gpu_alloc.specs.Codes.{own_table_code};

    ghost Value = { OwnTable };

    ghost coded = { own_table_code };

    ghost use Rattle.std.specs.Prelude.{◌-◌};
    ghost use Rattle.gpu_alloc_base.specs.SlabViews.{HasOneKeyEach};
    ghost use Rattle.gpu_alloc.specs.Own.{own_row_name, own_table};
    ghost use Rattle.slab.specs.Slab.{slab_len};

    ghost view = { λ t. own_table t.rows (t.rows.capacity - slab_len t.rows) };

    ghost invariant = { λ t. HasOneKeyEach own_row_name t.rows };
}

/// The key of an object's row: this one if its row is the object's, or else the one that a search finds.
#[inline(always)]
fn key_of<A: Allocator>(rows: &Slab<OwnRow, A>, key: usize, object: u64) -> Option<usize>
    ensures { MatchOption result (StandsNowhere rows.now object) (StandsUnder rows.now object) }
{
    match rows.get(key) {
        Some(row) if row.is_of(object) => Some(key),
        _ => search(rows, object),
    }
}

/// Whether an object's row stands under this key.
#[inline(always)]
fn is_under<A: Allocator>(rows: &Slab<OwnRow, A>, key: usize, object: u64) -> bool
    ensures { IsTrue result ↔ StandsUnder rows.now object key }
{
    match rows.get(key) {
        Some(row) => row.is_of(object),
        None => false,
    }
}

/// The key of an object's row, which has to be there, by a search over all rows. (It stands apart, so that returns
/// whose key is the object's do not pay for it.)
#[cold]
#[inline(never)]
fn sought<A: Allocator>(rows: &Slab<OwnRow, A>, object: u64) -> usize
    requires { StandsNowhere rows.now object → ⊥ }
    ensures { StandsUnder rows.now object result }
{
    match search(rows, object) {
        Some(key) => key,
        None => unreachable!(),
    }
}

/// The key of an object's row, by a search over all rows.
fn search<A: Allocator>(rows: &Slab<OwnRow, A>, object: u64) -> Option<usize>
    ensures { MatchOption result (StandsNowhere rows.now object) (StandsUnder rows.now object) }
{
    for (key, row) in rows.iter() {
        if row.is_of(object) {
            return Some(key);
        }
    }
    None
}

impl<A: Allocator + Copy> OwnObjects<A> {
    /// No objects. It allocates nothing.
    pub fn new(alloc: A) -> Self
        ensures held { result.held ≡ map.empty }
        ensures live { result.live ≡ set.empty }
    {
        OwnObjects {
            rows: Slab::new(alloc),
        }
    }
}

impl<A: Allocator> OwnObjects<A> {
    /// How many objects these are.
    pub fn len(&self) -> usize
        ensures { result ≡ map.len self.now.held }
    {
        self.rows.len()
    }

    /// Makes room for one more object, so that one `insert` cannot fail.
    ///
    /// The only error is want of memory. Nothing but the room changes, even after an error.
    #[inline(always)]
    pub fn reserve(&mut self) -> Result<(), AllocError>
        ensures room { OnOk result (0 < self.new.room) }
        ensures succeeds { 0 < self.old.room → IsOk result }
        ensures kept { self.new ≡ record self.old { room = self.new.room } }
    {
        self.rows.reserve(1)
    }

    /// Adds an object with its block, into room that was made, and returns its key, which the block must carry.
    #[inline(always)]
    pub fn insert(&mut self, row: OwnRow) -> usize
        requires room { 0 < self.old.room }
        requires free { map.get self.old.held row.object ≡ None }
        ensures held { self.new.held ≡ map.insert self.old.held row.object (own_held row) }
        ensures live { self.new.live ≡ set.insert self.old.live (own_span row) }
        ensures room { self.old.room ≤ self.new.room + 1 }
    {
        self.rows.insert_reserved(row)
    }

    /// The object of this name with its block, or `None` where it is not one of these.
    ///
    /// The answer is the same for any key. The key that `insert` returned makes it fast.
    #[inline(always)]
    pub fn find(&self, key: usize, object: u64) -> Option<OwnRow>
        ensures { MatchOption result (map.get self.now.held object ≡ None)
            (IsRowOf self.now.held self.now.live object) }
    {
        match key_of(&self.rows, key, object) {
            Some(found) => Some(self.rows[found]),
            None => None,
        }
    }

    /// What is known of the object of this name, or `None` where it is not one of these. It searches them all.
    pub fn held(&self, object: u64) -> Option<HeldRow>
        ensures { option_map held_of result ≡ map.get self.now.held object }
    {
        match search(&self.rows, object) {
            Some(found) => Some(self.rows[found].held()),
            None => None,
        }
    }

    /// Removes an object, which must be one of these, with its block. It allocates nothing and cannot fail.
    ///
    /// The result is the same for any key. The key that `insert` returned makes it fast.
    #[inline(always)]
    pub fn remove(&mut self, key: usize, object: u64) -> OwnRow
        requires held { IsSome (map.get self.old.held object) }
        ensures row { IsRowOf self.old.held self.old.live object result }
        ensures held { self.new.held ≡ map.remove self.old.held object }
        ensures live { self.new.live ≡ set.remove self.old.live (own_span result) }
        ensures room { self.old.room ≤ self.new.room }
    {
        // (two calls, so that what was seen under the key is not tested again)
        if is_under(&self.rows, key, object) {
            self.rows.remove(key)
        } else {
            let found = sought(&self.rows, object);
            self.rows.remove(found)
        }
    }

    /// Adds each object to a list with its name, each once, in no particular order.
    ///
    /// The only error is want of memory. Nothing else changes.
    pub fn list_objects<B: Allocator>(
        &self,
        rows: &mut Vec<(u64, HeldRow), B>,
    ) -> Result<(), AllocError>
        ensures { OnOk result ((own : List (ℕ × HeldRow)) × (rows.new.items ≡ rows.old.items ++ own)
            × ((held_objects_in own ≡ self.now.held) × IsDistinct nat_eq (keys_of own))) }
    {
        for (_, row) in self.rows.iter() {
            rows.push((row.object, row.held()))?;
        }
        Ok(())
    }

    /// Adds the span of each block to a list, each once, in no particular order.
    ///
    /// The only error is want of memory. Nothing else changes.
    pub fn list_spans<B: Allocator>(&self, rows: &mut Vec<LiveSpan, B>) -> Result<(), AllocError>
        ensures { OnOk result ((own : List LiveSpan) × (rows.new.items ≡ rows.old.items ++ own)
            × ((set.from_list (mapped span_in own) ≡ self.now.live) × AreOnce (mapped span_in own))) }
    {
        for (_, row) in self.rows.iter() {
            rows.push(row.span())?;
        }
        Ok(())
    }
}
