//! The held objects, in rows by which their handles find them.

ghost use Rattle.std.specs.Prelude.{◌≡◌, ◌+◌, ◌<◌, None, Some, IsSome, IfOk, OnOk, MatchOption};
ghost use Rattle.std.specs.FinMap as map;
ghost use Rattle.gpu_answers.specs.Objects.{IsUnder, IsNowhere};

use slab::Slab;
use std::alloc::{AllocError, Global};
use std::marker::Model;

/// What is kept of an object: everything but its bytes.
#[derive(Clone, Copy, Debug, PartialEq, Eq)]
pub(crate) struct HeldObject {
    /// The index of its memory type.
    pub(crate) memory_type: u32,

    /// Its size in bytes.
    pub(crate) size: u64,

    /// Where its mapped range starts and its length, both in bytes.
    pub(crate) mapped: Option<(u64, u64)>,
}

/// An object with its name.
#[derive(Clone, Copy, Debug, PartialEq, Eq)]
pub(crate) struct ObjectRow {
    pub(crate) name: u64,
    pub(crate) object: HeldObject,
}

/// The held objects, by name.
///
/// Each has a row. With the row's place an object is found in constant time. With any other place, as in a handle of
/// another device, it is found in time linear in the objects.
#[derive(Drop)]
pub(crate) struct Objects {
    rows: Slab<ObjectRow>,
}

impl Model for Objects {
    ghost use Rattle.gpu_answers.specs.Objects.{ObjectsState, objects_code};

    ghost Value = { ObjectsState };

    ghost coded = { objects_code };

    ghost use Rattle.gpu_alloc_base.specs.SlabViews.{HasOneKeyEach};
    ghost use Rattle.gpu_answers.specs.Objects.{objects_in, name_in};

    ghost view = { λ o. objects_in o.rows };

    ghost invariant = { λ o. HasOneKeyEach name_in o.rows };
}

/// The place of a name's row: `place` if its row has the name, or else the one that a search over all rows finds.
#[inline(always)]
fn place_of(rows: &Slab<ObjectRow>, place: usize, name: u64) -> Option<usize>
    ensures { MatchOption result (IsNowhere rows.now name) (IsUnder rows.now name) }
{
    match rows.get(place) {
        Some(row) if row.name == name => Some(place),
        _ => search(rows, name),
    }
}

/// The place of a name's row, by a search over all rows.
#[cold]
#[inline(never)]
fn search(rows: &Slab<ObjectRow>, name: u64) -> Option<usize>
    ensures { MatchOption result (IsNowhere rows.now name) (IsUnder rows.now name) }
{
    for (place, row) in rows.iter() {
        if row.name == name {
            return Some(place);
        }
    }
    None
}

impl Objects {
    /// No objects. It allocates nothing.
    pub(crate) fn new(alloc: Global) -> Objects
        ensures objects { result.objects ≡ map.empty }
    {
        Objects {
            rows: Slab::new(alloc),
        }
    }

    /// Makes room for one more object, and returns how many there are with it. The only error is want of memory.
    /// Nothing but the room changes.
    #[inline(always)]
    pub(crate) fn reserve(&mut self) -> Result<usize, AllocError>
        ensures room { OnOk result (0 < self.new.room) }
        ensures count { IfOk result (λ count. map.len self.new.objects < count) }
        ensures objects { self.new.objects ≡ self.old.objects }
    {
        self.rows.reserve(1)?;
        // (a slab with room has fewer rows than its capacity, so one more does not overflow)
        let _ = self.rows.capacity();
        Ok(self.rows.len() + 1)
    }

    /// Adds an object under a new name, into room that was made, and returns its place.
    #[inline(always)]
    pub(crate) fn insert_reserved(&mut self, name: u64, object: HeldObject) -> usize
        requires room { 0 < self.old.room }
        requires free { map.get self.old.objects name ≡ None }
        ensures objects { self.new.objects ≡ map.insert self.old.objects name object }
    {
        self.rows.insert_reserved(ObjectRow { name, object })
    }

    /// Removes the object of a name, which must be there. The result is the same for any place.
    #[inline(always)]
    pub(crate) fn remove(&mut self, place: usize, name: u64) -> HeldObject
        requires held { IsSome (map.get self.old.objects name) }
        ensures was { map.get self.old.objects name ≡ Some result }
        ensures objects { self.new.objects ≡ map.remove self.old.objects name }
        ensures room { 0 < self.new.room }
    {
        match place_of(&self.rows, place, name) {
            Some(found) => self.rows.remove(found).object,
            None => unreachable!(),
        }
    }
}
