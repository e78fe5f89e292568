//! The held objects, and the names of those that were released.

ghost use Rattle.std.specs.Prelude.{◌≡◌, ◌+◌, ◌<◌, [], ◌∷◌, ◌++◌, take, None, Some, IsSome, OnOk, IfSome};
ghost use Rattle.std.specs.FinMap as map;
ghost use Rattle.gpu_answers.specs.Held.{new_held_object, held_mapped_as, AreNamed, ChangesHeldObject, IsSpent};

use crate::ObjectName;
use crate::objects::{HeldObject, Objects};
use gpu_alloc_types::MemoryObject;
use std::alloc::{AllocError, Global};
use std::marker::Model;

/// The held objects, by name, and the names of those that were released.
///
/// The names are 1, 2, 3 and so on, and none is used again. There is always room for the name of each held object among
/// the released ones, so no name is lost. The calls take constant time on average for a handle that was made here; for
/// any other they search.
#[derive(Drop)]
pub(crate) struct HeldObjects {
    objects: Objects,
    last_name: u64,
    gone: Vec<u64>,
}

impl Model for HeldObjects {
    ghost use Rattle.std.specs.FinMap as map;
    ghost use Rattle.gpu_answers.specs.Held.{HeldState, held_code};

    ghost Value = { HeldState };

    ghost coded = { held_code };

    ghost use Rattle.std.specs.Prelude.{vec_len, vec_capacity};
    ghost use Rattle.gpu_answers.specs.Held.{AreNamesKept, room_for_objects};

    ghost view = { λ held. record {
      objects = held.objects.objects;
      last_name = held.last_name;
      gone = held.gone.items;
      room = room_for_objects held.objects.room held.last_name (vec_len held.gone) (vec_capacity held.gone)
          (held.objects.objects);
    } };

    ghost invariant = { λ held. AreNamesKept held.last_name held.gone.items (vec_len held.gone) (vec_capacity held.gone)
        (held.objects.objects) };
}

impl HeldObjects {
    /// No objects and no names. It allocates nothing.
    pub(crate) fn new(alloc: Global) -> HeldObjects
        ensures objects { result.objects ≡ map.empty }
        ensures last_name { result.last_name ≡ 0 }
        ensures gone { result.gone ≡ [] }
    {
        HeldObjects {
            objects: Objects::new(alloc),
            last_name: 0,
            gone: Vec::new(alloc),
        }
    }

    /// A lemma about the names: does nothing at run time.
    pub(crate) fn keeps_names(&self)
        ensures { AreNamed self.now }
    {
        let _ = &self.gone;
    }

    /// Makes room for one more object, for its name and for that name among the released ones. It fails for want of
    /// memory, or where names are used up. Nothing but the room changes.
    pub(crate) fn make_room(&mut self) -> Result<(), AllocError>
        ensures room { OnOk result (0 < self.new.room) }
        ensures kept { self.new ≡ record self.old { room = self.new.room } }
    {
        if self.last_name == u64::MAX {
            return Err(AllocError);
        }
        let count = self.objects.reserve()?;
        self.gone.reserve(count)?;
        Ok(())
    }

    /// Holds an unmapped object under the next name, and returns its handle. There must be room.
    pub(crate) fn hold(&mut self, size: u64, memory_type: u32) -> ObjectName
        requires { 0 < self.old.room }
        ensures name { result ≡ self.old.last_name + 1 }
        ensures free { map.get self.old.objects result ≡ None }
        ensures objects { self.new.objects ≡ map.insert self.old.objects result (new_held_object size memory_type) }
        ensures last_name { self.new.last_name ≡ result }
        ensures gone { self.new.gone ≡ self.old.gone }
    {
        let name = self.last_name + 1;
        let object = HeldObject {
            memory_type,
            size,
            mapped: None,
        };
        let place = self.objects.insert_reserved(name, object);
        self.last_name = name;
        ObjectName::new(name, place)
    }

    /// Releases a held object. Its name is added after the other released ones.
    pub(crate) fn release(&mut self, memory: &ObjectName)
        requires { IsSome (map.get self.old.objects memory.now) }
        ensures objects { self.new.objects ≡ map.remove self.old.objects memory.now }
        ensures last_name { self.new.last_name ≡ self.old.last_name }
        ensures gone { self.new.gone ≡ self.old.gone ++ memory.now ∷ [] }
    {
        let name = memory.object();
        self.objects.remove(memory.place(), name);
        self.gone.push_reserved(name);
    }

    /// Sets the mapped range of a held object, or none.
    pub(crate) fn set_mapped(&mut self, memory: &ObjectName, range: Option<(u64, u64)>)
        requires { IsSome (map.get self.old.objects memory.now) }
        ensures objects { ChangesHeldObject (held_mapped_as range) self.old.objects memory.now self.new.objects }
        ensures last_name { self.new.last_name ≡ self.old.last_name }
        ensures gone { self.new.gone ≡ self.old.gone }
    {
        let name = memory.object();
        let object = self.objects.remove(memory.place(), name);
        // (a slab fills the place that was left last, so the object's handles find it as before)
        let changed = HeldObject {
            mapped: range,
            ..object
        };
        self.objects.insert_reserved(name, changed);
    }

    /// The names that were released, in that order.
    pub(crate) fn gone(&self) -> &[u64]
        ensures { result.now ≡ self.now.gone }
    {
        &self.gone
    }

    /// Takes the name that was released last.
    pub(crate) fn take_gone(&mut self) -> Option<u64>
        ensures taken { IfSome result (λ name. self.old.gone ≡ self.new.gone ++ name ∷ []) }
        ensures none { result ≡ None → (self.old.gone ≡ []) × (self.new.gone ≡ []) }
        ensures spent { IfSome result (IsSpent self.new) }
        ensures objects { self.new.objects ≡ self.old.objects }
        ensures last_name { self.new.last_name ≡ self.old.last_name }
    {
        self.gone.pop()
    }

    /// Drops all but the first `count` names that were released.
    pub(crate) fn forget_gone_after(&mut self, count: usize)
        ensures gone { self.new.gone ≡ take count self.old.gone }
        ensures objects { self.new.objects ≡ self.old.objects }
        ensures last_name { self.new.last_name ≡ self.old.last_name }
    {
        self.gone.truncate(count);
    }
}
