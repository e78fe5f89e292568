//! Values under keys with generations.

ghost use Rattle.std.specs.Prelude.{◌≡◌, ◌≢◌, ℕ, ◌+◌, ◌^◌, ◌<◌, ◌≤◌, ◌==◌, ◌↔◌, ◌⊎◌, [], length, OnOk, IsOk, OnSome, IfSome, IsSome, Some, None, option_copied};
ghost use Rattle.std.specs.Option.{option_copied_mut};
ghost use Rattle.std.specs.Borrow.{sem};
ghost use Rattle.std.specs.FinMap as map;
ghost use Rattle.gpu_slots.specs.SlotMap.{generation_of, IsGiven, IsGone, StaysGone};
ghost use Rattle.gpu_slots.specs.SlotMap.{HasNoValues, PutsAt, TakesAt};
ghost use Rattle.gpu_slots.specs.SlotMap.{ArePlaced, HasNoneFrom, IsFirstFrom, TakesPlace};

use std::alloc::{AllocError, Allocator, Global};
use std::marker::Model;
use std::mem;

/// How many generations a place has, and how many places there can be, each counted from 0 on.
const SPAN: u64 = 1 << 32;

/// A place, with the generation of the value in it, or of the next value if it is empty.
#[derive(Drop)]
struct Place<T> {
    generation: u64,
    value: Option<T>,
}

impl<T> Place<T> {
    ghost use Rattle.gpu_slots.specs.Lends.{lends_place};

    fn value_mut(&mut self) -> &mut T
        requires { IsSome self.old.value }
        ensures* writes_back { sem 𝓛 (lends_place T.row self.entry result) }
        ensures value { self.old.value ≡ Some result.now }
    {
        match &mut self.value {
            Some(value) => value,
            None => unreachable!(),
        }
    }
}

/// Values, each under a key that is never reused.
///
/// A key has the number of its place in the lower 32 bits, and the place's generation in the upper 32 bits. Generations
/// begin at 1, so 0 is never a key. When a value is removed, its place's generation rises by one. A place whose
/// generations are used up is never used again. Each call takes constant time, except where `reserve` moves the values
/// to more memory.
#[derive(Drop)]
pub struct SlotMap<T, A: Allocator = Global> {
    places: Vec<Place<T>, A>,
    // The places that are empty and have a generation left.
    free: Vec<u32, A>,
    len: usize,
}

impl<T, A: Allocator> Model for SlotMap<T, A> {
    ghost use Rattle.gpu_slots.specs.SlotMap.{SlotState, slots_code};

    ghost Value = { SlotState T };

    ghost coded = { slots_code T.code };

    ghost use Rattle.std.specs.Prelude.{map, vec_len, vec_capacity};
    ghost use Rattle.gpu_slots.specs.Places.{live_in, room_in, AreSoundPlaces};

    ghost view = { λ s. record {
      live = live_in s.places.items;
      generations = map (λ p. p.generation) s.places.items;
      room = room_in (vec_len s.places) (vec_capacity s.places) (vec_len s.free) s.len (vec_capacity s.free);
    } };

    ghost invariant = { λ s. AreSoundPlaces s.places.items s.free.items s.len (vec_capacity s.free) };
}

impl<T, A: Allocator + Copy> SlotMap<T, A> {
    /// No values. They take their memory from `alloc`; this call takes none.
    pub fn new(alloc: A) -> SlotMap<T, A>
        ensures live { result.live ≡ map.empty }
        ensures generations { result.generations ≡ [] }
        ensures none { HasNoValues result.live }
        ensures unused { (key : ℕ) → IsGiven result key → ⊥ }
    {
        SlotMap {
            places: Vec::new(alloc),
            free: Vec::new(alloc),
            len: 0,
        }
    }
}

impl<T, A: Allocator> SlotMap<T, A> {
    ghost use Rattle.gpu_slots.specs.Lends.{lends_get, lends_value};

    /// How many values there are.
    pub fn len(&self) -> usize
        ensures { result ≡ map.len self.now.live }
    {
        self.len
    }

    /// Whether there are no values.
    pub fn is_empty(&self) -> bool
        ensures { result ≡ (map.len self.now.live == 0) }
    {
        self.len == 0
    }

    /// Makes room for one more value, so that the next `insert_reserved` takes no memory.
    ///
    /// It fails for want of memory, or where no place is free and 2^32 - 1 places are used. Nothing but the room
    /// changes, and it never shrinks, even after an error.
    pub fn reserve(&mut self) -> Result<(), AllocError>
        ensures room { OnOk result (0 < self.new.room) }
        ensures stays { self.old.room ≤ self.new.room }
        ensures succeeds { 0 < self.old.room → IsOk result }
        ensures kept { self.new ≡ record self.old { room = self.new.room } }
    {
        if !self.free.is_empty() {
            return Ok(());
        }
        if self.places.len() as u64 >= SPAN - 1 {
            return Err(AllocError);
        }
        self.places.reserve(1)?;
        self.free.reserve(self.len + 1)
    }

    /// Puts a value under a new key, which was never given before, and returns the key. There must be room.
    pub fn insert_reserved(&mut self, value: T) -> u64
        requires { 0 < self.old.room }
        ensures never_zero { result ≢ 0 }
        ensures new_key { IsGiven self.old result → ⊥ }
        ensures live { self.new.live ≡ map.insert self.old.live result value }
        ensures puts { PutsAt self.old.live result value self.new.live }
        ensures given { (key : ℕ) → IsGiven self.new key ↔ (IsGiven self.old key ⊎ (key ≡ result)) }
        ensures gone { StaysGone self.old self.new }
        ensures place { TakesPlace self.old result self.new }
        ensures room { self.old.room ≡ self.new.room + 1 }
    {
        self.len += 1;
        let Some(at) = self.free.pop() else {
            let at = self.places.len() as u64;
            self.places.push_reserved(Place {
                generation: 1,
                value: Some(value),
            });
            return SPAN + at;
        };
        let place = &mut self.places[at as usize];
        match mem::replace(&mut place.value, Some(value)) {
            None => place.generation * SPAN + at as u64,
            Some(_) => unreachable!(),
        }
    }

    /// The value under a key, or `None` where the key is not live.
    pub fn get(&self, key: u64) -> Option<&T>
        ensures { option_copied result ≡ map.get self.now.live key }
    {
        match self.places.get((key % SPAN) as usize) {
            Some(place) if place.generation == key / SPAN => place.value.as_ref(),
            _ => None,
        }
    }

    /// The value under a key for writing, or `None` where the key is not live.
    pub fn get_mut(&mut self, key: u64) -> Option<&mut T>
        ensures* writes_back { sem 𝓛 (lends_get T.row A.row A.Allocator self.entry key result) }
        ensures value { option_copied_mut result ≡ map.get self.old.live key }
    {
        if self.get(key).is_some() {
            Some(self.value_mut(key))
        } else {
            None
        }
    }

    fn value_mut(&mut self, key: u64) -> &mut T
        requires { IsSome (map.get self.old.live key) }
        ensures* writes_back { sem 𝓛 (lends_value T.row A.row A.Allocator self.entry key result) }
        ensures value { map.get self.old.live key ≡ Some result.now }
    {
        self.places[(key % SPAN) as usize].value_mut()
    }

    /// Removes and returns the value under a key, or returns `None` and changes nothing where the key is not live. It
    /// allocates nothing. The key is never valid again, and no later value has it. There is then room for one more
    /// value, unless the place's generations are used up.
    pub fn remove(&mut self, key: u64) -> Option<T>
        ensures value { result ≡ map.get self.old.live key }
        ensures live { self.new.live ≡ map.remove self.old.live key }
        ensures takes { IfSome result (λ value. TakesAt self.old.live key value self.new.live) }
        ensures given { (other : ℕ) → IsGiven self.new other ↔ IsGiven self.old other }
        ensures refused { OnSome result (IsGone self.new key) }
        ensures gone { StaysGone self.old self.new }
        ensures places { length self.new.generations ≡ length self.old.generations }
        ensures room { self.old.room ≤ self.new.room }
        ensures reused { IsSome result → generation_of key + 1 < 2 ^ 32 → self.new.room ≡ self.old.room + 1 }
        ensures absent { map.get self.old.live key ≡ None → self.new ≡ self.old }
    {
        if self.get(key).is_none() {
            return None;
        }
        self.len -= 1;
        let at = (key % SPAN) as usize;
        let place = &mut self.places[at];
        let value = place.value.take();
        place.generation += 1;
        if place.generation < SPAN {
            self.free.push_reserved(at as u32);
        }
        value
    }

    /// A lemma about where values lie in every map: does nothing at run time. Each live key has a place that exists,
    /// and no other live key has it.
    pub fn keeps_places(&self)
        ensures { ArePlaced self.now }
    {
        let _ = &self.places;
    }

    /// The key of the first value at this place or at a later one, or `None` where there is no such value.
    ///
    /// A caller that starts at place 0 and goes on after the place of each returned key meets the values in the order
    /// of their places. The call takes one step for each empty place that it passes.
    pub fn first_from(&self, place: u64) -> Option<u64>
        ensures first { IfSome result (IsFirstFrom self.now place) }
        ensures none { result ≡ None → HasNoneFrom self.now place }
    {
        let mut at = place;
        while at < self.places.len() as u64 {
            let found = &self.places[at as usize];
            if found.value.is_some() {
                return Some(found.generation * SPAN + at);
            }
            at += 1;
        }
        None
    }

    /// Ends the map, and returns its values one after another.
    pub fn into_values(self) -> Values<T, A>
        ensures { result ≡ self.live }
    {
        let SlotMap {
            places,
            free: _,
            len: _,
        } = self;
        Values { places }
    }

    /// Ends a map without values (see `is_empty`). A map whose values can't be dropped ends this way, or by
    /// [`into_values`](SlotMap::into_values).
    pub fn destroy_empty(self)
        requires { map.len self.live ≡ 0 }
    {
        self.into_values().destroy_empty();
    }
}

/// The values of a map that has ended, in no particular order. Contracts see them by the keys that they had.
#[derive(Drop)]
pub struct Values<T, A: Allocator = Global> {
    places: Vec<Place<T>, A>,
}

impl<T, A: Allocator> Model for Values<T, A> {
    ghost use Rattle.std.specs.Prelude.{◌^◌, ◌≤◌, length};
    ghost use Rattle.std.specs.FinMap as map;
    ghost use Rattle.std.specs.Ordering.{nat_cmp};
    ghost use Rattle.std.specs.Coded.{coded_ℕ};

    ghost Value = { map.FinMap nat_cmp T };

    ghost coded = { map.code coded_ℕ T.code };

    ghost use Rattle.gpu_slots.specs.Places.{live_in};

    ghost view = { λ v. live_in v.places.items };

    ghost invariant = { λ v. length v.places.items ≤ 2 ^ 32 };
}

impl<T, A: Allocator> Values<T, A> {
    /// One of the values, or `None` where none is left. All calls together go through the places once.
    pub fn next(&mut self) -> Option<T>
        ensures taken { IfSome result (λ value. (key : ℕ) × TakesAt self.old key value self.new) }
        ensures ended { result ≡ None → map.len self.new ≡ 0 }
        ensures stays { result ≡ None → self.new ≡ self.old }
    {
        while let Some(place) = self.places.pop() {
            let Place {
                generation: _,
                value,
            } = place;
            match value {
                Some(value) => return Some(value),
                None => continue,
            }
        }
        None
    }

    /// Ends the values, once none is left.
    pub fn destroy_empty(self)
        requires { map.len self ≡ 0 }
    {
        let Values { mut places } = self;
        while let Some(place) = places.pop() {
            let Place {
                generation: _,
                value,
            } = place;
            match value {
                None => {}
                Some(_) => unreachable!(),
            }
        }
        places.destroy_empty();
    }
}
