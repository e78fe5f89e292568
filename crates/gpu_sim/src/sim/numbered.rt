//! Values under numbers.

ghost use Rattle.std.specs.Prelude.{◌≡◌, OnOk, OnErr, option_copied};
ghost use Rattle.std.specs.Option.{option_copied_mut};
ghost use Rattle.std.specs.Borrow.{sem};
ghost use Rattle.std.specs.FinMap as map;

use indexmap::IndexMap;
use std::alloc::{AllocError, Allocator, Global};
use std::hash::{BuildHasherDefault, FoldHasher};
use std::marker::Model;

/// Values under numbers, which contracts see as a finite map. A call takes constant time on average.
#[derive(Drop)]
pub(super) struct Numbered<V, A: Allocator + Copy = Global> {
    entries: IndexMap<u64, V, BuildHasherDefault<FoldHasher>, A>,
}

impl<V, A: Allocator + Copy> Model for Numbered<V, A> {
    ghost use Rattle.std.specs.Coded.{coded_ℕ};
    ghost use Rattle.std.specs.Ordering.{nat_cmp};
    ghost use Rattle.std.specs.FinMap as map;

    ghost Value = { map.FinMap nat_cmp V };

    ghost coded = { map.code coded_ℕ V.code };

    ghost view = { λ numbered. map.from_entries numbered.entries.entries };
}

impl<V: Drop, A: Allocator + Copy> Numbered<V, A> {
    ghost use Rattle.gpu_sim.specs.Numbered.{lends_numbered};

    /// No values. It allocates nothing.
    pub(super) fn new(alloc: A) -> Numbered<V, A>
        ensures { result ≡ map.empty }
    {
        Numbered {
            entries: IndexMap::new(alloc),
        }
    }

    /// How many values there are.
    pub(super) fn len(&self) -> usize
        ensures { result ≡ map.len self.now }
    {
        self.entries.len()
    }

    /// The value under a number.
    pub(super) fn get(&self, number: u64) -> Option<&V>
        ensures { option_copied result ≡ map.get self.now number }
    {
        self.entries.get(&number)
    }

    /// The value under a number, for writing.
    pub(super) fn get_mut(&mut self, number: u64) -> Option<&mut V>
        ensures* writes_back { sem 𝓛 (lends_numbered V.row A.row A.Allocator self.entry number result) }
        ensures value { option_copied_mut result ≡ map.get self.old number }
    {
        self.entries.get_mut(&number)
    }

    /// Puts a value under a number, and replaces one that is there. Without memory nothing changes.
    pub(super) fn insert(&mut self, number: u64, value: V) -> Result<(), AllocError>
        ensures ok { OnOk result (self.new ≡ map.insert self.old number value) }
        ensures err { OnErr result (self.new ≡ self.old) }
    {
        self.entries.insert(number, value)?;
        Ok(())
    }

    /// Removes the value under a number, if there is one.
    pub(super) fn remove(&mut self, number: u64)
        ensures { self.new ≡ map.remove self.old number }
    {
        self.entries.swap_remove(&number);
    }
}
