//! The sizes that control an allocator.

ghost use Rattle.std.specs.Prelude.{◌≡◌, IsTrue, ◌<◌};
ghost use Rattle.std.specs.Int.{is_power_of_two};
ghost use Rattle.gpu_alloc_base.specs.Config.{potato, prototyping};
ghost use Rattle.gpu_alloc_base.specs.Sizes.{preferred_threshold, minimal_size, initial_size, transient_threshold};
ghost use Rattle.gpu_alloc_base.specs.Sizes.{starting_size, final_size, cut};

use crate::sizes::next_power_of_two;
use serde::{Deserialize, Serialize};

/// 1024 bytes.
const KIBIBYTE: u64 = 1 << 10;

/// 1024 KiB, in bytes.
const MEBIBYTE: u64 = 1 << 20;

/// The sizes that control an allocator, all in bytes. Any values are valid, 0 included.
///
/// `serde` writes it with the names of its fields. It reads them in any order, or a list of the seven values. It is an
/// error if a text lacks a field, repeats one, or has a value that is not a `u64`. A field of another name is skipped,
/// as in the original crate.
#[derive(Clone, Copy, Debug, PartialEq, Eq, Serialize, Deserialize)]
pub struct Config {
    /// A request that isn't transient gets a memory object of its own from this size on, or from the 32nd part of its
    /// heap where that is less. A low value soon uses up the number of objects that a device allows.
    pub dedicated_threshold: u64,

    /// A request that prefers an object of its own gets one from this size on. A value above
    /// [`Config::dedicated_threshold`] counts as that one.
    pub preferred_dedicated_threshold: u64,

    /// [`Config::dedicated_threshold`] for a transient request. A value below that one counts as that one. A transient
    /// request that is larger, in whole atoms, than the largest shared object gets one of its own too.
    pub transient_dedicated_threshold: u64,

    /// The least size of the first object that transient requests share. It is at most the 32nd part of its heap, in
    /// whole atoms, and at least one atom.
    pub starting_free_list_chunk: u64,

    /// The size up to which such objects grow. A value below [`Config::starting_free_list_chunk`] or below the
    /// threshold of transient requests counts as the greater of these. It has the same bounds as that first size.
    pub final_free_list_chunk: u64,

    /// The least size of a block in an object shared by requests that aren't transient. It is at most the 1024th part
    /// of its heap, rounded up to a power of two.
    pub minimal_buddy_size: u64,

    /// The least size of the first object that such requests share. It is at most the 32nd part of its heap, rounded up
    /// to a power of two. A value below [`Config::minimal_buddy_size`] counts as that one. The object is at least twice
    /// as large as its first block in any case.
    pub initial_buddy_dedicated_size: u64,
}

impl Config {
    /// Sizes to start with: 1024 times those of [`Config::i_am_potato`].
    ///
    /// Devices and programs differ: a program that knows its own should choose other sizes.
    pub fn i_am_prototyping() -> Config
        ensures { result ≡ prototyping }
    {
        Config {
            dedicated_threshold: 32 * MEBIBYTE,
            preferred_dedicated_threshold: MEBIBYTE,
            transient_dedicated_threshold: 128 * MEBIBYTE,
            starting_free_list_chunk: 8 * MEBIBYTE,
            final_free_list_chunk: 128 * MEBIBYTE,
            minimal_buddy_size: KIBIBYTE,
            initial_buddy_dedicated_size: 8 * MEBIBYTE,
        }
    }

    /// Sizes for a device with very little memory.
    pub fn i_am_potato() -> Config
        ensures { result ≡ potato }
    {
        Config {
            dedicated_threshold: 32 * KIBIBYTE,
            preferred_dedicated_threshold: KIBIBYTE,
            transient_dedicated_threshold: 128 * KIBIBYTE,
            starting_free_list_chunk: 8 * KIBIBYTE,
            final_free_list_chunk: 128 * KIBIBYTE,
            minimal_buddy_size: 1,
            initial_buddy_dedicated_size: 8 * KIBIBYTE,
        }
    }

    /// The size from which a request that prefers an object of its own gets one, in bytes.
    /// It is public for the allocator.
    pub fn preferred_threshold(&self) -> u64
        ensures { result ≡ preferred_threshold self.now }
    {
        self.preferred_dedicated_threshold
            .min(self.dedicated_threshold)
    }

    /// The size of the smallest buddy block, in bytes, for a memory type in a heap of this size.
    /// It is public for the allocator.
    pub fn minimal_size(&self, heap: u64) -> u64
        ensures is { result ≡ minimal_size self.now heap }
        ensures power { IsTrue (is_power_of_two result) }
    {
        next_power_of_two(self.minimal_buddy_size.min(heap / 1024))
    }

    /// The least size of the first buddy chunk, in bytes, for a memory type in a heap of this size.
    /// It is public for the allocator.
    pub fn initial_size(&self, heap: u64) -> u64
        ensures is { result ≡ initial_size self.now heap }
        ensures power { IsTrue (is_power_of_two result) }
    {
        next_power_of_two(self.initial_buddy_dedicated_size.min(heap / 32))
    }

    /// The size from which a transient request gets an object of its own, in bytes.
    /// It is public for the allocator.
    pub fn transient_threshold(&self) -> u64
        ensures { result ≡ transient_threshold self.now }
    {
        self.transient_dedicated_threshold
            .max(self.dedicated_threshold)
    }

    /// The least size of the first free-list chunk, in bytes, for a memory type with this atom in a heap of this size.
    /// It is public for the allocator.
    pub fn starting_size(&self, heap: u64, atom: u64) -> u64
        requires { 0 < atom }
        ensures { result ≡ starting_size self.now heap atom }
    {
        cut(heap, atom, self.starting_free_list_chunk)
    }

    /// The size of the largest free-list chunk, in bytes, for a memory type with this atom in a heap of this size.
    /// It is public for the allocator.
    pub fn final_size(&self, heap: u64, atom: u64) -> u64
        requires { 0 < atom }
        ensures { result ≡ final_size self.now heap atom }
    {
        let largest = self
            .final_free_list_chunk
            .max(self.starting_free_list_chunk)
            .max(self.transient_threshold());
        cut(heap, atom, largest)
    }
}

/// A size in whole atoms: at most the 32nd part of the heap, and at least one atom.
fn cut(heap: u64, atom: u64, size: u64) -> u64
    requires { 0 < atom }
    ensures { result ≡ cut heap atom size }
{
    let whole = size.min(heap / 32) / atom * atom;
    if whole == 0 { atom } else { whole }
}
