//! Which memory types serve a usage, and in which order they are tried.

mod ranked;

ghost use Rattle.std.specs.Prelude.{◌≡◌, ◌≤◌, ◌==◌, not, length, filter};
ghost use Rattle.gpu_alloc_types.specs.Flags.{usage_bits};
ghost use Rattle.gpu_alloc_usage.specs.Ranking.{implied, is_allowed, row, IsMaskOf, IsTable};
ghost use Rattle.gpu_alloc_usage.specs.Ranked.{ranked_types};

use crate::usage::ranked::MemoryForOneUsage;
use gpu_alloc_types::{MemoryType, UsageFlags};
use std::marker::Model;

/// How many usages there are: the sets of named flags.
const USAGES: usize = 64;

/// The named bits of a usage.
const NAMED: u8 = 0x3f;

/// What each set of named flags means, by its bits (`meaning`): a table, since every request looks it up.
const MEANINGS: &[u8; 64] =
    b"\x01\x01\x02\x03\x06\x07\x06\x07\x0a\x0b\x0a\x0b\x0e\x0f\x0e\x0f\x10\x11\x12\x13\x16\x17\x16\x17\x1a\x1b\x1a\x1b\x1e\x1f\x1e\x1f\x20\x21\x22\x23\x26\x27\x26\x27\x2a\x2b\x2a\x2b\x2e\x2f\x2e\x2f\x30\x31\x32\x33\x36\x37\x36\x37\x3a\x3b\x3a\x3b\x3e\x3f\x3e\x3f";

/// The memory types that serve each usage, ranked once.
///
/// A type serves a usage unless it is `LAZILY_ALLOCATED` or `PROTECTED`. Where the host reads or writes (`HOST_ACCESS`,
/// `UPLOAD` or `DOWNLOAD`) it must also be `HOST_VISIBLE`. The types that serve are ranked by how far they are from the
/// usage's preferences: 8 for a mismatch in `DEVICE_LOCAL`, 4 in `HOST_VISIBLE`, 2 in `HOST_CACHED`, 1 in
/// `HOST_COHERENT`. The nearest comes first, and among equals the lowest index (the original crate's order, which
/// leaves ties open).
#[derive(Drop)]
pub struct MemoryForUsage {
    usages: [MemoryForOneUsage; 64],
}

impl Model for MemoryForUsage {
    ghost use Rattle.std.specs.Prelude.{ℕ, List, map};
    ghost use Rattle.gpu_alloc_usage.specs.Ranked.{ranked_types};

    ghost Value = { List (List ℕ) };

    ghost view = { λ m. map ranked_types m.usages };
}

impl MemoryForUsage {
    /// Ranks a device's memory types for each usage. There are at most 32 types (Vulkan's `VK_MAX_MEMORY_TYPES`).
    pub fn new(memory_types: &[MemoryType]) -> MemoryForUsage
        requires { length memory_types.now ≤ 32 }
        ensures { IsTable memory_types.now result }
    {
        let mut usages = [MemoryForOneUsage::none(); USAGES];
        for bits in 0..USAGES {
            let usage = UsageFlags::from_bits_retain(bits as u8);
            usages[bits] = MemoryForOneUsage::ranked(usage, memory_types);
        }
        MemoryForUsage { usages }
    }

    /// The mask with exactly the bits of the types that serve a usage: bit 0 for the type with index 0. Unnamed bits of
    /// the usage are dropped.
    #[inline(always)]
    pub fn mask(&self, usage: UsageFlags) -> u32
        ensures { IsMaskOf result (row self.now (usage_bits usage)) }
    {
        self.row(usage).mask()
    }

    /// The indices of the types that serve a usage, the best first. Unnamed bits of the usage are dropped.
    #[inline(always)]
    pub fn types(&self, usage: UsageFlags) -> &[u32]
        ensures { result.now ≡ row self.now (usage_bits usage) }
    {
        self.row(usage).types()
    }

    /// Whether any type that serves a usage has its bit set in `mask`. Unnamed bits of the usage are dropped.
    #[inline(always)]
    pub fn has_any(&self, usage: UsageFlags, mask: u32) -> bool
        ensures { result ≡ not (length (filter (is_allowed mask) (row self.now (usage_bits usage))) == 0) }
    {
        self.mask(usage) & mask != 0
    }

    #[inline(always)]
    fn row(&self, usage: UsageFlags) -> &MemoryForOneUsage
        ensures { ranked_types result.now ≡ row self.now (usage_bits usage) }
    {
        &self.usages[(usage.bits() & NAMED) as usize]
    }
}

/// The meaning of a request's usage: no flag means `FAST_DEVICE_ACCESS`, and `DOWNLOAD` and `UPLOAD` imply
/// `HOST_ACCESS` (the original crate's rule). Unnamed bits are dropped.
#[inline(always)]
pub fn meaning(usage: UsageFlags) -> UsageFlags
    ensures { usage_bits result ≡ implied (usage_bits usage) }
{
    UsageFlags::from_bits_retain(MEANINGS[(usage.bits() & NAMED) as usize])
}
