//! The memory types that serve one usage, the best first.

ghost use Rattle.std.specs.Prelude.{◌≡◌, ◌<◌, ◌≤◌, ◌+◌, true, [], ◌∷◌, ◌++◌, length, take, if◌then◌else◌};
ghost use Rattle.gpu_alloc_types.specs.Flags.{usage_bits, property_bits};
ghost use Rattle.gpu_alloc_usage.specs.Masks.{with_bits};
ghost use Rattle.gpu_alloc_usage.specs.KeyByKey.{has_key, of_key};
ghost use Rattle.gpu_alloc_usage.specs.Ranking.{by_host, is_fast, compatible, where_differ, key, ranking};
ghost use Rattle.gpu_alloc_usage.specs.Ranking.{IsMaskOf};

use gpu_alloc_types::{MemoryPropertyFlags, MemoryType, UsageFlags};

/// Greater than any type's key.
const KEYS: u8 = 16;

/// The memory types of one usage, by index, the best first, at most 32; and the mask with exactly their bits.
#[derive(Clone, Copy)]
pub(crate) struct MemoryForOneUsage {
    types: [u32; 32],
    count: usize,
    mask: u32,
    ghost in_range: { count ≤ 32 },
    ghost exact: { mask ≡ with_bits 0 (take count types) },
}

impl MemoryForOneUsage {
    ghost use Rattle.gpu_alloc_usage.specs.Ranked.{ranked_types};

    /// The types, the best first.
    #[inline(always)]
    pub(crate) fn types(&self) -> &[u32]
        ensures { result.now ≡ ranked_types self.now }
    {
        &self.types[..self.count]
    }

    /// The mask with exactly the bits of the types.
    #[inline(always)]
    pub(crate) fn mask(&self) -> u32
        ensures { IsMaskOf result (ranked_types self.now) }
    {
        self.mask
    }

    /// The types that serve a usage, whatever a request allows.
    pub(crate) fn ranked(usage: UsageFlags, memory_types: &[MemoryType]) -> MemoryForOneUsage
        requires { length memory_types.now ≤ 32 }
        ensures { ranked_types result ≡ ranking (usage_bits usage) memory_types.now }
    {
        let mut ranked = MemoryForOneUsage::none();
        for key in 0..KEYS {
            ranked.add_key(usage, key, memory_types);
        }
        ranked
    }

    /// Adds the types that serve a usage and have a key, by rising index.
    fn add_key(&mut self, usage: UsageFlags, key: u8, memory_types: &[MemoryType])
        requires few { length memory_types.now ≤ 32 }
        requires room { length (ranked_types self.old) + length (of_key (usage_bits usage) key 0 memory_types.now) ≤
            32 }
        ensures { ranked_types self.new ≡ ranked_types self.old ++ of_key (usage_bits usage) key 0 memory_types.now }
    {
        for index in 0..memory_types.len() {
            let has_key = has_key(usage, key, memory_types[index]);
            self.add_where(has_key, index as u32);
        }
    }

    /// No types.
    #[tactic(auto, unfolding(crate::specs::Masks::with_bits))]
    pub(crate) fn none() -> MemoryForOneUsage
        ensures { ranked_types result ≡ [] }
    {
        MemoryForOneUsage {
            types: [0; 32],
            count: 0,
            mask: 0,
        }
    }

    /// Appends a type if `wanted`.
    fn add_where(&mut self, wanted: bool, index: u32)
        requires room { wanted ≡ true → length (ranked_types self.old) < 32 }
        requires bit { index < 32 }
        ensures { ranked_types self.new ≡ ranked_types self.old ++ (if wanted then index ∷ [] else []) }
    {
        if wanted {
            self.types[self.count] = index;
            self.count += 1;
            self.mask |= 1 << index;
        }
    }
}

/// Whether a type may serve a usage and has this key.
fn has_key(usage: UsageFlags, key: u8, memory_type: MemoryType) -> bool
    ensures { result ≡ has_key (usage_bits usage) key memory_type }
{
    is_compatible(usage, memory_type.props) && distance(usage, memory_type.props) == key
}

/// Whether memory with these properties may serve a usage.
fn is_compatible(usage: UsageFlags, props: MemoryPropertyFlags) -> bool
    ensures { result ≡ compatible (usage_bits usage) (property_bits props) }
{
    let unused = MemoryPropertyFlags::LAZILY_ALLOCATED | MemoryPropertyFlags::PROTECTED;
    let visible = props.intersects(MemoryPropertyFlags::HOST_VISIBLE);
    !props.intersects(unused) && (!is_by_host(usage) || visible)
}

/// How far memory with these properties is from the usage's preferences, from 0 to 15.
fn distance(usage: UsageFlags, props: MemoryPropertyFlags) -> u8
    ensures { result ≡ key (usage_bits usage) (property_bits props) }
{
    let local = props.intersects(MemoryPropertyFlags::DEVICE_LOCAL);
    let visible = props.intersects(MemoryPropertyFlags::HOST_VISIBLE);
    let cached = props.intersects(MemoryPropertyFlags::HOST_CACHED);
    let coherent = props.intersects(MemoryPropertyFlags::HOST_COHERENT);
    let downloads = usage.intersects(UsageFlags::DOWNLOAD);
    let carries = usage.intersects(UsageFlags::DOWNLOAD | UsageFlags::UPLOAD);
    cost(8, local, is_fast(usage))
        + cost(4, visible, is_by_host(usage))
        + cost(2, cached, downloads)
        + cost(1, coherent, carries)
}

/// `worth` where the two differ, and 0 otherwise.
fn cost(worth: u8, has: bool, wants: bool) -> u8
    ensures { result ≡ where_differ worth has wants }
{
    if has == wants { 0 } else { worth }
}

/// Whether the host reads or writes.
fn is_by_host(usage: UsageFlags) -> bool
    ensures { result ≡ by_host (usage_bits usage) }
{
    usage.intersects(UsageFlags::HOST_ACCESS | UsageFlags::DOWNLOAD | UsageFlags::UPLOAD)
}

/// Whether the usage prefers the device's own memory.
fn is_fast(usage: UsageFlags) -> bool
    ensures { result ≡ is_fast (usage_bits usage) }
{
    usage.is_empty() || usage.intersects(UsageFlags::FAST_DEVICE_ACCESS)
}
