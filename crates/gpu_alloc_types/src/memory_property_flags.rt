//! The properties of memory types, as sets of flags.

ghost use Rattle.std.specs.Prelude.{⊤, ◌≡◌, ◌↔◌, ◌==◌, [], ◌∷◌, codes, bit_and, bit_or, bit_xor, if◌then◌else◌, IsTrue};
ghost use Rattle.std.specs.Prelude.{IsSome, IfSome};
ghost use Rattle.gpu_alloc_types.specs.Flags.{property_bits, named_property_bits, has_bit, has_all_bits, bits_without};
ghost use Rattle.gpu_alloc_types.specs.Properties.{are_non_coherent};

use bitflags::{Flag, Flags};
use std::ops::{
    BitAnd, BitAndAssign, BitOr, BitOrAssign, BitXor, BitXorAssign, Not, Sub, SubAssign,
};

/// The properties of a memory type (Vulkan's `VkMemoryPropertyFlagBits`, with its numbers).
///
/// The calls and operators are those of the crate `bitflags`, which the original crate uses. A bit without a name is
/// kept like any other. [`from_bits`](Self::from_bits) refuses it, and [`from_bits_truncate`](Self::from_bits_truncate)
/// and [`complement`](Self::complement) drop it.
#[derive(Clone, Copy, Debug, PartialEq, Eq, Hash, PartialOrd, Ord)]
pub struct MemoryPropertyFlags {
    bits: u8,
}

impl MemoryPropertyFlags {
    /// Memory of the device's own, the fastest for the device.
    pub const DEVICE_LOCAL: MemoryPropertyFlags = MemoryPropertyFlags { bits: 1 };

    /// The host can map the memory.
    pub const HOST_VISIBLE: MemoryPropertyFlags = MemoryPropertyFlags { bits: 2 };

    /// The host and the device see each other's writes without a flush or an invalidate.
    pub const HOST_COHERENT: MemoryPropertyFlags = MemoryPropertyFlags { bits: 4 };

    /// The host caches the memory.
    pub const HOST_CACHED: MemoryPropertyFlags = MemoryPropertyFlags { bits: 8 };

    /// The device may back the memory only when it is first used. The allocator never uses such a type.
    pub const LAZILY_ALLOCATED: MemoryPropertyFlags = MemoryPropertyFlags { bits: 16 };

    /// Only protected queues may use the memory. The allocator never uses such a type.
    pub const PROTECTED: MemoryPropertyFlags = MemoryPropertyFlags { bits: 32 };

    /// The value with no bit set.
    pub fn empty() -> MemoryPropertyFlags
        ensures { property_bits result ≡ 0 }
    {
        <MemoryPropertyFlags as Flags>::empty()
    }

    /// All named flags.
    #[tactic(auto, unfolding(bitflags::proofs::OnLiterals::bitflags_on_literals))]
    pub fn all() -> MemoryPropertyFlags
        ensures { property_bits result ≡ named_property_bits }
    {
        <MemoryPropertyFlags as Flags>::all()
    }

    /// The number whose bits are these flags.
    pub fn bits(&self) -> u8
        ensures { result ≡ property_bits self.now }
    {
        self.bits
    }

    /// The flags whose bits are set in `bits`, or `None` where one of those bits has no name.
    #[tactic(auto, unfolding(bitflags::proofs::OnLiterals::bitflags_on_literals))]
    pub fn from_bits(bits: u8) -> Option<MemoryPropertyFlags>
        ensures named { IsSome result ↔ IsTrue (has_all_bits named_property_bits bits) }
        ensures kept { IfSome result (λ flags. property_bits flags ≡ bits) }
    {
        <MemoryPropertyFlags as Flags>::from_bits(bits)
    }

    /// The flags whose bits are set in `bits`, without the bits that have no name.
    #[tactic(auto, unfolding(bitflags::proofs::OnLiterals::bitflags_on_literals))]
    pub fn from_bits_truncate(bits: u8) -> MemoryPropertyFlags
        ensures { property_bits result ≡ bit_and bits named_property_bits }
    {
        <MemoryPropertyFlags as Flags>::from_bits_truncate(bits)
    }

    /// The flags whose bits are set in `bits`, including bits without a name.
    pub fn from_bits_retain(bits: u8) -> MemoryPropertyFlags
        ensures { property_bits result ≡ bits }
    {
        MemoryPropertyFlags { bits }
    }

    /// Whether no bit is set, named or not.
    pub fn is_empty(&self) -> bool
        ensures { result ≡ (property_bits self.now == 0) }
    {
        <MemoryPropertyFlags as Flags>::is_empty(self)
    }

    /// Whether every named bit is set. Other bits may be set too.
    pub fn is_all(&self) -> bool
        ensures { result ≡ has_all_bits (property_bits self.now) named_property_bits }
    {
        self.contains(MemoryPropertyFlags::all())
    }

    /// Whether each bit of `other` is set, named or not. Every value contains the empty one.
    pub fn contains(&self, other: MemoryPropertyFlags) -> bool
        ensures { result ≡ has_all_bits (property_bits self.now) (property_bits other) }
    {
        <MemoryPropertyFlags as Flags>::contains(self, other)
    }

    /// Whether at least one bit of `other` is set, named or not.
    pub fn intersects(&self, other: MemoryPropertyFlags) -> bool
        ensures { result ≡ has_bit (property_bits self.now) (property_bits other) }
    {
        <MemoryPropertyFlags as Flags>::intersects(self, other)
    }

    /// Whether the host and the device see each other's writes to such memory only after a flush or an invalidate: it
    /// is host-visible and not coherent.
    pub fn is_non_coherent(&self) -> bool
        ensures { result ≡ are_non_coherent (property_bits self.now) }
    {
        self.intersects(MemoryPropertyFlags::HOST_VISIBLE)
            && !self.intersects(MemoryPropertyFlags::HOST_COHERENT)
    }

    /// The bits set in either.
    pub fn union(self, other: MemoryPropertyFlags) -> MemoryPropertyFlags
        ensures { property_bits result ≡ bit_or (property_bits self) (property_bits other) }
    {
        <MemoryPropertyFlags as Flags>::union(self, other)
    }

    /// The bits set in both.
    pub fn intersection(self, other: MemoryPropertyFlags) -> MemoryPropertyFlags
        ensures { property_bits result ≡ bit_and (property_bits self) (property_bits other) }
    {
        <MemoryPropertyFlags as Flags>::intersection(self, other)
    }

    /// These bits without those of `other`.
    pub fn difference(self, other: MemoryPropertyFlags) -> MemoryPropertyFlags
        ensures { property_bits result ≡ bits_without (property_bits self) (property_bits other) }
    {
        <MemoryPropertyFlags as Flags>::difference(self, other)
    }

    /// The bits set in exactly one of the two.
    pub fn symmetric_difference(self, other: MemoryPropertyFlags) -> MemoryPropertyFlags
        ensures { property_bits result ≡ bit_xor (property_bits self) (property_bits other) }
    {
        <MemoryPropertyFlags as Flags>::symmetric_difference(self, other)
    }

    /// The named flags that are not set here.
    #[tactic(auto, unfolding(bitflags::proofs::OnLiterals::bitflags_on_literals))]
    pub fn complement(self) -> MemoryPropertyFlags
        ensures { property_bits result ≡ bits_without named_property_bits (property_bits self) }
    {
        <MemoryPropertyFlags as Flags>::complement(self)
    }

    /// Sets the bits of `other`.
    pub fn insert(&mut self, other: MemoryPropertyFlags)
        ensures { property_bits self.new ≡ bit_or (property_bits self.old) (property_bits other) }
    {
        <MemoryPropertyFlags as Flags>::insert(self, other);
    }

    /// Clears the bits of `other`.
    pub fn remove(&mut self, other: MemoryPropertyFlags)
        ensures { property_bits self.new ≡ bits_without (property_bits self.old) (property_bits other) }
    {
        <MemoryPropertyFlags as Flags>::remove(self, other);
    }

    /// Flips the bits of `other`: sets those that are clear here, and clears those that are set.
    pub fn toggle(&mut self, other: MemoryPropertyFlags)
        ensures { property_bits self.new ≡ bit_xor (property_bits self.old) (property_bits other) }
    {
        <MemoryPropertyFlags as Flags>::toggle(self, other);
    }

    /// Sets the bits of `other` if `on`, and clears them otherwise.
    pub fn set(&mut self, other: MemoryPropertyFlags, on: bool)
        ensures { property_bits self.new ≡ (if on then bit_or (property_bits self.old) (property_bits other)
            else bits_without (property_bits self.old) (property_bits other)) }
    {
        <MemoryPropertyFlags as Flags>::set(self, other, on);
    }
}

/// The bits set in either, as [`MemoryPropertyFlags::union`].
impl BitOr for MemoryPropertyFlags {
    type Output = MemoryPropertyFlags;

    ghost bitor_gives = { λ a b r. property_bits r ≡ bit_or (property_bits a) (property_bits b) };

    fn bitor(self, other: MemoryPropertyFlags) -> MemoryPropertyFlags {
        self.union(other)
    }
}

impl BitOrAssign for MemoryPropertyFlags {
    ghost bitor_assign_gives = { λ a b r. property_bits r ≡ bit_or (property_bits a) (property_bits b) };

    fn bitor_assign(&mut self, other: MemoryPropertyFlags) {
        *self = *self | other;
    }
}

/// The bits set in both, as [`MemoryPropertyFlags::intersection`].
impl BitAnd for MemoryPropertyFlags {
    type Output = MemoryPropertyFlags;

    ghost bitand_gives = { λ a b r. property_bits r ≡ bit_and (property_bits a) (property_bits b) };

    fn bitand(self, other: MemoryPropertyFlags) -> MemoryPropertyFlags {
        self.intersection(other)
    }
}

impl BitAndAssign for MemoryPropertyFlags {
    ghost bitand_assign_gives = { λ a b r. property_bits r ≡ bit_and (property_bits a) (property_bits b) };

    fn bitand_assign(&mut self, other: MemoryPropertyFlags) {
        *self = *self & other;
    }
}

/// The bits set in exactly one of the two, as [`MemoryPropertyFlags::symmetric_difference`].
impl BitXor for MemoryPropertyFlags {
    type Output = MemoryPropertyFlags;

    ghost bitxor_gives = { λ a b r. property_bits r ≡ bit_xor (property_bits a) (property_bits b) };

    fn bitxor(self, other: MemoryPropertyFlags) -> MemoryPropertyFlags {
        self.symmetric_difference(other)
    }
}

impl BitXorAssign for MemoryPropertyFlags {
    ghost bitxor_assign_gives = { λ a b r. property_bits r ≡ bit_xor (property_bits a) (property_bits b) };

    fn bitxor_assign(&mut self, other: MemoryPropertyFlags) {
        *self = *self ^ other;
    }
}

/// These bits without those of the other, as [`MemoryPropertyFlags::difference`].
impl Sub for MemoryPropertyFlags {
    type Output = MemoryPropertyFlags;

    ghost sub_gives = { λ a b r. property_bits r ≡ bits_without (property_bits a) (property_bits b) };

    fn sub(self, other: MemoryPropertyFlags) -> MemoryPropertyFlags {
        self.difference(other)
    }
}

impl SubAssign for MemoryPropertyFlags {
    ghost sub_assign_gives = { λ a b r. property_bits r ≡ bits_without (property_bits a) (property_bits b) };

    fn sub_assign(&mut self, other: MemoryPropertyFlags) {
        *self = *self - other;
    }
}

/// The named flags that are not set here, as [`MemoryPropertyFlags::complement`].
impl Not for MemoryPropertyFlags {
    type Output = MemoryPropertyFlags;

    ghost not_gives = { λ a r. property_bits r ≡ bits_without named_property_bits (property_bits a) };

    fn not(self) -> MemoryPropertyFlags {
        self.complement()
    }
}

impl MemoryPropertyFlags {
    // The named flags.
    const FLAGS: &'static [Flag<MemoryPropertyFlags>] = &[
        Flag {
            name: "DEVICE_LOCAL",
            value: MemoryPropertyFlags::DEVICE_LOCAL,
        },
        Flag {
            name: "HOST_VISIBLE",
            value: MemoryPropertyFlags::HOST_VISIBLE,
        },
        Flag {
            name: "HOST_COHERENT",
            value: MemoryPropertyFlags::HOST_COHERENT,
        },
        Flag {
            name: "HOST_CACHED",
            value: MemoryPropertyFlags::HOST_CACHED,
        },
        Flag {
            name: "LAZILY_ALLOCATED",
            value: MemoryPropertyFlags::LAZILY_ALLOCATED,
        },
        Flag {
            name: "PROTECTED",
            value: MemoryPropertyFlags::PROTECTED,
        },
    ];
}

impl Flags for MemoryPropertyFlags {
    type Bits = u8;

    ghost exact = { ⊤ };

    ghost table = { (codes "DEVICE_LOCAL", 1) ∷ (codes "HOST_VISIBLE", 2) ∷ (codes "HOST_COHERENT", 4)
        ∷ (codes "HOST_CACHED", 8) ∷ (codes "LAZILY_ALLOCATED", 16) ∷ (codes "PROTECTED", 32) ∷ [] };

    ghost set_of = { property_bits };

    fn flags<'a>() -> &'a [Flag<MemoryPropertyFlags>] {
        MemoryPropertyFlags::FLAGS
    }

    fn bits(&self) -> u8 {
        MemoryPropertyFlags::bits(self)
    }

    fn from_bits_retain(bits: u8) -> MemoryPropertyFlags {
        MemoryPropertyFlags::from_bits_retain(bits)
    }
}
