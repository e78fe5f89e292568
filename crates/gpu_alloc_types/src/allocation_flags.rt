//! The flags of an allocation from a device.

ghost use Rattle.std.specs.Prelude.{⊤, ◌≡◌, ◌↔◌, ◌==◌, [], ◌∷◌, codes, bit_and, bit_or, bit_xor, if◌then◌else◌, IsTrue};
ghost use Rattle.std.specs.Prelude.{IsSome, IfSome, cond};
ghost use Rattle.gpu_alloc_types.specs.Flags.{allocation_bits, named_allocation_bits, has_bit, has_all_bits};
ghost use Rattle.gpu_alloc_types.specs.Flags.{bits_without, with_device_address};

use bitflags::{Flag, Flags};
use std::ops::{
    BitAnd, BitAndAssign, BitOr, BitOrAssign, BitXor, BitXorAssign, Not, Sub, SubAssign,
};

/// What a device is asked for, apart from a size and a memory type.
///
/// The calls and operators are those of the crate `bitflags`, which the original crate uses. A bit without a name is
/// kept like any other. [`from_bits`](Self::from_bits) refuses it, and [`from_bits_truncate`](Self::from_bits_truncate)
/// and [`complement`](Self::complement) drop it.
#[derive(Clone, Copy, Debug, PartialEq, Eq, Hash, PartialOrd, Ord)]
pub struct AllocationFlags {
    bits: u8,
}

impl AllocationFlags {
    /// The device addresses the memory by a `u64` (Vulkan's `VK_MEMORY_ALLOCATE_DEVICE_ADDRESS_BIT`; the number is
    /// the original crate's).
    pub const DEVICE_ADDRESS: AllocationFlags = AllocationFlags { bits: 1 };

    /// The flags of every allocation: `DEVICE_ADDRESS` exactly where the device has the feature (the original crate's
    /// rule).
    pub fn by_feature(buffer_device_address: bool) -> AllocationFlags
        ensures { allocation_bits result ≡ cond buffer_device_address with_device_address 0 }
    {
        if buffer_device_address {
            AllocationFlags::DEVICE_ADDRESS
        } else {
            AllocationFlags::empty()
        }
    }

    /// The value with no bit set.
    pub fn empty() -> AllocationFlags
        ensures { allocation_bits result ≡ 0 }
    {
        <AllocationFlags as Flags>::empty()
    }

    /// All named flags.
    #[tactic(auto, unfolding(bitflags::proofs::OnLiterals::bitflags_on_literals))]
    pub fn all() -> AllocationFlags
        ensures { allocation_bits result ≡ named_allocation_bits }
    {
        <AllocationFlags as Flags>::all()
    }

    /// The number whose bits are these flags.
    pub fn bits(&self) -> u8
        ensures { result ≡ allocation_bits self.now }
    {
        self.bits
    }

    /// The flags whose bits are set in `bits`, or `None` where one of those bits has no name.
    #[tactic(auto, unfolding(bitflags::proofs::OnLiterals::bitflags_on_literals))]
    pub fn from_bits(bits: u8) -> Option<AllocationFlags>
        ensures named { IsSome result ↔ IsTrue (has_all_bits named_allocation_bits bits) }
        ensures kept { IfSome result (λ flags. allocation_bits flags ≡ bits) }
    {
        <AllocationFlags as Flags>::from_bits(bits)
    }

    /// The flags whose bits are set in `bits`, without the bits that have no name.
    #[tactic(auto, unfolding(bitflags::proofs::OnLiterals::bitflags_on_literals))]
    pub fn from_bits_truncate(bits: u8) -> AllocationFlags
        ensures { allocation_bits result ≡ bit_and bits named_allocation_bits }
    {
        <AllocationFlags as Flags>::from_bits_truncate(bits)
    }

    /// The flags whose bits are set in `bits`, including bits without a name.
    pub fn from_bits_retain(bits: u8) -> AllocationFlags
        ensures { allocation_bits result ≡ bits }
    {
        AllocationFlags { bits }
    }

    /// Whether no bit is set, named or not.
    pub fn is_empty(&self) -> bool
        ensures { result ≡ (allocation_bits self.now == 0) }
    {
        <AllocationFlags as Flags>::is_empty(self)
    }

    /// Whether every named bit is set. Other bits may be set too.
    pub fn is_all(&self) -> bool
        ensures { result ≡ has_all_bits (allocation_bits self.now) named_allocation_bits }
    {
        self.contains(AllocationFlags::all())
    }

    /// Whether each bit of `other` is set, named or not. Every value contains the empty one.
    pub fn contains(&self, other: AllocationFlags) -> bool
        ensures { result ≡ has_all_bits (allocation_bits self.now) (allocation_bits other) }
    {
        <AllocationFlags as Flags>::contains(self, other)
    }

    /// Whether at least one bit of `other` is set, named or not.
    pub fn intersects(&self, other: AllocationFlags) -> bool
        ensures { result ≡ has_bit (allocation_bits self.now) (allocation_bits other) }
    {
        <AllocationFlags as Flags>::intersects(self, other)
    }

    /// The bits set in either.
    pub fn union(self, other: AllocationFlags) -> AllocationFlags
        ensures { allocation_bits result ≡ bit_or (allocation_bits self) (allocation_bits other) }
    {
        <AllocationFlags as Flags>::union(self, other)
    }

    /// The bits set in both.
    pub fn intersection(self, other: AllocationFlags) -> AllocationFlags
        ensures { allocation_bits result ≡ bit_and (allocation_bits self) (allocation_bits other) }
    {
        <AllocationFlags as Flags>::intersection(self, other)
    }

    /// These bits without those of `other`.
    pub fn difference(self, other: AllocationFlags) -> AllocationFlags
        ensures { allocation_bits result ≡ bits_without (allocation_bits self) (allocation_bits other) }
    {
        <AllocationFlags as Flags>::difference(self, other)
    }

    /// The bits set in exactly one of the two.
    pub fn symmetric_difference(self, other: AllocationFlags) -> AllocationFlags
        ensures { allocation_bits result ≡ bit_xor (allocation_bits self) (allocation_bits other) }
    {
        <AllocationFlags as Flags>::symmetric_difference(self, other)
    }

    /// The named flags that are not set here.
    #[tactic(auto, unfolding(bitflags::proofs::OnLiterals::bitflags_on_literals))]
    pub fn complement(self) -> AllocationFlags
        ensures { allocation_bits result ≡ bits_without named_allocation_bits (allocation_bits self) }
    {
        <AllocationFlags as Flags>::complement(self)
    }

    /// Sets the bits of `other`.
    pub fn insert(&mut self, other: AllocationFlags)
        ensures { allocation_bits self.new ≡ bit_or (allocation_bits self.old) (allocation_bits other) }
    {
        <AllocationFlags as Flags>::insert(self, other);
    }

    /// Clears the bits of `other`.
    pub fn remove(&mut self, other: AllocationFlags)
        ensures { allocation_bits self.new ≡ bits_without (allocation_bits self.old) (allocation_bits other) }
    {
        <AllocationFlags as Flags>::remove(self, other);
    }

    /// Flips the bits of `other`: sets those that are clear here, and clears those that are set.
    pub fn toggle(&mut self, other: AllocationFlags)
        ensures { allocation_bits self.new ≡ bit_xor (allocation_bits self.old) (allocation_bits other) }
    {
        <AllocationFlags as Flags>::toggle(self, other);
    }

    /// Sets the bits of `other` if `on`, and clears them otherwise.
    pub fn set(&mut self, other: AllocationFlags, on: bool)
        ensures { allocation_bits self.new ≡ (if on then bit_or (allocation_bits self.old) (allocation_bits other)
            else bits_without (allocation_bits self.old) (allocation_bits other)) }
    {
        <AllocationFlags as Flags>::set(self, other, on);
    }
}

/// The bits set in either, as [`AllocationFlags::union`].
impl BitOr for AllocationFlags {
    type Output = AllocationFlags;

    ghost bitor_gives = { λ a b r. allocation_bits r ≡ bit_or (allocation_bits a) (allocation_bits b) };

    fn bitor(self, other: AllocationFlags) -> AllocationFlags {
        self.union(other)
    }
}

impl BitOrAssign for AllocationFlags {
    ghost bitor_assign_gives = { λ a b r. allocation_bits r ≡ bit_or (allocation_bits a) (allocation_bits b) };

    fn bitor_assign(&mut self, other: AllocationFlags) {
        *self = *self | other;
    }
}

/// The bits set in both, as [`AllocationFlags::intersection`].
impl BitAnd for AllocationFlags {
    type Output = AllocationFlags;

    ghost bitand_gives = { λ a b r. allocation_bits r ≡ bit_and (allocation_bits a) (allocation_bits b) };

    fn bitand(self, other: AllocationFlags) -> AllocationFlags {
        self.intersection(other)
    }
}

impl BitAndAssign for AllocationFlags {
    ghost bitand_assign_gives = { λ a b r. allocation_bits r ≡ bit_and (allocation_bits a) (allocation_bits b) };

    fn bitand_assign(&mut self, other: AllocationFlags) {
        *self = *self & other;
    }
}

/// The bits set in exactly one of the two, as [`AllocationFlags::symmetric_difference`].
impl BitXor for AllocationFlags {
    type Output = AllocationFlags;

    ghost bitxor_gives = { λ a b r. allocation_bits r ≡ bit_xor (allocation_bits a) (allocation_bits b) };

    fn bitxor(self, other: AllocationFlags) -> AllocationFlags {
        self.symmetric_difference(other)
    }
}

impl BitXorAssign for AllocationFlags {
    ghost bitxor_assign_gives = { λ a b r. allocation_bits r ≡ bit_xor (allocation_bits a) (allocation_bits b) };

    fn bitxor_assign(&mut self, other: AllocationFlags) {
        *self = *self ^ other;
    }
}

/// These bits without those of the other, as [`AllocationFlags::difference`].
impl Sub for AllocationFlags {
    type Output = AllocationFlags;

    ghost sub_gives = { λ a b r. allocation_bits r ≡ bits_without (allocation_bits a) (allocation_bits b) };

    fn sub(self, other: AllocationFlags) -> AllocationFlags {
        self.difference(other)
    }
}

impl SubAssign for AllocationFlags {
    ghost sub_assign_gives = { λ a b r. allocation_bits r ≡ bits_without (allocation_bits a) (allocation_bits b) };

    fn sub_assign(&mut self, other: AllocationFlags) {
        *self = *self - other;
    }
}

/// The named flags that are not set here, as [`AllocationFlags::complement`].
impl Not for AllocationFlags {
    type Output = AllocationFlags;

    ghost not_gives = { λ a r. allocation_bits r ≡ bits_without named_allocation_bits (allocation_bits a) };

    fn not(self) -> AllocationFlags {
        self.complement()
    }
}

impl AllocationFlags {
    // The named flags.
    const FLAGS: &'static [Flag<AllocationFlags>] = &[Flag {
        name: "DEVICE_ADDRESS",
        value: AllocationFlags::DEVICE_ADDRESS,
    }];
}

impl Flags for AllocationFlags {
    type Bits = u8;

    ghost exact = { ⊤ };

    ghost table = { (codes "DEVICE_ADDRESS", 1) ∷ [] };

    ghost set_of = { allocation_bits };

    fn flags<'a>() -> &'a [Flag<AllocationFlags>] {
        AllocationFlags::FLAGS
    }

    fn bits(&self) -> u8 {
        AllocationFlags::bits(self)
    }

    fn from_bits_retain(bits: u8) -> AllocationFlags {
        AllocationFlags::from_bits_retain(bits)
    }
}
