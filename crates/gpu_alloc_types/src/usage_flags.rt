//! What memory is used for, as a set of flags.

ghost use Rattle.std.specs.Prelude.{⊤, ◌≡◌, ◌↔◌, ◌==◌, [], ◌∷◌, codes, bit_and, bit_or, bit_xor, if◌then◌else◌, IsTrue};
ghost use Rattle.std.specs.Prelude.{IsSome, IfSome, ◌&&◌, not};
ghost use Rattle.gpu_alloc_types.specs.Flags.{usage_bits, named_usage_bits, has_bit, has_all_bits, bits_without, device_address};

use bitflags::{Flag, Flags};
use std::ops::{
    BitAnd, BitAndAssign, BitOr, BitOrAssign, BitXor, BitXorAssign, Not, Sub, SubAssign,
};

/// What memory is used for (the original crate's `UsageFlags`).
///
/// The calls and operators are those of the crate `bitflags`, which the original crate uses. A bit without a name is
/// kept like any other. [`from_bits`](Self::from_bits) refuses it, and [`from_bits_truncate`](Self::from_bits_truncate)
/// and [`complement`](Self::complement) drop it.
#[derive(Clone, Copy, Debug, PartialEq, Eq, Hash, PartialOrd, Ord)]
pub struct UsageFlags {
    bits: u8,
}

impl UsageFlags {
    /// The device reads or writes the memory often. An empty usage means this too.
    pub const FAST_DEVICE_ACCESS: UsageFlags = UsageFlags { bits: 0x01 };

    /// The host reads or writes the memory.
    pub const HOST_ACCESS: UsageFlags = UsageFlags { bits: 0x02 };

    /// The memory carries data from the device to the host. Implies `HOST_ACCESS`.
    pub const DOWNLOAD: UsageFlags = UsageFlags { bits: 0x04 };

    /// The memory carries data from the host to the device. Implies `HOST_ACCESS`.
    pub const UPLOAD: UsageFlags = UsageFlags { bits: 0x08 };

    /// The block is returned soon.
    pub const TRANSIENT: UsageFlags = UsageFlags { bits: 0x10 };

    /// The device addresses the memory by a `u64`.
    pub const DEVICE_ADDRESS: UsageFlags = UsageFlags { bits: 0x20 };

    /// The value with no bit set.
    pub fn empty() -> UsageFlags
        ensures { usage_bits result ≡ 0 }
    {
        <UsageFlags as Flags>::empty()
    }

    /// All named flags.
    #[tactic(auto, unfolding(bitflags::proofs::OnLiterals::bitflags_on_literals))]
    pub fn all() -> UsageFlags
        ensures { usage_bits result ≡ named_usage_bits }
    {
        <UsageFlags as Flags>::all()
    }

    /// The number whose bits are these flags.
    pub fn bits(&self) -> u8
        ensures { result ≡ usage_bits self.now }
    {
        self.bits
    }

    /// The flags whose bits are set in `bits`, or `None` where one of those bits has no name.
    #[tactic(auto, unfolding(bitflags::proofs::OnLiterals::bitflags_on_literals))]
    pub fn from_bits(bits: u8) -> Option<UsageFlags>
        ensures named { IsSome result ↔ IsTrue (has_all_bits named_usage_bits bits) }
        ensures kept { IfSome result (λ flags. usage_bits flags ≡ bits) }
    {
        <UsageFlags as Flags>::from_bits(bits)
    }

    /// The flags whose bits are set in `bits`, without the bits that have no name.
    #[tactic(auto, unfolding(bitflags::proofs::OnLiterals::bitflags_on_literals))]
    pub fn from_bits_truncate(bits: u8) -> UsageFlags
        ensures { usage_bits result ≡ bit_and bits named_usage_bits }
    {
        <UsageFlags as Flags>::from_bits_truncate(bits)
    }

    /// The flags whose bits are set in `bits`, including bits without a name.
    pub fn from_bits_retain(bits: u8) -> UsageFlags
        ensures { usage_bits result ≡ bits }
    {
        UsageFlags { bits }
    }

    /// Whether no bit is set, named or not.
    pub fn is_empty(&self) -> bool
        ensures { result ≡ (usage_bits self.now == 0) }
    {
        <UsageFlags as Flags>::is_empty(self)
    }

    /// Whether every named bit is set. Other bits may be set too.
    pub fn is_all(&self) -> bool
        ensures { result ≡ has_all_bits (usage_bits self.now) named_usage_bits }
    {
        self.contains(UsageFlags::all())
    }

    /// Whether each bit of `other` is set, named or not. Every value contains the empty one.
    pub fn contains(&self, other: UsageFlags) -> bool
        ensures { result ≡ has_all_bits (usage_bits self.now) (usage_bits other) }
    {
        <UsageFlags as Flags>::contains(self, other)
    }

    /// Whether at least one bit of `other` is set, named or not.
    pub fn intersects(&self, other: UsageFlags) -> bool
        ensures { result ≡ has_bit (usage_bits self.now) (usage_bits other) }
    {
        <UsageFlags as Flags>::intersects(self, other)
    }

    /// Whether the usage asks for a device address that the device cannot give: `DEVICE_ADDRESS` without the feature.
    pub fn lacks_address(&self, buffer_device_address: bool) -> bool
        ensures { result ≡ (has_bit (usage_bits self.now) device_address && not buffer_device_address) }
    {
        self.intersects(UsageFlags::DEVICE_ADDRESS) && !buffer_device_address
    }

    /// The bits set in either.
    pub fn union(self, other: UsageFlags) -> UsageFlags
        ensures { usage_bits result ≡ bit_or (usage_bits self) (usage_bits other) }
    {
        <UsageFlags as Flags>::union(self, other)
    }

    /// The bits set in both.
    pub fn intersection(self, other: UsageFlags) -> UsageFlags
        ensures { usage_bits result ≡ bit_and (usage_bits self) (usage_bits other) }
    {
        <UsageFlags as Flags>::intersection(self, other)
    }

    /// These bits without those of `other`.
    pub fn difference(self, other: UsageFlags) -> UsageFlags
        ensures { usage_bits result ≡ bits_without (usage_bits self) (usage_bits other) }
    {
        <UsageFlags as Flags>::difference(self, other)
    }

    /// The bits set in exactly one of the two.
    pub fn symmetric_difference(self, other: UsageFlags) -> UsageFlags
        ensures { usage_bits result ≡ bit_xor (usage_bits self) (usage_bits other) }
    {
        <UsageFlags as Flags>::symmetric_difference(self, other)
    }

    /// The named flags that are not set here.
    #[tactic(auto, unfolding(bitflags::proofs::OnLiterals::bitflags_on_literals))]
    pub fn complement(self) -> UsageFlags
        ensures { usage_bits result ≡ bits_without named_usage_bits (usage_bits self) }
    {
        <UsageFlags as Flags>::complement(self)
    }

    /// Sets the bits of `other`.
    pub fn insert(&mut self, other: UsageFlags)
        ensures { usage_bits self.new ≡ bit_or (usage_bits self.old) (usage_bits other) }
    {
        <UsageFlags as Flags>::insert(self, other);
    }

    /// Clears the bits of `other`.
    pub fn remove(&mut self, other: UsageFlags)
        ensures { usage_bits self.new ≡ bits_without (usage_bits self.old) (usage_bits other) }
    {
        <UsageFlags as Flags>::remove(self, other);
    }

    /// Flips the bits of `other`: sets those that are clear here, and clears those that are set.
    pub fn toggle(&mut self, other: UsageFlags)
        ensures { usage_bits self.new ≡ bit_xor (usage_bits self.old) (usage_bits other) }
    {
        <UsageFlags as Flags>::toggle(self, other);
    }

    /// Sets the bits of `other` if `on`, and clears them otherwise.
    pub fn set(&mut self, other: UsageFlags, on: bool)
        ensures { usage_bits self.new ≡ (if on then bit_or (usage_bits self.old) (usage_bits other)
            else bits_without (usage_bits self.old) (usage_bits other)) }
    {
        <UsageFlags as Flags>::set(self, other, on);
    }
}

/// The bits set in either, as [`UsageFlags::union`].
impl BitOr for UsageFlags {
    type Output = UsageFlags;

    ghost bitor_gives = { λ a b r. usage_bits r ≡ bit_or (usage_bits a) (usage_bits b) };

    fn bitor(self, other: UsageFlags) -> UsageFlags {
        self.union(other)
    }
}

impl BitOrAssign for UsageFlags {
    ghost bitor_assign_gives = { λ a b r. usage_bits r ≡ bit_or (usage_bits a) (usage_bits b) };

    fn bitor_assign(&mut self, other: UsageFlags) {
        *self = *self | other;
    }
}

/// The bits set in both, as [`UsageFlags::intersection`].
impl BitAnd for UsageFlags {
    type Output = UsageFlags;

    ghost bitand_gives = { λ a b r. usage_bits r ≡ bit_and (usage_bits a) (usage_bits b) };

    fn bitand(self, other: UsageFlags) -> UsageFlags {
        self.intersection(other)
    }
}

impl BitAndAssign for UsageFlags {
    ghost bitand_assign_gives = { λ a b r. usage_bits r ≡ bit_and (usage_bits a) (usage_bits b) };

    fn bitand_assign(&mut self, other: UsageFlags) {
        *self = *self & other;
    }
}

/// The bits set in exactly one of the two, as [`UsageFlags::symmetric_difference`].
impl BitXor for UsageFlags {
    type Output = UsageFlags;

    ghost bitxor_gives = { λ a b r. usage_bits r ≡ bit_xor (usage_bits a) (usage_bits b) };

    fn bitxor(self, other: UsageFlags) -> UsageFlags {
        self.symmetric_difference(other)
    }
}

impl BitXorAssign for UsageFlags {
    ghost bitxor_assign_gives = { λ a b r. usage_bits r ≡ bit_xor (usage_bits a) (usage_bits b) };

    fn bitxor_assign(&mut self, other: UsageFlags) {
        *self = *self ^ other;
    }
}

/// These bits without those of the other, as [`UsageFlags::difference`].
impl Sub for UsageFlags {
    type Output = UsageFlags;

    ghost sub_gives = { λ a b r. usage_bits r ≡ bits_without (usage_bits a) (usage_bits b) };

    fn sub(self, other: UsageFlags) -> UsageFlags {
        self.difference(other)
    }
}

impl SubAssign for UsageFlags {
    ghost sub_assign_gives = { λ a b r. usage_bits r ≡ bits_without (usage_bits a) (usage_bits b) };

    fn sub_assign(&mut self, other: UsageFlags) {
        *self = *self - other;
    }
}

/// The named flags that are not set here, as [`UsageFlags::complement`].
impl Not for UsageFlags {
    type Output = UsageFlags;

    ghost not_gives = { λ a r. usage_bits r ≡ bits_without named_usage_bits (usage_bits a) };

    fn not(self) -> UsageFlags {
        self.complement()
    }
}

impl UsageFlags {
    // The named flags.
    const FLAGS: &'static [Flag<UsageFlags>] = &[
        Flag {
            name: "FAST_DEVICE_ACCESS",
            value: UsageFlags::FAST_DEVICE_ACCESS,
        },
        Flag {
            name: "HOST_ACCESS",
            value: UsageFlags::HOST_ACCESS,
        },
        Flag {
            name: "DOWNLOAD",
            value: UsageFlags::DOWNLOAD,
        },
        Flag {
            name: "UPLOAD",
            value: UsageFlags::UPLOAD,
        },
        Flag {
            name: "TRANSIENT",
            value: UsageFlags::TRANSIENT,
        },
        Flag {
            name: "DEVICE_ADDRESS",
            value: UsageFlags::DEVICE_ADDRESS,
        },
    ];
}

impl Flags for UsageFlags {
    type Bits = u8;

    ghost exact = { ⊤ };

    ghost table = { (codes "FAST_DEVICE_ACCESS", 1) ∷ (codes "HOST_ACCESS", 2) ∷ (codes "DOWNLOAD", 4)
        ∷ (codes "UPLOAD", 8) ∷ (codes "TRANSIENT", 16) ∷ (codes "DEVICE_ADDRESS", 32) ∷ [] };

    ghost set_of = { usage_bits };

    fn flags<'a>() -> &'a [Flag<UsageFlags>] {
        UsageFlags::FLAGS
    }

    fn bits(&self) -> u8 {
        UsageFlags::bits(self)
    }

    fn from_bits_retain(bits: u8) -> UsageFlags {
        UsageFlags::from_bits_retain(bits)
    }
}
