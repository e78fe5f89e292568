//! Laws of the flag types by their numbers: their constants, their derived impls, and what generic code sees of them.
//! The functions are lemmas: they do nothing at run time.

ghost use Rattle.std.specs.Prelude.{◌≡◌, ◌<◌, ◌↔◌, [], ◌∷◌, IsTrue, Some};
ghost use Rattle.std.specs.Ordering.{nat_cmp, partial_lt};
ghost use Rattle.bitflags.specs.Sets.{known_bits};
ghost use Rattle.gpu_alloc_types.specs.Flags.{usage_bits, property_bits, allocation_bits, named_usage_bits};
ghost use Rattle.gpu_alloc_types.specs.Flags.{named_property_bits, named_allocation_bits};

use crate::{AllocationFlags, MemoryPropertyFlags, UsageFlags};
use bitflags::Flags;
use std::hash::Hash;

/// The numbers of the constants of [`UsageFlags`], which are the original crate's.
pub fn usage_numbers()
    ensures fast_device_access { usage_bits UsageFlags.FAST_DEVICE_ACCESS ≡ 1 }
    ensures host_access { usage_bits UsageFlags.HOST_ACCESS ≡ 2 }
    ensures download { usage_bits UsageFlags.DOWNLOAD ≡ 4 }
    ensures upload { usage_bits UsageFlags.UPLOAD ≡ 8 }
    ensures transient { usage_bits UsageFlags.TRANSIENT ≡ 16 }
    ensures device_address { usage_bits UsageFlags.DEVICE_ADDRESS ≡ 32 }
{}

/// The numbers of the constants of [`MemoryPropertyFlags`], which are Vulkan's.
pub fn property_numbers()
    ensures device_local { property_bits MemoryPropertyFlags.DEVICE_LOCAL ≡ 1 }
    ensures host_visible { property_bits MemoryPropertyFlags.HOST_VISIBLE ≡ 2 }
    ensures host_coherent { property_bits MemoryPropertyFlags.HOST_COHERENT ≡ 4 }
    ensures host_cached { property_bits MemoryPropertyFlags.HOST_CACHED ≡ 8 }
    ensures lazily_allocated { property_bits MemoryPropertyFlags.LAZILY_ALLOCATED ≡ 16 }
    ensures protected { property_bits MemoryPropertyFlags.PROTECTED ≡ 32 }
{}

/// The number of the constant of [`AllocationFlags`].
pub fn allocation_numbers()
    ensures device_address { allocation_bits AllocationFlags.DEVICE_ADDRESS ≡ 1 }
{}

/// `==` on [`UsageFlags`] compares the numbers.
pub fn usage_equality()
    ensures { (a b : UsageFlags) → IsTrue (⟦<UsageFlags as PartialEq>⟧.eq a b) ↔ (usage_bits a ≡ usage_bits b) }
{}

/// `cmp`, `partial_cmp` and `<` on [`UsageFlags`] compare the numbers.
pub fn usage_order()
    ensures total { (a b : UsageFlags) → ⟦<UsageFlags as Ord>⟧.cmp a b ≡ nat_cmp (usage_bits a) (usage_bits b) }
    ensures partial { (a b : UsageFlags)
        → ⟦<UsageFlags as PartialOrd>⟧.partial_cmp a b ≡ Some (nat_cmp (usage_bits a) (usage_bits b)) }
    ensures less { (a b : UsageFlags) → IsTrue (partial_lt ⟦<UsageFlags as PartialOrd>⟧.partial_cmp a b)
        ↔ (usage_bits a < usage_bits b) }
{}

/// Cloning [`UsageFlags`] never fails and keeps the number.
pub fn usage_clone()
    ensures infallible { (a : UsageFlags) → ⟦<UsageFlags as Clone>⟧.is_infallible a }
    ensures same { (a b : UsageFlags) → ⟦<UsageFlags as Clone>⟧.is_clone a b → usage_bits b ≡ usage_bits a }
{}

/// Hashing [`UsageFlags`] feeds the hasher the number as one byte, and nothing else.
pub fn usage_hash()
    ensures { (a : UsageFlags) → ⟦<UsageFlags as Hash>⟧.hash_input a ≡ (usage_bits a ∷ []) ∷ [] }
{}

/// Code that is generic over [`Flags`] sees the same number of [`UsageFlags`], and the same named bits.
#[tactic(auto, unfolding(bitflags::proofs::OnLiterals::bitflags_on_literals))]
pub fn usage_as_flags()
    ensures exact { ⟦<UsageFlags as Flags>⟧.exact }
    ensures number { (a : UsageFlags) → ⟦<UsageFlags as Flags>⟧.set_of a ≡ usage_bits a }
    ensures named { known_bits ⟦<UsageFlags as Flags>⟧.table ≡ named_usage_bits }
{}

/// `==` on [`MemoryPropertyFlags`] compares the numbers.
pub fn property_equality()
    ensures { (a b : MemoryPropertyFlags) → IsTrue (⟦<MemoryPropertyFlags as PartialEq>⟧.eq a b)
        ↔ (property_bits a ≡ property_bits b) }
{}

/// `cmp`, `partial_cmp` and `<` on [`MemoryPropertyFlags`] compare the numbers.
pub fn property_order()
    ensures total { (a b : MemoryPropertyFlags)
        → ⟦<MemoryPropertyFlags as Ord>⟧.cmp a b ≡ nat_cmp (property_bits a) (property_bits b) }
    ensures partial { (a b : MemoryPropertyFlags)
        → ⟦<MemoryPropertyFlags as PartialOrd>⟧.partial_cmp a b ≡ Some (nat_cmp (property_bits a) (property_bits b)) }
    ensures less { (a b : MemoryPropertyFlags)
        → IsTrue (partial_lt ⟦<MemoryPropertyFlags as PartialOrd>⟧.partial_cmp a b)
        ↔ (property_bits a < property_bits b) }
{}

/// Cloning [`MemoryPropertyFlags`] never fails and keeps the number.
pub fn property_clone()
    ensures infallible { (a : MemoryPropertyFlags) → ⟦<MemoryPropertyFlags as Clone>⟧.is_infallible a }
    ensures same { (a b : MemoryPropertyFlags) → ⟦<MemoryPropertyFlags as Clone>⟧.is_clone a b
        → property_bits b ≡ property_bits a }
{}

/// Hashing [`MemoryPropertyFlags`] feeds the hasher the number as one byte, and nothing else.
pub fn property_hash()
    ensures { (a : MemoryPropertyFlags) → ⟦<MemoryPropertyFlags as Hash>⟧.hash_input a ≡ (property_bits a ∷ []) ∷ [] }
{}

/// Code that is generic over [`Flags`] sees the same number of [`MemoryPropertyFlags`], and the same named bits.
#[tactic(auto, unfolding(bitflags::proofs::OnLiterals::bitflags_on_literals))]
pub fn property_as_flags()
    ensures exact { ⟦<MemoryPropertyFlags as Flags>⟧.exact }
    ensures number { (a : MemoryPropertyFlags) → ⟦<MemoryPropertyFlags as Flags>⟧.set_of a ≡ property_bits a }
    ensures named { known_bits ⟦<MemoryPropertyFlags as Flags>⟧.table ≡ named_property_bits }
{}

/// `==` on [`AllocationFlags`] compares the numbers.
pub fn allocation_equality()
    ensures { (a b : AllocationFlags) → IsTrue (⟦<AllocationFlags as PartialEq>⟧.eq a b)
        ↔ (allocation_bits a ≡ allocation_bits b) }
{}

/// `cmp`, `partial_cmp` and `<` on [`AllocationFlags`] compare the numbers.
pub fn allocation_order()
    ensures total { (a b : AllocationFlags)
        → ⟦<AllocationFlags as Ord>⟧.cmp a b ≡ nat_cmp (allocation_bits a) (allocation_bits b) }
    ensures partial { (a b : AllocationFlags)
        → ⟦<AllocationFlags as PartialOrd>⟧.partial_cmp a b ≡ Some (nat_cmp (allocation_bits a) (allocation_bits b)) }
    ensures less { (a b : AllocationFlags) → IsTrue (partial_lt ⟦<AllocationFlags as PartialOrd>⟧.partial_cmp a b)
        ↔ (allocation_bits a < allocation_bits b) }
{}

/// Cloning [`AllocationFlags`] never fails and keeps the number.
pub fn allocation_clone()
    ensures infallible { (a : AllocationFlags) → ⟦<AllocationFlags as Clone>⟧.is_infallible a }
    ensures same { (a b : AllocationFlags) → ⟦<AllocationFlags as Clone>⟧.is_clone a b
        → allocation_bits b ≡ allocation_bits a }
{}

/// Hashing [`AllocationFlags`] feeds the hasher the number as one byte, and nothing else.
pub fn allocation_hash()
    ensures { (a : AllocationFlags) → ⟦<AllocationFlags as Hash>⟧.hash_input a ≡ (allocation_bits a ∷ []) ∷ [] }
{}

/// Code that is generic over [`Flags`] sees the same number of [`AllocationFlags`], and the same named bits.
#[tactic(auto, unfolding(bitflags::proofs::OnLiterals::bitflags_on_literals))]
pub fn allocation_as_flags()
    ensures exact { ⟦<AllocationFlags as Flags>⟧.exact }
    ensures number { (a : AllocationFlags) → ⟦<AllocationFlags as Flags>⟧.set_of a ≡ allocation_bits a }
    ensures named { known_bits ⟦<AllocationFlags as Flags>⟧.table ≡ named_allocation_bits }
{}
