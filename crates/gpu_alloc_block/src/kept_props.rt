//! The properties of a block's memory type, as wide as its index.

ghost use Rattle.std.specs.Prelude.{◌≡◌};
ghost use Rattle.gpu_alloc_types.specs.Flags.{property_bits};

use gpu_alloc_types::MemoryPropertyFlags;
use std::marker::Model;

/// The properties of a memory type, as a number of four bytes. (Next to the type's index they leave no padding. Padding
/// would be zeroed and copied with each answer on the way to the caller.)
#[derive(Drop)]
pub(crate) struct KeptProps {
    bits: u32,
}

impl Model for KeptProps {
    ghost use Rattle.std.specs.Prelude.{ℕ, ◌<◌};
    ghost use Rattle.std.specs.Coded.{coded_ℕ};

    ghost Value = { ℕ };

    ghost coded = { coded_ℕ };

    ghost view = { λ kept. kept.bits };

    ghost invariant = { λ kept. kept.bits < 256 };
}

impl KeptProps {
    /// Keeps these properties.
    #[inline(always)]
    pub(crate) fn of(props: MemoryPropertyFlags) -> KeptProps
        ensures { result ≡ property_bits props }
    {
        KeptProps {
            bits: u32::from(props.bits()),
        }
    }

    /// The properties.
    #[inline(always)]
    pub(crate) fn get(&self) -> MemoryPropertyFlags
        ensures { property_bits result ≡ self.now }
    {
        MemoryPropertyFlags::from_bits_retain(self.bits as u8)
    }
}
