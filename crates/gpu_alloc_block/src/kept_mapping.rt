//! A block's mapping, in two numbers.

ghost use Rattle.std.specs.Prelude.{◌≡◌, ◌<◌, None, Some, is_some};

use crate::block::Mapping;
use std::marker::Model;

/// A block's mapping, or no mapping, whose length is 0. (An `Option` adds a tag, and carries bytes that nobody reads
/// where it is `None`.)
#[derive(Drop)]
pub(crate) struct KeptMapping {
    start: u64,
    len: u64,
}

impl Model for KeptMapping {
    ghost use Rattle.std.specs.Prelude.{Option};
    ghost use Rattle.gpu_alloc_block.specs.KeptMapping.{mapping_in, kept_code};
    ghost use Rattle.gpu_alloc_block.specs.declared.block.Mapping.{Mapping as Range};

    ghost Value = { Option Range };

    ghost coded = { kept_code };

    ghost view = { λ kept. mapping_in kept.start kept.len };
}

impl KeptMapping {
    /// No mapping. (Its start then means nothing. It is not 0, because a compiler takes two zeros for a run of bytes
    /// and carries those through memory, where it would drop two numbers that it knows.)
    #[inline(always)]
    pub(crate) fn none() -> KeptMapping
        ensures { result ≡ None }
    {
        KeptMapping { start: 1, len: 0 }
    }

    /// Keeps this mapping, which has at least 1 byte.
    #[inline(always)]
    pub(crate) fn of(mapping: Mapping) -> KeptMapping
        requires { 0 < mapping.len }
        ensures { result ≡ Some mapping }
    {
        KeptMapping {
            start: mapping.start,
            len: mapping.len,
        }
    }

    /// Whether there is a mapping.
    #[inline(always)]
    pub(crate) fn is_some(&self) -> bool
        ensures { result ≡ is_some self.now }
    {
        self.len > 0
    }

    /// The mapping.
    #[inline(always)]
    pub(crate) fn get(&self) -> Option<Mapping>
        ensures { result ≡ self.now }
    {
        if self.len == 0 {
            return None;
        }
        Some(Mapping {
            start: self.start,
            len: self.len,
        })
    }
}
