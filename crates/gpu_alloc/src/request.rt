//! What is asked of an allocator.

ghost use Rattle.std.specs.Prelude.{◌≡◌, ◌↔◌, ◌≤◌, ◌^◌, IfSome, IsTrue, None};
ghost use Rattle.gpu_alloc_base.specs.Sizes.{up};
ghost use Rattle.gpu_alloc.specs.Request.{IsAskable, IsGranularity, in_pages, is_required};

use gpu_alloc_types::UsageFlags;

/// A request for memory.
#[derive(Clone, Copy, Debug, PartialEq, Eq, Hash)]
pub struct Request {
    /// The least size of the block, in bytes. The block may be larger: see `MemoryBlock::size`.
    pub size: u64,

    /// The alignment less one: the block's offset is a multiple of `align_mask + 1`, a power of two of at most 2^63.
    pub align_mask: u64,

    /// What the memory is for.
    pub usage: UsageFlags,

    /// The mask of the memory types that the block may be of: bit 0 for the type with index 0.
    pub memory_types: u32,
}

impl Request {
    /// Whether an allocator accepts this request: a size of at least 1, a valid alignment mask, and the usage
    /// `DEVICE_ADDRESS` only if `address`, which says that the device has the feature.
    pub fn is_askable(&self, address: bool) -> bool
        ensures { IsTrue result ↔ IsAskable address self.now }
    {
        self.size > 0
            && self.align_mask < 1 << 63
            && (self.align_mask + 1).is_power_of_two()
            && !self.usage.lacks_address(address)
    }
}

impl Request {
    /// The same request in whole pages of `granularity` bytes: its size rounded up to them, and its alignment at least
    /// one page. `None` where that size would be 2^64 bytes or more. The granularity must be a power of two of at most
    /// 2^32.
    pub fn in_pages(self, granularity: u64) -> Option<Request>
        requires { IsGranularity granularity }
        ensures rounded { IfSome result (λ paged. paged ≡ in_pages granularity self) }
        ensures none { (result ≡ None) ↔ 2 ^ 64 ≤ up self.size granularity }
    {
        let more = granularity - 1;
        match self.size.checked_add(more) {
            Some(size) => Some(Request {
                size: size / granularity * granularity,
                align_mask: self.align_mask.max(more),
                ..self
            }),
            None => None,
        }
    }
}

/// A hint that a request wants a memory object of its own.
#[derive(Clone, Copy, Debug, PartialEq, Eq, Hash)]
pub enum Dedicated {
    /// It must have one: the block is a whole memory object. Objects are few, and slow to make.
    Required,

    /// It would gain from one. The allocator may still place the block in a shared object.
    Preferred,
}

/// Whether a hint demands an object of its own. (It stands apart so that requests do not pay for it while more objects
/// may be held.)
#[cold]
#[inline(never)]
pub(crate) fn is_required(hint: Option<Dedicated>) -> bool
    ensures { result ≡ is_required hint }
{
    match hint {
        Some(Dedicated::Required) => true,
        Some(Dedicated::Preferred) | None => false,
    }
}
