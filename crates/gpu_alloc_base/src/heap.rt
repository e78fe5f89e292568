//! A heap's size, its limit, and the running ledger of what is held of it.

ghost use Rattle.std.specs.Prelude.{◌≡◌, ◌+◌, ◌-◌, ◌≤◌, ◌<◌, ◌↔◌, ◌^◌, IsTrue, min};
ghost use Rattle.gpu_alloc_base.specs.Heap.{unused};

/// A heap of a device: its size, its limit, and how much of it is held.
#[derive(Drop)]
pub struct Heap {
    size: u64,
    limit: u64,
    used: u128,
}

impl Heap {
    /// A heap of `size` bytes of which nothing is held. Its limit is its size.
    pub fn new(size: u64) -> Heap
        ensures { result ≡ unused size }
    {
        Heap {
            size,
            limit: size,
            used: 0,
        }
    }

    /// The heap's size, in bytes.
    #[inline(always)]
    pub fn size(&self) -> u64
        ensures { result ≡ self.now.size }
    {
        self.size
    }

    /// The limit on the bytes held of it, above which no more are asked for. It is at most the heap's size, and equals
    /// it where no limit is set.
    #[inline(always)]
    pub fn limit(&self) -> u64
        ensures { result ≡ self.now.limit }
    {
        self.limit
    }

    /// Sets the limit, in bytes, on what is asked for from now on. A value at or above the heap's size removes the
    /// limit. What is held stays, even above the limit.
    pub fn set_limit(&mut self, limit: u64)
        ensures { self.new ≡ record self.old { limit = min limit self.old.size } }
    {
        self.limit = limit.min(self.size);
    }

    /// How many bytes of it are held. This may exceed its size: imports are counted and never refused.
    #[inline(always)]
    pub fn used(&self) -> u128
        ensures { result ≡ self.now.used }
    {
        self.used
    }

    /// How many bytes may still be asked of it: its limit less what is held, or 0 where that is negative.
    #[inline(always)]
    pub fn budget(&self) -> u64
        ensures { result ≡ self.now.limit - self.now.used }
    {
        u128::from(self.limit).saturating_sub(self.used) as u64
    }

    /// Whether `size` bytes more would stay within the limit. Reaching it exactly is allowed.
    #[inline(always)]
    pub fn fits(&self, size: u64) -> bool
        ensures { IsTrue result ↔ self.now.used + size ≤ self.now.limit }
    {
        self.used <= u128::from(self.limit) && size <= self.limit - self.used as u64
    }

    /// Counts `size` bytes more as held. The total may exceed the limit (see [`fits`](Heap::fits)) and must stay below
    /// 2^128.
    #[inline(always)]
    pub fn alloc(&mut self, size: u64)
        requires { self.old.used + size < 2 ^ 128 }
        ensures { self.new ≡ record self.old { used = self.old.used + size } }
    {
        self.used += u128::from(size);
    }

    /// Counts `size` of the held bytes as released. No more may be released than are held.
    #[inline(always)]
    pub fn dealloc(&mut self, size: u64)
        requires { size ≤ self.old.used }
        ensures { self.new ≡ record self.old { used = self.old.used - size } }
    {
        self.used -= u128::from(size);
    }
}
