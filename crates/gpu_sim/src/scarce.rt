//! Host memory that runs out.

use bumpalo::Bump;
use std::alloc::{AllocError, Global};
use std::cell::Cell;

/// An allocator over a [`ScarceMemory`], to be passed wherever one is asked for.
pub type HostMemory<'a> = &'a Bump;

/// Host memory that runs out where a test says so, and is otherwise as ample as `Global`.
///
/// Freed memory is never used again, so each request leaves less. So a test can refuse the requests of a run in turn,
/// by making the run once for each. With [`leave`](ScarceMemory::leave) and rooms of 0, 8, 16 bytes and so on the first
/// request is refused first. With the rooms that [`less_room`](ScarceMemory::less_room) returns, the last is.
#[derive(Drop)]
pub struct ScarceMemory {
    arena: Bump,
    unused: Cell<usize>,
}

impl ScarceMemory {
    /// Ample memory. Fails where `Global` has none.
    pub fn new(alloc: Global) -> Result<ScarceMemory, AllocError> {
        let memory = ScarceMemory {
            arena: Bump::new(alloc),
            unused: Cell::new(0),
        };
        // An arena of one chunk reuses its last block, one of two does not.
        memory.waste(1)?;
        memory.waste(memory.left().saturating_add(1))?;
        Ok(memory)
    }

    /// The allocator that takes its bytes.
    pub fn host(&self) -> HostMemory<'_> {
        &self.arena
    }

    /// From now on `room` bytes are left. Fails where `Global` has fewer, and then the memory is ample.
    pub fn leave(&self, room: usize) -> Result<(), AllocError> {
        self.lift();
        // Each chunk is at least twice as large as the one before.
        for _ in 0..64 {
            if self.left() >= room {
                break;
            }
            self.waste(self.left().saturating_add(1))?;
        }
        self.waste(self.left().saturating_sub(room))?;
        self.arena.set_allocation_limit(Some(0));
        Ok(())
    }

    /// From now on it is ample.
    pub fn lift(&self) {
        if self.arena.allocation_limit().is_some() {
            self.unused.set(self.left());
        }
        self.arena.set_allocation_limit(None);
    }

    /// The room for the next run of a series, after one in `room` bytes in which [`lift`](ScarceMemory::lift) was called
    /// at the first refusal, or at the end. It is `room` less the bytes that were unused by then, in whole 8s, and at
    /// least 8 less, but never below 0. `None` after a run in 0 bytes.
    ///
    /// A series that begins with more bytes than the run takes comes to each of its requests, the last one first.
    pub fn less_room(&self, room: usize) -> Option<usize> {
        if room == 0 {
            return None;
        }
        let unused = self.unused.get() / 8 * 8;
        Some(room.saturating_sub(unused.max(8)))
    }

    /// How many bytes are left before a further chunk is taken.
    fn left(&self) -> usize {
        self.arena.chunk_capacity()
    }

    /// Wastes `count` bytes.
    fn waste(&self, count: usize) -> Result<(), AllocError> {
        let _wasted: Vec<u8, HostMemory<'_>> = Vec::with_capacity(self.host(), count)?;
        Ok(())
    }
}
