//! Handles of the simulated device's objects.

ghost use Rattle.std.specs.Prelude.{◌≡◌, IfOk};

use gpu_alloc_types::MemoryObject;
use std::alloc::{AllocError, Allocator, Global};
use std::marker::Model;

/// A handle of an object of a [`Sim`](crate::Sim), which contracts see as the object's name.
///
/// The name is on the heap, so that making another handle can fail for want of memory.
#[derive(Drop)]
pub struct SimMemory<A: Allocator + Copy = Global> {
    name: Box<u64, A>,
}

impl<A: Allocator + Copy> Model for SimMemory<A> {
    ghost use Rattle.std.specs.Prelude.{ℕ};

    ghost Value = { ℕ };

    ghost view = { λ memory. memory.name.value };
}

impl<A: Allocator + Copy> SimMemory<A> {
    /// A handle of the object of that name.
    pub(super) fn new(alloc: A, name: u64) -> Result<SimMemory<A>, AllocError>
        ensures { IfOk result (λ memory. memory ≡ name) }
    {
        Ok(SimMemory {
            name: Box::new(alloc, name)?,
        })
    }
}

impl<A: Allocator + Copy> MemoryObject for SimMemory<A> {
    ghost object = { λ memory. memory };

    fn object(&self) -> u64 {
        *self.name
    }

    fn duplicate(&self) -> Result<SimMemory<A>, AllocError> {
        SimMemory::new(*Box::allocator(&self.name), *self.name)
    }
}
