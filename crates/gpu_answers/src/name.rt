//! Handles of the device's objects.

ghost use Rattle.std.specs.Prelude.{◌≡◌, IfOk, IsOk};

use gpu_alloc_types::MemoryObject;
use std::alloc::AllocError;
use std::marker::Model;

/// A handle of an object of an [`AnsweredDevice`](crate::AnsweredDevice), which contracts see as the object's name.
#[derive(Drop)]
pub struct ObjectName {
    name: u64,
    // Where the device has the object's row. Contracts don't mention it, since the device confirms it.
    place: usize,
}

impl Model for ObjectName {
    ghost use Rattle.std.specs.Prelude.{ℕ};

    ghost Value = { ℕ };

    ghost view = { λ handle. handle.name };
}

impl ObjectName {
    /// A handle of the object of that name, whose row is at that place.
    #[inline(always)]
    pub(crate) fn new(name: u64, place: usize) -> ObjectName
        ensures { result ≡ name }
    {
        ObjectName { name, place }
    }

    /// Where the device has the object's row.
    #[inline(always)]
    pub(crate) fn place(&self) -> usize {
        self.place
    }
}

impl MemoryObject for ObjectName {
    ghost object = { λ handle. handle };

    #[inline(always)]
    fn object(&self) -> u64 {
        self.name
    }

    /// Another handle of the same object. It allocates nothing and never fails.
    fn duplicate(&self) -> Result<ObjectName, AllocError>
        ensures same { IfOk result (λ other. other ≡ self.now) }
        ensures succeeds { IsOk result }
    {
        Ok(ObjectName::new(self.name, self.place))
    }
}
