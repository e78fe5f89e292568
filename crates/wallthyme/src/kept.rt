//! A desk that may be dropped by the compiler, between calls.

ghost use Rattle.std.specs.Prelude.{◌≡◌};

use gpu_desk::{Answered, Desk};
use std::alloc::Global;
use std::marker::Model;
use std::mem::ManuallyDrop;

/// A desk that the compiler may drop, seen in contracts as the desk.
///
/// A desk must be closed, so that no object is forgotten. But between two calls from C it lies behind a pointer, and
/// whatever lies there must be droppable.
#[derive(Drop)]
pub(crate) struct KeptDesk {
    pub(crate) desk: ManuallyDrop<Desk>,

    /// The answers of a call, kept only for their memory.
    pub(crate) answers: Vec<Answered>,
}

impl Model for KeptDesk {
    ghost use Rattle.std.specs.Mem.{manually_drop_value};
    ghost use Rattle.gpu_desk.specs.Desk.{DeskState, desk_code};

    ghost Value = { DeskState };

    ghost coded = { desk_code };

    ghost view = { λ kept. manually_drop_value kept.desk };
}

impl KeptDesk {
    pub(crate) fn new(alloc: Global, desk: Desk) -> KeptDesk
        ensures { result ≡ desk }
    {
        // What is wrapped must still be closed. Both places that drop a kept desk do so: `wt_close`, and `wt_open`
        // where it finds no memory.
        let desk = unsafe { ManuallyDrop::new_unchecked(desk) };
        KeptDesk {
            desk,
            answers: Vec::new(alloc),
        }
    }

    pub(crate) fn into_desk(self) -> Desk
        ensures { result ≡ self }
    {
        ManuallyDrop::into_inner(self.desk)
    }
}
