//! What C keeps between calls.

ghost use Rattle.std.specs.Prelude.{◌≡◌, ◌==◌, ◌↔◌, Some, None, IsSome, IsNone, IsTrue, MatchOption, is_some};

use crate::kept::KeptDesk;
use crate::seal::Seal;
use std::alloc::Global;

/// A desk or none, in memory of C's own: `wt_allocator`. It is open while it has a desk.
///
/// C starts it as zeros, which is closed. From then on only the exports write it, one at a time, and C does not copy it
/// while it is open.
#[repr(C)]
#[derive(Drop)]
pub struct Handle {
    full: u32,
    seal: Seal,
    ghost tells: { is_some seal.desk ≡ (full == 1) },
}

impl Handle {
    ghost use Rattle.gpu_desk.specs.Desk.{IsSoundDesk};
    ghost use Rattle.wallthyme.specs.Handles.{desk_of};

    fn empty(alloc: Global) -> Handle
        ensures { desk_of result ≡ None }
    {
        Handle {
            full: 0,
            seal: Seal::empty(alloc),
        }
    }

    pub(crate) fn is_open(&self) -> bool
        ensures { IsTrue result ↔ IsSome (desk_of self.now) }
    {
        self.full == 1
    }

    /// Takes the desk out, if there is one. Until [`put`](Handle::put) the handle is closed.
    pub(crate) fn take(&mut self, alloc: Global) -> Option<Box<KeptDesk>>
        ensures taken { MatchOption result (IsNone (desk_of self.old)) (λ desk. desk_of self.old ≡ Some desk.value) }
        ensures closed { IsNone (desk_of self.new) }
    {
        if !self.is_open() {
            return None;
        }
        let Handle { full: _, seal } = std::mem::replace(self, Handle::empty(alloc));
        Some(seal.into_box())
    }

    /// Puts a desk in. The handle must have none.
    pub(crate) fn put(&mut self, desk: Box<KeptDesk>)
        requires { IsNone (desk_of self.old) }
        ensures held { desk_of self.new ≡ Some desk.value }
        ensures sound { IsSoundDesk desk.value }
    {
        may_change_threads(&desk);
        desk.desk.keeps_sound();
        *self = Handle {
            full: 1,
            seal: Seal::of(desk),
        };
    }
}

/// Does nothing: its bound demands a proof that what a handle points to may change threads. So each call may be made
/// on another thread than the one before it, as `c/wallthyme.h` says.
fn may_change_threads<T: Send>(_desk: &T) {}
