//! A desk on the heap, as a struct that crosses to C.

ghost use Rattle.std.specs.Prelude.{◌≡◌, Option, Some, None, IsSome};
ghost use Rattle.gpu_desk.specs.Desk.{DeskState};
ghost use Rattle.wallthyme.specs.Sealed.{sealed_code, seal_owns};

mod parts;

use crate::kept::KeptDesk;
use parts::Parts;
use std::alloc::Global;
use std::marker::Model;

/// A desk on the heap, or no desk: a `Box` of it taken apart, since a `Box` doesn't cross to C.
///
/// C sees one opaque pointer. The allocator has no bytes.
#[repr(C)]
#[derive(Drop)]
pub struct Seal {
    ptr: *mut u8,
    alloc: Global,
    pub(crate) ghost desk: { Option DeskState } by { sealed_code },
}

impl Model for Seal {
    ghost also_owns = { λ seal. seal_owns seal.alloc seal.ptr seal.desk };
}

impl Seal {
    /// A seal without a desk, with any pointer.
    fn empty_at(ptr: *mut u8, alloc: Global) -> Seal
        ensures { result.desk ≡ None }
    {
        Seal { ptr, alloc }
    }

    fn of_parts(parts: Parts<KeptDesk, Global>) -> Seal
        ensures { result.desk ≡ Some parts.value }
    {
        let Parts { ptr, alloc } = parts;
        Seal {
            ptr: ptr as *mut u8,
            alloc,
        }
    }

    fn into_parts(self) -> Parts<KeptDesk, Global>
        requires { IsSome self.desk }
        ensures { self.desk ≡ Some result.value }
    {
        let Seal { ptr, alloc } = self;
        Parts {
            ptr: ptr as *mut KeptDesk,
            alloc,
        }
    }

    /// A seal without a desk.
    pub(crate) fn empty(alloc: Global) -> Seal
        ensures { result.desk ≡ None }
    {
        Seal::empty_at(nowhere(), alloc)
    }

    /// A seal of this desk.
    pub(crate) fn of(desk: Box<KeptDesk>) -> Seal
        ensures { result.desk ≡ Some desk.value }
    {
        Seal::of_parts(Parts::of(desk))
    }

    /// The sealed desk.
    pub(crate) fn into_box(self) -> Box<KeptDesk>
        requires { IsSome self.desk }
        ensures { self.desk ≡ Some result.value }
    {
        self.into_parts().into_box()
    }
}

/// A pointer for a seal without a desk. (It stands apart, since otherwise the callers of what makes a pointer would
/// need walks.)
fn nowhere() -> *mut u8 {
    std::ptr::null_mut()
}
