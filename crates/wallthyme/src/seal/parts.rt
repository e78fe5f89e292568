//! A `Box` with its fields visible to the module above.

ghost use Rattle.std.specs.Prelude.{◌≡◌};
ghost use Rattle.std.specs.Box.Ownership.{box_owns};

use std::alloc::Allocator;
use std::marker::Model;

/// A `Box`, as the pointer and the allocator that it is made of.
pub(crate) struct Parts<T, A: Allocator> {
    pub(super) ptr: *mut T,
    pub(super) alloc: A,
    pub(super) ghost value: { T },
}

impl<T, A: Allocator> Model for Parts<T, A> {
    ghost also_owns = { λ parts. box_owns (A.dealloc_token parts.alloc) T.row parts.ptr parts.value };
}

impl<T, A: Allocator> Parts<T, A> {
    pub(super) fn of(whole: Box<T, A>) -> Parts<T, A>
    where
        T: Drop,
        ensures { result.value ≡ whole.value }
    {
        let (ptr, alloc) = Box::into_raw_with_allocator(whole);
        Parts { ptr, alloc }
    }

    pub(super) fn into_box(self) -> Box<T, A>
        ensures { result.value ≡ self.value }
    {
        let Parts { ptr, alloc } = self;
        // The pointer came out of a box with this allocator in `of`, and nothing else has it: parts own it.
        unsafe { Box::from_raw(alloc, ptr) }
    }
}
