//! The parts of a `Box`, with fields that this crate can name. The parts own what the box owned.
ghost use Rattle.std.specs.Prelude.{◌≡◌};
ghost use Rattle.std.specs.Box.Ownership.{box_owns};

use std::alloc::Allocator;
use std::marker::Model;

/// The parts of a box: the pointer to its value, and the allocator that frees it.
pub(crate) struct RawBox<T, A: Allocator> {
    pub(crate) ptr: *mut T,
    pub(crate) alloc: A,
    pub(crate) ghost value: { T },
}

impl<T, A: Allocator> Model for RawBox<T, A> {
    ghost also_owns = { λ p. box_owns (A.dealloc_token p.alloc) T.row p.ptr p.value };
}

impl<T, A: Allocator> RawBox<T, A> {
    /// Splits a box into its parts.
    pub(crate) fn of(whole: Box<T, A>) -> RawBox<T, A>
    where
        T: Drop,
        ensures { result.value ≡ whole.value }
    {
        let (ptr, alloc) = Box::into_raw_with_allocator(whole);
        RawBox { ptr, alloc }
    }

    /// Makes the box of its parts.
    pub(crate) fn into_box(self) -> Box<T, A>
        ensures { result.value ≡ self.value }
    {
        let RawBox { ptr, alloc } = self;
        unsafe { Box::from_raw(alloc, ptr) }
    }
}
