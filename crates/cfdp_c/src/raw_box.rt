//! A box as its pointer: [`RawBox`].
//!
//! A crate that C calls keeps a value on the heap between two calls, and what crosses to C is a pointer. A box can't
//! cross, since it has no fixed layout; taken apart it is a pointer that can, and the allocator that frees its block.
ghost use Rattle.std.specs.Prelude.{◌≡◌};
ghost use Rattle.std_alloc.specs.Box.Ownership.{box_owns};

use std::alloc::Allocator;
use std::marker::Model;

/// A box taken apart: its pointer, and the allocator that frees its block.
///
/// It owns what the box owned: the block with the value, and the right to free it. It has no `Drop`, so that forgetting
/// one is refused. Contracts see the value.
pub struct RawBox<T, A: Allocator> {
    pub at: *mut T,
    pub alloc: A,
    pub ghost value: { T },
}

impl<T, A: Allocator> Model for RawBox<T, A> {
    ghost also_owns = { λ l. box_owns (A.dealloc_token l.alloc) T.row l.at l.value };
}

impl<T: Drop, A: Allocator> RawBox<T, A> {
    /// Takes the box apart. Takes no memory, and moves nothing.
    pub fn of(value: Box<T, A>) -> RawBox<T, A>
        ensures { result.value ≡ value.value }
    {
        let (at, alloc) = Box::into_raw_with_allocator(value);
        RawBox { at, alloc }
    }

    /// Makes the box again. Takes no memory, and moves nothing.
    pub fn into_box(self) -> Box<T, A>
        ensures { result.value ≡ self.value }
    {
        let RawBox { at, alloc } = self;
        unsafe { Box::from_raw(alloc, at) }
    }
}
