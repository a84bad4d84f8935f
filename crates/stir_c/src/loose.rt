//! A box taken apart into its address and the right to free it, and put together again. So C can hold the address.
//!
//! It keeps nothing and frees nothing: whoever takes a box apart puts it together again, since a [`Loose`] can't be
//! dropped. What goes in comes out: the value is the same before and after, and at the address lies that value alone.
ghost use Rattle.std.specs.Prelude.{◌≡◌};
ghost use Rattle.std.specs.Box.Ownership.{box_owns};

use std::alloc::Allocator;
use std::marker::Model;

/// A box, taken apart: where its value lies, and the allocator whose block it is.
pub(crate) struct Loose<T, A: Allocator> {
    /// The address.
    pub(crate) at: *mut T,
    /// The allocator.
    pub(crate) alloc: A,
    /// What lies there.
    pub(crate) ghost value: { T },
}

impl<T, A: Allocator> Model for Loose<T, A> {
    ghost also_owns = { λ l. box_owns (A.dealloc_token l.alloc) T.row l.at l.value };
}

impl<T: Drop, A: Allocator> Loose<T, A> {
    /// The box, taken apart.
    pub(crate) fn of(value: Box<T, A>) -> Loose<T, A>
        ensures { result.value ≡ value.value }
    {
        let (at, alloc) = Box::into_raw_with_allocator(value);
        Loose { at, alloc }
    }

    /// The box, put together again.
    pub(crate) fn into_box(self) -> Box<T, A>
        ensures { result.value ≡ self.value }
    {
        let Loose { at, alloc } = self;
        unsafe { Box::from_raw(alloc, at) }
    }
}
