//! A boxed owner as an address that C holds.
ghost use Rattle.std.specs.Prelude.{◌≡◌, IsSome, None, Option, Some};
ghost use Rattle.stir_c.specs.Held.{held_owns};
ghost use Rattle.stir_c.specs.declared.owner.Owner.{Owner};

use crate::loose::Loose;
use crate::owner::Owner;
use std::alloc::Global;
use std::marker::Model;
use std::ptr::null_mut;

/// An owner in a box of its own, or nothing.
#[repr(C)]
pub struct Slot {
    at: *mut u8,
    alloc: Global,
    pub(crate) ghost held: { Option Owner },
}

impl Model for Slot {
    ghost also_owns = { λ s. held_owns s.alloc s.at s.held };
}

unsafe impl Send for Slot {}

impl Slot {
    /// A slot with nothing in it.
    pub(crate) fn empty(alloc: Global) -> Slot
        ensures { result.held ≡ None }
    {
        Slot {
            at: null_mut(),
            alloc,
        }
    }

    /// The owner, in a slot.
    pub(crate) fn of(loose: Loose<Owner, Global>) -> Slot
        ensures { result.held ≡ Some loose.value }
    {
        let Loose { at, alloc } = loose;
        Slot {
            at: at as *mut u8,
            alloc,
        }
    }

    /// The owner, out of its slot.
    pub(crate) fn into_loose(self) -> Loose<Owner, Global>
        requires { IsSome self.held }
        ensures { self.held ≡ Some result.value }
    {
        let Slot { at, alloc } = self;
        Loose {
            at: at as *mut Owner,
            alloc,
        }
    }

    /// A slot with nothing in it, done with.
    pub(crate) fn discard(self)
        requires { self.held ≡ None }
    {
        let Slot { at: _, alloc: _ } = self;
    }
}
