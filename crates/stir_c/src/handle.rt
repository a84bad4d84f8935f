//! What handles are in memory.
ghost use Rattle.std.specs.Prelude.{◌≡◌, ◌↔◌, IsTrue, None, Some, is_some};
ghost use Rattle.std.specs.Option.{option_map};

use crate::loose::Loose;
use crate::owner::Owner;
use crate::slot::Slot;
use std::alloc::Global;

/// What all handles are in memory: nothing, or the address of one owner.
#[repr(C)]
pub struct Handle {
    full: bool,
    pub(crate) slot: Slot,
    ghost tells: { IsTrue full ↔ IsTrue (is_some slot.held) },
}

impl Handle {
    /// A handle that holds nothing.
    pub(crate) fn empty(alloc: Global) -> Handle
        ensures { result.slot.held ≡ None }
    {
        Handle {
            full: false,
            slot: Slot::empty(alloc),
        }
    }

    /// The handle of an owner.
    pub(crate) fn of(owner: Box<Owner, Global>) -> Handle
        ensures { result.slot.held ≡ Some owner.value }
    {
        Handle {
            full: true,
            slot: Slot::of(Loose::of(owner)),
        }
    }

    /// The owner, out of its handle.
    pub(crate) fn take(self) -> Option<Box<Owner, Global>>
        ensures { option_map (λ b. b.value) result ≡ self.slot.held }
    {
        let Handle { full, slot } = self;
        if full {
            Some(slot.into_loose().into_box())
        } else {
            slot.discard();
            None
        }
    }
}

impl Drop for Handle {
    fn drop(self) {
        drop(self.take());
    }
}
