//! The handles that C holds. Each is 16 bytes, and all zeros is a closed one.
ghost use Rattle.std.specs.Prelude.{◌≡◌, true};
ghost use Rattle.stir_c.specs.Owned.{if_any, is_call, is_chain, is_world};

use crate::handle::Handle;

/// C's `stir_world`: closed, or a share of a world.
#[repr(C)]
#[derive(Drop)]
pub struct WorldHandle {
    pub(crate) handle: Handle,
    pub(crate) ghost kind: { if_any is_world handle.slot.held ≡ true },
}

/// C's `stir_chain`: closed, or a share of a chain.
#[repr(C)]
#[derive(Drop)]
pub struct ChainHandle {
    pub(crate) handle: Handle,
    pub(crate) ghost kind: { if_any is_chain handle.slot.held ≡ true },
}

/// C's `stir_call`: closed, or a call.
#[repr(C)]
#[derive(Drop)]
pub struct CallHandle {
    pub(crate) handle: Handle,
    pub(crate) ghost kind: { if_any is_call handle.slot.held ≡ true },
}
