//! What an owner owns, if it is known of which kind it is.
ghost use Rattle.std.specs.Prelude.{◌≡◌, Some, true};
ghost use Rattle.std.specs.Arc.{arc_value};
ghost use Rattle.stir_c.specs.Owned.{is_call, is_chain, is_world, owned_call, owned_chain, owned_world, view_of_call};
ghost use Rattle.stir_c.specs.Owned.{view_of_chain};

use crate::owner::{HeldCall, HeldChain, Owner};
use open_calls::OpenWorld;
use std::alloc::Global;
use std::sync::Arc;

impl Owner {
    /// Its world.
    pub(crate) fn world(&self) -> &Arc<OpenWorld, Global>
        requires { is_world self.now ≡ true }
        ensures { owned_world self.now ≡ Some (arc_value result.now) }
    {
        match self {
            Owner::World(world) => world,
            Owner::Chain(_) => unreachable!(),
            Owner::Call(_) => unreachable!(),
        }
    }

    /// Its chain.
    pub(crate) fn chain(&self) -> &HeldChain
        requires { is_chain self.now ≡ true }
        ensures { owned_chain self.now ≡ Some (view_of_chain result.now) }
    {
        match self {
            Owner::World(_) => unreachable!(),
            Owner::Chain(held) => held,
            Owner::Call(_) => unreachable!(),
        }
    }

    /// Its call.
    pub(crate) fn call(&self) -> &HeldCall
        requires { is_call self.now ≡ true }
        ensures { owned_call self.now ≡ Some (view_of_call result.now) }
    {
        match self {
            Owner::World(_) => unreachable!(),
            Owner::Chain(_) => unreachable!(),
            Owner::Call(held) => held,
        }
    }
}
