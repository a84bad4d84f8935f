//! Handles made of what they own, and what they own taken out of them.
ghost use Rattle.std.specs.Prelude.{◌≡◌, IfOk, IfSome, None, Some, length, true};
ghost use Rattle.std.specs.Arc.{arc_value};
ghost use Rattle.std.specs.Option.{option_and_then};
ghost use Rattle.open_calls.specs.OpenCalls.{judged_in};
ghost use Rattle.stir_c.specs.Handles.{call_held, chain_held, world_held};
ghost use Rattle.stir_c.specs.Owned.{is_call, is_chain, is_world, owned_call, owned_chain, owned_world};

use crate::call_chains::CallChains;
use crate::handle::Handle;
use crate::handles::{CallHandle, ChainHandle, WorldHandle};
use crate::owner::{HeldCall, HeldChain, Owner};
use open_calls::{OpenCall, OpenChain, OpenWorld};
use std::alloc::{AllocError, Global};
use std::mem;
use std::sync::Arc;

impl WorldHandle {
    /// A closed one.
    pub(crate) fn empty(alloc: Global) -> WorldHandle
        ensures { world_held result ≡ None }
    {
        WorldHandle {
            handle: Handle::empty(alloc),
        }
    }

    /// That of what was taken out of one.
    pub(crate) fn of(owner: Box<Owner, Global>) -> WorldHandle
        requires { is_world owner.value ≡ true }
        ensures { world_held result ≡ owned_world owner.value }
    {
        WorldHandle {
            handle: Handle::of(owner),
        }
    }

    /// A new one of a share. `AllocError` is the only error.
    pub(crate) fn on(
        alloc: Global,
        world: Arc<OpenWorld, Global>,
    ) -> Result<WorldHandle, AllocError>
        ensures { IfOk result (λ h. world_held h ≡ Some (arc_value world)) }
    {
        let owner = Box::new(alloc, Owner::World(world))?;
        Ok(WorldHandle::of(owner))
    }

    /// What it owns, or `None` if it is closed. It is closed from then on.
    pub(crate) fn take(&mut self, alloc: Global) -> Option<Box<Owner, Global>>
        ensures kind { IfSome result (λ owner. is_world owner.value ≡ true) }
        ensures held { option_and_then (λ owner. owned_world owner.value) result ≡ world_held self.old }
        ensures closed { world_held self.new ≡ None }
    {
        let WorldHandle { handle } = mem::replace(self, WorldHandle::empty(alloc));
        handle.take()
    }
}

impl ChainHandle {
    /// A closed one.
    pub(crate) fn empty(alloc: Global) -> ChainHandle
        ensures { chain_held result ≡ None }
    {
        ChainHandle {
            handle: Handle::empty(alloc),
        }
    }

    /// That of what was taken out of one.
    pub(crate) fn of(owner: Box<Owner, Global>) -> ChainHandle
        requires { is_chain owner.value ≡ true }
        ensures { chain_held result ≡ owned_chain owner.value }
    {
        ChainHandle {
            handle: Handle::of(owner),
        }
    }

    /// A new one of a chain that was opened under this world. `AllocError` is the only error.
    pub(crate) fn on(
        alloc: Global,
        world: Arc<OpenWorld, Global>,
        chain: Arc<OpenChain, Global>,
    ) -> Result<ChainHandle, AllocError>
        ensures { IfOk result (λ h. chain_held h ≡ Some (record { world = arc_value world; chain = arc_value chain })) }
    {
        let owner = Box::new(alloc, Owner::Chain(HeldChain { world, chain }))?;
        Ok(ChainHandle::of(owner))
    }

    /// What it owns, or `None` if it is closed. It is closed from then on.
    pub(crate) fn take(&mut self, alloc: Global) -> Option<Box<Owner, Global>>
        ensures kind { IfSome result (λ owner. is_chain owner.value ≡ true) }
        ensures held { option_and_then (λ owner. owned_chain owner.value) result ≡ chain_held self.old }
        ensures closed { chain_held self.new ≡ None }
    {
        let ChainHandle { handle } = mem::replace(self, ChainHandle::empty(alloc));
        handle.take()
    }
}

impl CallHandle {
    /// A closed one.
    pub(crate) fn empty(alloc: Global) -> CallHandle
        ensures { call_held result ≡ None }
    {
        CallHandle {
            handle: Handle::empty(alloc),
        }
    }

    /// That of what was taken out of one.
    pub(crate) fn of(owner: Box<Owner, Global>) -> CallHandle
        requires { is_call owner.value ≡ true }
        ensures { call_held result ≡ owned_call owner.value }
    {
        CallHandle {
            handle: Handle::of(owner),
        }
    }

    /// A new one of a call that was opened under this world. `AllocError` is the only error.
    pub(crate) fn on(
        alloc: Global,
        world: Arc<OpenWorld, Global>,
        call: OpenCall,
        chains: CallChains,
    ) -> Result<CallHandle, AllocError>
        requires one_each { length chains ≡ length (judged_in call) }
        ensures { IfOk result
            (λ h. call_held h ≡ Some (record { world = arc_value world; call = call; chains = chains })) }
    {
        let owner = Box::new(
            alloc,
            Owner::Call(HeldCall {
                world,
                call,
                chains,
            }),
        )?;
        Ok(CallHandle::of(owner))
    }

    /// What it owns, or `None` if it is closed. It is closed from then on.
    pub(crate) fn take(&mut self, alloc: Global) -> Option<Box<Owner, Global>>
        ensures kind { IfSome result (λ owner. is_call owner.value ≡ true) }
        ensures held { option_and_then (λ owner. owned_call owner.value) result ≡ call_held self.old }
        ensures closed { call_held self.new ≡ None }
    {
        let CallHandle { handle } = mem::replace(self, CallHandle::empty(alloc));
        handle.take()
    }
}
