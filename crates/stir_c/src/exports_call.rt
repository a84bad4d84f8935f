//! What C calls of calls: opened, with their chains, and closed. `include/stir.h` declares the same.
ghost use Rattle.std.specs.Prelude.{◌≡◌, ◌⊎◌, ◌<◌, ◌≤◌, IfOk, IfSome, None, Some, length, true};
ghost use Rattle.std.specs.Arc.{arc_value};
ghost use Rattle.std.specs.Option.{option_map};
ghost use Rattle.open_calls.specs.OpenCalls.{judged_in};
ghost use Rattle.stir_c.specs.Handles.{call_held, chain_held, chain_in, with_chain, world_held};
ghost use Rattle.stir_c.specs.Judged.{IsEarlyTold, IsPut};
ghost use Rattle.stir_c.specs.Opened.{call_opened};
ghost use Rattle.stir_c.specs.Owned.{is_call, owned_call, view_of_call};
ghost use Rattle.stir_c.specs.Saying.{IsOneOf};
ghost use Rattle.stir_c.specs.Told.{plain};

use crate::call_chains::CallChains;
use crate::handles::{CallHandle, ChainHandle, WorldHandle};
use crate::owner::{HeldCall, Owner};
use crate::said::Said;
use open_calls::{OpenCall, OpenChain, OpenWorld};
use std::alloc::{AllocError, Global};
use std::sync::Arc;

/// A handle of a call that was just opened, and what is said of it.
#[derive(Drop)]
pub(crate) struct Opened {
    pub(crate) handle: CallHandle,
    pub(crate) said: Said,
}

/// Opens a call under a world: reads its message, and tries the rules of the call. Kind 0: it breaks none of them;
/// `size` is how many PASSporTs are judged, and `ticket` and `last` tell how it is known again. Kind 1: it breaks
/// `rule` first. Either way it is in `out`. Kind 5: the world's handle is closed.
#[unsafe(no_mangle)]
pub extern "C" fn stir_call_open(
    alloc: Global,
    world: &mut WorldHandle,
    moment: u64,
    message: &[u8],
    out: &mut CallHandle,
) -> Said
    ensures kinds { (result.kind ≤ 1) ⊎ IsOneOf 3 5 5 result }
    ensures stays { world_held world.new ≡ world_held world.old }
    ensures opened { result.kind ≤ 1
        → call_held out.new ≡ option_map (λ w. call_opened w moment message.now) (world_held world.old) }
    ensures early { result.kind ≤ 1 → IfSome (call_held out.new) (λ held. IsEarlyTold held.call result) }
    ensures closed { result.kind ≡ 5 → world_held world.old ≡ None }
    ensures as_was { 3 ≤ result.kind → call_held out.new ≡ call_held out.old }
{
    let owner = match world.take(alloc) {
        Some(owner) => owner,
        None => return Said::closed(),
    };
    let opened = open(alloc, owner.world(), moment, message);
    *world = WorldHandle::of(owner);
    match opened {
        Ok(opened) => {
            let Opened { handle, said } = opened;
            *out = handle;
            said
        }
        Err(_) => Said::no_memory(),
    }
}

/// A new handle of a call, and what is said of it. `AllocError` is the only error.
fn open(
    alloc: Global,
    world: &Arc<OpenWorld, Global>,
    moment: u64,
    message: &[u8],
) -> Result<Opened, AllocError>
    ensures opened { IfOk result
        (λ opened. call_held opened.handle ≡ Some (call_opened (arc_value world.now) moment message.now)) }
    ensures early { IfOk result
        (λ opened. IsEarlyTold (call_opened (arc_value world.now) moment message.now).call opened.said) }
    ensures kinds { IfOk result (λ opened. opened.said.kind ≤ 1) }
{
    let call = OpenCall::open(alloc, world, moment, message)?;
    let said = Said::call(&call.early(), call.count());
    let chains = CallChains::none(alloc, call.count())?;
    let world = Arc::try_clone(world)?;
    let handle = CallHandle::on(alloc, world, call, chains)?;
    Ok(Opened { handle, said })
}

/// Hands in the chain to which the x5u of the PASSporT at an index leads, as it is confirmed now; a closed handle takes
/// it away again. Kind 5: the call's handle is closed. Kind 6: there is no PASSporT at this index.
#[unsafe(no_mangle)]
pub extern "C" fn stir_call_chain(
    alloc: Global,
    call: &mut CallHandle,
    index: u32,
    chain: &mut ChainHandle,
) -> Said
    ensures kinds { result ≡ plain result.kind 0 }
    ensures few { (result.kind ≡ 0) ⊎ (result.kind ≡ 3) ⊎ (result.kind ≡ 5) ⊎ (result.kind ≡ 6) }
    ensures stays { chain_held chain.new ≡ chain_held chain.old }
    ensures put { result.kind ≡ 0 → call_held call.new
        ≡ option_map (with_chain index (option_map chain_in (chain_held chain.old))) (call_held call.old) }
    ensures there { result.kind ≡ 0 → IfSome (call_held call.old) (λ held. index < length (judged_in held.call)) }
    ensures none { result.kind ≡ 6 → IfSome (call_held call.old) (λ held. length (judged_in held.call) ≤ index) }
    ensures closed { result.kind ≡ 5 → call_held call.old ≡ None }
    ensures as_was { 3 ≤ result.kind → call_held call.new ≡ call_held call.old }
{
    let given = match share(alloc, chain) {
        Ok(given) => given,
        Err(_) => return Said::no_memory(),
    };
    let mut owner = match call.take(alloc) {
        Some(owner) => owner,
        None => return Said::closed(),
    };
    let said = put(&mut owner, index as usize, given);
    *call = CallHandle::of(owner);
    said
}

/// Puts a chain in its place in what is owned, if there is such a place.
fn put(owner: &mut Owner, index: usize, given: Option<Arc<OpenChain, Global>>) -> Said
    requires { is_call owner.old ≡ true }
    ensures kind { is_call owner.new ≡ true }
    ensures put { IsPut index (option_map arc_value given) (owned_call owner.old) (owned_call owner.new) result }
{
    match owner {
        Owner::World(_) => unreachable!(),
        Owner::Chain(_) => unreachable!(),
        Owner::Call(held) => put_in(held, index, given),
    }
}

/// Puts a chain in its place in a call, if there is such a place.
fn put_in(held: &mut HeldCall, index: usize, given: Option<Arc<OpenChain, Global>>) -> Said
    ensures { IsPut index (option_map arc_value given) (Some (view_of_call held.old))
        (Some (view_of_call held.new)) result }
{
    if index >= held.chains.count() {
        return Said::none();
    }
    held.chains.put(index, given);
    Said::done()
}

/// A share of the chain of a handle, if it isn't closed. `AllocError` is the only error.
fn share(
    alloc: Global,
    chain: &mut ChainHandle,
) -> Result<Option<Arc<OpenChain, Global>>, AllocError>
    ensures stays { chain_held chain.new ≡ chain_held chain.old }
    ensures shared { IfOk result (λ given. option_map arc_value given ≡ option_map chain_in (chain_held chain.old)) }
{
    let owner = match chain.take(alloc) {
        Some(owner) => owner,
        None => return Ok(None),
    };
    let shared = Arc::try_clone(&owner.chain().chain);
    *chain = ChainHandle::of(owner);
    match shared {
        Ok(shared) => Ok(Some(shared)),
        Err(_) => Err(AllocError),
    }
}

/// Closes a handle of a call, and gives back what the call holds of its world and its chains. To close a closed one
/// does nothing.
#[unsafe(no_mangle)]
pub extern "C" fn stir_call_close(alloc: Global, call: &mut CallHandle)
    ensures { call_held call.new ≡ None }
{
    *call = CallHandle::empty(alloc);
}
