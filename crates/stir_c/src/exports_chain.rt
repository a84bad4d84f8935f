//! What C calls of chains of certificates. `include/stir.h` declares the same.
ghost use Rattle.std.specs.Prelude.{◌≡◌, ◌≢◌, ◌≤◌, ℕ, [], List, IfOk, None, Some};
ghost use Rattle.std.specs.Arc.{arc_value};
ghost use Rattle.std.specs.Option.{option_map};
ghost use Rattle.call_judging.specs.CallQuestions.{chain_questions};
ghost use Rattle.open_calls.specs.Worlds.{GivenWorld};
ghost use Rattle.stir_c.specs.Handles.{IsChainOn, IsChainUnder, chain_held, confirmed_with, world_held};
ghost use Rattle.stir_c.specs.Opened.{IsOpenedUnder};
ghost use Rattle.stir_c.specs.Owned.{view_of_chain};
ghost use Rattle.stir_c.specs.QuestionBytes.{questions_bytes};
ghost use Rattle.stir_c.specs.Saying.{IfOpen, IsOneOf};
ghost use Rattle.stir_c.specs.WrittenText.{ToldText};

use crate::handles::{ChainHandle, WorldHandle};
use crate::owner::HeldChain;
use crate::question_bytes::questions_bytes;
use crate::said::Said;
use crate::writing::{Text, told_text};
use open_calls::{OpenChain, OpenWorld};
use std::alloc::{AllocError, Global};
use std::sync::Arc;

/// Opens a chain under a world: its certificates one after another in DER, the leaf first. Kind 0: it is in `out`,
/// judged by rules 11, 12 and 14, and none of its questions is confirmed. Kind 5: the world's handle is closed.
#[unsafe(no_mangle)]
pub extern "C" fn stir_chain_open(
    alloc: Global,
    world: &mut WorldHandle,
    chain: &[u8],
    out: &mut ChainHandle,
) -> Said
    ensures kinds { IsOneOf 0 3 5 result }
    ensures stays { world_held world.new ≡ world_held world.old }
    ensures opened { result.kind ≡ 0 → IsOpenedUnder (world_held world.old) chain.now (chain_held out.new) }
    ensures closed { result.kind ≡ 5 → world_held world.old ≡ None }
    ensures as_was { 3 ≤ result.kind → chain_held out.new ≡ chain_held out.old }
{
    let owner = match world.take(alloc) {
        Some(owner) => owner,
        None => return Said::closed(),
    };
    let opened = open(alloc, owner.world(), chain);
    *world = WorldHandle::of(owner);
    match opened {
        Ok(opened) => {
            *out = opened;
            Said::done()
        }
        Err(_) => Said::no_memory(),
    }
}

/// A new handle of the chain of these bytes. `AllocError` is the only error.
fn open(
    alloc: Global,
    world: &Arc<OpenWorld, Global>,
    bytes: &[u8],
) -> Result<ChainHandle, AllocError>
    ensures { IfOk result (λ h. IsOpenedUnder (Some (arc_value world.now)) bytes.now (chain_held h)) }
{
    let chain = OpenChain::open(alloc, world, bytes)?;
    let chain = Arc::new(alloc, chain)?;
    let world = Arc::try_clone(world)?;
    ChainHandle::on(alloc, world, chain)
}

/// Asks for the signatures of the chain's certificates: writes its questions, 161 bytes each, from the leaf's on. There
/// are at most six, and none if it breaks one of rules 11, 12 and 14. Kind 4: there is no room for them. Kind 5: the
/// handle is closed.
#[unsafe(no_mangle)]
pub extern "C" fn stir_chain_questions(
    alloc: Global,
    chain: &mut ChainHandle,
    room: &mut [u8],
) -> Said
    ensures kinds { result.kind ≤ 5 }
    ensures stays { chain_held chain.new ≡ chain_held chain.old }
    ensures told { result.kind ≢ 3 → IfOpen (chain_held chain.old)
        (λ held. ToldText (questions_bytes (chain_questions held.chain.state)) room.old room.new result) result }
    ensures closed { result.kind ≡ 5 → chain_held chain.old ≡ None }
    ensures as_was { 1 ≤ result.kind → room.new ≡ room.old }
{
    let owner = match chain.take(alloc) {
        Some(owner) => owner,
        None => return Said::closed(),
    };
    let said = told_questions(alloc, owner.chain(), room);
    *chain = ChainHandle::of(owner);
    said
}

/// The questions of a chain, written into the room and told.
fn told_questions(alloc: Global, held: &HeldChain, room: &mut [u8]) -> Said
    ensures told { result.kind ≢ 3
        → ToldText (questions_bytes (chain_questions (view_of_chain held.now).chain.state)) room.old room.new result }
    ensures kinds { result.kind ≤ 4 }
    ensures as_was { 1 ≤ result.kind → room.new ≡ room.old }
{
    match bytes_of(alloc, held) {
        Ok(text) => told_text(&text, room),
        Err(_) => Said::no_memory(),
    }
}

/// The bytes of the questions of a chain. `AllocError` is the only error.
fn bytes_of(alloc: Global, held: &HeldChain) -> Result<Text, AllocError>
    ensures { IfOk result
        (λ text. text.bytes.items ≡ questions_bytes (chain_questions (view_of_chain held.now).chain.state)) }
{
    let questions = held.chain.questions(alloc)?;
    let bytes = questions_bytes(alloc, questions.as_slice())?;
    Ok(Text { bytes })
}

/// Says which of the chain's questions are confirmed: a byte for each, 0 if it isn't. From now on this handle is the
/// chain with these confirmed, and no others; what was shared before stays. Kind 5: the handle is closed.
#[unsafe(no_mangle)]
pub extern "C" fn stir_chain_confirm(alloc: Global, chain: &mut ChainHandle, good: &[u8]) -> Said
    ensures kinds { IsOneOf 0 3 5 result }
    ensures exact { result.kind ≡ 0
        → chain_held chain.new ≡ option_map (confirmed_with good.now) (chain_held chain.old) }
    ensures confirmed { (given : GivenWorld) (bytes before : List ℕ) → IsChainOn given bytes before chain.old
        → result.kind ≡ 0 → IsChainOn given bytes good.now chain.new }
    ensures closed { result.kind ≡ 5 → chain_held chain.old ≡ None }
    ensures as_was { 3 ≤ result.kind → chain_held chain.new ≡ chain_held chain.old }
{
    let owner = match chain.take(alloc) {
        Some(owner) => owner,
        None => return Said::closed(),
    };
    match confirm(alloc, owner.chain(), good) {
        Ok(confirmed) => {
            *chain = confirmed;
            Said::done()
        }
        Err(_) => {
            *chain = ChainHandle::of(owner);
            Said::no_memory()
        }
    }
}

/// A new handle of the same chain with these of its questions confirmed. `AllocError` is the only error.
fn confirm(alloc: Global, held: &HeldChain, good: &[u8]) -> Result<ChainHandle, AllocError>
    ensures exact { IfOk result (λ h. chain_held h ≡ Some (confirmed_with good.now (view_of_chain held.now))) }
    ensures confirmed { (given : GivenWorld) (bytes before : List ℕ)
        → IsChainUnder given bytes before (view_of_chain held.now) → IfOk result (IsChainOn given bytes good.now) }
{
    let chain = held.chain.confirm(alloc, &held.world, good)?;
    let chain = Arc::new(alloc, chain)?;
    let world = Arc::try_clone(&held.world)?;
    ChainHandle::on(alloc, world, chain)
}

/// Opens another handle of the same chain, as it is confirmed now. Kind 0: it is in `out`. Kind 5: the first is closed.
#[unsafe(no_mangle)]
pub extern "C" fn stir_chain_share(
    alloc: Global,
    chain: &mut ChainHandle,
    out: &mut ChainHandle,
) -> Said
    ensures kinds { IsOneOf 0 3 5 result }
    ensures stays { chain_held chain.new ≡ chain_held chain.old }
    ensures shared { result.kind ≡ 0 → chain_held out.new ≡ chain_held chain.old }
    ensures open { result.kind ≡ 0 → chain_held chain.old ≢ None }
    ensures closed { result.kind ≡ 5 → chain_held chain.old ≡ None }
    ensures as_was { 3 ≤ result.kind → chain_held out.new ≡ chain_held out.old }
{
    let owner = match chain.take(alloc) {
        Some(owner) => owner,
        None => return Said::closed(),
    };
    let another = share(alloc, owner.chain());
    *chain = ChainHandle::of(owner);
    match another {
        Ok(another) => {
            *out = another;
            Said::done()
        }
        Err(_) => Said::no_memory(),
    }
}

/// A new handle of a chain that is shared. `AllocError` is the only error.
fn share(alloc: Global, held: &HeldChain) -> Result<ChainHandle, AllocError>
    ensures { IfOk result (λ h. chain_held h ≡ Some (view_of_chain held.now)) }
{
    let chain = Arc::try_clone(&held.chain)?;
    let world = Arc::try_clone(&held.world)?;
    ChainHandle::on(alloc, world, chain)
}

/// Closes a handle of a chain. To close a closed one does nothing.
#[unsafe(no_mangle)]
pub extern "C" fn stir_chain_close(alloc: Global, chain: &mut ChainHandle)
    ensures { chain_held chain.new ≡ None }
{
    *chain = ChainHandle::empty(alloc);
}
