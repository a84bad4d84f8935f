//! What is said of a call that a handle holds.
ghost use Rattle.std.specs.Prelude.{◌≡◌, ◌≢◌, ◌⊎◌, ◌≤◌, List, IfOk, Option};
ghost use Rattle.std.specs.List.{slice_get};
ghost use Rattle.std.specs.Option.{option_map};
ghost use Rattle.call_judging.specs.AskLines.{ask_lines};
ghost use Rattle.call_judging.specs.Explain.{explained};
ghost use Rattle.verify_rules.specs.World.{World};
ghost use Rattle.open_calls.specs.Claims.{claims_lines};
ghost use Rattle.open_calls.specs.Founds.{IsFoundEarly, finding_of};
ghost use Rattle.open_calls.specs.OpenCalls.{call_in, header_in, judged_in, x5u_in};
ghost use Rattle.open_calls.specs.OpenChains.{GivenChain, states_of};
ghost use Rattle.open_calls.specs.OwnQuestions.{Confirms, all_asked};
ghost use Rattle.cert_store.specs.Rules.{Says};
ghost use Rattle.stir_c.specs.Judged.{AreClaimsTold, IsAsked, IsExplained, IsFoundOf, IsJudged, own_of, says_of};
ghost use Rattle.stir_c.specs.Owned.{view_of_call};
ghost use Rattle.stir_c.specs.QuestionBytes.{questions_bytes};
ghost use Rattle.stir_c.specs.Right.{IsRightFor, IsRightFound};
ghost use Rattle.stir_c.specs.Saying.{ToldBeside, ToldMaybe};
ghost use Rattle.stir_c.specs.WrittenText.{ToldText};

use crate::owner::HeldCall;
use crate::question_bytes::questions_bytes;
use crate::said::Said;
use crate::writing::{Text, told_text, write};
use open_calls::Found;
use std::alloc::{AllocError, Global};

/// What was found of a call, and a text that is written beside it.
#[derive(Drop)]
struct Beside {
    found: Found,
    text: Text,
}

/// A text, written into the room, and what was found told.
fn told_beside(beside: &Beside, room: &mut [u8]) -> Said
    ensures told { ToldBeside beside.now.text.bytes.items beside.now.found room.old room.new result }
    ensures kinds { result.kind ≤ 4 }
    ensures not_memory { result.kind ≢ 3 }
    ensures as_was { 2 ≤ result.kind → room.new ≡ room.old }
{
    let bytes = beside.text.bytes.as_slice();
    if write(bytes, room) {
        return Said::call(&beside.found, bytes.len());
    }
    Said::no_room(bytes.len())
}

/// The x5u of the PASSporT at an index, written into the room and told.
pub(crate) fn told_x5u(held: &HeldCall, index: usize, room: &mut [u8]) -> Said
    ensures told { ToldMaybe (option_map x5u_in (slice_get (judged_in (view_of_call held.now).call) index))
        room.old room.new result }
    ensures kinds { (result.kind ≤ 4) ⊎ (result.kind ≡ 6) }
    ensures as_was { 1 ≤ result.kind → room.new ≡ room.old }
{
    match held.call.x5u(index) {
        Some(x5u) => {
            let written = write(x5u, room);
            Said::written(x5u.len(), written)
        }
        None => Said::none(),
    }
}

/// The value of the header field of this name and this index, written into the room and told.
pub(crate) fn told_header(
    alloc: Global,
    held: &HeldCall,
    name: &[u8],
    index: usize,
    room: &mut [u8],
) -> Said
    ensures told { result.kind ≢ 3
        → ToldMaybe (header_in (view_of_call held.now).call name.now index) room.old room.new result }
    ensures kinds { (result.kind ≤ 4) ⊎ (result.kind ≡ 6) }
    ensures as_was { 1 ≤ result.kind → room.new ≡ room.old }
{
    match held.call.header(alloc, name, index) {
        Ok(Some(value)) => told_text(&Text { bytes: value }, room),
        Ok(None) => Said::none(),
        Err(_) => Said::no_memory(),
    }
}

/// What the PASSporTs of a call say, written into the room and told.
pub(crate) fn told_claims(alloc: Global, held: &HeldCall, room: &mut [u8]) -> Said
    ensures told { result.kind ≢ 3 → AreClaimsTold (view_of_call held.now).call room.old room.new result }
    ensures kinds { result.kind ≤ 4 }
    ensures as_was { 2 ≤ result.kind → room.new ≡ room.old }
{
    match claims(alloc, held) {
        Ok(beside) => told_beside(&beside, room),
        Err(_) => Said::no_memory(),
    }
}

/// What the PASSporTs of a call say. `AllocError` is the only error.
fn claims(alloc: Global, held: &HeldCall) -> Result<Beside, AllocError>
    ensures early { IfOk result (λ beside. IsFoundEarly (call_in (view_of_call held.now).call) beside.found) }
    ensures text { IfOk result
        (λ beside. beside.text.bytes.items ≡ claims_lines (judged_in (view_of_call held.now).call)) }
{
    let bytes = held.call.claims(alloc)?;
    Ok(Beside {
        found: held.call.early(),
        text: Text { bytes },
    })
}

/// The PASSporTs' own questions, written into the room, and what comes of the call if all of them are confirmed.
pub(crate) fn told_questions(alloc: Global, held: &HeldCall, room: &mut [u8]) -> Said
    ensures told { result.kind ≢ 3 → IsAsked (view_of_call held.now) room.old room.new result }
    ensures kinds { result.kind ≤ 4 }
    ensures as_was { 2 ≤ result.kind → room.new ≡ room.old }
{
    match asked(alloc, held) {
        Ok(beside) => told_beside(&beside, room),
        Err(_) => Said::no_memory(),
    }
}

/// The bytes of the PASSporTs' own questions, and what comes of the call if all of them are confirmed. `AllocError` is
/// the only error.
fn asked(alloc: Global, held: &HeldCall) -> Result<Beside, AllocError>
    ensures over { (says : Says) → Confirms says (own_of (view_of_call held.now))
        → IfOk result (λ beside. IsFoundOf says (view_of_call held.now) beside.found) }
    ensures text { IfOk result (λ beside. beside.text.bytes.items ≡ questions_bytes (own_of (view_of_call held.now))) }
{
    let chains = held.chains.open(alloc)?;
    let asked = held.call.questions(alloc, &held.world, &chains)?;
    let bytes = questions_bytes(alloc, asked.questions.as_slice())?;
    Ok(Beside {
        found: asked.found,
        text: Text { bytes },
    })
}

/// What comes of a call if these of its own questions are confirmed.
#[tactic(auto, using(crate::proofs::JudgedLaws::told_right))]
pub(crate) fn told_judged(alloc: Global, held: &HeldCall, good: &[u8]) -> Said
    ensures exact { result.kind ≢ 3 → IsJudged (view_of_call held.now) good.now result }
    ensures right { (rules : World) (files : List (Option GivenChain)) → result.kind ≤ 1
        → IsRightFor rules files (view_of_call held.now) good.now result }
    ensures kinds { result.kind ≤ 3 }
{
    match judge(alloc, held, good) {
        Ok(found) => Said::call(&found, 0),
        Err(_) => Said::no_memory(),
    }
}

/// What comes of a call if these of its own questions are confirmed. `AllocError` is the only error.
fn judge(alloc: Global, held: &HeldCall, good: &[u8]) -> Result<Found, AllocError>
    ensures exact { IfOk result (IsFoundOf (says_of (view_of_call held.now) good.now) (view_of_call held.now)) }
    ensures right { (rules : World) (files : List (Option GivenChain))
        → IfOk result (IsRightFound rules files (view_of_call held.now) good.now) }
{
    let chains = held.chains.open(alloc)?;
    held.call.judge(alloc, &held.world, &chains, good)
}

/// The lines that explain a call, written into the room, and what comes of it.
pub(crate) fn told_explained(
    alloc: Global,
    held: &HeldCall,
    number: u32,
    good: &[u8],
    room: &mut [u8],
) -> Said
    ensures told { result.kind ≢ 3 → IsExplained (view_of_call held.now) number good.now room.old room.new result }
    ensures kinds { result.kind ≤ 4 }
    ensures as_was { 2 ≤ result.kind → room.new ≡ room.old }
{
    match explain(alloc, held, number, good) {
        Ok(beside) => told_beside(&beside, room),
        Err(_) => Said::no_memory(),
    }
}

/// The lines that explain a call, and what comes of it. `AllocError` is the only error.
fn explain(alloc: Global, held: &HeldCall, number: u32, good: &[u8]) -> Result<Beside, AllocError>
    ensures over { IfOk result
        (λ beside. IsFoundOf (says_of (view_of_call held.now) good.now) (view_of_call held.now) beside.found) }
    ensures text { IfOk result (λ beside. beside.text.bytes.items ≡ explained number (finding_of beside.found)) }
{
    let found = judge(alloc, held, good)?;
    let lines = found.explain(alloc, number)?;
    Ok(Beside {
        found,
        text: Text {
            bytes: lines.into_bytes(),
        },
    })
}

/// The lines of an answers file that confirms all that is asked, written into the room and told.
pub(crate) fn told_lines(alloc: Global, held: &HeldCall, room: &mut [u8]) -> Said
    ensures told { result.kind ≢ 3 → ToldText (ask_lines (all_asked (view_of_call held.now).world.table
        (states_of (view_of_call held.now).chains) (call_in (view_of_call held.now).call))) room.old room.new result }
    ensures kinds { result.kind ≤ 4 }
    ensures as_was { 1 ≤ result.kind → room.new ≡ room.old }
{
    match lines(alloc, held) {
        Ok(text) => told_text(&text, room),
        Err(_) => Said::no_memory(),
    }
}

/// The lines of an answers file that confirms all that is asked. `AllocError` is the only error.
fn lines(alloc: Global, held: &HeldCall) -> Result<Text, AllocError>
    ensures { IfOk result (λ text. text.bytes.items ≡ ask_lines (all_asked (view_of_call held.now).world.table
        (states_of (view_of_call held.now).chains) (call_in (view_of_call held.now).call))) }
{
    let chains = held.chains.open(alloc)?;
    let bytes = held.call.lines(alloc, &held.world, &chains)?;
    Ok(Text { bytes })
}
