//! What C calls of a call that is open: what it asks for, what comes of it, and what it says. `include/stir.h` declares
//! the same.
ghost use Rattle.std.specs.Prelude.{◌≡◌, ◌≢◌, ◌≤◌, ℕ, List, IfSome, None, Option};
ghost use Rattle.std.specs.List.{slice_get};
ghost use Rattle.std.specs.Option.{option_map};
ghost use Rattle.call_judging.specs.AskLines.{ask_lines};
ghost use Rattle.open_calls.specs.Claims.{IsOneLine, said_text};
ghost use Rattle.verify_rules.specs.Call.{Reading, payload_of};
ghost use Rattle.verify_rules.specs.World.{World};
ghost use Rattle.open_calls.specs.OpenCalls.{call_in, header_in, judged_in, x5u_in};
ghost use Rattle.open_calls.specs.OpenChains.{GivenChain, states_of};
ghost use Rattle.open_calls.specs.OwnQuestions.{all_asked};
ghost use Rattle.stir_c.specs.Handles.{call_held};
ghost use Rattle.stir_c.specs.Judged.{AreClaimsTold, IsAsked, IsExplained, IsJudged};
ghost use Rattle.stir_c.specs.Right.{IsRightFor};
ghost use Rattle.stir_c.specs.Saying.{IfOpen, ToldMaybe};
ghost use Rattle.stir_c.specs.WrittenText.{ToldText};

use crate::handles::CallHandle;
use crate::judging::{
    told_claims, told_explained, told_header, told_judged, told_lines, told_questions, told_x5u,
};
use crate::said::Said;
use std::alloc::Global;

/// Writes the x5u of the PASSporT at an index (RFC 8225, section 4.3), in the order in which the call went. Kind 4:
/// there is no room for it. Kind 5: the handle is closed. Kind 6: there is no PASSporT at this index.
#[unsafe(no_mangle)]
pub extern "C" fn stir_call_x5u(
    alloc: Global,
    call: &mut CallHandle,
    index: u32,
    room: &mut [u8],
) -> Said
    ensures kinds { result.kind ≤ 6 }
    ensures stays { call_held call.new ≡ call_held call.old }
    ensures told { IfOpen (call_held call.old) (λ held.
        ToldMaybe (option_map x5u_in (slice_get (judged_in held.call) index)) room.old room.new result) result }
    ensures closed { result.kind ≡ 5 → call_held call.old ≡ None }
    ensures as_was { 1 ≤ result.kind → room.new ≡ room.old }
{
    let owner = match call.take(alloc) {
        Some(owner) => owner,
        None => return Said::closed(),
    };
    let said = told_x5u(owner.call(), index as usize, room);
    *call = CallHandle::of(owner);
    said
}

/// Writes the value of the header field of this name and this index in the message, counted from 0. Names are compared
/// without case, and a compact form is its long name (RFC 3261, sections 7.3.1 and 7.3.3). Kind 4: there is no room for
/// it. Kind 5: the handle is closed. Kind 6: there is no such field, or the message can't be read.
#[unsafe(no_mangle)]
pub extern "C" fn stir_call_header(
    alloc: Global,
    call: &mut CallHandle,
    name: &[u8],
    index: u32,
    room: &mut [u8],
) -> Said
    ensures kinds { result.kind ≤ 6 }
    ensures stays { call_held call.new ≡ call_held call.old }
    ensures told { result.kind ≢ 3 → IfOpen (call_held call.old)
        (λ held. ToldMaybe (header_in held.call name.now index) room.old room.new result) result }
    ensures closed { result.kind ≡ 5 → call_held call.old ≡ None }
    ensures as_was { 1 ≤ result.kind → room.new ≡ room.old }
{
    let owner = match call.take(alloc) {
        Some(owner) => owner,
        None => return Said::closed(),
    };
    let said = told_header(alloc, owner.call(), name, index as usize, room);
    *call = CallHandle::of(owner);
    said
}

/// Says what the PASSporTs of the call say: writes a line for each, in the order in which the call went. The line has
/// the number of the Identity field, counted from 1 in message order, a space, the payload that was signed in its
/// deterministic form (RFC 8225, section 9), or a hyphen if it has none, and an LF. It tells what `stir_call_open`
/// told, but `size`. Kind 4: there is no room for the lines. Kind 5: the handle is closed.
#[unsafe(no_mangle)]
pub extern "C" fn stir_call_claims(alloc: Global, call: &mut CallHandle, room: &mut [u8]) -> Said
    ensures kinds { result.kind ≤ 5 }
    ensures stays { call_held call.new ≡ call_held call.old }
    ensures told { result.kind ≢ 3
        → IfOpen (call_held call.old) (λ held. AreClaimsTold held.call room.old room.new result) result }
    ensures closed { result.kind ≡ 5 → call_held call.old ≡ None }
    ensures as_was { 2 ≤ result.kind → room.new ≡ room.old }

    // No line end is in what is written of a payload.
    ensures one_line { (one : Reading) → IsOneLine (said_text (payload_of one)) }
{
    let owner = match call.take(alloc) {
        Some(owner) => owner,
        None => return Said::closed(),
    };
    let said = told_claims(alloc, owner.call(), room);
    *call = CallHandle::of(owner);
    said
}

/// Asks for the PASSporTs' own signatures: writes the questions, 161 bytes each, in the order in which the call went;
/// none if an earlier rule is broken. It tells what comes of the call if all of them are confirmed. Kind 4: there is no
/// room for them. Kind 5: the handle is closed.
#[unsafe(no_mangle)]
pub extern "C" fn stir_call_questions(alloc: Global, call: &mut CallHandle, room: &mut [u8]) -> Said
    ensures kinds { result.kind ≤ 5 }
    ensures stays { call_held call.new ≡ call_held call.old }
    ensures told { result.kind ≢ 3
        → IfOpen (call_held call.old) (λ held. IsAsked held room.old room.new result) result }
    ensures closed { result.kind ≡ 5 → call_held call.old ≡ None }
    ensures as_was { 2 ≤ result.kind → room.new ≡ room.old }
{
    let owner = match call.take(alloc) {
        Some(owner) => owner,
        None => return Said::closed(),
    };
    let said = told_questions(alloc, owner.call(), room);
    *call = CallHandle::of(owner);
    said
}

/// Judges the call by the rules of the call and the chains (RFC 8224, section 6.2), over the chains that were handed
/// in: `good` has a byte for each question of `stir_call_questions`, 0 if it isn't confirmed. Kind 0: it breaks none,
/// and `ticket` and `last` tell how it is known again. Kind 1: it breaks `rule` first, at `field` and `part`. Kind 5:
/// the handle is closed.
#[unsafe(no_mangle)]
pub extern "C" fn stir_call_judge(alloc: Global, call: &mut CallHandle, good: &[u8]) -> Said
    ensures kinds { result.kind ≤ 5 }
    ensures stays { call_held call.new ≡ call_held call.old }

    // What the rules say over exactly these chains and these answers.
    ensures exact { result.kind ≢ 3 → IfOpen (call_held call.old) (λ held. IsJudged held good.now result) result }

    // In each world that leads to the chains that were handed in, and whose provider says what the host said, it is
    // what the rules say of the call.
    ensures right { (rules : World) (files : List (Option GivenChain)) → result.kind ≤ 1
        → IfSome (call_held call.old) (λ held. IsRightFor rules files held good.now result) }
    ensures closed { result.kind ≡ 5 → call_held call.old ≡ None }
{
    let owner = match call.take(alloc) {
        Some(owner) => owner,
        None => return Said::closed(),
    };
    let said = told_judged(alloc, owner.call(), good);
    *call = CallHandle::of(owner);
    said
}

/// Explains the call, as `stir_call_judge` judges it: writes a line for each of the rules of the call and the chains in
/// their order, up to the first that is broken. The lines begin with `number`. It tells what `stir_call_judge` tells,
/// but `size`. Kind 4: there is no room for the lines. Kind 5: the handle is closed.
#[unsafe(no_mangle)]
pub extern "C" fn stir_call_explain(
    alloc: Global,
    call: &mut CallHandle,
    number: u32,
    good: &[u8],
    room: &mut [u8],
) -> Said
    ensures kinds { result.kind ≤ 5 }
    ensures stays { call_held call.new ≡ call_held call.old }
    ensures told { result.kind ≢ 3
        → IfOpen (call_held call.old) (λ held. IsExplained held number good.now room.old room.new result) result }
    ensures closed { result.kind ≡ 5 → call_held call.old ≡ None }
    ensures as_was { 2 ≤ result.kind → room.new ≡ room.old }
{
    let owner = match call.take(alloc) {
        Some(owner) => owner,
        None => return Said::closed(),
    };
    let said = told_explained(alloc, owner.call(), number, good, room);
    *call = CallHandle::of(owner);
    said
}

/// Writes the lines of an answers file that confirms all that is asked: of the chains that were handed in, in the order
/// of the PASSporTs, and of the PASSporTs by themselves. Kind 4: there is no room for them. Kind 5: the handle is
/// closed.
#[unsafe(no_mangle)]
pub extern "C" fn stir_call_lines(alloc: Global, call: &mut CallHandle, room: &mut [u8]) -> Said
    ensures kinds { result.kind ≤ 5 }
    ensures stays { call_held call.new ≡ call_held call.old }
    ensures told { result.kind ≢ 3 → IfOpen (call_held call.old) (λ held. ToldText (ask_lines
        (all_asked held.world.table (states_of held.chains) (call_in held.call))) room.old room.new result) result }
    ensures closed { result.kind ≡ 5 → call_held call.old ≡ None }
    ensures as_was { 1 ≤ result.kind → room.new ≡ room.old }
{
    let owner = match call.take(alloc) {
        Some(owner) => owner,
        None => return Said::closed(),
    };
    let said = told_lines(alloc, owner.call(), room);
    *call = CallHandle::of(owner);
    said
}
