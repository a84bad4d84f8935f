//! The calls of the drill, one after another.
ghost use Rattle.std.specs.Prelude.{◌≡◌, ◌≤◌, ◌<◌, ◌+◌, ◌++◌, ℕ, suc, true, false, OnOk, IfOk, List};
ghost use Rattle.std.specs.List.{flat_map};
ghost use Rattle.stir_drill.specs.Calls.{log_of};
ghost use Rattle.stir_drill.specs.Change.{repeats};
ghost use Rattle.stir_drill.specs.Holds.{Holds, OneMore};
ghost use Rattle.stir_drill.specs.Message.{signature_of, signing_of};
ghost use Rattle.stir_drill.specs.World.{answer_line, answers_of, chain_triples, triples_of};

use crate::certificates::Named;
use crate::change::Change;
use crate::drawn::Drawn;
use crate::entries::put_last_again;
use crate::generator::draw;
use crate::messages::{identity_line, put_message};
use crate::passports::{signature, signing_text};
use crate::world::put_answer;
use passport_json::ticket;
use std::alloc::{AllocError, Global};

/// The most bytes that an entry of the log has.
const MOST_OF_ENTRY: usize = 739;

/// The calls that were made: the state of the generator, the log and the answers, and how many bytes the last message
/// has.
#[derive(Drop)]
pub(crate) struct Calls {
    pub(crate) state: u64,
    pub(crate) log: Vec<u8>,
    pub(crate) answers: Vec<u8>,
    pub(crate) last: usize,
}

/// Makes so many calls after these answers.
pub(crate) fn make_calls(
    alloc: Global,
    seed: u64,
    count: u32,
    answers: Vec<u8>,
) -> Result<Calls, AllocError>
    requires count { count ≤ 100000 }
    requires answers { answers.items ≡ flat_map answer_line chain_triples }
    ensures log { IfOk result (λ calls. calls.log.items ≡ log_of seed count) }
    ensures answers { IfOk result (λ calls. calls.answers.items ≡ answers_of seed count) }
{
    let log = Vec::with_capacity(alloc, MOST_OF_ENTRY * count as usize)?;
    let mut calls = Calls {
        state: seed,
        log,
        answers,
        last: 0,
    };
    for before in 0..count {
        put_call(alloc, &mut calls, u64::from(before) + 1)?;
    }
    Ok(calls)
}

/// Makes the call of this number after the others.
fn put_call(alloc: Global, calls: &mut Calls, number: u64) -> Result<(), AllocError>
    requires { number ≤ 100000 }
    ensures { (seed before : ℕ) → number ≡ suc before → Holds seed before calls.old
        → OnOk result (Holds seed (suc before) calls.new) }
{
    let kind = draw(&mut calls.state) % 8;
    let line = draw(&mut calls.state) % 10_000;
    let change = Change::of_call(number, kind);
    let call = Drawn {
        number,
        change,
        line,
    };
    put_drawn(alloc, calls, call)?;
    Ok(())
}

/// Makes a call that was drawn.
fn put_drawn(alloc: Global, calls: &mut Calls, call: Drawn) -> Result<(), AllocError>
    requires number { call.number ≤ 100000 }
    requires line { call.line < 10000 }
    ensures { OnOk result (OneMore call calls.old calls.new) }
{
    if call.change.repeats() {
        put_repeated(calls, call)
    } else {
        put_own(alloc, calls, call)
    }
}

/// Makes a call that repeats the message of the call before.
#[tactic(auto, using(crate::proofs::CallLaws::repeated_one))]
fn put_repeated(calls: &mut Calls, call: Drawn) -> Result<(), AllocError>
    requires { repeats call.change ≡ true }
    ensures { OnOk result (OneMore call calls.old calls.new) }
{
    put_last_again(&mut calls.log, call.moment(), calls.last)?;
    Ok(())
}

/// Makes a call of its own message.
#[tactic(auto, using(crate::proofs::CallLaws::own_one))]
fn put_own(alloc: Global, calls: &mut Calls, call: Drawn) -> Result<(), AllocError>
    requires number { call.number ≤ 100000 }
    requires line { call.line < 10000 }
    requires own { repeats call.change ≡ false }
    ensures { OnOk result (OneMore call calls.old calls.new) }
{
    let signing = signing_text(alloc, call)?;
    let signature = signature(call.number);
    let line = identity_line(alloc, call, &signing, &signature)?;
    let last = put_message(&mut calls.log, call, &line)?;
    calls.last = last;
    put_confirmed(alloc, &mut calls.answers, call, &signing, &signature)?;
    Ok(())
}

/// Appends the line that confirms the signature of a call's PASSporT, if it is confirmed.
fn put_confirmed(
    alloc: Global,
    answers: &mut Vec<u8>,
    call: Drawn,
    signing: &[u8],
    signature: &[u8; 64],
) -> Result<(), AllocError>
    requires signing { signing.now ≡ signing_of call }
    requires signature { signature.now ≡ signature_of call.number }
    ensures { OnOk result (answers.new.items ≡ answers.old.items ++ flat_map answer_line (triples_of call)) }
{
    if !call.change.is_confirmed() {
        return Ok(());
    }
    let digest = ticket(signing);
    put_answer(alloc, answers, &Named::LEAF.key(), &digest, signature)?;
    Ok(())
}
