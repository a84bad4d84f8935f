//! Judging a call by itself.
ghost use Rattle.stir_outside.specs.Stays.{ProviderStays, ShelfStays};
ghost use Rattle.std.specs.Prelude.{◌≡◌, length, Ok, IfOk, OnOk};
ghost use Rattle.std.specs.List.{list_any};
ghost use Rattle.verify_rules.specs.Call.{Call, call_of};
ghost use Rattle.verify_rules.specs.Rules.{early_rules};
ghost use Rattle.verify_rules.specs.Screened.{IsScreenedBy};
ghost use Rattle.verify_rules.specs.Signed.{IsKnownAgain};
ghost use Rattle.call_judging.specs.Causes.{HasCauseIf, found_unasked, found_unread};
ghost use Rattle.call_judging.specs.Chains.{AreRightWhere, is_unread};
ghost use Rattle.call_judging.specs.Judging.{HasSigned, HasTicket, IsFoundWhere, IsKnownBy, IsOfVerdict};

use crate::chains::CallChains;
use crate::finding::{Finding, Pass};
use crate::reading::read_chains;
use cert_store::World;
use std::alloc::{AllocError, Global};
use stir_outside::{Provider, Shelf};
use verify_rules::{
    ScreenFault, Screened, Settings, Verdict, finish, screen, screened_law, signed_law,
};

/// Judges the call of this message, which came at this moment (Unix time, in seconds), by itself: by all rules but the
/// one on replay. Its chains are read from the shelf and judged for it, in place of those that are handed in.
/// `AllocError` is the only error.
pub fn judge_call<S: Shelf, P: Provider>(
    alloc: Global,
    settings: &Settings,
    world: &World,
    shelf: &mut S,
    provider: &mut P,
    chains: &mut CallChains,
    message: &[u8],
    moment: u64,
) -> Result<Finding, AllocError>
    ensures ticket { IfOk result (HasTicket (call_of settings.now moment message.now)) }
    ensures signed { IfOk result (HasSigned (call_of settings.now moment message.now)) }
    ensures found { IfOk result
        (IsFoundWhere (S.files shelf.old) world.now (P.says provider.old) (call_of settings.now moment message.now)) }
    ensures unread { IfOk result
        (λ finding. HasCauseIf (found_unread finding) (S.counts shelf.old).faults (S.counts shelf.new).faults) }
    ensures unasked { IfOk result
        (λ finding. HasCauseIf (found_unasked finding) (P.faults provider.old) (P.faults provider.new)) }
    ensures shelf { ShelfStays S.Shelf shelf.old shelf.new }
    ensures provider { ProviderStays P.Provider provider.old provider.new }
{
    screened_law();
    match screen(alloc, message, moment, settings) {
        Ok(screened) => judge_screened(alloc, world, shelf, provider, chains, moment, &screened),
        Err(fault) => match fault {
            ScreenFault::Refused(refusal) => Ok(Finding::Refused(refusal)),
            ScreenFault::Memory => Err(AllocError),
        },
    }
}

/// Judges a call that was screened, which came at this moment: reads its chains as [`read_chains`] does, and tries the
/// rules that look at them. `AllocError` is the only error.
pub fn judge_screened<S: Shelf, P: Provider>(
    alloc: Global,
    world: &World,
    shelf: &mut S,
    provider: &mut P,
    chains: &mut CallChains,
    moment: u64,
    screened: &Screened,
) -> Result<Finding, AllocError>
    ensures ticket { (call : Call) → IsScreenedBy early_rules call (Ok screened.now) → IfOk result (HasTicket call) }
    ensures signed { (call : Call) → IsScreenedBy early_rules call (Ok screened.now) → IfOk result (HasSigned call) }
    ensures found { (call : Call) → IsScreenedBy early_rules call (Ok screened.now) → moment ≡ call.moment
        → IfOk result (IsFoundWhere (S.files shelf.old) world.now (P.says provider.old) call) }
    ensures unread { IfOk result
        (λ finding. HasCauseIf (found_unread finding) (S.counts shelf.old).faults (S.counts shelf.new).faults) }
    ensures unasked { IfOk result
        (λ finding. HasCauseIf (found_unasked finding) (P.faults provider.old) (P.faults provider.new)) }

    // The chains that were read, for who asks about them afterwards.
    ensures counted { OnOk result (length chains.new ≡ length screened.now.readings) }
    ensures right { OnOk result
        (AreRightWhere (S.files shelf.old) world.now (P.says provider.old) screened.now.readings chains.new) }
    ensures known { OnOk result
        (HasCauseIf (list_any is_unread chains.new) (S.counts shelf.old).faults (S.counts shelf.new).faults) }

    ensures shelf { ShelfStays S.Shelf shelf.old shelf.new }
    ensures provider { ProviderStays P.Provider provider.old provider.new }
{
    screened_law();
    read_chains(alloc, world, shelf, provider, screened, chains)?;
    let verdict = finish(screened, &*chains, moment, &world.table, provider);
    Ok(finding_of(verdict, screened))
}

/// What comes of a call by this verdict.
fn finding_of(verdict: Verdict, screened: &Screened) -> Finding
    ensures same { IsOfVerdict verdict result }
    ensures ticket { (call : Call) → IsScreenedBy early_rules call (Ok screened.now) → HasTicket call result }
    ensures signed { (call : Call) → IsScreenedBy early_rules call (Ok screened.now) → HasSigned call result }
{
    match verdict {
        Verdict::Passed => Finding::Passes(pass_of(screened)),
        Verdict::Refused(refusal) => Finding::Refused(refusal),
        Verdict::Unread(place) => Finding::Unread(place),
        Verdict::Unasked(place) => Finding::Unasked(place),
    }
}

/// By what a call that was screened is known again, if it passes.
pub fn pass_of(screened: &Screened) -> Pass
    ensures ticket { (call : Call) → IsScreenedBy early_rules call (Ok screened.now)
        → IsKnownBy call result.ticket result.last }
    ensures signed { (call : Call) → IsScreenedBy early_rules call (Ok screened.now) → IsKnownAgain call }
{
    screened_law();
    signed_law();
    Pass {
        ticket: *screened.ticket(),
        last: screened.last(),
    }
}
