//! Judging a call of a round that is prepared, and claiming the class of its ticket.
ghost use Rattle.std.specs.Prelude.{◌≡◌, ◌≤◌, ◌<◌, ◌+◌, ◌↔◌, false, length, Some};
ghost use Rattle.std.specs.List.{slice_get};
ghost use Rattle.replay_desk.specs.Holder.{Settled};
ghost use Rattle.stir_outside.specs.Stays.{ProviderStays};
ghost use Rattle.call_judging.specs.Causes.{HasCauseIf};
ghost use Rattle.verify_service.specs.Causes.{is_unasked_passport};
ghost use Rattle.verify_service.specs.Claiming.{Claims, ClaimsAt, HasWon, IsAnswer, IsClaim, OutcomeSays, verdict_of};
ghost use Rattle.verify_service.specs.Needed.{x5us};
ghost use Rattle.verify_service.specs.Prepared.{IsNewest, basis_in};
ghost use Rattle.verify_service.specs.Ready.{CallReady, basis_of, class_in, provided, ticket_by};
ghost use Rattle.verify_service.specs.RightChains.{AreThere, FailAtQuestions};
ghost use Rattle.verify_service.specs.Screening.{readings_in};
ghost use Rattle.verify_service.specs.declared.screening.ReadyCall.{ReadyCall};

use crate::outcome::Outcome;
use crate::prepared::Prepared;
use crate::ready::Lent;
use crate::round_chains::RoundChains;
use crate::screening::{ReadyCall, Screening};
use crate::service::Service;
use replay_desk::{Claim, Desk, Seat};
use stir_outside::{Gate, Provider};
use verify_rules::{Screened, Verdict, finish, right_law, screened_law, signed_law};

impl Service {
    /// Judges the call at this index of the service's newest prepared round, and if it passes claims the class of its
    /// ticket with this seat of the round's desk. It passes the gate first, once, under this worker's number. Threads
    /// of a caller's own may do so side by side, each with a seat of its own. It takes no memory and waits for nobody.
    ///
    /// The call is valid if it breaks no rule, isn't set aside, the past hasn't its ticket, and the claim was won. It
    /// is a replay if it passes likewise and the past has its ticket, or the claim was lost.
    pub fn judge<P: Provider, G: Gate>(
        &self,
        prepared: &Prepared,
        index: usize,
        worker: u8,
        seat: &mut Seat,
        provider: &mut P,
        gate: &mut G,
    ) -> Outcome
        requires newest { IsNewest self.now prepared.now }
        requires index { index < length prepared.now.calls }
        requires desk { seat.old.desk ≡ prepared.now.desk }

        // What is answered is what the rules say over the chains that the round has, and over all files for which these
        // are right.
        ensures said { (call : ReadyCall) → slice_get prepared.now.calls index ≡ Some call
            → OutcomeSays (basis_in self.now prepared.now) (provided P.Provider provider.old provider.new) call result }

        // A valid call is won at the desk, and a replay is one of the past or lost there; and a call is valid exactly
        // if it is won.
        ensures claims { (call : ReadyCall) → slice_get prepared.now.calls index ≡ Some call
            → Claims self.now.past call seat.old seat.new result }
        ensures won { (call : ReadyCall) → slice_get prepared.now.calls index ≡ Some call
            → (result ≡ Outcome.Valid) ↔ HasWon (basis_in self.now prepared.now)
            (provided P.Provider provider.old provider.new) call seat.old seat.new }
        ensures settled { Settled seat.new }

        // A call is set aside for a signature of its own only if the provider failed in this call. The provider is
        // asked once at most for each PASSporT of the call that is judged.
        ensures unasked { HasCauseIf (is_unasked_passport result) (P.faults provider.old) (P.faults provider.new) }
        ensures asks { (call : ReadyCall) → slice_get prepared.now.calls index ≡ Some call
            → P.asks provider.new ≤ P.asks provider.old + length (readings_in call.screening) }
        ensures provider { ProviderStays P.Provider provider.old provider.new }
    {
        let round = &prepared.round;
        let lent = Lent {
            materials: &self.world,
            cache: &self.cache,
            past: &self.past,
            kept: &round.kept,
            desk: &round.desk,
        };
        judge_ready(&lent, &round.calls[index], worker, seat, provider, gate)
    }
}

/// Judges a call, and if it passes claims the class of its ticket with this seat. The gate is passed once, before
/// anything else is done.
///
/// The call is valid if it breaks no rule, isn't set aside, the past hasn't its ticket, and the claim was won. It is a
/// replay if it passes likewise and the past has its ticket, or the claim was lost. It takes no memory.
pub(crate) fn judge_ready<P: Provider, G: Gate>(
    lent: &Lent<'_>,
    call: &ReadyCall,
    worker: u8,
    seat: &mut Seat,
    provider: &mut P,
    gate: &mut G,
) -> Outcome
    requires ready { CallReady (basis_of lent.now) lent.now.desk.now call.now }
    requires parts { FailAtQuestions lent.now.kept.now }
    requires desk { seat.old.desk ≡ lent.now.desk.now }

    // What is answered is what the rules say over the chains that the round has, and over all files for which these are
    // right.
    ensures said { OutcomeSays (basis_of lent.now) (provided P.Provider provider.old provider.new) call.now result }

    // A valid call is won at the desk, and a replay is one of the past or lost there.
    ensures claims { Claims lent.now.past.now call.now seat.old seat.new result }
    ensures settled { Settled seat.new }

    // A call is set aside for a signature of its own only if the provider failed in this call.
    ensures unasked { HasCauseIf (is_unasked_passport result) (P.faults provider.old) (P.faults provider.new) }
    ensures asks { P.asks provider.new ≤ P.asks provider.old + length (readings_in call.now.screening) }
    ensures asks_stay { P.asks provider.old ≤ P.asks provider.new }
    ensures provider { ProviderStays P.Provider provider.old provider.new }
{
    gate.at(worker, call.number);
    screened_law();
    let outcome = match &call.screening {
        Screening::Open => unreachable!(),
        Screening::Refused(refusal) => Outcome::Refused(*refusal),
        Screening::Passed(screened) => judge_screened(
            lent,
            call.moment,
            call.number,
            call.class.unwrap_or(0),
            screened,
            seat,
            provider,
        ),
    };
    seat.settled();
    outcome
}

/// Judges a call that the rules of the call don't refuse.
fn judge_screened<P: Provider>(
    lent: &Lent<'_>,
    moment: u64,
    number: u32,
    class: u32,
    screened: &Screened,
    seat: &mut Seat,
    provider: &mut P,
) -> Outcome
    requires there { AreThere lent.now.materials.now.chains lent.now.cache.now.entries lent.now.kept.now
        (x5us screened.now.readings) }
    requires parts { FailAtQuestions lent.now.kept.now }
    requires desk { seat.old.desk ≡ lent.now.desk.now }
    requires class { class < lent.now.desk.now.words }
    requires number { number < 4294967295 }
    ensures said { IsAnswer (basis_of lent.now) (provided P.Provider provider.old provider.new)
        moment screened.now result }
    ensures claims { ClaimsAt lent.now.past.now (ticket_by screened.now.readings) class number
        seat.old seat.new result }
    ensures unasked { HasCauseIf (is_unasked_passport result) (P.faults provider.old) (P.faults provider.new) }
    ensures asks { P.asks provider.new ≤ P.asks provider.old + length screened.now.readings }
    ensures asks_stay { P.asks provider.old ≤ P.asks provider.new }
    ensures provider { ProviderStays P.Provider provider.old provider.new }
{
    screened_law();
    signed_law();
    right_law();
    lent.cache.answered();
    let chains = RoundChains {
        kept: lent.kept,
        held: lent.cache,
        screened,
    };
    let verdict = finish(screened, &chains, moment, &lent.materials.table, provider);
    settle(lent, verdict, class, number, screened.ticket(), seat)
}

/// What is answered by a verdict. A call that passes is a replay if its ticket is held or the claim of its class is
/// lost, and else valid.
fn settle(
    lent: &Lent<'_>,
    verdict: Verdict,
    class: u32,
    number: u32,
    ticket: &[u8; 32],
    seat: &mut Seat,
) -> Outcome
    requires desk { seat.old.desk ≡ lent.now.desk.now }
    requires class { class < lent.now.desk.now.words }
    requires number { number < 4294967295 }
    ensures same { verdict ≡ verdict_of result }
    ensures claims { ClaimsAt lent.now.past.now ticket.now class number seat.old seat.new result }
{
    match verdict {
        Verdict::Passed => match lent.past.find(ticket) {
            Some(kept) => Outcome::Replay { winner: kept.call },
            None => claim(lent.desk, class, number, seat),
        },
        Verdict::Refused(refusal) => Outcome::Refused(refusal),
        Verdict::Unread(place) => Outcome::Unread(place),
        Verdict::Unasked(place) => Outcome::Unasked(place),
    }
}

/// What is answered by a claim.
fn claim(desk: &Desk, class: u32, number: u32, seat: &mut Seat) -> Outcome
    requires desk { seat.old.desk ≡ desk.now }
    requires class { class < desk.now.words }
    requires number { number < 4294967295 }
    ensures { IsClaim class number seat.old seat.new result }
{
    match desk.claim(seat, class, number) {
        Claim::Won => Outcome::Valid,
        Claim::Lost { winner } => Outcome::Replay { winner },
    }
}
