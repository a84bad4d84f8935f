//! Carrying out a round that is prepared.
ghost use Rattle.std.specs.Prelude.{◌≡◌, ◌<◌, ◌≤◌, List, length, map, vec_len, slice_index_or};
ghost use Rattle.std.specs.List.{slice_get};
ghost use Rattle.call_log.specs.Entry.{Entry};
ghost use Rattle.live_desk.specs.Lists.{whole};
ghost use Rattle.stir_outside.specs.Stays.{ProviderStays};
ghost use Rattle.verify_rules.specs.declared.settings.Settings.{Settings};
ghost use Rattle.verify_service.specs.Adding.{IsAdded};
ghost use Rattle.verify_service.specs.Carried.{AreRuled, Carries};
ghost use Rattle.verify_service.specs.Carrying.{AreGathered, AreSaid, HasAnswered, HasClaims, IsInTurn};
ghost use Rattle.verify_service.specs.Judging.{EachPair};
ghost use Rattle.verify_service.specs.Prepared.{IsNewest, basis_in, classes_of};
ghost use Rattle.verify_service.specs.Ready.{AreAllReady, AreClassed, AreNumbered, HasRoom, HaveSeats, basis_of};
ghost use Rattle.verify_service.specs.Ready.{provided};
ghost use Rattle.verify_service.specs.RightChains.{FailAtQuestions};
ghost use Rattle.verify_service.specs.Screening.{IsReady};
ghost use Rattle.verify_service.specs.Service.{IsSameConfig};
ghost use Rattle.verify_service.specs.Workers.{EachWorker};
ghost use Rattle.verify_service.specs.declared.outcome.Outcome.{Outcome};

use crate::carried::Carried;
use crate::outcome::Outcome;
use crate::prepared::Prepared;
use crate::ready::{Lent, Round};
use crate::round_end::{add_all, gather, join_all};
use crate::screening::ReadyCall;
use crate::service::Service;
use crate::worker::Worker;
use crate::worker_calls::work_all;
use cert_store::{Cache, World};
use replay_desk::{Past, Seat};
use std::thread::Threads;
use stir_outside::{Gate, Provider};
use verify_rules::screened_law;

impl Service {
    /// Carries out the service's newest prepared round: each worker judges its calls, each with a seat of its own; the
    /// seats are joined to one; and the calls that are valid are kept in the past. Worker w, counted from 0, has the
    /// calls at index w, w + W and so on, if there are W workers. There are as many workers as the round was prepared
    /// with, and no seat was taken out of it. It takes no memory.
    pub fn carry<R: Threads + Sync, P: Provider + Send, G: Gate + Send>(
        &mut self,
        rt: &R,
        workers: &mut [Worker<P, G>],
        prepared: Prepared,
    ) -> Carried
        requires some { 0 < length workers.old }
        requires few { length workers.old ≤ 8 }
        requires newest { IsNewest self.old prepared }
        requires seats { length prepared.seats ≡ length workers.old }
        requires all { HaveSeats prepared.desk prepared.seats }

        // There is an outcome for each call; the classes and the desk are those of the round.
        ensures counted { length result.outcomes ≡ length prepared.calls }
        ensures classes { result.classes ≡ classes_of prepared.calls }
        ensures desk { result.desk ≡ prepared.desk }

        // Each outcome is what the rules say of its call, by what the provider of the call's worker says: over the
        // chains that the round has, and over all files for which these are right. No provider was asked more often
        // than its worker's calls have PASSporTs that are judged. For a signature of their own, these calls are set
        // aside at most as often as it failed.
        ensures said { (d : _)
            → AreSaid (basis_in self.old prepared) (λ w. provided P.Provider (slice_index_or workers.old w d).provider
            (slice_index_or workers.new w d).provider) (length workers.old) prepared.calls result.outcomes }
        ensures answered { EachWorker workers.old workers.new (λ w before now. HasAnswered (basis_in self.old prepared)
            (provided P.Provider before.provider now.provider) prepared.calls (length workers.old) w result.outcomes) }

        // The seat has exactly the wins of the valid calls, and the losses of the replays whose ticket the past hasn't.
        // The valid calls are kept.
        ensures claims { HasClaims self.old.past prepared.calls result.outcomes result.seat }
        ensures added { IsAdded self.old.past self.new.past prepared.calls result.outcomes }

        // What these are for the calls of the log: of those that pass with one ticket one is valid, and each other is a
        // replay of it; with one worker it is the first.
        ensures carried { (settings : Settings) (entries : List Entry)
            → EachPair (IsReady settings) entries prepared.calls
            → Carries settings entries (length workers.old) self.old.past self.new.past result }
        ensures ruled { (settings : Settings) (entries : List Entry) (d : _)
            → EachPair (IsReady settings) entries prepared.calls → AreRuled (basis_in self.old prepared) settings
            entries (λ w. P.says (slice_index_or workers.old w d).provider) (length workers.old) result.outcomes }

        // All else of the service stays, and so does what the providers say.
        ensures config { IsSameConfig self.old self.new }
        ensures same { self.new.held ≡ self.old.held }
        ensures number { self.new.number ≡ self.old.number }
        ensures moment { self.new.moment ≡ self.old.moment }
        ensures begun { self.new.begun ≡ self.old.begun }
        ensures workers { length workers.new ≡ length workers.old }
        ensures provider { EachWorker workers.old workers.new
            (λ _ before now. ProviderStays P.Provider before.provider now.provider) }
    {
        let Prepared {
            round,
            seats,
            outcomes,
        } = prepared;
        carry_round(
            rt,
            &self.world,
            &self.cache,
            &mut self.past,
            round,
            seats,
            outcomes,
            workers,
        )
    }
}

/// Carries out a round: each worker judges its calls, each with a seat of its own; the seats are joined to one; and the
/// calls that are valid are kept in the past. The outcomes take the place of those that are handed in. It takes no
/// memory.
pub(crate) fn carry_round<R: Threads + Sync, P: Provider + Send, G: Gate + Send>(
    rt: &R,
    materials: &World,
    cache: &Cache,
    past: &mut Past,
    round: Round,
    seats: Vec<Seat>,
    outcomes: Vec<Outcome>,
    workers: &mut [Worker<P, G>],
) -> Carried
    requires some { 0 < length workers.old }
    requires few { length workers.old ≤ 8 }
    requires calls { vec_len round.calls ≤ 256 }
    requires seats { vec_len seats ≡ length workers.old }
    requires outcomes { vec_len outcomes ≡ vec_len round.calls }
    requires room { HasRoom round.calls.items past.old.spare }
    requires ready { AreAllReady
        (record { materials = materials.now; held = cache.now.entries; kept = round.kept; past = past.old })
        round.desk round.calls.items }
    requires parts { FailAtQuestions round.kept }
    requires own { HaveSeats round.desk seats.items }
    requires classed { AreClassed round.calls.items }
    requires numbered { AreNumbered round.calls.items }

    // There is an outcome for each call; the classes and the desk are those of the round.
    ensures counted { length result.outcomes ≡ vec_len round.calls }
    ensures classes { result.classes ≡ map (λ call. call.class) round.calls.items }
    ensures desk { result.desk ≡ round.desk }

    // Each outcome is what the rules say of its call, by what the provider of the call's worker says: over the chains
    // that the round has, and over all files for which these are right. No provider was asked more often than its
    // worker's calls have PASSporTs that are judged. For a signature of their own, these calls are set aside at most as
    // often as it failed.
    ensures said { (d : _)
        → AreSaid (record { materials = materials.now; held = cache.now.entries; kept = round.kept; past = past.old })
        (λ w. provided P.Provider (slice_index_or workers.old w d).provider (slice_index_or workers.new w d).provider)
        (length workers.old) round.calls.items result.outcomes }
    ensures answered { EachWorker workers.old workers.new (λ w before now.
        HasAnswered (record { materials = materials.now; held = cache.now.entries; kept = round.kept; past = past.old })
        (provided P.Provider before.provider now.provider) round.calls.items (length workers.old) w result.outcomes) }

    // The seat has exactly the wins of the valid calls, and the losses of the replays whose ticket the past hasn't. The
    // valid calls are kept.
    ensures claims { HasClaims past.old round.calls.items result.outcomes result.seat }
    ensures added { IsAdded past.old past.new round.calls.items result.outcomes }

    // What these are for the calls of the log: of those that pass with one ticket one is valid, and each other is a
    // replay of it; with one worker it is the first.
    ensures carried { (settings : Settings) (entries : List Entry)
        → EachPair (IsReady settings) entries round.calls.items
        → Carries settings entries (length workers.old) past.old past.new result }
    ensures ruled { (settings : Settings) (entries : List Entry) (d : _)
        → EachPair (IsReady settings) entries round.calls.items
        → AreRuled (record { materials = materials.now; held = cache.now.entries; kept = round.kept; past = past.old })
        settings entries (λ w. P.says (slice_index_or workers.old w d).provider) (length workers.old) result.outcomes }

    ensures workers { length workers.new ≡ length workers.old }
    ensures provider { EachWorker workers.old workers.new
        (λ _ before now. ProviderStays P.Provider before.provider now.provider) }
{
    screened_law();
    let Round { calls, kept, desk } = round;
    let lent = Lent {
        materials,
        cache,
        past: &*past,
        kept: &kept,
        desk: &desk,
    };
    let (outcomes, seat) = carry_calls(rt, &lent, &calls, seats, outcomes, workers);
    seat.settled();
    add_all(past, &calls, &outcomes);
    Carried {
        outcomes,
        calls,
        desk,
        seat,
    }
}

/// Has the workers judge their calls, each with a seat of its own, joins the seats to one, and gathers what was
/// answered.
fn carry_calls<R: Threads + Sync, P: Provider + Send, G: Gate + Send>(
    rt: &R,
    lent: &Lent<'_>,
    calls: &[ReadyCall],
    seats: Vec<Seat>,
    outcomes: Vec<Outcome>,
    workers: &mut [Worker<P, G>],
) -> (Vec<Outcome>, Seat)
    requires some { 0 < length workers.old }
    requires few { length workers.old ≤ 8 }
    requires calls { length calls.now ≤ 256 }
    requires seats { vec_len seats ≡ length workers.old }
    requires outcomes { vec_len outcomes ≡ length calls.now }
    requires ready { AreAllReady (basis_of lent.now) lent.now.desk.now calls.now }
    requires parts { FailAtQuestions lent.now.kept.now }
    requires own { HaveSeats lent.now.desk.now seats.items }
    ensures counted { vec_len result.0 ≡ length calls.now }
    ensures claims { HasClaims lent.now.past.now calls.now result.0.items result.1 }
    ensures share { result.1.share ≡ whole }
    ensures desk { result.1.desk ≡ lent.now.desk.now }
    ensures turn { length workers.old ≡ 1 → IsInTurn lent.now.past.now calls.now result.0.items }
    ensures answered { EachWorker workers.old workers.new (λ w before now. HasAnswered (basis_of lent.now)
        (provided P.Provider before.provider now.provider) calls.now (length workers.old) w result.0.items) }
    ensures workers { length workers.new ≡ length workers.old }
    ensures provider { EachWorker workers.old workers.new
        (λ _ before now. ProviderStays P.Provider before.provider now.provider) }
{
    let seat = run_workers(rt, lent, calls, seats, workers);
    let outcomes = gather(workers, outcomes);
    (outcomes, seat)
}

/// The same, with what was answered left in the workers' places.
fn run_workers<R: Threads + Sync, P: Provider + Send, G: Gate + Send>(
    rt: &R,
    lent: &Lent<'_>,
    calls: &[ReadyCall],
    seats: Vec<Seat>,
    workers: &mut [Worker<P, G>],
) -> Seat
    requires some { 0 < length workers.old }
    requires few { length workers.old ≤ 8 }
    requires calls { length calls.now ≤ 256 }
    requires seats { vec_len seats ≡ length workers.old }
    requires ready { AreAllReady (basis_of lent.now) lent.now.desk.now calls.now }
    requires parts { FailAtQuestions lent.now.kept.now }
    requires own { HaveSeats lent.now.desk.now seats.items }
    ensures claims { (d : _) (outs : List Outcome)
        → AreGathered (λ w. (slice_index_or workers.new w d).outcomes) (length workers.old) (length calls.now) outs
        → HasClaims lent.now.past.now calls.now outs result }
    ensures share { result.share ≡ whole }
    ensures desk { result.desk ≡ lent.now.desk.now }
    ensures turn { (d : _) (outs : List Outcome) → length workers.old ≡ 1
        → AreGathered (λ w. (slice_index_or workers.new w d).outcomes) (length workers.old) (length calls.now) outs
        → IsInTurn lent.now.past.now calls.now outs }
    ensures answered { EachWorker workers.old workers.new (λ w before now. HasAnswered (basis_of lent.now)
        (provided P.Provider before.provider now.provider) calls.now (length workers.old) w now.outcomes) }
    ensures workers { length workers.new ≡ length workers.old }
    ensures provider { EachWorker workers.old workers.new
        (λ _ before now. ProviderStays P.Provider before.provider now.provider) }
{
    seat_all(workers, seats);
    work_all(rt, lent, calls, workers);
    match join_all(lent.desk, workers) {
        Some(seat) => seat,
        None => unreachable!(),
    }
}

/// Gives each worker the seat at its index.
fn seat_all<P, G>(workers: &mut [Worker<P, G>], mut seats: Vec<Seat>)
    requires counted { vec_len seats ≡ length workers.old }
    ensures counted { length workers.new ≡ length workers.old }
    ensures seats { EachWorker workers.old workers.new (λ w _ now. now.seat ≡ slice_get seats.items w) }
    ensures providers { EachWorker workers.old workers.new (λ _ before now. now.provider ≡ before.provider) }
{
    'workers: for w in 0..workers.len() {
        let seat = seats.remove(0);
        workers[w].seat = Some(seat);
    }
}
