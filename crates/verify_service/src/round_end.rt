//! What is left of the workers once the calls of a round are judged: their seats, what they answered, and the calls
//! that are valid.
ghost use Rattle.std.specs.Prelude.{◌≡◌, ◌<◌, ◌≤◌, ◌%◌, ◌+◌, ℕ, true, length, map, slice_index_or, vec_len, None};
ghost use Rattle.replay_desk.specs.Past.{found};
ghost use Rattle.verify_service.specs.Adding.{AddsCall, AddsOne, IsAdded, IsOnceValid, is_valid, valid_upto};
ghost use Rattle.verify_service.specs.Carrying.{IsOfDesk, joined_from, joined_two, one_if, out_at};
ghost use Rattle.verify_service.specs.Ready.{is_passed, ticket_in};
ghost use Rattle.verify_service.specs.Workers.{EachWorker};

use crate::outcome::Outcome;
use crate::screening::{ReadyCall, Screening};
use crate::worker::Worker;
use replay_desk::{Desk, Kept, Past, Seat};

/// Takes the seats of all workers, joined to one.
pub(crate) fn join_all<P, G>(desk: &Desk, workers: &mut [Worker<P, G>]) -> Option<Seat>
    requires seats { (w : ℕ) (d : _) → w < length workers.old
        → IsOfDesk desk.now (slice_index_or workers.old w d).seat }
    ensures joined { result ≡ joined_from None (map (λ worker. worker.seat) workers.old) }
    ensures counted { length workers.new ≡ length workers.old }
    ensures outcomes { EachWorker workers.old workers.new (λ _ before now. now.outcomes ≡ before.outcomes) }
    ensures providers { EachWorker workers.old workers.new (λ _ before now. now.provider ≡ before.provider) }
{
    let mut seat = None;
    'workers: for w in 0..workers.len() {
        let other = workers[w].seat.take();
        seat = join_two(desk, seat, other);
    }
    seat
}

/// Joins a seat to another, if there are both.
fn join_two(desk: &Desk, seat: Option<Seat>, other: Option<Seat>) -> Option<Seat>
    requires seat { IsOfDesk desk.now seat }
    requires other { IsOfDesk desk.now other }
    ensures joined { result ≡ joined_two seat other }
    ensures desk { IsOfDesk desk.now result }
{
    match seat {
        None => other,
        Some(mut own) => match other {
            None => Some(own),
            Some(other) => {
                desk.join(&mut own, other);
                Some(own)
            }
        },
    }
}

/// The answers of all workers, each that of the worker whose call it is, in place of the outcomes that are handed in.
pub(crate) fn gather<P, G>(workers: &[Worker<P, G>], mut outcomes: Vec<Outcome>) -> Vec<Outcome>
    requires some { 0 < length workers.now }
    requires few { vec_len outcomes ≤ 256 }
    ensures counted { vec_len result ≡ vec_len outcomes }
    ensures each { (at : ℕ) (d : _) → at < vec_len outcomes
        → out_at result.items at ≡ out_at (slice_index_or workers.now (at % length workers.now) d).outcomes at }
{
    let count = workers.len();
    'calls: for at in 0..outcomes.len() {
        outcomes[at] = workers[at % count].outcomes[at];
    }
    outcomes
}

/// Keeps the calls that are valid. It takes no memory: there is room for them.
pub(crate) fn add_all(past: &mut Past, calls: &[ReadyCall], outcomes: &[Outcome])
    requires room { valid_upto outcomes.now (length calls.now) ≤ past.old.spare }
    requires counted { length outcomes.now ≡ length calls.now }
    requires once { IsOnceValid past.old calls.now outcomes.now }
    ensures { IsAdded past.old past.new calls.now outcomes.now }
{
    'calls: for at in 0..calls.len() {
        add_valid(past, &calls[at], &outcomes[at]);
    }
}

/// Keeps a call by its ticket, if it is valid: up to the last second at which its last PASSporT is fresh.
fn add_valid(past: &mut Past, call: &ReadyCall, outcome: &Outcome)
    requires room { is_valid outcome.now ≡ true → 1 ≤ past.old.spare }
    requires passed { outcome.now ≡ Outcome.Valid → is_passed call.now.screening ≡ true }
    requires free { outcome.now ≡ Outcome.Valid → found past.old (ticket_in call.now.screening) ≡ None }
    ensures added { AddsOne call.now outcome.now past.old past.new }
    ensures spare { past.old.spare ≤ past.new.spare + one_if (is_valid outcome.now) }
{
    match outcome {
        Outcome::Valid => match &call.screening {
            Screening::Passed(screened) => {
                let kept = Kept {
                    call: call.number,
                    last: screened.last(),
                };
                past.add(*screened.ticket(), kept);
            }
            Screening::Refused(_) => unreachable!(),
            Screening::Open => unreachable!(),
        },
        Outcome::Refused(_) => {}
        Outcome::Replay { .. } => {}
        Outcome::Unread(_) => {}
        Outcome::Unasked(_) => {}
    }
}
