//! Judging the calls of a round by several workers, each with its own calls.
ghost use Rattle.std.specs.Prelude.{◌≡◌, ◌<◌, ◌≤◌, ℕ, length, slice_index_or};
ghost use Rattle.stir_outside.specs.Stays.{ProviderStays};
ghost use Rattle.verify_service.specs.Carrying.{Claimed, HasAnswered, HasClaimed, HasSeat};
ghost use Rattle.verify_service.specs.Ready.{AreAllReady, IsFresh, basis_of, provided};
ghost use Rattle.verify_service.specs.RightChains.{FailAtQuestions};
ghost use Rattle.verify_service.specs.Workers.{EachWorker};

use crate::judge::judge_ready;
use crate::outcome::Outcome;
use crate::ready::Lent;
use crate::screening::ReadyCall;
use crate::worker::Worker;
use replay_desk::Seat;
use std::thread;
use std::thread::Threads;
use stir_outside::{Gate, Provider};

/// Has each worker judge its calls with its seat, in a thread of its own; the last in the one that calls. Worker w,
/// counted from 0, has the calls at index w, w + W and so on, if there are W workers. What it answers is at the index
/// of the call in the worker's own place.
pub(crate) fn work_all<R: Threads + Sync, P: Provider + Send, G: Gate + Send>(
    rt: &R,
    lent: &Lent<'_>,
    calls: &[ReadyCall],
    workers: &mut [Worker<P, G>],
)
    requires some { 0 < length workers.old }
    requires few { length workers.old ≤ 8 }
    requires calls { length calls.now ≤ 256 }
    requires ready { AreAllReady (basis_of lent.now) lent.now.desk.now calls.now }
    requires parts { FailAtQuestions lent.now.kept.now }
    requires seats { (w : ℕ) (d : _) → w < length workers.old
        → HasSeat lent.now.desk.now (slice_index_or workers.old w d).seat }
    ensures counted { length workers.new ≡ length workers.old }
    ensures claimed { EachWorker workers.old workers.new (λ w before now.
        HasClaimed lent.now.past.now calls.now (length workers.old) w before.seat now.seat now.outcomes) }
    ensures answered { EachWorker workers.old workers.new (λ w before now. HasAnswered (basis_of lent.now)
        (provided P.Provider before.provider now.provider) calls.now (length workers.old) w now.outcomes) }
    ensures provider { EachWorker workers.old workers.new
        (λ _ before now. ProviderStays P.Provider before.provider now.provider) }
{
    let count = workers.len();
    thread::for_each_mut(
        rt,
        workers,
        count,
        &|index, worker| { work(lent, calls, index, count, worker) },
    );
}

/// Has one worker of so many judge its calls with its seat.
fn work<P: Provider, G: Gate>(
    lent: &Lent<'_>,
    calls: &[ReadyCall],
    index: usize,
    count: usize,
    worker: &mut Worker<P, G>,
)
    requires some { 0 < count }
    requires index { index < 256 }
    requires calls { length calls.now ≤ 256 }
    requires ready { AreAllReady (basis_of lent.now) lent.now.desk.now calls.now }
    requires parts { FailAtQuestions lent.now.kept.now }
    requires seat { HasSeat lent.now.desk.now worker.old.seat }
    ensures claimed { HasClaimed lent.now.past.now calls.now count index worker.old.seat
        worker.new.seat worker.new.outcomes }
    ensures answered { HasAnswered (basis_of lent.now) (provided P.Provider worker.old.provider worker.new.provider)
        calls.now count index worker.new.outcomes }
    ensures provider { ProviderStays P.Provider worker.old.provider worker.new.provider }
{
    let Some(mut seat) = worker.seat.take() else {
        unreachable!()
    };
    judge_calls(
        lent,
        calls,
        index,
        count,
        &mut seat,
        &mut worker.provider,
        &mut worker.gate,
        &mut worker.outcomes,
    );
    worker.seat = Some(seat);
}

/// Judges the calls of one worker of so many.
fn judge_calls<P: Provider, G: Gate>(
    lent: &Lent<'_>,
    calls: &[ReadyCall],
    index: usize,
    count: usize,
    seat: &mut Seat,
    provider: &mut P,
    gate: &mut G,
    outcomes: &mut [Outcome; 256],
)
    requires some { 0 < count }
    requires index { index < 256 }
    requires calls { length calls.now ≤ 256 }
    requires ready { AreAllReady (basis_of lent.now) lent.now.desk.now calls.now }
    requires parts { FailAtQuestions lent.now.kept.now }
    requires seat { IsFresh lent.now.desk.now seat.old }
    ensures claimed { Claimed lent.now.past.now calls.now count index (length calls.now) seat.old
        seat.new outcomes.new }
    ensures answered { HasAnswered (basis_of lent.now) (provided P.Provider provider.old provider.new) calls.now
        count index outcomes.new }
    ensures provider { ProviderStays P.Provider provider.old provider.new }
{
    let number = index as u8;
    'calls: for at in 0..calls.len() {
        if at % count != index {
            continue;
        }
        let outcome = judge_ready(lent, &calls[at], number, seat, provider, gate);
        outcomes[at] = outcome;
    }
}
