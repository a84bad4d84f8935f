//! A prepared round that is lent to threads of a caller's own: `Service::judge` of `verify_service`.
ghost use Rattle.std.specs.Prelude.{◌≡◌, ◌<◌, ◌≤◌, Some, IfOk, length, slice_index_or};
ghost use Rattle.std.specs.Thread.{IsSync};
ghost use Rattle.stir_outside.specs.Held.{held_says};
ghost use Rattle.vector_calls.specs.Workers.{SaySame};
ghost use Rattle.verify_service.specs.Prepared.{IsNewest};
ghost use Rattle.verify_service.specs.Service.{HoldsRight, ServiceView};

use crate::logs::{Line, calls_in, one_worker, put_counts, service_of, shelf_of, winner_of};
use cert_store::Cache;
use replay_desk::Seat;
use std::alloc::Global;
use std::thread::{Threads, join};
use stir_outside::{AnswerProvider, Answers, NoGate, ShelfMem};
use vector_table::{Answer, Unread, answers_of};
use verify_rules::Screened;
use verify_service::{Call, Outcome, Prepared, Service, Worker};

/// Of a log that is one round: how many of its calls are valid, and how many are replays of the last valid one, if two
/// threads judge them by one prepared round that is lent to both.
pub(crate) fn lent<R: Threads + Sync>(
    rt: &R,
    alloc: Global,
    words: &[&[u8]],
) -> Result<String, Unread> {
    let [answers, log, world @ ..] = words else {
        return Err(Unread::Call);
    };
    let answers = answers_of(alloc, answers)?;
    let lines = judge_lent(rt, alloc, &answers, log, world)?;
    let winner = winner_of(lines.as_slice());
    put_counts(Answer::new(alloc), winner, lines.as_slice()).line()
}

/// What comes of the calls of a log, by a round that is lent to two threads, whose providers say what these answers
/// hold.
fn judge_lent<R: Threads + Sync>(
    rt: &R,
    alloc: Global,
    answers: &Answers,
    log: &[u8],
    world: &[&[u8]],
) -> Result<Vec<Line>, Unread> {
    let (service, mut prepared) = prepare_log(rt, alloc, answers, log, world)?;
    let seats = two_seats(&mut prepared)?;
    let providers = (answers.provider(&[])?, answers.provider(&[])?);
    judge_by_two(rt, alloc, &service, &prepared, seats, providers)
}

/// A service, and its newest round: the calls of a log, prepared.
fn prepare_log<R: Threads + Sync>(
    rt: &R,
    alloc: Global,
    answers: &Answers,
    log: &[u8],
    world: &[&[u8]],
) -> Result<(Service, Prepared), Unread>
    ensures newest { IfOk result (λ made. IsNewest made.0 made.1) }
{
    let calls = calls_in(alloc, log)?;
    let mut workers = one_worker(alloc, answers, NoGate)?;
    let mut shelf = shelf_of(alloc, b"", world)?;
    let mut service = service_of(alloc, world)?;
    let prepared = prepare(
        rt,
        &mut service,
        &mut shelf,
        workers.as_mut_slice(),
        calls.as_slice(),
    )?;
    Ok((service, prepared))
}

/// A round of these calls, prepared.
fn prepare<R: Threads + Sync>(
    rt: &R,
    service: &mut Service,
    shelf: &mut ShelfMem,
    workers: &mut [Worker<AnswerProvider<'_>, NoGate>],
    calls: &[Call],
) -> Result<Prepared, Unread>
    requires some { 0 < length workers.old }
    requires few { length workers.old ≤ 8 }
    requires same { SaySame workers.old }
    requires right { (d : _)
        → HoldsRight (Some shelf.old.files) (held_says (slice_index_or workers.old 0 d).provider.held) service.old }
    ensures newest { IfOk result (λ prepared. IsNewest service.new prepared) }
{
    if !service.follows(calls) {
        return Err(Unread::Value);
    }
    Ok(service.prepare(rt, shelf, workers, calls)?)
}

/// Two seats of a prepared round: one of its own, and a half of that one.
fn two_seats(prepared: &mut Prepared) -> Result<(Seat, Seat), Unread>
    ensures one { IfOk result (λ seats. seats.0.desk ≡ prepared.new.desk) }
    ensures two { IfOk result (λ seats. seats.1.desk ≡ prepared.new.desk) }
    ensures newest { (service : ServiceView) → IsNewest service prepared.old → IsNewest service prepared.new }
{
    let Some(mut seat) = prepared.seat() else {
        return Err(Unread::Value);
    };
    let other = prepared.desk().split(&mut seat)?;
    Ok((seat, other))
}

/// What a thread judges with: the parity of the places whose calls are its own, which is its number too, its seat, and
/// its provider.
#[derive(Drop)]
struct Part<'a> {
    worker: u8,
    seat: Seat,
    provider: AnswerProvider<'a>,
}

/// What comes of the calls of a prepared round if one thread judges those at even places and another those at odd ones.
fn judge_by_two<R: Threads + Sync>(
    rt: &R,
    alloc: Global,
    service: &Service,
    prepared: &Prepared,
    seats: (Seat, Seat),
    providers: (AnswerProvider<'_>, AnswerProvider<'_>),
) -> Result<Vec<Line>, Unread>
    requires newest { IsNewest service.now prepared.now }
    requires one { seats.0.desk ≡ prepared.now.desk }
    requires two { seats.1.desk ≡ prepared.now.desk }
{
    may_be_shared::<Screened>();
    may_be_shared::<Cache>();
    let (seat, other_seat) = seats;
    let (provider, other_provider) = providers;
    let even = Part {
        worker: 0,
        seat,
        provider,
    };
    let odd = Part {
        worker: 1,
        seat: other_seat,
        provider: other_provider,
    };
    let (even, odd) = in_two_threads(
        rt,
        service,
        prepared,
        even,
        odd,
        &|service, prepared, part| judge_every_second(alloc, service, prepared, part),
    );
    let mut lines = even?;
    let others = odd?;
    lines.extend_from_slice(others.as_slice())?;
    Ok(lines)
}

/// A value of the type may be lent to several threads at once. The toolchain finds that of a type which holds itself,
/// as a JSON value in a screened call does.
fn may_be_shared<T: Sync>()
    ensures { IsSync T.row }
{}

/// What two threads give that share a service and a round, each with a part of its own. The bounds say of types unknown
/// here that they may be shared and sent, so the threads' closures need no proof of that.
fn in_two_threads<
    R: Threads + Sync,
    S: Sync,
    P: Sync,
    J: Send + Drop,
    X: Send + Drop,
    F: Fn(&S, &P, J) -> X + Sync,
>(rt: &R, service: &S, prepared: &P, one: J, two: J, judge: &F) -> (X, X)
    requires one { F.pre judge.now service prepared one }
    requires two { F.pre judge.now service prepared two }
{
    let first = move || -> X
        requires { F.pre judge.now service prepared one }
    { judge(service, prepared, one) };
    let second = move || -> X
        requires { F.pre judge.now service prepared two }
    { judge(service, prepared, two) };
    join(rt, first, second)
}

/// What comes of the calls of a prepared round at even places, or at odd ones, as a thread judges them with this part.
fn judge_every_second(
    alloc: Global,
    service: &Service,
    prepared: &Prepared,
    part: Part<'_>,
) -> Result<Vec<Line>, Unread>
    requires newest { IsNewest service.now prepared.now }
    requires desk { part.seat.desk ≡ prepared.now.desk }
{
    let Part {
        worker,
        mut seat,
        mut provider,
    } = part;
    let mut lines = Vec::new(alloc);
    'calls: for index in 0..prepared.count() {
        if index % 2 == usize::from(worker) {
            let outcome = judge_one(service, prepared, index, worker, &mut seat, &mut provider);
            lines.push(Line {
                call: prepared.number(index),
                outcome,
            })?;
        }
    }
    Ok(lines)
}

/// What comes of a call of a prepared round. The seat stays one of its desk.
fn judge_one(
    service: &Service,
    prepared: &Prepared,
    index: usize,
    worker: u8,
    seat: &mut Seat,
    provider: &mut AnswerProvider<'_>,
) -> Outcome
    requires newest { IsNewest service.now prepared.now }
    requires index { index < length prepared.now.calls }
    requires desk { seat.old.desk ≡ prepared.now.desk }
    ensures desk { seat.new.desk ≡ prepared.now.desk }
{
    service.judge(prepared, index, worker, seat, provider, &mut NoGate)
}
