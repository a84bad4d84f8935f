//! Screening the calls of a round: what the rules of the call say of each, tried in several threads.
ghost use Rattle.std.specs.Prelude.{◌≡◌, ◌<◌, ◌≤◌, ℕ, length, slice_index_or};
ghost use Rattle.verify_rules.specs.Screened.{screened_by};
ghost use Rattle.verify_service.specs.Judging.{call_in};
ghost use Rattle.verify_service.specs.Screening.{IsScreening, ScreensAt, last_in, readings_in};
ghost use Rattle.verify_service.specs.declared.screening.ReadyCall.{ReadyCall};

use crate::laws::call_law;
use call_log::Call;
use std::alloc::Global;
use std::thread;
use std::thread::Threads;
use verify_rules::{Refusal, ScreenFault, Screened, Settings, screen};

/// What the rules of the call say of a call.
#[derive(Drop)]
pub enum Screening {
    /// It isn't known: the call wasn't screened yet, or memory ran out when it was.
    Open,
    /// This is the first of them that it breaks.
    Refused(Refusal),
    /// It breaks none of them.
    Passed(Screened),
}

/// A call of a round that is prepared.
#[derive(Drop)]
pub struct ReadyCall {
    pub(crate) number: u32,
    /// Unix time, in seconds.
    pub(crate) moment: u64,
    pub(crate) screening: Screening,
    /// The class of its ticket, if it breaks none of the rules of the call.
    pub(crate) class: Option<u32>,
}

/// Screens each call into its own place, in at most this many threads. A place is open then only if memory ran out.
/// What the places held before is given back by these threads.
pub(crate) fn screen_all<R: Threads + Sync>(
    rt: &R,
    alloc: Global,
    settings: &Settings,
    calls: &[Call],
    threads: usize,
    places: &mut [ReadyCall],
)
    requires threads { 0 < threads }
    requires places { length places.old ≡ length calls.now }
    ensures counted { length places.new ≡ length calls.now }
    ensures screened { (at : ℕ) (place : ReadyCall) → at < length calls.now
        → ScreensAt settings.now calls.now at (slice_index_or places.new at place) }
{
    thread::for_each_mut(
        rt,
        places,
        threads,
        &|at, place| { screen_at(alloc, settings, calls, at, place) },
    );
}

/// Screens the call at this index into its place.
fn screen_at(alloc: Global, settings: &Settings, calls: &[Call], at: usize, place: &mut ReadyCall)
    ensures { ScreensAt settings.now calls.now at place.new }
{
    if let Some(call) = calls.get(at) {
        *place = ReadyCall {
            number: call.number(),
            moment: call.moment(),
            screening: screen_call(alloc, settings, call),
            class: None,
        };
    }
}

/// Screens a call.
fn screen_call(alloc: Global, settings: &Settings, call: &Call) -> Screening
    ensures screening { IsScreening (call_in settings.now call.now) result }
    ensures few { length (readings_in result) ≤ 9 }
    ensures last { last_in result ≤ 253402387199 }
{
    call_law();
    match screen(alloc, call.message(), call.moment(), settings) {
        Ok(screened) => {
            last_law(&screened, settings);
            Screening::Passed(screened)
        }
        Err(fault) => match fault {
            ScreenFault::Refused(refusal) => Screening::Refused(refusal),
            ScreenFault::Memory => Screening::Open,
        },
    }
}

/// A law, with nothing to do: a call has at most nine PASSporTs, and is fresh until a day after the last second of the
/// year 9999 at most.
#[tactic(auto, using(crate::proofs::LastLaws::last_within))]
fn last_law(screened: &Screened, settings: &Settings)
    requires { screened.now ≡ screened_by settings.now screened.now.readings }
    ensures few { length screened.now.readings ≤ 9 }
    ensures last { screened.now.last ≤ 253402387199 }
{
    let _past = settings.past;
    let count = screened.count();
    let _iat = screened.passport(count - 1).iat();
}
