//! A log that is judged in rounds, over files in memory: what the calls of `verify_service` share.
ghost use Rattle.std.specs.Prelude.{◌≡◌, ◌<◌, ◌≤◌, [], Some, IfOk, length, slice_index_or, vec_len};
ghost use Rattle.stir_outside.specs.Held.{held_says};
ghost use Rattle.vector_calls.specs.Workers.{SaySame};
ghost use Rattle.verify_service.specs.Service.{HoldsRight};

use std::alloc::Global;
use std::thread::Threads;
use stir_outside::{AnswerProvider, Answers, Gate, ShelfMem, SourceMem};
use vector_chains::{anchors_of, map_of, table_of};
use vector_table::{Answer, Unread, files_of, local_of, numbers_of};
use verify_rules::Settings;
use verify_service::{Call, LogReader, Outcome, Service, Worker, World, report_line};

/// The most calls of a round.
pub(crate) const MOST_CALLS: u64 = 256;

/// A log, how many calls each of its rounds has, and what it is judged by.
#[derive(Clone, Copy)]
pub(crate) struct LogCase<'a> {
    pub(crate) log: &'a [u8],
    pub(crate) rounds: &'a [u64],
    /// Which reads of the shelf fail, as numbers with commas between.
    pub(crate) failing: &'a [u8],
    /// The chain map, the trust anchors and the code table; then the files, each a name and its content.
    pub(crate) world: &'a [&'a [u8]],
}

/// What came of a log: a line for each call, and how many files were read in each round.
#[derive(Drop)]
pub(crate) struct Told {
    pub(crate) lines: Vec<Line>,
    pub(crate) reads: Vec<u64>,
}

/// The number of a call, and what came of it.
#[derive(Clone, Copy)]
pub(crate) struct Line {
    pub(crate) call: u32,
    pub(crate) outcome: Outcome,
}

impl<'a> LogCase<'a> {
    /// What comes of the log if these workers judge it.
    pub(crate) fn judge<R: Threads + Sync, G: Gate + Send>(
        self,
        rt: &R,
        alloc: Global,
        workers: &mut Vec<Worker<AnswerProvider<'_>, G>>,
    ) -> Result<Told, Unread>
        requires some { 0 < vec_len workers.old }
        requires few { vec_len workers.old ≤ 8 }
        requires same { SaySame workers.old.items }
    {
        let mut shelf = shelf_of(alloc, self.failing, self.world)?;
        let mut service = service_of(alloc, self.world)?;
        judge_rounds(
            rt,
            alloc,
            &mut service,
            &mut shelf,
            workers.as_mut_slice(),
            self.log,
            self.rounds,
        )
    }
}

/// A worker whose provider says what these answers hold, with this gate.
#[tactic(auto, using(crate::proofs::WorkerLaws::say_one))]
pub(crate) fn one_worker<'a, G: Gate + Drop>(
    alloc: Global,
    answers: &'a Answers,
    gate: G,
) -> Result<Vec<Worker<AnswerProvider<'a>, G>>, Unread>
    ensures one { IfOk result (λ workers. vec_len workers ≡ 1) }
    ensures same { IfOk result (λ workers. SaySame workers.items) }
{
    let mut workers = Vec::new(alloc);
    workers.push(Worker::new(alloc, answers.provider(&[])?, gate))?;
    Ok(workers)
}

/// What comes of a log that is cut into rounds of so many calls.
fn judge_rounds<R: Threads + Sync, G: Gate + Send>(
    rt: &R,
    alloc: Global,
    service: &mut Service,
    shelf: &mut ShelfMem,
    workers: &mut [Worker<AnswerProvider<'_>, G>],
    log: &[u8],
    rounds: &[u64],
) -> Result<Told, Unread>
    requires some { 0 < length workers.old }
    requires few { length workers.old ≤ 8 }
    requires same { SaySame workers.old }
    requires right { (d : _)
        → HoldsRight (Some shelf.old.files) (held_says (slice_index_or workers.old 0 d).provider.held) service.old }
{
    let mut source = SourceMem::new(log.to_vec(alloc)?, Vec::new(alloc));
    let mut reader = LogReader::new(alloc);
    let mut told = Told {
        lines: Vec::new(alloc),
        reads: Vec::new(alloc),
    };
    for count in rounds {
        let calls = calls_of(alloc, &mut reader, &mut source, *count)?;
        judge_round(rt, service, shelf, workers, calls.as_slice(), &mut told)?;
    }
    Ok(told)
}

/// Puts what comes of the calls of a round after what came of those before it. What is held of chains stays right.
fn judge_round<R: Threads + Sync, G: Gate + Send>(
    rt: &R,
    service: &mut Service,
    shelf: &mut ShelfMem,
    workers: &mut [Worker<AnswerProvider<'_>, G>],
    calls: &[Call],
    told: &mut Told,
) -> Result<(), Unread>
    requires some { 0 < length workers.old }
    requires few { length workers.old ≤ 8 }
    requires same { SaySame workers.old }
    requires right { (d : _)
        → HoldsRight (Some shelf.old.files) (held_says (slice_index_or workers.old 0 d).provider.held) service.old }
    ensures counted { length workers.new ≡ length workers.old }
    ensures same { SaySame workers.new }
    ensures right { (d : _)
        → HoldsRight (Some shelf.new.files) (held_says (slice_index_or workers.new 0 d).provider.held) service.new }
{
    if !service.follows(calls) {
        return Err(Unread::Value);
    }
    let before = shelf.reads();
    let outcomes = service.round(rt, shelf, workers, calls)?.close();
    told.reads.push(shelf.reads() - before)?;
    put_lines(&mut told.lines, calls, outcomes.as_slice())
}

/// Puts the lines of a round after others.
fn put_lines(lines: &mut Vec<Line>, calls: &[Call], outcomes: &[Outcome]) -> Result<(), Unread> {
    for (call, outcome) in calls.iter().zip(outcomes) {
        lines.push(Line {
            call: call.number(),
            outcome: *outcome,
        })?;
    }
    Ok(())
}

/// A shelf with the files of a world; these of its reads fail.
pub(crate) fn shelf_of(alloc: Global, failing: &[u8], world: &[&[u8]]) -> Result<ShelfMem, Unread> {
    let [_, _, _, files @ ..] = world else {
        return Err(Unread::Call);
    };
    let failing = numbers_of(alloc, failing)?;
    Ok(ShelfMem::new(files_of(alloc, files)?, failing))
}

/// A service by a chain map, anchors and a code table, for country 1, national numbers of ten digits, and PASSporTs
/// that may be 60 seconds old and 5 ahead.
pub(crate) fn service_of(alloc: Global, world: &[&[u8]]) -> Result<Service, Unread>
    ensures none_held { IfOk result (λ service. service.held.entries ≡ []) }
{
    let [map, anchors, table, ..] = world else {
        return Err(Unread::Call);
    };
    let world = World {
        chains: map_of(alloc, map)?,
        anchors: anchors_of(alloc, anchors)?,
        table: table_of(alloc, table)?,
    };
    let local = local_of(b"1", b"10")?;
    let settings = Settings {
        local,
        past: 60,
        future: 5,
    };
    Ok(Service::new(alloc, settings, world)?)
}

/// The next so many calls of a log.
fn calls_of(
    alloc: Global,
    reader: &mut LogReader,
    source: &mut SourceMem,
    count: u64,
) -> Result<Vec<Call>, Unread> {
    let mut calls = Vec::new(alloc);
    for _ in 0..count {
        match reader.next(source) {
            Ok(Some(call)) => calls.push(call)?,
            Ok(None) => break,
            Err(_) => return Err(Unread::Value),
        }
    }
    Ok(calls)
}

/// The calls of a log, 256 at most.
pub(crate) fn calls_in(alloc: Global, log: &[u8]) -> Result<Vec<Call>, Unread> {
    let mut source = SourceMem::new(log.to_vec(alloc)?, Vec::new(alloc));
    let mut reader = LogReader::new(alloc);
    calls_of(alloc, &mut reader, &mut source, MOST_CALLS)
}

/// These lines as the report has them.
pub(crate) fn report_of(alloc: Global, lines: &[Line]) -> Result<String, Unread> {
    let mut report = Vec::new(alloc);
    for line in lines {
        let text = report_line(alloc, line.call, &line.outcome)?;
        report.extend_from_slice(text.as_slice())?;
    }
    Answer::new(alloc).text(report.as_slice()).line()
}

/// The number of the last call that is valid, and 0 if none is.
pub(crate) fn winner_of(lines: &[Line]) -> u32 {
    let mut winner = 0;
    for line in lines {
        if line.outcome == Outcome::Valid {
            winner = line.call;
        }
    }
    winner
}

/// Puts how many calls are valid, and how many a replay of this call, after other words.
pub(crate) fn put_counts(answer: Answer, winner: u32, lines: &[Line]) -> Answer {
    let valid = lines
        .iter()
        .filter(|line| line.outcome == Outcome::Valid)
        .count();
    let replays = lines
        .iter()
        .filter(|line| line.outcome == Outcome::Replay { winner })
        .count();
    answer.word(valid).word(replays)
}
