//! Rounds of calls on several workers, over files in memory: the calls of `verify_service`.
ghost use Rattle.std.specs.Prelude.{◌≡◌, ◌<◌, ◌≤◌, IfOk, vec_len};
ghost use Rattle.stir_outside.specs.Held.{held_says};
ghost use Rattle.vector_calls.specs.Workers.{SaySame};

use crate::lending::lent;
use crate::logs::{Line, LogCase, MOST_CALLS, Told, calls_in, put_counts, report_of, winner_of};
use std::alloc::Global;
use std::sync::atomic::{AtomicU64, Ordering};
use std::thread::Threads;
use stir_outside::{AnswerProvider, Answers, Gate, NoGate};
use vector_table::{Answer, Answered, Asked, Unread, answers_of, numbers_of};
use verify_service::Worker;

/// The most workers of a round.
const MOST_WORKERS: u64 = 8;

/// What a call answers.
pub fn answer<R: Threads + Sync>(rt: &R, alloc: Global, asked: Asked<'_>) -> Answered {
    let words = asked.words;
    match asked.call {
        "report" => report(rt, alloc, words),
        "once" => once(rt, alloc, words),
        "meet" => meet(rt, alloc, words),
        "lent" => lent(rt, alloc, words),
        _ => Err(Unread::Call),
    }
}

/// The report of a log that is judged as one round on so many workers; these calls of each worker's provider and these
/// reads of the shelf fail.
fn report<R: Threads + Sync>(rt: &R, alloc: Global, words: &[&[u8]]) -> Result<String, Unread> {
    let [count, answers, questions, failing, log, world @ ..] = words else {
        return Err(Unread::Call);
    };
    let case = LogCase {
        log,
        rounds: &[MOST_CALLS],
        failing,
        world,
    };
    let told = judge_on(rt, alloc, count, answers, questions, case)?;
    report_of(alloc, told.lines.as_slice())
}

/// Of a log that is judged as two rounds on so many workers, the last call in the second: how many calls are valid, and
/// how many are replays of the last valid one of the first round, in each.
fn once<R: Threads + Sync>(rt: &R, alloc: Global, words: &[&[u8]]) -> Result<String, Unread> {
    let [count, answers, log, world @ ..] = words else {
        return Err(Unread::Call);
    };
    let rounds = all_and_last(alloc, log)?;
    let case = LogCase {
        log,
        rounds: &rounds,
        failing: b"",
        world,
    };
    let told = judge_on(rt, alloc, count, answers, b"", case)?;
    put_both(Answer::new(alloc), told.lines.as_slice()).line()
}

/// How many calls of a log come before its last, and 1.
fn all_and_last(alloc: Global, log: &[u8]) -> Result<[u64; 2], Unread> {
    let calls = calls_in(alloc, log)?;
    if calls.is_empty() {
        return Err(Unread::Value);
    }
    Ok([(calls.len() - 1) as u64, 1])
}

/// Puts the counts of all lines but the last, and those of the last, after other words.
fn put_both(answer: Answer, lines: &[Line]) -> Answer {
    if lines.is_empty() {
        return answer;
    }
    let (first, last) = lines.split_at(lines.len() - 1);
    let winner = winner_of(first);
    put_counts(put_counts(answer, winner, first), winner, last)
}

/// What comes of a log on so many workers, whose providers say what these answers hold; these calls of each provider
/// fail.
pub(crate) fn judge_on<R: Threads + Sync>(
    rt: &R,
    alloc: Global,
    count: &[u8],
    answers: &[u8],
    questions: &[u8],
    case: LogCase<'_>,
) -> Result<Told, Unread> {
    let answers = answers_of(alloc, answers)?;
    let questions = numbers_of(alloc, questions)?;
    let mut workers = workers_of(alloc, &answers, questions.as_slice(), count)?;
    case.judge(rt, alloc, &mut workers)
}

/// So many workers, 1 to 8, whose providers say what these answers hold; these calls of each provider fail.
fn workers_of<'a>(
    alloc: Global,
    answers: &'a Answers,
    failing: &[u64],
    count: &[u8],
) -> Result<Vec<Worker<AnswerProvider<'a>, NoGate>>, Unread>
    ensures some { IfOk result (λ workers. 0 < vec_len workers) }
    ensures few { IfOk result (λ workers. vec_len workers ≤ 8) }
    ensures same { IfOk result (λ workers. SaySame workers.items) }
{
    let numbers = numbers_of(alloc, count)?;
    let [count] = numbers.as_slice() else {
        return Err(Unread::Value);
    };
    if *count < 1 || *count > MOST_WORKERS {
        return Err(Unread::Value);
    }
    let mut workers = Vec::new(alloc);
    'workers: for _ in 0..*count {
        let provider = answers.provider(failing)?;
        workers.push(Worker::new(alloc, provider, NoGate))?;
    }
    Ok(workers)
}

/// A gate that raises a flag of its own, and waits a while until it sees another's.
#[derive(Drop)]
struct Meets<'a> {
    own: &'a AtomicU64,
    other: &'a AtomicU64,
    saw: bool,
}

impl<'a> Gate for Meets<'a> {
    fn at(&mut self, worker: u8, call: u32) {
        self.own.store(1, Ordering::SeqCst);
        self.saw = is_seen(self.other);
    }
}

/// Whether a flag is seen within 50,000,000 turns.
fn is_seen(flag: &AtomicU64) -> bool {
    for _ in 0..50_000_000u32 {
        if flag.load(Ordering::SeqCst) == 1 {
            return true;
        }
    }
    false
}

/// Whether each of two workers is at its call while the other is at its own.
fn meet<R: Threads + Sync>(rt: &R, alloc: Global, words: &[&[u8]]) -> Result<String, Unread> {
    let [answers, log, world @ ..] = words else {
        return Err(Unread::Call);
    };
    let answers = answers_of(alloc, answers)?;
    let case = LogCase {
        log,
        rounds: &[MOST_CALLS],
        failing: b"",
        world,
    };
    let one = AtomicU64::new(0);
    let two = AtomicU64::new(0);
    let mut workers = two_workers(alloc, &answers, &one, &two)?;
    let _ = case.judge(rt, alloc, &mut workers)?;
    put_saw(Answer::new(alloc), workers.as_slice()).line()
}

/// Two workers, each of which raises one of these flags and waits for the other.
#[tactic(auto, using(crate::proofs::WorkerLaws::say_two))]
fn two_workers<'a>(
    alloc: Global,
    answers: &'a Answers,
    one: &'a AtomicU64,
    two: &'a AtomicU64,
) -> Result<Vec<Worker<AnswerProvider<'a>, Meets<'a>>>, Unread>
    ensures some { IfOk result (λ workers. 0 < vec_len workers) }
    ensures few { IfOk result (λ workers. vec_len workers ≤ 8) }
    ensures same { IfOk result (λ workers. SaySame workers.items) }
{
    let first = worker_at(alloc, answers, one, two)?;
    let second = worker_at(alloc, answers, two, one)?;
    let mut workers = Vec::new(alloc);
    workers.push(first)?;
    workers.push(second)?;
    Ok(workers)
}

/// A worker that raises its own flag and waits for the other.
fn worker_at<'a>(
    alloc: Global,
    answers: &'a Answers,
    own: &'a AtomicU64,
    other: &'a AtomicU64,
) -> Result<Worker<AnswerProvider<'a>, Meets<'a>>, Unread>
    ensures says { IfOk result (λ worker. held_says worker.provider.held ≡ held_says answers.now) }
{
    let gate = Meets {
        own,
        other,
        saw: false,
    };
    Ok(Worker::new(alloc, answers.provider(&[])?, gate))
}

/// Puts whether each of these workers saw the other's flag after other words.
fn put_saw(answer: Answer, workers: &[Worker<AnswerProvider<'_>, Meets<'_>>]) -> Answer {
    let mut answer = answer;
    for worker in workers {
        answer = answer.word(u8::from(worker.gate.saw));
    }
    answer
}
