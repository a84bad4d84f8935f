//! Rounds of calls on one worker, over files in memory: the calls of `verify_service`.

use crate::logs::{LogCase, Told, one_worker, report_of};
use crate::workers::judge_on;
use std::alloc::Global;
use std::thread::Threads;
use stir_outside::Gate;
use vector_table::{Answer, Answered, Asked, Unread, answers_of, numbers_of};

/// What a call answers.
pub fn answer<R: Threads + Sync>(rt: &R, alloc: Global, asked: Asked<'_>) -> Answered {
    let words = asked.words;
    match asked.call {
        "report" => report(rt, alloc, words),
        "reads" => reads(rt, alloc, words),
        "gate" => passed(rt, alloc, words),
        _ => Err(Unread::Call),
    }
}

/// The report of a log, cut into rounds, when some calls of the provider and some reads of the shelf fail.
fn report<R: Threads + Sync>(rt: &R, alloc: Global, words: &[&[u8]]) -> Result<String, Unread> {
    let told = told(rt, alloc, words)?;
    report_of(alloc, told.lines.as_slice())
}

/// How many files were read in each round of the same.
fn reads<R: Threads + Sync>(rt: &R, alloc: Global, words: &[&[u8]]) -> Result<String, Unread> {
    let told = told(rt, alloc, words)?;
    let mut answer = Answer::new(alloc);
    for count in &told.reads {
        answer = answer.word(*count);
    }
    answer.line()
}

/// What comes of a log that one worker judges in rounds.
fn told<R: Threads + Sync>(rt: &R, alloc: Global, words: &[&[u8]]) -> Result<Told, Unread> {
    let [answers, questions, failing, rounds, log, world @ ..] = words else {
        return Err(Unread::Call);
    };
    let rounds = numbers_of(alloc, rounds)?;
    let case = LogCase {
        log,
        rounds: rounds.as_slice(),
        failing,
        world,
    };
    judge_on(rt, alloc, b"1", answers, questions, case)
}

/// A gate that notes who passes and with which call, in order.
#[derive(Drop)]
struct Notes {
    passed: Vec<(u8, u32)>,
}

impl Gate for Notes {
    fn at(&mut self, worker: u8, call: u32) {
        let _ = self.passed.push((worker, call));
    }
}

/// The workers that passed the gate, counted from 0, each with the number of the call, when one worker judged a log in
/// rounds.
fn passed<R: Threads + Sync>(rt: &R, alloc: Global, words: &[&[u8]]) -> Result<String, Unread> {
    let [rounds, log, world @ ..] = words else {
        return Err(Unread::Call);
    };
    let rounds = numbers_of(alloc, rounds)?;
    let case = LogCase {
        log,
        rounds: rounds.as_slice(),
        failing: b"",
        world,
    };
    noted(rt, alloc, case)
}

/// The same of a case.
fn noted<R: Threads + Sync>(rt: &R, alloc: Global, case: LogCase<'_>) -> Result<String, Unread> {
    let answers = answers_of(alloc, b"")?;
    let gate = Notes {
        passed: Vec::new(alloc),
    };
    let mut workers = one_worker(alloc, &answers, gate)?;
    let _ = case.judge(rt, alloc, &mut workers)?;
    let mut answer = Answer::new(alloc);
    for worker in &workers {
        answer = put_notes(answer, worker.gate.passed.as_slice());
    }
    answer.line()
}

/// Puts workers, each with the number of a call, after other words.
fn put_notes(answer: Answer, passed: &[(u8, u32)]) -> Answer {
    let mut answer = answer;
    for (who, call) in passed {
        answer = answer.word(*who).word(*call);
    }
    answer
}
