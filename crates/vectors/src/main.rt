//! The table of cases of all crates: a call a line in its standard input, and its answer a line in the standard output.
//!
//! ```text
//! numbers.read 1 10 (215)\s555-1212       in stdin
//! 12155551212                             in stdout
//! ```
//!
//! `stdin` and `stdout` beside `src/` are the table and its answers; the gate runs the program and compares. The head
//! of `stdin` says how a line is written, and CONTRIBUTING.md how a case is added. Expected values come from outside
//! the program: worked by hand from a standard, or printed by a script of `crates/vectors/generators`.
//!
//! The subjects are in `vector_texts`, `vector_chains`, `vector_messages` and `vector_calls`; those of words and named
//! files are in `commands` here. Whole runs of `stir_cmd` are in `runs`, over memory forms, whose reads and writes fail
//! at the calls that a line lists; `crates/vectors/generators/runs.py` prints them.
#![tactic(auto)]

mod commands;
mod runs;

use std::alloc::Global;
use std::process::ExitCode;
use std::thread::Threads;
use vector_calls::{rounds, rules, verdicts, workers};
use vector_chains::{authority, cache, certificates, chains, paths};
use vector_messages::{claims, constraints, identity, messages, order, tokens};
use vector_table::{Answered, Asked, Subjects, Unread, answer_table};
use vector_texts::{answers, der, drills, log, numbers, outside, state, text};

/// Answers a table.
fn main(rt: HostRuntime) -> ExitCode {
    let alloc = rt.alloc();
    answer_table(&rt, alloc, &Cases)
}

/// All subjects of the table.
#[derive(Clone, Copy)]
struct Cases;

impl Subjects for Cases {
    fn called<R: Threads + Sync>(&self, rt: &R, alloc: Global, asked: Asked<'_>) -> Answered {
        let Asked { call, words, .. } = asked;
        match asked.subject {
            "text" => text::answer(alloc, call, words),
            "numbers" => numbers::answer(alloc, call, words),
            "der" => der::answer(alloc, call, words),
            "answers" => answers::answer(alloc, call, words),
            "log" => log::answer(alloc, call, words),
            "outside" => outside::answer(alloc, call, words),
            "state" => state::answer(alloc, call, words),
            "words" => commands::words(alloc, call, words),
            "files" => commands::files(alloc, call, words),
            "rounds" => rounds::answer(rt, alloc, asked),
            "workers" => workers::answer(rt, alloc, asked),
            "drill" => drills::answer(alloc, call, words),
            "runs" => runs::answer(rt, alloc, asked),
            _ => called(alloc, asked),
        }
    }
}

/// What a call answers about chains, messages, rules and signatures.
fn called(alloc: Global, asked: Asked<'_>) -> Answered {
    let Asked { call, words, .. } = asked;
    match asked.subject {
        "authority" => authority::answer(alloc, call, words),
        "certificates" => certificates::answer(alloc, call, words),
        "paths" => paths::answer(alloc, call, words),
        "chains" => chains::answer(alloc, call, words),
        "cache" => cache::answer(alloc, call, words),
        "rules" => rules::answer(alloc, call, words),
        "verdicts" => verdicts::answer(alloc, call, words),
        _ => called_of_messages(alloc, asked),
    }
}

/// What a call answers about messages, their fields and their tokens.
fn called_of_messages(alloc: Global, asked: Asked<'_>) -> Answered {
    let Asked { call, words, .. } = asked;
    match asked.subject {
        "messages" => messages::answer(alloc, call, words),
        "identity" => identity::answer(alloc, call, words),
        "tokens" => tokens::answer(alloc, call, words),
        "claims" => claims::answer(alloc, call, words),
        "constraints" => constraints::answer(alloc, call, words),
        "order" => order::answer(alloc, call, words),
        "signing" => signing(alloc, call, words),
        _ => Err(Unread::Call),
    }
}

/// What a call answers about what a signer puts together and what it signs.
fn signing(alloc: Global, call: &str, words: &[&[u8]]) -> Result<String, Unread> {
    match call {
        "with_field" | "text" => vector_messages::signing::answer(alloc, call, words),
        _ => vector_calls::signing::answer(alloc, call, words),
    }
}
