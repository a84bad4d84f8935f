//! States and the past that they hand on: the calls of `replay_desk` about them.

use replay_desk::{Kept, Past, State, StateFault};
use std::alloc::Global;
use vector_table::{Answer, Unread, joined, number, word};

/// A ticket, and the call that passed on it.
type Entry = ([u8; 32], Kept);

/// What a call answers.
pub fn answer(alloc: Global, call: &str, words: &[&[u8]]) -> Result<String, Unread> {
    match call {
        "read" => read(alloc, words),
        "write" => write(alloc, words),
        "list" => list(alloc, words),
        _ => Err(Unread::Call),
    }
}

/// The state that a file holds, or why it holds none; the first word is the window that an empty file stands for.
fn read(alloc: Global, words: &[&[u8]]) -> Result<String, Unread> {
    let [window, file @ ..] = words else {
        return Err(Unread::Call);
    };
    let window: u64 = number(window)?;
    let file = joined(alloc, file)?;
    if window > 86_400 || file.len() >= 4_000_000_000 {
        return Err(Unread::Value);
    }
    match State::read(alloc, file.as_slice(), window) {
        Ok(state) => put_state(Answer::new(alloc), &state).line(),
        Err(StateFault::Memory) => Err(Unread::Memory),
        Err(fault) => word(alloc, fault),
    }
}

/// The text of a state of a window, a call, a moment and entries, or `none` if it breaks a rule.
fn write(alloc: Global, words: &[&[u8]]) -> Result<String, Unread> {
    let [window, call, moment, entries @ ..] = words else {
        return Err(Unread::Call);
    };
    let kept = entries_of(alloc, entries)?;
    match State::new(number(window)?, number(call)?, number(moment)?, kept) {
        Some(state) => {
            let text = state.write()?;
            Answer::new(alloc).text(text.as_slice()).line()
        }
        None => word(alloc, "none"),
    }
}

/// The entries of a past to which these were added in turn; of those with one ticket the first stays.
fn list(alloc: Global, words: &[&[u8]]) -> Result<String, Unread> {
    let entries = entries_of(alloc, words)?;
    let mut past = Past::new(alloc);
    for (ticket, kept) in &entries {
        past.reserve(1)?;
        if past.find(ticket).is_none() {
            past.add(*ticket, *kept);
        }
    }
    let list = past.list()?;
    put_entries(Answer::new(alloc), list.as_slice()).line()
}

/// Puts the window, the call, the moment and the entries of a state after other words.
fn put_state(answer: Answer, state: &State) -> Answer {
    let answer = answer
        .word(state.window())
        .word(state.call())
        .word(state.moment());
    put_entries(answer, state.kept())
}

/// Puts entries after other words, each as its ticket and two numbers.
fn put_entries(answer: Answer, kept: &[Entry]) -> Answer {
    let mut answer = answer;
    for (ticket, kept) in kept {
        answer = answer
            .hex(ticket.as_slice())
            .word(kept.call)
            .word(kept.last);
    }
    answer
}

/// The entries that these words are, three words each.
fn entries_of(alloc: Global, words: &[&[u8]]) -> Result<Vec<Entry>, Unread> {
    let mut entries = Vec::new(alloc);
    let mut left = words;
    for _ in words {
        let [ticket, call, last, rest @ ..] = left else {
            break;
        };
        entries.push((
            ticket_of(ticket)?,
            Kept {
                call: number(call)?,
                last: number(last)?,
            },
        ))?;
        left = rest;
    }
    if left.is_empty() {
        Ok(entries)
    } else {
        Err(Unread::Call)
    }
}

/// The ticket that a word of 32 bytes is.
fn ticket_of(word: &[u8]) -> Result<[u8; 32], Unread> {
    match word.split_first_chunk::<32>() {
        Some((ticket, [])) => Ok(*ticket),
        _ => Err(Unread::Value),
    }
}
