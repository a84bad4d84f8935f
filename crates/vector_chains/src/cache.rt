//! The cache of judged chains: `Cache` of `cert_store`.

use crate::judging::{anchors_of, judged, table_of};
use cert_store::{Asked, Cache, Judged};
use delegation::Anchors;
use std::alloc::Global;
use stir_outside::AnswerProvider;
use tn_auth_list::CodeTable;
use vector_table::{Answer, Unread, answers_of, number, text};

/// What a call answers.
pub fn answer(alloc: Global, call: &str, words: &[&[u8]]) -> Result<String, Unread> {
    match call {
        "run" => run(alloc, words),
        _ => Err(Unread::Call),
    }
}

/// What each of some operations on a new cache answers, and then the x5us in the order in which they leave it.
fn run(alloc: Global, words: &[&[u8]]) -> Result<String, Unread> {
    let [anchors, table, answers, capacity, words @ ..] = words else {
        return Err(Unread::Call);
    };
    let answers = answers_of(alloc, answers)?;
    let mut case = Case {
        alloc,
        anchors: anchors_of(alloc, anchors)?,
        table: table_of(alloc, table)?,
        provider: answers.provider(&[])?,
        cache: cache_of(alloc, capacity)?,
    };
    let answer = case.operations(words)?;
    case.leaving(answer, number(capacity)?, words)?.line()
}

/// An empty cache for so many chains.
fn cache_of(alloc: Global, capacity: &[u8]) -> Result<Cache, Unread> {
    let capacity: usize = number(capacity)?;
    if capacity == 0 {
        return Err(Unread::Value);
    }
    Ok(Cache::new(alloc, capacity)?)
}

/// A cache, and what the chains that are put into it are judged by.
#[derive(Drop)]
struct Case<'a> {
    alloc: Global,
    anchors: Anchors,
    table: CodeTable,
    provider: AnswerProvider<'a>,
    cache: Cache,
}

impl Case<'_> {
    /// What each operation answers.
    fn operations(&mut self, words: &[&[u8]]) -> Result<Answer, Unread> {
        let mut answer = Answer::new(self.alloc);
        let mut rest = words;
        for _ in 0..words.len() {
            let [operation, x5u, behind @ ..] = rest else {
                break;
            };
            rest = behind;
            match text(operation)? {
                "peek" => answer = put_found(answer, self.cache.peek(x5u)),
                "touch" => answer = answer.word(self.cache.touch(x5u)),
                "put" => {
                    let [chain, behind @ ..] = rest else {
                        return Err(Unread::Call);
                    };
                    rest = behind;
                    self.put(x5u, chain)?;
                    answer = answer.word("put");
                }
                _ => return Err(Unread::Call),
            }
        }
        Ok(answer)
    }

    /// Judges a chain and puts it. The provider must not fail at it.
    fn put(&mut self, x5u: &[u8], chain: &[u8]) -> Result<(), Unread> {
        let judged = judged(
            self.alloc,
            chain,
            &self.anchors,
            &self.table,
            &mut self.provider,
        )?;
        let x5u = Vec::from_slice(self.alloc, x5u)?;
        match judged.asked() {
            Asked::Failed { .. } => Err(Unread::Value),
            Asked::NotAsked | Asked::Yes | Asked::No { .. } => Ok(self.cache.put(x5u, judged)?),
        }
    }

    /// Puts after other words the x5us that are held, in the order in which they leave as one more chain after another
    /// is put: the least recently used first.
    fn leaving(
        &mut self,
        answer: Answer,
        capacity: usize,
        words: &[&[u8]],
    ) -> Result<Answer, Unread> {
        let mut answer = answer.word("leave");
        let mut held = self.held(words)?;
        for place in 0..capacity {
            self.put(&place.to_be_bytes(), b"")?;
            let mut left = Vec::new(self.alloc);
            for x5u in &held {
                if self.cache.peek(x5u).is_some() {
                    left.push(*x5u)?;
                } else {
                    answer = answer.text(x5u);
                }
            }
            held = left;
        }
        Ok(answer)
    }

    /// The words that are x5us of held chains, each once.
    fn held<'a>(&self, words: &[&'a [u8]]) -> Result<Vec<&'a [u8]>, Unread> {
        let mut held: Vec<&'a [u8]> = Vec::new(self.alloc);
        for word in words {
            if self.cache.peek(word).is_some() && !held.contains(word) {
                held.push(*word)?;
            }
        }
        Ok(held)
    }
}

/// Puts after other words how many certificates the chain has that was found, or `none`.
fn put_found(answer: Answer, found: Option<&Judged>) -> Answer {
    match found {
        Some(judged) => answer.word(judged.length()),
        None => answer.word("none"),
    }
}
