//! Chain maps and the rules on a chain: the calls of `cert_store`.
ghost use Rattle.std.specs.Prelude.{◌≤◌, IfOk, length};

use crate::certificates::demanded;
use crate::judging::{anchors_of, judged, map_of, read_map, table_of};
use cert_store::{Asked, Judged, MapFault, Question};
use delegation::Anchors;
use std::alloc::{AllocError, Global};
use stir_outside::{AnswerProvider, Answers};
use tn_auth_list::CodeTable;
use vector_table::{Answer, Unread, answers_of, number, numbers_of, ok_or_line, or_none, word};

/// What a call answers.
pub fn answer(alloc: Global, call: &str, words: &[&[u8]]) -> Result<String, Unread> {
    match call {
        "map" => map(alloc, words),
        "file" => file(alloc, words),
        "map_fault" => map_says(alloc, words),
        _ => chain_answer(alloc, call, words),
    }
}

/// The file of an x5u in a chain map, or `none`.
fn file(alloc: Global, words: &[&[u8]]) -> Result<String, Unread> {
    let [text, x5u] = words else {
        return Err(Unread::Call);
    };
    let map = map_of(alloc, text)?;
    or_none(alloc, map.file(x5u))
}

/// What a fault of a chain map says.
fn map_says(alloc: Global, words: &[&[u8]]) -> Result<String, Unread> {
    let [line] = words else {
        return Err(Unread::Call);
    };
    let line = number(line)?;
    word(alloc, MapFault::Line { line })
}

/// What a call answers that judges a chain.
fn chain_answer(alloc: Global, call: &str, words: &[&[u8]]) -> Result<String, Unread> {
    let [chain, anchors, table, answers, words @ ..] = words else {
        return Err(Unread::Call);
    };
    let anchors = anchors_of(alloc, anchors)?;
    let table = table_of(alloc, table)?;
    let answers = answers_of(alloc, answers)?;
    let case = Case {
        chain,
        anchors: &anchors,
        table: &table,
        answers: &answers,
    };
    case.answer(alloc, call, words)
}

/// A chain and what it is judged by.
#[derive(Clone, Copy)]
struct Case<'a> {
    chain: &'a [u8],
    anchors: &'a Anchors,
    table: &'a CodeTable,
    answers: &'a Answers,
}

impl Case<'_> {
    /// What a call answers.
    fn answer(self, alloc: Global, call: &str, words: &[&[u8]]) -> Result<String, Unread> {
        match call {
            "judge" => self.said(alloc, words),
            "out_of_date" => self.out_of_date(alloc, words),
            "leaf" => self.leaf(alloc),
            "length" => self.length(alloc),
            "question" => self.question(alloc, words),
            "constraints" => self.constraints(alloc, words),
            _ => Err(Unread::Call),
        }
    }

    /// What the rules say.
    fn judge(self, alloc: Global, provider: &mut AnswerProvider<'_>) -> Result<Judged, AllocError> {
        judged(alloc, self.chain, self.anchors, self.table, provider)
    }

    /// Where rules 11, 12 and 14 are broken, `-` if they aren't; how the signatures were answered for; how often the
    /// provider was asked. Its listed calls fail.
    fn said(self, alloc: Global, words: &[&[u8]]) -> Result<String, Unread> {
        let [failing] = words else {
            return Err(Unread::Call);
        };
        let failing = numbers_of(alloc, failing)?;
        let mut provider = self.answers.provider(failing.as_slice())?;
        let judged = self.judge(alloc, &mut provider)?;
        put_judged(Answer::new(alloc), &judged)
            .word(provider.asks())
            .line()
    }

    /// Which certificate is out of date at a moment, or `none`.
    fn out_of_date(self, alloc: Global, words: &[&[u8]]) -> Result<String, Unread> {
        let [moment] = words else {
            return Err(Unread::Call);
        };
        let mut provider = self.answers.provider(&[])?;
        let judged = self.judge(alloc, &mut provider)?;
        or_none(alloc, judged.out_of_date(number(moment)?))
    }

    /// The bytes of the leaf, or `none`.
    fn leaf(self, alloc: Global) -> Result<String, Unread> {
        let mut provider = self.answers.provider(&[])?;
        let judged = self.judge(alloc, &mut provider)?;
        match judged.leaf() {
            Some(leaf) => Answer::new(alloc).hex(leaf.whole()).line(),
            None => word(alloc, "none"),
        }
    }

    /// How many certificates there are.
    fn length(self, alloc: Global) -> Result<String, Unread> {
        let mut provider = self.answers.provider(&[])?;
        let judged = self.judge(alloc, &mut provider)?;
        word(alloc, judged.length())
    }

    /// The chain, and at which of its certificates it is asked.
    fn judged_at(self, alloc: Global, words: &[&[u8]]) -> Result<(Judged, u8), Unread>
        ensures some { IfOk result (λ at. 1 ≤ at.1) }
        ensures within { IfOk result (λ at. at.1 ≤ length at.0.certificates) }
    {
        let [place] = words else {
            return Err(Unread::Call);
        };
        let place = number::<u8>(place)?;
        let mut provider = self.answers.provider(&[])?;
        let judged = self.judge(alloc, &mut provider)?;
        if place == 0 || place > judged.length() {
            return Err(Unread::Value);
        }
        Ok((judged, place))
    }

    /// The key, the digest and the signature of the question for a certificate, or `none`.
    fn question(self, alloc: Global, words: &[&[u8]]) -> Result<String, Unread> {
        let (judged, place) = self.judged_at(alloc, words)?;
        match judged.question(place) {
            Some(question) => put_question(Answer::new(alloc), question).line(),
            None => word(alloc, "none"),
        }
    }

    /// What a certificate demands of claims, as [`demanded`] gives it.
    fn constraints(self, alloc: Global, words: &[&[u8]]) -> Result<String, Unread> {
        let (judged, place) = self.judged_at(alloc, words)?;
        demanded(alloc, judged.constraints(place))
    }
}

/// Puts after other words what is asked for a certificate.
fn put_question(answer: Answer, question: Question<'_>) -> Answer {
    let Question {
        key,
        digest,
        signature,
    } = question;
    answer.hex(key).hex(digest).hex(signature)
}

/// Puts after other words where rules 11, 12 and 14 are broken, and how the signatures were answered for.
fn put_judged(answer: Answer, judged: &Judged) -> Answer {
    let answer = answer
        .option(judged.profile())
        .option(judged.shape())
        .option(judged.authority());
    put_asked(answer, judged.asked())
}

/// Puts after other words how the signatures were answered for.
fn put_asked(answer: Answer, asked: Asked) -> Answer {
    match asked {
        Asked::NotAsked => answer.word("unasked"),
        Asked::Yes => answer.word("yes"),
        Asked::No { part } => answer.word("no").word(part),
        Asked::Failed { part } => answer.word("failed").word(part),
    }
}

/// `ok`, or the first bad line of a chain map.
fn map(alloc: Global, words: &[&[u8]]) -> Result<String, Unread> {
    let [text] = words else {
        return Err(Unread::Call);
    };
    ok_or_line(alloc, read_map(alloc, text)?)
}
