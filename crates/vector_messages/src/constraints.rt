//! Constraints on claims: the calls of `claim_constraints`.
ghost use Rattle.std.specs.Prelude.{◌<◌, length};

use claim_constraints::{ConstraintFault, Constraints};
use serde_json::Value;
use std::alloc::Global;
use vector_table::{Answer, Unread, fault, number, text, word};

/// What a call answers.
pub fn answer(alloc: Global, call: &str, words: &[&[u8]]) -> Result<String, Unread> {
    match call {
        "read" => read(alloc, words),
        "write" => write(alloc, words),
        "build" => build(alloc, words),
        "meets" => meets(alloc, words),
        "fault" => says(alloc, words),
        _ => Err(Unread::Call),
    }
}

/// The constraints in DER, or the fault.
fn read(alloc: Global, words: &[&[u8]]) -> Result<String, Unread> {
    let [bytes] = words else {
        return Err(Unread::Call);
    };
    match Constraints::read(alloc, bytes) {
        Ok(constraints) => put_constraints(alloc, &constraints),
        Err(ConstraintFault::At { kind, place }) => fault(alloc, kind, place),
        Err(ConstraintFault::Memory) => Err(Unread::Memory),
    }
}

/// `ok`, how many claims must be there and their names, how many have permitted values, and of each its name, how many
/// values, and these.
fn put_constraints(alloc: Global, constraints: &Constraints) -> Result<String, Unread> {
    let mut answer = Answer::new(alloc).word("ok").word(constraints.must_count());
    for index in 0..constraints.must_count() {
        answer = answer.text(constraints.must(index));
    }
    answer = answer.word(constraints.permit_count());
    for index in 0..constraints.permit_count() {
        answer = put_permit(answer, constraints, index);
    }
    answer.line()
}

/// Puts the claim at this index and its values after other words.
fn put_permit(answer: Answer, constraints: &Constraints, claim: usize) -> Answer
    requires { claim < length constraints.now.permits }
{
    let mut answer = answer
        .text(constraints.claim(claim))
        .word(constraints.value_count(claim));
    for index in 0..constraints.value_count(claim) {
        answer = answer.text(constraints.value(claim, index));
    }
    answer
}

/// The bytes that the constraints write which are read from these.
fn write(alloc: Global, words: &[&[u8]]) -> Result<String, Unread> {
    let [bytes] = words else {
        return Err(Unread::Call);
    };
    let Ok(constraints) = Constraints::read(alloc, bytes) else {
        return Err(Unread::Value);
    };
    if !constraints.is_writable() {
        return word(alloc, "long");
    }
    let written = constraints.write()?;
    Answer::new(alloc).hex(written.as_slice()).line()
}

/// The constraints of these claims, in the words of [`put_constraints`] after `ok`, or `none`.
fn build(alloc: Global, words: &[&[u8]]) -> Result<String, Unread> {
    let [count, words @ ..] = words else {
        return Err(Unread::Call);
    };
    let (must, words) = texts_of(alloc, count, words)?;
    let [count, words @ ..] = words else {
        return Err(Unread::Call);
    };
    let permits = permits_of(alloc, Vec::new(alloc), number(count)?, words)?;
    match Constraints::build(must, permits) {
        Some(constraints) => put_constraints(alloc, &constraints),
        None => word(alloc, "none"),
    }
}

/// As many texts as the first word says, and the words after them.
fn texts_of<'a, 'b>(
    alloc: Global,
    count: &[u8],
    words: &'b [&'a [u8]],
) -> Result<(Vec<Vec<u8>>, &'b [&'a [u8]]), Unread> {
    let mut texts = Vec::new(alloc);
    let mut words = words;
    for _ in 0..number::<u32>(count)? {
        let [text, rest @ ..] = words else {
            return Err(Unread::Call);
        };
        texts.push(Vec::from_slice(alloc, text)?)?;
        words = rest;
    }
    Ok((texts, words))
}

/// Claims, each by its name with its values.
type Permits = Vec<(Vec<u8>, Vec<Vec<u8>>)>;

/// So many claims with their values, after others, from the words that say them.
fn permits_of(
    alloc: Global,
    before: Permits,
    count: u32,
    words: &[&[u8]],
) -> Result<Permits, Unread> {
    if count == 0 {
        return Ok(before);
    }
    let [claim, size, rest @ ..] = words else {
        return Err(Unread::Call);
    };
    let (values, rest) = texts_of(alloc, size, rest)?;
    let mut permits = before;
    permits.push((Vec::from_slice(alloc, claim)?, values))?;
    permits_of(alloc, permits, count - 1, rest)
}

/// Whether a payload meets the constraints.
fn meets(alloc: Global, words: &[&[u8]]) -> Result<String, Unread> {
    let [bytes, payload] = words else {
        return Err(Unread::Call);
    };
    let Ok(constraints) = Constraints::read(alloc, bytes) else {
        return Err(Unread::Value);
    };
    let Ok(payload) = Value::from_str(alloc, text(payload)?) else {
        return Err(Unread::Value);
    };
    word(alloc, constraints.meets(&payload))
}

/// What a fault says.
fn says(alloc: Global, words: &[&[u8]]) -> Result<String, Unread> {
    let [kind, place] = words else {
        return Err(Unread::Call);
    };
    let kind = number(kind)?;
    let place = number(place)?;
    word(alloc, ConstraintFault::At { kind, place })
}
