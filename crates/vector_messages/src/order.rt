//! The order of a diverted call's PASSporTs: `chain` of `passport_claims`.

ghost use Rattle.std.specs.Prelude.{All, IfOk};
ghost use Rattle.passport_claims.specs.Links.{IsLink};

use passport_claims::{Kind, Order, Passport, chain};
use std::alloc::Global;
use tn_values::Number;
use vector_table::{Answer, Unread, fault, number_of, telephone, text};

/// What a call answers.
pub fn answer(alloc: Global, call: &str, words: &[&[u8]]) -> Result<String, Unread> {
    match call {
        "chain" => chain_answer(alloc, words),
        _ => Err(Unread::Call),
    }
}

/// The order of the links of an originating PASSporT and a called number, or the fault.
fn chain_answer(alloc: Global, words: &[&[u8]]) -> Result<String, Unread> {
    let [dests, called, links @ ..] = words else {
        return Err(Unread::Call);
    };
    let origin = origin_of(alloc, dests)?;
    let called = telephone(called)?;
    let links = links_of(alloc, links)?;
    match chain(&origin, links.as_slice(), called) {
        Ok(order) => put_turn(Answer::new(alloc).word("ok"), &order).line(),
        Err(found) => fault(alloc, found.kind, found.link),
    }
}

/// Puts after other words the numbers of the links, in the order in which the call went.
fn put_turn(answer: Answer, order: &Order) -> Answer {
    let mut answer = answer;
    for (place, link) in order.turn.iter().enumerate() {
        if place < usize::from(order.length) {
            answer = answer.word(*link);
        }
    }
    answer
}

/// An originating PASSporT that calls these numbers, with commas between.
fn origin_of(alloc: Global, dests: &[u8]) -> Result<Passport, Unread> {
    let mut numbers = Vec::new(alloc);
    for word in text(dests)?.split(',') {
        numbers.push(number_of(word.as_bytes())?)?;
    }
    made(alloc, Kind::Base, numbers.as_slice())
}

/// A PASSporT of this kind that calls these numbers.
fn made(alloc: Global, kind: Kind, dest: &[Number]) -> Result<Passport, Unread> {
    let orig = number_of(b"12155551212")?;
    match Passport::new(alloc, kind, b"u", 0, orig, dest) {
        Ok(passport) => Ok(passport),
        Err(_) => Err(Unread::Value),
    }
}

/// A link from `DIV>DEST`.
fn link_of(alloc: Global, word: &[u8]) -> Result<Passport, Unread>
    ensures { IfOk result IsLink }
{
    let Some((div, dest)) = text(word)?.split_once('>') else {
        return Err(Unread::Value);
    };
    let div = number_of(div.as_bytes())?;
    let dest = number_of(dest.as_bytes())?;
    let orig = number_of(b"12155551212")?;
    let Ok(link) = Passport::new(alloc, Kind::Div { div }, b"u", 0, orig, &[dest]) else {
        return Err(Unread::Value);
    };
    match link.kind() {
        Kind::Div { .. } => Ok(link),
        _ => Err(Unread::Value),
    }
}

/// The links of these words, in the order of the message.
fn links_of(alloc: Global, words: &[&[u8]]) -> Result<Vec<Passport>, Unread>
    ensures { IfOk result (λ links. All IsLink links.items) }
{
    let mut links = Vec::new(alloc);
    for word in words {
        links.push(link_of(alloc, word)?)?;
    }
    Ok(links)
}
