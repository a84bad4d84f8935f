//! Authorities, trust anchors and paths up to them: the calls of `delegation`.

use crate::judging::{anchors_of, list_of, table_of};
use delegation::{AnchorFault, Anchors, Authority, PathFault, Shape, covers, shape, within};
use std::alloc::Global;
use tn_auth_list::AuthList;
use vector_table::{Answer, Unread, fault, number, number_of, ok, word};
use x509_profile::{Certificate, read_chain};

/// What a call answers.
pub fn answer(alloc: Global, call: &str, words: &[&[u8]]) -> Result<String, Unread> {
    match call {
        "covers" => covers_answer(alloc, words),
        "within" => within_answer(alloc, words),
        "shape" => shape_answer(alloc, words),
        "path_fault" => path_says(alloc, words),
        "anchors" => anchors(alloc, words),
        "anchor" => anchor(alloc, words),
        "contains" => contains(alloc, words),
        "anchor_fault" => anchor_says(alloc, words),
        _ => Err(Unread::Call),
    }
}

/// What a fault of a path says.
fn path_says(alloc: Global, words: &[&[u8]]) -> Result<String, Unread> {
    let [kind, place] = words else {
        return Err(Unread::Call);
    };
    let kind = number(kind)?;
    let place = number(place)?;
    word(alloc, PathFault { kind, place })
}

/// Whether a list covers a number.
fn covers_answer(alloc: Global, words: &[&[u8]]) -> Result<String, Unread> {
    let [list, digits, table] = words else {
        return Err(Unread::Call);
    };
    let table = table_of(alloc, table)?;
    let list = list_of(alloc, list)?;
    word(alloc, covers(&list, &number_of(digits)?, &table))
}

/// What a fault of trust anchors says.
fn anchor_says(alloc: Global, words: &[&[u8]]) -> Result<String, Unread> {
    let [place] = words else {
        return Err(Unread::Call);
    };
    let place = number(place)?;
    word(alloc, AnchorFault::At { place })
}

/// Whether a certificate is one of the anchors.
fn contains(alloc: Global, words: &[&[u8]]) -> Result<String, Unread> {
    let [anchors, certificate] = words else {
        return Err(Unread::Call);
    };
    let anchors = anchors_of(alloc, anchors)?;
    match Certificate::read(alloc, certificate) {
        Ok(certificate) => word(alloc, anchors.contains(&certificate)),
        Err(_) => Err(Unread::Value),
    }
}

/// The list of a word, or None for the empty word: a certificate without a list may speak for all numbers.
fn list_or_all(alloc: Global, words: &[u8]) -> Result<Option<AuthList>, Unread> {
    if words.is_empty() {
        Ok(None)
    } else {
        Ok(Some(list_of(alloc, words)?))
    }
}

/// The authority of a list.
fn authority_of(list: &Option<AuthList>) -> Authority<'_> {
    match list {
        Some(list) => Authority::List(list),
        None => Authority::All,
    }
}

/// Whether one authority lies within another.
fn within_answer(alloc: Global, words: &[&[u8]]) -> Result<String, Unread> {
    let [child, parent, table] = words else {
        return Err(Unread::Call);
    };
    let child = list_or_all(alloc, child)?;
    let parent = list_or_all(alloc, parent)?;
    let table = table_of(alloc, table)?;
    word(
        alloc,
        within(alloc, &authority_of(&child), &authority_of(&parent), &table)?,
    )
}

/// How many anchors there are, or the place of the first that is none.
fn anchors(alloc: Global, words: &[&[u8]]) -> Result<String, Unread> {
    let [bytes] = words else {
        return Err(Unread::Call);
    };
    match Anchors::read(alloc, bytes) {
        Ok(anchors) => ok(alloc, anchors.count()),
        Err(AnchorFault::At { place }) => Answer::new(alloc).word("fault").word(place).line(),
        Err(AnchorFault::Memory) => Err(Unread::Memory),
    }
}

/// The bytes of an anchor.
fn anchor(alloc: Global, words: &[&[u8]]) -> Result<String, Unread> {
    let [anchors, place] = words else {
        return Err(Unread::Call);
    };
    let anchors = anchors_of(alloc, anchors)?;
    let place = number(place)?;
    if place >= anchors.count() {
        return Err(Unread::Value);
    }
    Answer::new(alloc).hex(anchors.get(place).whole()).line()
}

/// The number of the anchor above the last certificate, `-` if this is itself an anchor, or the fault.
fn shape_answer(alloc: Global, words: &[&[u8]]) -> Result<String, Unread> {
    let [chain, anchors] = words else {
        return Err(Unread::Call);
    };
    let anchors = anchors_of(alloc, anchors)?;
    match read_chain(alloc, chain) {
        Ok(chain) if chain.len() <= 6 => shape_words(alloc, shape(&chain, &anchors)),
        _ => Err(Unread::Value),
    }
}

/// What a path comes to.
fn shape_words(alloc: Global, found: Result<Shape, PathFault>) -> Result<String, Unread> {
    match found {
        Ok(shape) => Answer::new(alloc).word("ok").option(shape.anchor).line(),
        Err(found) => fault(alloc, found.kind, found.place),
    }
}
