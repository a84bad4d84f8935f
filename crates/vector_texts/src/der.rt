//! DER elements: the calls of `der_reader`.

use der_reader::{Der, DerFault, put};
use std::alloc::Global;
use std::fmt::Display;
use vector_table::{Answer, Unread, fault, number, word};

/// What a call answers.
pub fn answer(alloc: Global, call: &str, words: &[&[u8]]) -> Result<String, Unread> {
    match call {
        "next" => next(alloc, words),
        "put" => put_answer(alloc, words),
        "fault" => says(alloc, words),
        _ => value_answer(alloc, call, words),
    }
}

/// The tag byte that a word of one byte is.
fn tag_of(word: &[u8]) -> Result<u8, Unread> {
    match word {
        [tag] => Ok(*tag),
        _ => Err(Unread::Value),
    }
}

/// An element with this tag and content.
fn element_of(tag: u8, content: &[u8]) -> Der<'_> {
    Der {
        tag,
        whole: content,
        content,
    }
}

/// What a fault says.
fn says(alloc: Global, words: &[&[u8]]) -> Result<String, Unread> {
    let [kind, place] = words else {
        return Err(Unread::Call);
    };
    let kind = number(kind)?;
    let place = number(place)?;
    word(alloc, DerFault { kind, place })
}

/// The first element and what comes after it, or the fault.
fn next(alloc: Global, words: &[&[u8]]) -> Result<String, Unread> {
    let [bytes] = words else {
        return Err(Unread::Call);
    };
    match Der::next(bytes) {
        Ok((element, rest)) => parts(Answer::new(alloc).word("ok"), &element, rest).line(),
        Err(found) => fault(alloc, found.kind, found.place),
    }
}

/// The tag of an element, its whole bytes, its content, and what comes after it.
fn parts(answer: Answer, element: &Der<'_>, rest: &[u8]) -> Answer {
    answer
        .hex(&[element.tag])
        .hex(element.whole)
        .hex(element.content)
        .hex(rest)
}

/// What comes before the content in the element that is put, and how many bytes the content has.
fn put_answer(alloc: Global, words: &[&[u8]]) -> Result<String, Unread> {
    let [tag, content] = words else {
        return Err(Unread::Call);
    };
    let element = put_bytes(alloc, tag_of(tag)?, content)?;
    match element.as_slice().strip_suffix(*content) {
        Some(front) => Answer::new(alloc).hex(front).word(content.len()).line(),
        None => word(alloc, "another content"),
    }
}

/// The bytes of the element that is put.
fn put_bytes(alloc: Global, tag: u8, content: &[u8]) -> Result<Vec<u8>, Unread> {
    if tag & 0x1F == 0x1F || content.len() > 65_535 {
        return Err(Unread::Value);
    }
    let mut out = Vec::new(alloc);
    put(&mut out, tag, content)?;
    Ok(out)
}

/// The value that an element has by its tag and content, or the fault.
fn value_answer(alloc: Global, call: &str, words: &[&[u8]]) -> Result<String, Unread> {
    let [tag, content] = words else {
        return Err(Unread::Call);
    };
    let element = element_of(tag_of(tag)?, content);
    value(alloc, call, &element)
}

/// The value of an element, or the fault.
fn value(alloc: Global, call: &str, element: &Der<'_>) -> Result<String, Unread> {
    match call {
        "unsigned" => plain(alloc, element.unsigned()),
        "flags" => plain(alloc, element.flags()),
        "boolean" => plain(alloc, element.boolean()),
        "time" => plain(alloc, element.time()),
        "scalar" => scalar(alloc, element),
        "bits" => bits(alloc, element),
        _ => Err(Unread::Call),
    }
}

/// The scalar that an element is, or the fault.
fn scalar(alloc: Global, element: &Der<'_>) -> Result<String, Unread> {
    match element.scalar() {
        Ok(bytes) => Answer::new(alloc).hex(&bytes).line(),
        Err(found) => fault(alloc, found.kind, found.place),
    }
}

/// The bits that an element is, or the fault.
fn bits(alloc: Global, element: &Der<'_>) -> Result<String, Unread> {
    match element.bits() {
        Ok(bytes) => Answer::new(alloc).hex(bytes).line(),
        Err(found) => fault(alloc, found.kind, found.place),
    }
}

/// A value as it is printed, or the fault.
fn plain<D: Display + Drop>(alloc: Global, found: Result<D, DerFault>) -> Result<String, Unread> {
    match found {
        Ok(value) => word(alloc, value),
        Err(found) => fault(alloc, found.kind, found.place),
    }
}
