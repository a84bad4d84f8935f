//! Identity values: the calls of `identity_header`.

use identity_header::{Field, FieldFault};
use std::alloc::{AllocError, Global};
use vector_table::{Answer, Unread, joined, word};

/// A length that no value may reach.
const TOO_LONG: usize = 4_000_000_000;

/// What a call answers.
pub fn answer(alloc: Global, call: &str, words: &[&[u8]]) -> Result<String, Unread> {
    match call {
        "read" => read(alloc, words),
        "write" => write(alloc, words),
        "new" => made(alloc, words),
        _ => Err(Unread::Call),
    }
}

/// The parts of a value.
fn read(alloc: Global, words: &[&[u8]]) -> Result<String, Unread> {
    let value = joined(alloc, words)?;
    if value.len() >= TOO_LONG {
        return Err(Unread::Value);
    }
    match Field::read(value.as_slice()) {
        Ok(field) => parts(alloc, &field),
        Err(fault) => refused(alloc, fault),
    }
}

/// A value as it is written again.
fn write(alloc: Global, words: &[&[u8]]) -> Result<String, Unread> {
    let value = joined(alloc, words)?;
    if value.len() >= TOO_LONG {
        return Err(Unread::Value);
    }
    match Field::read(value.as_slice()) {
        Ok(field) => written(alloc, &field),
        Err(fault) => refused(alloc, fault),
    }
}

/// A field as it is written.
fn written(alloc: Global, field: &Field<'_>) -> Result<String, Unread> {
    let text = field.write(alloc)?;
    Answer::new(alloc).word("ok").text(text.as_slice()).line()
}

/// A field made of its parts, or `none`.
fn made(alloc: Global, words: &[&[u8]]) -> Result<String, Unread> {
    let [token, info, params @ ..] = words else {
        return Err(Unread::Call);
    };
    let alg = value_of(params, b"alg=")?;
    let ppt = value_of(params, b"ppt=")?;
    match Field::new(token, info, alg, ppt) {
        Some(field) => parts(alloc, &field),
        None => word(alloc, "none"),
    }
}

/// The value of the first parameter that begins so, each of which is `alg=` or `ppt=` with a value.
fn value_of<'a>(params: &[&'a [u8]], label: &[u8]) -> Result<Option<&'a [u8]>, Unread> {
    for param in params {
        if !param.starts_with(b"alg=") && !param.starts_with(b"ppt=") {
            return Err(Unread::Value);
        }
        if let Some(value) = param.strip_prefix(label) {
            return Ok(Some(value));
        }
    }
    Ok(None)
}

/// Token, URI, and the parameters that are given.
fn parts(alloc: Global, field: &Field<'_>) -> Result<String, Unread> {
    let alg = labelled(alloc, b"alg=", field.alg())?;
    let ppt = labelled(alloc, b"ppt=", field.ppt())?;
    let answer = Answer::new(alloc)
        .word("ok")
        .text(field.token())
        .text(field.info());
    put(put(answer, &alg), &ppt).line()
}

/// A parameter with its label, if it is given.
fn labelled(
    alloc: Global,
    label: &[u8],
    value: Option<&[u8]>,
) -> Result<Option<Vec<u8>>, AllocError> {
    let Some(value) = value else {
        return Ok(None);
    };
    let mut text = Vec::from_slice(alloc, label)?;
    text.extend_from_slice(value)?;
    Ok(Some(text))
}

/// Puts a parameter, if it is given, after other words.
fn put(answer: Answer, parameter: &Option<Vec<u8>>) -> Answer {
    match parameter {
        Some(parameter) => answer.text(parameter.as_slice()),
        None => answer,
    }
}

/// Where a value stops being the beginning of one.
fn refused(alloc: Global, fault: FieldFault) -> Result<String, Unread> {
    Answer::new(alloc).word("fault").word(fault.place).line()
}
