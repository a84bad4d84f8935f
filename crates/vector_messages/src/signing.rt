//! What a signer puts together: a message with one more header field, `with_field` of `sip_message`, and what is signed
//! of a PASSporT.

use crate::claims::passport_of;
use sip_message::{MessageFault, is_addable, is_field_value, with_field};
use std::alloc::Global;
use vector_table::{Answer, Unread, fault, joined, word};

/// What a call answers.
pub fn answer(alloc: Global, call: &str, words: &[&[u8]]) -> Result<String, Unread> {
    match call {
        "with_field" => added(alloc, words),
        "text" => text(alloc, words),
        _ => Err(Unread::Call),
    }
}

/// A message with a header field of this name and this value; `name` or `value` if that can't be added.
fn added(alloc: Global, words: &[&[u8]]) -> Result<String, Unread> {
    let [name, value, bytes @ ..] = words else {
        return Err(Unread::Call);
    };
    let bytes = joined(alloc, bytes)?;
    if !is_addable(name) {
        return word(alloc, "name");
    }
    if !is_field_value(value) {
        return word(alloc, "value");
    }
    match with_field(alloc, bytes.as_slice(), name, value) {
        Ok(out) => Answer::new(alloc).word("ok").text(out.as_slice()).line(),
        Err(MessageFault::Form(form)) => fault(alloc, form.kind, form.place),
        Err(MessageFault::Memory) => Err(Unread::Memory),
    }
}

/// What is signed of a PASSporT of these parts.
fn text(alloc: Global, words: &[&[u8]]) -> Result<String, Unread> {
    let passport = passport_of(alloc, words)?;
    let signing = passport.signing_text()?;
    Answer::new(alloc).text(signing.as_slice()).line()
}
