//! Heads of SIP requests: the calls of `sip_message`.

use sip_message::{FormFault, Message, MessageFault};
use std::alloc::Global;
use tn_values::Local;
use vector_table::{Answer, Unread, fault, joined, local_of, number, word};

/// What a call answers.
pub fn answer(alloc: Global, call: &str, words: &[&[u8]]) -> Result<String, Unread> {
    match call {
        "read" => read(alloc, words),
        "identities" => identities(alloc, words),
        "numbers" => numbers(alloc, words),
        "fault" => says(alloc, words),
        _ => Err(Unread::Call),
    }
}

/// Whether a message's method is INVITE, how many Identity fields it has, and the time of its Date.
fn read(alloc: Global, words: &[&[u8]]) -> Result<String, Unread> {
    let bytes = joined(alloc, words)?;
    match Message::read(alloc, bytes.as_slice()) {
        Ok(message) => put_head(Answer::new(alloc).word("ok"), &message).line(),
        Err(reason) => refused(alloc, reason),
    }
}

/// Puts after other words what [`read`] says of a message.
fn put_head(answer: Answer, message: &Message) -> Answer {
    let method = if message.is_invite() {
        "invite"
    } else {
        "other"
    };
    answer
        .word(method)
        .word(message.identity_count())
        .option(message.date())
}

/// The values of a message's Identity fields.
fn identities(alloc: Global, words: &[&[u8]]) -> Result<String, Unread> {
    let bytes = joined(alloc, words)?;
    match Message::read(alloc, bytes.as_slice()) {
        Ok(message) => put_identities(Answer::new(alloc).word("ok"), &message).line(),
        Err(reason) => refused(alloc, reason),
    }
}

/// Puts the values of a message's Identity fields after other words.
fn put_identities(answer: Answer, message: &Message) -> Answer {
    let mut answer = answer;
    for i in 0..message.identity_count() {
        answer = answer.text(message.identity(i));
    }
    answer
}

/// The numbers of From, To, the request's URI and the asserted identity, and the calling number.
fn numbers(alloc: Global, words: &[&[u8]]) -> Result<String, Unread> {
    let [country, national, words @ ..] = words else {
        return Err(Unread::Call);
    };
    let local = local_of(country, national)?;
    let bytes = joined(alloc, words)?;
    match Message::read(alloc, bytes.as_slice()) {
        Ok(message) => put_numbers(Answer::new(alloc).word("ok"), &message, &local).line(),
        Err(reason) => refused(alloc, reason),
    }
}

/// Puts after other words what [`numbers`] says of a message.
fn put_numbers(answer: Answer, message: &Message, local: &Local) -> Answer {
    answer
        .option(message.from_number(local))
        .option(message.to_number(local))
        .option(message.target_number(local))
        .option(message.asserted_number(local))
        .option(message.calling_number(local))
}

/// Why bytes are no message.
fn refused(alloc: Global, reason: MessageFault) -> Result<String, Unread> {
    match reason {
        MessageFault::Form(form) => fault(alloc, form.kind, form.place),
        MessageFault::Memory => Err(Unread::Memory),
    }
}

/// What a fault says: that of a kind and a place, or `memory`.
fn says(alloc: Global, words: &[&[u8]]) -> Result<String, Unread> {
    match words {
        [kind, place] => form_says(alloc, kind, place),
        [b"memory"] => word(alloc, MessageFault::Memory),
        _ => Err(Unread::Call),
    }
}

/// What a fault in a message's form says.
fn form_says(alloc: Global, kind: &[u8], place: &[u8]) -> Result<String, Unread> {
    let kind = number(kind)?;
    let place = number(place)?;
    word(alloc, MessageFault::Form(FormFault { kind, place }))
}
