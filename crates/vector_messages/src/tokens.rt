//! PASSporT tokens and their JSON texts: the calls of `passport_json`.

use passport_json::{Token, TokenFault, View, deterministic, is_writable, signing_input, ticket};
use serde_json::Value;
use std::alloc::Global;
use text_grammar::is_uri;
use vector_table::{Answer, Unread, given, joined, number, seconds, telephone, text, word};

/// What a call answers.
pub fn answer(alloc: Global, call: &str, words: &[&[u8]]) -> Result<String, Unread> {
    match call {
        "read" => read(alloc, words),
        "signed" => signed(alloc, words),
        "fault" => said(alloc, words),
        "is_uri" => word(alloc, is_uri(joined(alloc, words)?.as_slice())),
        "ticket" => ticket_answer(alloc, words),
        "deterministic" => deterministic_answer(alloc, words),
        "is_writable" => writable_answer(alloc, words),
        "signing_input" => signing_answer(alloc, words),
        _ => Err(Unread::Call),
    }
}

/// The ticket of a signing input.
fn ticket_answer(alloc: Global, words: &[&[u8]]) -> Result<String, Unread> {
    let ticket = ticket(joined(alloc, words)?.as_slice());
    Answer::new(alloc).hex(&ticket).line()
}

/// The deterministic form of a JSON text, or `unwritable`.
fn deterministic_answer(alloc: Global, words: &[&[u8]]) -> Result<String, Unread> {
    let value = value_of(alloc, joined(alloc, words)?.as_slice())?;
    put_value(alloc, Answer::new(alloc), &value)?.line()
}

/// Whether the value of a JSON text within so many arrays can be written.
fn writable_answer(alloc: Global, words: &[&[u8]]) -> Result<String, Unread> {
    let [arrays, words @ ..] = words else {
        return Err(Unread::Call);
    };
    let value = value_of(alloc, joined(alloc, words)?.as_slice())?;
    let value = nested(alloc, value, number(arrays)?)?;
    word(alloc, is_writable(&value))
}

/// What is signed of a header and a payload.
fn signing_answer(alloc: Global, words: &[&[u8]]) -> Result<String, Unread> {
    let [header, payload] = words else {
        return Err(Unread::Call);
    };
    let text = signing_input(alloc, header, payload)?;
    Answer::new(alloc).text(text.as_slice()).line()
}

/// A token's form, when it was issued, its header and its payload.
fn read(alloc: Global, words: &[&[u8]]) -> Result<String, Unread> {
    match token_of(alloc, words)? {
        Ok(token) => parts(alloc, &token),
        Err(fault) => refused(alloc, fault),
    }
}

/// What [`read`] says of a token.
fn parts(alloc: Global, token: &Token) -> Result<String, Unread> {
    let form = if token.compact() { "compact" } else { "full" };
    let answer = Answer::new(alloc)
        .word("ok")
        .word(form)
        .option(token.issued_at());
    let answer = put_value(alloc, answer, token.header())?;
    put_value(alloc, answer, token.payload())?.line()
}

/// What was signed, and the signature.
fn signed(alloc: Global, words: &[&[u8]]) -> Result<String, Unread> {
    match token_of(alloc, words)? {
        Ok(token) => put_signed(Answer::new(alloc).word("ok"), &token).line(),
        Err(fault) => refused(alloc, fault),
    }
}

/// Puts after other words what was signed, and the signature.
fn put_signed(answer: Answer, token: &Token) -> Answer {
    answer.text(token.signing()).hex(token.signature())
}

/// What reading a token comes to: five words are what the message says, the others the token's text.
fn token_of(alloc: Global, words: &[&[u8]]) -> Result<Result<Token, TokenFault>, Unread> {
    let [iat, orig, dest, info, ppt, bytes @ ..] = words else {
        return Err(Unread::Call);
    };
    let view = View {
        iat: seconds(iat)?,
        orig: telephone(orig)?,
        dest: telephone(dest)?,
        info,
        ppt: given(ppt),
    };
    if !is_uri(view.info) {
        return Err(Unread::Value);
    }
    let bytes = joined(alloc, bytes)?;
    Ok(Token::read(alloc, bytes.as_slice(), &view))
}

/// The first check that a text breaks.
fn refused(alloc: Global, fault: TokenFault) -> Result<String, Unread> {
    match fault {
        TokenFault::Parts => word(alloc, "parts"),
        TokenFault::Base64 { part } => of_part(alloc, "base64", part),
        TokenFault::Json { part } => of_part(alloc, "json", part),
        TokenFault::SignatureLength => word(alloc, "signature_length"),
        TokenFault::Compact => word(alloc, "compact"),
        TokenFault::Memory => Err(Unread::Memory),
    }
}

/// A fault of a part.
fn of_part(alloc: Global, name: &str, part: u8) -> Result<String, Unread> {
    Answer::new(alloc).word(name).word(part).line()
}

/// The number of a fault, and how it is printed.
fn said(alloc: Global, words: &[&[u8]]) -> Result<String, Unread> {
    let fault = match words {
        [name] => fault_of(text(name)?)?,
        [name, part] => fault_of_part(text(name)?, number(part)?)?,
        _ => return Err(Unread::Call),
    };
    Answer::new(alloc).option(fault.number()).word(fault).line()
}

/// The fault of this name.
fn fault_of(name: &str) -> Result<TokenFault, Unread> {
    match name {
        "parts" => Ok(TokenFault::Parts),
        "signature_length" => Ok(TokenFault::SignatureLength),
        "compact" => Ok(TokenFault::Compact),
        "memory" => Ok(TokenFault::Memory),
        _ => Err(Unread::Value),
    }
}

/// The fault of this name in a part.
fn fault_of_part(name: &str, part: u8) -> Result<TokenFault, Unread> {
    match name {
        "base64" => Ok(TokenFault::Base64 { part }),
        "json" => Ok(TokenFault::Json { part }),
        _ => Err(Unread::Value),
    }
}

/// The value of a JSON text.
fn value_of(alloc: Global, json: &[u8]) -> Result<Value, Unread> {
    match Value::from_str(alloc, text(json)?) {
        Ok(value) => Ok(value),
        Err(_) => Err(Unread::Value),
    }
}

/// A value within so many arrays.
fn nested(alloc: Global, value: Value, arrays: u8) -> Result<Value, Unread> {
    let mut value = value;
    for _ in 0..arrays {
        let mut items = Vec::new(alloc);
        items.push(value)?;
        value = Value::Array(items);
    }
    Ok(value)
}

/// Puts the deterministic form of a value, or `unwritable`, after other words.
pub fn put_value(alloc: Global, answer: Answer, value: &Value) -> Result<Answer, Unread> {
    if !is_writable(value) {
        return Ok(answer.word("unwritable"));
    }
    let text = deterministic(alloc, value)?;
    Ok(answer.text(text.as_slice()))
}
