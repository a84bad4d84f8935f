//! The claims of a PASSporT: the calls of `passport_claims`.

use crate::tokens::put_value;
use passport_claims::{Attest, ClaimFault, Kind, Passport};
use passport_json::{Token, View, signing_input};
use std::alloc::Global;
use text_grammar::is_uri;
use tn_values::Number;
use vector_table::{Answer, Unread, number, number_of, put_numbers, text, word};

/// What a call answers.
pub fn answer(alloc: Global, call: &str, words: &[&[u8]]) -> Result<String, Unread> {
    match call {
        "read" => read(alloc, words),
        "new" => made(alloc, words),
        "fault" => said(alloc, words),
        _ => Err(Unread::Call),
    }
}

/// The token of a header and a payload, in its full form, with a signature of 64 zero bytes.
fn token_of(alloc: Global, header: &[u8], payload: &[u8]) -> Result<Token, Unread> {
    let mut text = signing_input(alloc, header, payload)?;
    text.push(b'.')?;
    for _ in 0..86u8 {
        text.push(b'A')?;
    }
    let view = View {
        iat: None,
        orig: None,
        dest: None,
        info: b"u",
        ppt: None,
    };
    if !is_uri(view.info) {
        return Err(Unread::Value);
    }
    match Token::read(alloc, text.as_slice(), &view) {
        Ok(token) => Ok(token),
        Err(_) => Err(Unread::Value),
    }
}

/// What a token says, for a field of this type with this URI.
fn read(alloc: Global, words: &[&[u8]]) -> Result<String, Unread> {
    let [ppt, info, header, payload] = words else {
        return Err(Unread::Call);
    };
    let token = token_of(alloc, header, payload)?;
    match said_of(alloc, &token, ppt, info)? {
        Ok(passport) => put_parts(Answer::new(alloc).word("ok"), &passport).line(),
        Err(fault) => word(alloc, name_of(fault)?),
    }
}

/// What a token says, if the field's type is one of these words or `none`.
fn said_of(
    alloc: Global,
    token: &Token,
    ppt: &[u8],
    info: &[u8],
) -> Result<Result<Passport, ClaimFault>, Unread> {
    match ppt {
        b"none" => Ok(Passport::from_token(alloc, token, None, info)),
        b"shaken" => Ok(Passport::from_token(alloc, token, Some(b"shaken"), info)),
        b"div" => Ok(Passport::from_token(alloc, token, Some(b"div"), info)),
        _ => Err(Unread::Value),
    }
}

/// Puts after other words the type with what it adds, the URI, the time, the calling number and the called ones.
fn put_parts(answer: Answer, passport: &Passport) -> Answer {
    let answer = put_kind(answer, &passport.kind())
        .text(passport.x5u())
        .word(passport.iat())
        .word(passport.orig());
    put_numbers(answer, passport.dest())
}

/// Puts after other words the type with what it adds.
fn put_kind(answer: Answer, kind: &Kind) -> Answer {
    match kind {
        Kind::Base => answer.word("base"),
        Kind::Shaken { attest, origid } => answer.word("shaken").word(attest.as_str()).text(origid),
        Kind::Div { div } => answer.word("div").word(*div),
    }
}

/// What making a PASSporT of its parts answers: header and payload, or the part that is refused.
fn made(alloc: Global, words: &[&[u8]]) -> Result<String, Unread> {
    match made_of(alloc, words)? {
        Ok(passport) => values(alloc, &passport),
        Err(fault) => word(alloc, name_of(fault)?),
    }
}

/// The PASSporT of these parts.
pub fn passport_of(alloc: Global, words: &[&[u8]]) -> Result<Passport, Unread> {
    match made_of(alloc, words)? {
        Ok(passport) => Ok(passport),
        Err(_) => Err(Unread::Value),
    }
}

/// What making a PASSporT of its parts comes to: its type with what this adds, and the other parts.
fn made_of(alloc: Global, words: &[&[u8]]) -> Result<Result<Passport, ClaimFault>, Unread> {
    match words {
        [b"base", parts @ ..] => made_by(alloc, Kind::Base, parts),
        [b"shaken", attest, origid, parts @ ..] => made_by(alloc, shaken(attest, origid)?, parts),
        [b"div", div, parts @ ..] => made_by(alloc, diverted(div)?, parts),
        _ => Err(Unread::Call),
    }
}

/// The same of this type: the URI, the time, the calling number and the called ones.
fn made_by(
    alloc: Global,
    kind: Kind,
    words: &[&[u8]],
) -> Result<Result<Passport, ClaimFault>, Unread> {
    let [x5u, iat, orig, called @ ..] = words else {
        return Err(Unread::Call);
    };
    let iat = number(iat)?;
    let orig = number_of(orig)?;
    let called = numbers_of(alloc, called)?;
    Ok(Passport::new(alloc, kind, x5u, iat, orig, called.as_slice()))
}

/// Header and payload in their deterministic form.
fn values(alloc: Global, passport: &Passport) -> Result<String, Unread> {
    let (header, payload) = passport.to_values()?;
    let answer = Answer::new(alloc).word("ok");
    let answer = put_value(alloc, answer, &header)?;
    put_value(alloc, answer, &payload)?.line()
}

/// `div` with a number.
fn diverted(div: &[u8]) -> Result<Kind, Unread> {
    let div = number_of(div)?;
    Ok(Kind::Div { div })
}

/// `shaken` with an attestation and an identifier of 36 bytes.
fn shaken(attest: &[u8], origid: &[u8]) -> Result<Kind, Unread> {
    let attest = Attest::of(text(attest)?).ok_or(Unread::Value)?;
    match origid.split_first_chunk::<36>() {
        Some((origid, [])) => Ok(Kind::Shaken {
            attest,
            origid: *origid,
        }),
        _ => Err(Unread::Value),
    }
}

/// The telephone numbers that some words are.
fn numbers_of(alloc: Global, words: &[&[u8]]) -> Result<Vec<Number>, Unread> {
    let mut numbers = Vec::new(alloc);
    for word in words {
        numbers.push(number_of(word)?)?;
    }
    Ok(numbers)
}

/// The number of a fault, and how it is printed.
fn said(alloc: Global, words: &[&[u8]]) -> Result<String, Unread> {
    let [name] = words else {
        return Err(Unread::Call);
    };
    let fault = fault_of(text(name)?)?;
    Answer::new(alloc).option(fault.number()).word(fault).line()
}

/// The claim that a fault names.
fn name_of(fault: ClaimFault) -> Result<&'static str, Unread> {
    Ok(match fault {
        ClaimFault::Kind => "kind",
        ClaimFault::Alg => "alg",
        ClaimFault::Ppt => "ppt",
        ClaimFault::X5u => "x5u",
        ClaimFault::Iat => "iat",
        ClaimFault::Orig => "orig",
        ClaimFault::Dest => "dest",
        ClaimFault::Attest => "attest",
        ClaimFault::Origid => "origid",
        ClaimFault::Div => "div",
        ClaimFault::Memory => return Err(Unread::Memory),
    })
}

/// The fault that names this claim.
fn fault_of(name: &str) -> Result<ClaimFault, Unread> {
    Ok(match name {
        "kind" => ClaimFault::Kind,
        "alg" => ClaimFault::Alg,
        "ppt" => ClaimFault::Ppt,
        "x5u" => ClaimFault::X5u,
        "iat" => ClaimFault::Iat,
        "orig" => ClaimFault::Orig,
        "dest" => ClaimFault::Dest,
        "attest" => ClaimFault::Attest,
        "origid" => ClaimFault::Origid,
        "div" => ClaimFault::Div,
        "memory" => ClaimFault::Memory,
        _ => return Err(Unread::Value),
    })
}
