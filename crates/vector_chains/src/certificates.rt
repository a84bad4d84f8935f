//! Certificates and chains of them: the calls of `x509_profile`.

use crate::authority::put_entries;
use claim_constraints::Constraints;
use std::alloc::Global;
use tn_auth_list::AuthList;
use vector_table::{Answer, Unread, fault, number, ok, word};
use x509_profile::{CertChainFault, CertFault, Certificate, read_chain};

/// What a call answers.
pub fn answer(alloc: Global, call: &str, words: &[&[u8]]) -> Result<String, Unread> {
    match call {
        "read" => read(alloc, words),
        "check" => check(alloc, words),
        "constraints" => constraints(alloc, words),
        "chain" => chain(alloc, words),
        "fault" => says(alloc, words),
        "chain_fault" => chain_says(alloc, words),
        _ => Err(Unread::Call),
    }
}

/// What a fault of a certificate says.
fn says(alloc: Global, words: &[&[u8]]) -> Result<String, Unread> {
    let [kind, place] = words else {
        return Err(Unread::Call);
    };
    let kind = number(kind)?;
    let place = number(place)?;
    word(alloc, CertFault::At { kind, place })
}

/// What a fault of a chain says.
fn chain_says(alloc: Global, words: &[&[u8]]) -> Result<String, Unread> {
    let [which, place] = words else {
        return Err(Unread::Call);
    };
    let which = number(which)?;
    let place = number(place)?;
    word(
        alloc,
        CertChainFault::At {
            number: which,
            place,
        },
    )
}

/// `ok`, or the fault.
fn check(alloc: Global, words: &[&[u8]]) -> Result<String, Unread> {
    let [bytes] = words else {
        return Err(Unread::Call);
    };
    match Certificate::read(alloc, bytes) {
        Ok(_) => word(alloc, "ok"),
        Err(CertFault::At { kind, place }) => fault(alloc, kind, place),
        Err(CertFault::Memory) => Err(Unread::Memory),
    }
}

/// What a certificate demands of claims, as [`demanded`] gives it, or the fault.
fn constraints(alloc: Global, words: &[&[u8]]) -> Result<String, Unread> {
    let [bytes] = words else {
        return Err(Unread::Call);
    };
    match Certificate::read(alloc, bytes) {
        Ok(certificate) => demanded(alloc, certificate.constraints()),
        Err(CertFault::At { kind, place }) => fault(alloc, kind, place),
        Err(CertFault::Memory) => Err(Unread::Memory),
    }
}

/// The DER text of constraints, or `none`.
pub(crate) fn demanded(alloc: Global, constraints: Option<&Constraints>) -> Result<String, Unread> {
    let Some(constraints) = constraints else {
        return word(alloc, "none");
    };
    if !constraints.is_writable() {
        return Err(Unread::Value);
    }
    let text = constraints.write()?;
    Answer::new(alloc).hex(text.as_slice()).line()
}

/// The values of a certificate, as [`put_values`] and [`put_extensions`] give them.
fn read(alloc: Global, words: &[&[u8]]) -> Result<String, Unread> {
    let [bytes] = words else {
        return Err(Unread::Call);
    };
    let Ok(certificate) = Certificate::read(alloc, bytes) else {
        return Err(Unread::Value);
    };
    let answer = Answer::new(alloc).word(certificate.whole() == *bytes);
    let answer = put_values(answer, &certificate);
    put_extensions(answer, &certificate).line()
}

/// Puts issuer, subject, first and last second, key, digest and signature of a certificate after other words.
fn put_values(answer: Answer, certificate: &Certificate) -> Answer {
    answer
        .hex(certificate.issuer())
        .hex(certificate.subject())
        .word(certificate.not_before())
        .word(certificate.not_after())
        .hex(certificate.key().as_slice())
        .hex(certificate.digest().as_slice())
        .hex(certificate.signature().as_slice())
}

/// Puts after other words what the extensions of a certificate say: whether it is an authority, path length and usage,
/// the two key identifiers, and the entries of its list. What it lacks is `-`.
fn put_extensions(answer: Answer, certificate: &Certificate) -> Answer {
    let answer = answer
        .word(certificate.is_ca())
        .option(certificate.path_length())
        .option(certificate.usage());
    let answer = hex_or_dash(answer, certificate.subject_key());
    let answer = hex_or_dash(answer, certificate.authority_key());
    list_or_dash(answer, certificate.list())
}

/// Puts the entries of a list after other words, or `-`.
fn list_or_dash(answer: Answer, list: Option<&AuthList>) -> Answer {
    match list {
        Some(list) => put_entries(answer, list),
        None => answer.word("-"),
    }
}

/// Puts bytes after other words, or `-`.
fn hex_or_dash(answer: Answer, bytes: Option<&[u8]>) -> Answer {
    match bytes {
        Some(bytes) => answer.hex(bytes),
        None => answer.word("-"),
    }
}

/// How many certificates a chain has, or the number and the place of the one that is refused.
fn chain(alloc: Global, words: &[&[u8]]) -> Result<String, Unread> {
    let [bytes] = words else {
        return Err(Unread::Call);
    };
    match read_chain(alloc, bytes) {
        Ok(certificates) => ok(alloc, certificates.len()),
        Err(CertChainFault::At { number, place }) => fault(alloc, number, place),
        Err(CertChainFault::Memory) => Err(Unread::Memory),
    }
}
