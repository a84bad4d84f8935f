//! The line of a call in the report.
ghost use Rattle.std.specs.Prelude.{◌≡◌, ◌+◌, ◌<◌, ◌^◌, ◌++◌, length, IfOk, OnOk};
ghost use Rattle.std.specs.Fmt.{decimal};
ghost use Rattle.call_judging.specs.PlaceText.{place_text};
ghost use Rattle.verify_service.specs.Report.{refused_text, report, report_text, said_text, unasked_rule, unasked_text};

use crate::outcome::Outcome;
use itoa::Buffer;
use std::alloc::{AllocError, Global};
use verify_rules::{Place, Refusal, code};

/// The rule on the signatures of certificates.
const CERTIFICATES_RULE: u8 = 15;

/// The rule on the signature of a PASSporT.
const PASSPORT_RULE: u8 = 16;

/// The lines that report what came of calls whose numbers go on from this one. `Memory` is the only error.
#[tactic(auto, using(crate::proofs::ReportLaws::line_more, crate::proofs::ReportLaws::all_lines))]
pub fn report_lines(alloc: Global, first: u32, outcomes: &[Outcome]) -> Result<Vec<u8>, AllocError>
    requires { first + length outcomes.now < 2 ^ 32 }
    ensures { IfOk result (λ text. text.items ≡ report first outcomes.now) }
{
    let mut number = first;
    let mut text = Vec::new(alloc);
    for outcome in outcomes {
        put_line(&mut text, number, outcome)?;
        number += 1;
    }
    Ok(text)
}

/// The line that reports what came of the call of this number, with its LF. `Memory` is the only error.
pub fn report_line(alloc: Global, number: u32, outcome: &Outcome) -> Result<Vec<u8>, AllocError>
    ensures { IfOk result (λ line. line.items ≡ report_text number outcome.now) }
{
    let mut line = Vec::new(alloc);
    put_line(&mut line, number, outcome)?;
    Ok(line)
}

/// What the line says after the number, without an LF. `Memory` is the only error.
pub fn said(alloc: Global, outcome: &Outcome) -> Result<Vec<u8>, AllocError>
    ensures { IfOk result (λ said. said.items ≡ said_text outcome.now) }
{
    let mut said = Vec::new(alloc);
    put_said(&mut said, outcome)?;
    Ok(said)
}

/// Appends the line that reports what came of the call of this number, with its LF.
#[tactic(auto, using(crate::proofs::SpellingLaws::line_spelled))]
fn put_line(text: &mut Vec<u8>, number: u32, outcome: &Outcome) -> Result<(), AllocError>
    ensures { OnOk result (text.new.items ≡ text.old.items ++ report_text number outcome.now) }
{
    let mut buffer = Buffer::new();
    text.extend_from_slice(buffer.format(number).as_bytes())?;
    text.push(b' ')?;
    put_said(text, outcome)?;
    text.push(b'\n')?;
    Ok(())
}

/// Appends what the line says after the number, without an LF.
fn put_said(text: &mut Vec<u8>, outcome: &Outcome) -> Result<(), AllocError>
    ensures { OnOk result (text.new.items ≡ text.old.items ++ said_text outcome.now) }
{
    match outcome {
        Outcome::Valid => text.extend_from_slice(b"valid - - -"),
        Outcome::Refused(refusal) => put_refused(text, refusal),
        Outcome::Replay { winner } => put_number(text, b"replay 438 18 ", *winner),
        Outcome::Unread(place) => put_place(text, b"unread - 10 ", place),
        Outcome::Unasked(place) => put_unasked(text, place),
    }
}

/// Appends what it says of a call that breaks a rule: the code, the rule and the place.
#[tactic(auto, using(crate::proofs::SpellingLaws::refused_spelled))]
fn put_refused(text: &mut Vec<u8>, refusal: &Refusal) -> Result<(), AllocError>
    ensures { OnOk result (text.new.items ≡ text.old.items ++ refused_text refusal.now) }
{
    put_number(text, b"refused ", u32::from(code(refusal.rule)))?;
    put_number(text, b" ", u32::from(refusal.rule))?;
    put_place(text, b" ", &refusal.place)
}

/// Appends what it says of a call at a signature of which the provider failed.
#[tactic(auto, using(crate::proofs::SpellingLaws::unasked_spelled))]
fn put_unasked(text: &mut Vec<u8>, place: &Place) -> Result<(), AllocError>
    ensures { OnOk result (text.new.items ≡ text.old.items ++ unasked_text place.now) }
{
    put_number(text, b"unasked - ", u32::from(unasked_rule(place.part)))?;
    put_place(text, b" ", place)
}

/// Appends these bytes and a place after them.
#[tactic(auto, using(crate::proofs::SpellingLaws::place_spelled))]
fn put_place(text: &mut Vec<u8>, before: &[u8], place: &Place) -> Result<(), AllocError>
    ensures { OnOk result (text.new.items ≡ text.old.items ++ (before.now ++ place_text place.now)) }
{
    put_number(text, before, place.field)?;
    put_number(text, b".", place.part)
}

/// Appends these bytes and a number after them.
#[tactic(auto, using(crate::proofs::SpellingLaws::number_spelled))]
fn put_number(text: &mut Vec<u8>, before: &[u8], number: u32) -> Result<(), AllocError>
    ensures { OnOk result (text.new.items ≡ text.old.items ++ (before.now ++ decimal number)) }
{
    let mut buffer = Buffer::new();
    text.extend_from_slice(before)?;
    text.extend_from_slice(buffer.format(number).as_bytes())
}

/// The rule that isn't decided: that on the PASSporT's own signature if the part is 0.
fn unasked_rule(part: u32) -> u8
    ensures { result ≡ unasked_rule part }
{
    if part == 0 {
        PASSPORT_RULE
    } else {
        CERTIFICATES_RULE
    }
}
