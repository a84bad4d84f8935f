//! The lines that explain a call.
ghost use Rattle.std.specs.Prelude.{◌≡◌, ◌++◌, IfOk, OnOk, string_bytes};
ghost use Rattle.call_judging.specs.Explain.{broken_line, broken_text, explained, ok_line, ok_lines, unread_line};
ghost use Rattle.call_judging.specs.Explain.{unread_text};
ghost use Rattle.call_judging.specs.PlaceText.{place_text};

use crate::finding::Finding;
use crate::rule_numbers::{FIRST_ON_FILES, FIRST_ON_SIGNATURES, RULES, numbers_before};
use std::alloc::{AllocError, Global};
use verify_rules::{Place, Refusal, code};

/// The lines that explain the call of this number, by what is found of it. `AllocError` is the only error.
pub fn explained(alloc: Global, number: u32, finding: &Finding) -> Result<String, AllocError>
    ensures { IfOk result (λ text. string_bytes text ≡ explained number finding.now) }
{
    match finding {
        Finding::Refused(refusal) => broken_text(alloc, number, refusal),
        Finding::Unread(place) => unread_text(alloc, number, place),
        Finding::Unasked(_) => ok_lines(alloc, number, numbers_before(FIRST_ON_SIGNATURES)),
        Finding::Passes(_) => ok_lines(alloc, number, &RULES),
    }
}

/// The lines of a call that breaks a rule.
fn broken_text(alloc: Global, number: u32, refusal: &Refusal) -> Result<String, AllocError>
    ensures { IfOk result (λ text. string_bytes text ≡ broken_text number refusal.now) }
{
    let mut text = ok_lines(alloc, number, numbers_before(refusal.rule))?;
    let line = broken_line(alloc, number, refusal)?;
    text.push_str(line.as_str())?;
    Ok(text)
}

/// The lines of a call with a file of certificates that couldn't be read.
fn unread_text(alloc: Global, number: u32, place: &Place) -> Result<String, AllocError>
    ensures { IfOk result (λ text. string_bytes text ≡ unread_text number place.now) }
{
    let mut text = ok_lines(alloc, number, numbers_before(FIRST_ON_FILES))?;
    let line = unread_line(alloc, number, place)?;
    text.push_str(line.as_str())?;
    Ok(text)
}

/// The lines of these rules, which are met.
fn ok_lines(alloc: Global, number: u32, rules: &[u8]) -> Result<String, AllocError>
    ensures { IfOk result (λ text. string_bytes text ≡ ok_lines number rules.now) }
{
    let mut text = String::new(alloc);
    'rules: for rule in rules {
        add_ok(&mut text, alloc, number, *rule)?;
    }
    Ok(text)
}

/// Adds the line of a rule that is met.
fn add_ok(text: &mut String, alloc: Global, number: u32, rule: u8) -> Result<(), AllocError>
    ensures { OnOk result (string_bytes text.new ≡ string_bytes text.old ++ ok_line number rule) }
{
    let line = ok_line(alloc, number, rule)?;
    text.push_str(line.as_str())?;
    Ok(())
}

/// The line of a rule that is met.
#[tactic(auto, unfolding(crate::specs::Explain::ok_line))]
fn ok_line(alloc: Global, number: u32, rule: u8) -> Result<String, AllocError>
    ensures { IfOk result (λ text. string_bytes text ≡ ok_line number rule) }
{
    format!(in alloc; "{number} {rule} ok\n")
}

/// The line of a rule that is broken.
#[tactic(auto, unfolding(crate::specs::Explain::broken_line))]
fn broken_line(alloc: Global, number: u32, refusal: &Refusal) -> Result<String, AllocError>
    ensures { IfOk result (λ text. string_bytes text ≡ broken_line number refusal.now) }
{
    let rule = refusal.rule;
    let code = code(rule);
    let place = place_text(alloc, &refusal.place)?;
    format!(in alloc; "{number} {rule} {code} {place}\n")
}

/// The line of rule 10 if it isn't decided.
#[tactic(auto, unfolding(crate::specs::Explain::unread_line))]
fn unread_line(alloc: Global, number: u32, place: &Place) -> Result<String, AllocError>
    ensures { IfOk result (λ text. string_bytes text ≡ unread_line number place.now) }
{
    let place = place_text(alloc, place)?;
    format!(in alloc; "{number} 10 unread {place}\n")
}

/// A place, as it is printed.
fn place_text(alloc: Global, place: &Place) -> Result<String, AllocError>
    ensures { IfOk result (λ text. string_bytes text ≡ place_text place.now) }
{
    let field = place.field;
    let part = place.part;
    format!(in alloc; "{field}.{part}")
}
