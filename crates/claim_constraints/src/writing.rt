//! From constraints to bytes.
ghost use Rattle.std.specs.Prelude.{◌≡◌, ◌≤◌, ◌<◌, length, IfOk};
ghost use Rattle.der_reader.specs.Tags.{sequence_tag};
ghost use Rattle.claim_constraints.specs.ConstraintsText.{constraints_text, elements, must_part, names_text};
ghost use Rattle.claim_constraints.specs.ConstraintsText.{permit_content, permits_part, values_text};

use crate::form::Form;
use crate::permit::{Permit, Permits};
use crate::reading::{MUST, PERMITS};
use crate::texts::Texts;
use der_reader::tags::SEQUENCE;
use der_reader::{encode, put};
use std::alloc::{AllocError, Global};

/// The text of constraints of these parts.
#[tactic(auto, unfolding(crate::specs::ConstraintsText::constraints_text), using(crate::proofs::WriteLaws::parts_small))]
pub(crate) fn write_constraints(
    alloc: Global,
    must: &Texts,
    permits: &Permits,
) -> Result<Vec<u8>, AllocError>
    requires { length (constraints_text (record { must = must.now; permits = permits.now })) ≤ 65535 }
    ensures { IfOk result (λ text. text.items ≡ constraints_text (record { must = must.now; permits = permits.now })) }
{
    let mut content = must_part(alloc, must)?;
    let more = permits_part(alloc, permits)?;
    content.extend_from_slice(&more)?;
    encode(alloc, SEQUENCE, &content)
}

/// The part of the claims that must be there.
#[tactic(auto, using(crate::proofs::WriteLaws::inner_small, crate::proofs::WholeLaws::part_some))]
fn must_part(alloc: Global, names: &Texts) -> Result<Vec<u8>, AllocError>
    requires { length (must_part names.now) < 65536 }
    ensures { IfOk result (λ text. text.items ≡ must_part names.now) }
{
    if names.count() == 0 {
        return Ok(Vec::new(alloc));
    }
    let each = names_text(alloc, names)?;
    let sequence = encode(alloc, SEQUENCE, &each)?;
    encode(alloc, MUST, &sequence)
}

/// The part of the claims of which some values are permitted.
#[tactic(auto, using(crate::proofs::WriteLaws::inner_small, crate::proofs::WholeLaws::part_some))]
fn permits_part(alloc: Global, permits: &Permits) -> Result<Vec<u8>, AllocError>
    requires { length (permits_part permits.now) < 65536 }
    ensures { IfOk result (λ text. text.items ≡ permits_part permits.now) }
{
    if permits.count() == 0 {
        return Ok(Vec::new(alloc));
    }
    let each = permit_texts(alloc, permits)?;
    let sequence = encode(alloc, SEQUENCE, &each)?;
    encode(alloc, PERMITS, &sequence)
}

/// The elements of claims with their values, one after another.
fn permit_texts(alloc: Global, permits: &Permits) -> Result<Vec<u8>, AllocError>
    requires { length (elements sequence_tag permit_content permits.now) < 65536 }
    ensures { IfOk result (λ text. text.items ≡ elements sequence_tag permit_content permits.now) }
{
    let mut out = Vec::new(alloc);
    'permits: for index in 0..permits.count() {
        let permit = permits.permit(index);
        let content = permit_content(alloc, &permit)?;
        put(&mut out, SEQUENCE, &content)?;
    }
    Ok(out)
}

/// The name of a claim and the SEQUENCE of its values.
#[tactic(auto, using(crate::proofs::WriteLaws::permit_small))]
fn permit_content(alloc: Global, permit: &Permit<'_>) -> Result<Vec<u8>, AllocError>
    requires { length (permit_content permit.now) < 65536 }
    ensures { IfOk result (λ text. text.items ≡ permit_content permit.now) }
{
    let mut content = encode(alloc, Form::Name.tag(), permit.claim())?;
    let values = values_text(alloc, permit)?;
    put(&mut content, SEQUENCE, &values)?;
    Ok(content)
}

/// The elements of names, one after another.
fn names_text(alloc: Global, names: &Texts) -> Result<Vec<u8>, AllocError>
    requires { length (names_text names.now) < 65536 }
    ensures { IfOk result (λ text. text.items ≡ names_text names.now) }
{
    let mut out = Vec::new(alloc);
    'names: for index in 0..names.count() {
        put(&mut out, Form::Name.tag(), names.text(index))?;
    }
    Ok(out)
}

/// The elements of a claim's values, one after another.
fn values_text(alloc: Global, permit: &Permit<'_>) -> Result<Vec<u8>, AllocError>
    requires { length (values_text permit.now.values) < 65536 }
    ensures { IfOk result (λ text. text.items ≡ values_text permit.now.values) }
{
    let mut out = Vec::new(alloc);
    'values: for index in 0..permit.value_count() {
        put(&mut out, Form::Value.tag(), permit.value(index))?;
    }
    Ok(out)
}
