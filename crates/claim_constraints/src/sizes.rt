//! How long the text of constraints is.
ghost use Rattle.std.specs.Prelude.{◌≡◌, ◌+◌, ◌≤◌, ℕ, List, length};
ghost use Rattle.der_reader.specs.Elem.{element_text};
ghost use Rattle.der_reader.specs.Tags.{sequence_tag};
ghost use Rattle.claim_constraints.specs.ConstraintsText.{constraints_text, elements, must_part, names_text};
ghost use Rattle.claim_constraints.specs.ConstraintsText.{permit_content, permits_part, values_text};
ghost use Rattle.claim_constraints.specs.Size.{capped};

use crate::permit::{Permit, Permits};
use crate::texts::Texts;

/// All sizes from here on are one: they are past the limit of a text.
const CAP: usize = 65_536;

/// How long the text of constraints of these parts is, up to 65,536.
pub(crate) fn constraints_size(must: &Texts, permits: &Permits) -> usize
    ensures { result ≡ capped (length (constraints_text (record { must = must.now; permits = permits.now }))) }
{
    element_size(sum(must_size(must), permits_size(permits)))
}

/// How long the part of the claims that must be there is, up to 65,536.
fn must_size(names: &Texts) -> usize
    ensures { result ≡ capped (length (must_part names.now)) }
{
    if names.count() == 0 {
        return 0;
    }
    element_size(element_size(names_size(names)))
}

/// How long the part of the claims of which some values are permitted is, up to 65,536.
fn permits_size(permits: &Permits) -> usize
    ensures { result ≡ capped (length (permits_part permits.now)) }
{
    if permits.count() == 0 {
        return 0;
    }
    element_size(element_size(entries_size(permits)))
}

/// How long the entries of claims with their values are, up to 65,536.
fn entries_size(permits: &Permits) -> usize
    ensures { result ≡ capped (length (elements sequence_tag permit_content permits.now)) }
{
    let mut size = 0;
    'permits: for index in 0..permits.count() {
        let permit = permits.permit(index);
        size = sum(size, element_size(permit_size(&permit)));
    }
    size
}

/// How long the name of a claim and the SEQUENCE of its values are, up to 65,536.
fn permit_size(permit: &Permit<'_>) -> usize
    ensures { result ≡ capped (length (permit_content permit.now)) }
{
    sum(text_size(permit.claim()), element_size(values_size(permit)))
}

/// How long the elements of names are, up to 65,536.
fn names_size(names: &Texts) -> usize
    ensures { result ≡ capped (length (names_text names.now)) }
{
    let mut size = 0;
    'names: for index in 0..names.count() {
        size = sum(size, text_size(names.text(index)));
    }
    size
}

/// How long the elements of a claim's values are, up to 65,536.
fn values_size(permit: &Permit<'_>) -> usize
    ensures { result ≡ capped (length (values_text permit.now.values)) }
{
    let mut size = 0;
    'values: for index in 0..permit.value_count() {
        size = sum(size, text_size(permit.value(index)));
    }
    size
}

/// How long the element of this text is, up to 65,536.
fn text_size(text: &[u8]) -> usize
    ensures { (tag : ℕ) → result ≡ capped (length (element_text tag text.now)) }
{
    element_size(cap(text.len()))
}

/// How long the element of a content of this size is, up to 65,536.
fn element_size(content: usize) -> usize
    ensures { (tag : ℕ) (bytes : List ℕ) → content ≡ capped (length bytes)
        → result ≡ capped (length (element_text tag bytes)) }
{
    match content {
        0..=0x7F => content + 2,
        0x80..=0xFF => content + 3,
        0x100..=0xFFFB => content + 4,
        _ => CAP,
    }
}

/// Two sizes together, up to 65,536.
#[tactic(auto, using(crate::proofs::SizeLaws::past))]
fn sum(left: usize, right: usize) -> usize
    ensures { result ≡ capped (left + right) }
{
    if left < CAP && right < CAP {
        cap(left + right)
    } else {
        CAP
    }
}

/// A size, up to 65,536.
fn cap(size: usize) -> usize
    ensures { result ≡ capped size }
{
    if size < CAP { size } else { CAP }
}
