//! From bytes to constraints.
ghost use Rattle.std.specs.Prelude.{◌≡◌, ◌≤◌, ◌<◌, [], length, IfOk, OnOk};
ghost use Rattle.der_reader.specs.Each.{each_in};
ghost use Rattle.der_reader.specs.Elem.{AllBytes};
ghost use Rattle.der_reader.specs.Part.{item_of, part_of};
ghost use Rattle.claim_constraints.specs.Constraints.{permit_of};
ghost use Rattle.claim_constraints.specs.ConstraintsText.{must_tag, permits_tag};
ghost use Rattle.claim_constraints.specs.Fault.{Gives};
ghost use Rattle.claim_constraints.specs.Read.{begins, filled, optional_in, parts_in, permit_in, permit_with};
ghost use Rattle.claim_constraints.specs.Read.{read_constraints, some_in, part_view, text_with};
ghost use Rattle.claim_constraints.specs.declared.form.Form.TheVariants.{Name};

use crate::fault::ConstraintFault;
use crate::form::Form;
use crate::permit::Permits;
use crate::texts::Texts;
use der_reader::tags::SEQUENCE;
use der_reader::{Fault, Item, Outer, Part};
use std::alloc::Global;

/// The tag of the claims that must be there, `[0]` (X.690, section 8.1.2).
pub(crate) const MUST: u8 = 0xA0;

/// The tag of the claims of which some values are permitted, `[1]`.
pub(crate) const PERMITS: u8 = 0xA1;

/// The claims that must be there, and those of which some values are permitted.
pub(crate) type Parts = (Texts, Permits);

/// The parts of the constraints that the bytes are.
#[tactic(auto, unfolding(crate::specs::Read::read_constraints))]
pub(crate) fn read_constraints(alloc: Global, bytes: &[u8]) -> Result<Parts, ConstraintFault>
    ensures exact { Gives (λ parts. record { must = parts.0; permits = parts.1 }) result (read_constraints bytes.now) }
    ensures bytes { AllBytes bytes.now }
{
    let sequence = Outer::read(bytes, SEQUENCE)?;
    let content = sequence.content();
    if content.left.is_empty() {
        return Err(Fault::at(ConstraintFault::EMPTY, 0).into());
    }
    let parts = parts_in(alloc, &content)?;
    if sequence.behind.is_empty() {
        Ok(parts)
    } else {
        Err(sequence.left_over().into())
    }
}

/// The two parts, of which one may be absent.
#[tactic(auto, unfolding(crate::specs::Read::parts_in))]
fn parts_in(alloc: Global, part: &Part) -> Result<Parts, ConstraintFault>
    ensures exact { Gives (λ parts. record { must = parts.0; permits = parts.1 }) result (parts_in (part_of part.now)) }
{
    let (must, rest) = must_in(alloc, part)?;
    let (permits, rest) = permits_in(alloc, &rest)?;
    rest.end(())?;
    Ok((must, permits))
}

/// The claims that must be there, none if their part is absent, and what comes after it.
#[tactic(auto, unfolding(crate::specs::Read::optional_in, crate::specs::Read::marked_in))]
fn must_in<'a>(alloc: Global, part: &Part<'a>) -> Result<(Texts, Part<'a>), ConstraintFault>
    ensures exact { Gives (λ found. (found.0, part_of found.1)) result
        (optional_in must_tag (text_with Name) (part_of part.now)) }
{
    let names = Texts::new(alloc);
    if !begins(part.left, MUST) {
        return Ok((names, *part));
    }
    let marked = part.element(MUST)?;
    let sequence = marked.content().element(SEQUENCE)?;
    let names = some_texts(names, &sequence, Form::Name)?;
    sequence.behind.end(())?;
    Ok((names, marked.behind))
}

/// The claims of which some values are permitted, none if their part is absent, and what comes after it.
#[tactic(auto, unfolding(crate::specs::Read::optional_in, crate::specs::Read::marked_in, crate::specs::Read::some_in))]
fn permits_in<'a>(alloc: Global, part: &Part<'a>) -> Result<(Permits, Part<'a>), ConstraintFault>
    ensures exact { Gives (λ found. (found.0, part_of found.1)) result
        (optional_in permits_tag permit_with (part_of part.now)) }
{
    if !begins(part.left, PERMITS) {
        return Ok((Permits::new(alloc), *part));
    }
    let marked = part.element(PERMITS)?;
    let sequence = marked.content().element(SEQUENCE)?;
    let permits = each_permit(alloc, &filled(&sequence)?)?;
    sequence.behind.end(())?;
    Ok((permits, marked.behind))
}

/// Whether the bytes begin with this tag.
fn begins(bytes: &[u8], tag: u8) -> bool
    ensures { result ≡ begins tag bytes.now }
{
    match bytes {
        [first, ..] => *first == tag,
        _ => false,
    }
}

/// The content of a SEQUENCE, which may not be empty.
fn filled<'a>(sequence: &Item<'a>) -> Result<Part<'a>, Fault>
    ensures { part_view result ≡ filled (item_of sequence.now) }
{
    if sequence.der.content.is_empty() {
        Err(sequence.fault(ConstraintFault::EMPTY))
    } else {
        Ok(sequence.content())
    }
}

/// The claims of the part, with their values, one after another.
#[tactic(auto, using(der_reader::proofs::EachLaws::at_first))]
fn each_permit(alloc: Global, part: &Part) -> Result<Permits, ConstraintFault>
    ensures exact { Gives (λ permits. permits) result (each_in permit_with [] (part_of part.now)) }
{
    let mut permits = Permits::new(alloc);
    let mut rest = *part;
    'permits: while !rest.left.is_empty() {
        let item = rest.item()?;
        add_permit(alloc, &mut permits, &item)?;
        rest = item.behind;
    }
    Ok(permits)
}

/// Adds the claim with its values that an element is.
#[tactic(auto, unfolding(crate::specs::Read::permit_with))]
fn add_permit(alloc: Global, permits: &mut Permits, item: &Item) -> Result<(), ConstraintFault>
    ensures exact { Gives (λ _. permits.new) result (permit_with permits.old (item_of item.now)) }
{
    if item.der.tag != SEQUENCE {
        return Err(item.fault(ConstraintFault::DER).into());
    }
    let permit = permit_in(alloc, &filled(item)?)?;
    permits.push(permit)?;
    Ok(())
}

/// A claim and its values, as texts of which the claim's name is the first.
#[tactic(auto, unfolding(crate::specs::Read::permit_in))]
fn permit_in(alloc: Global, part: &Part) -> Result<Texts, ConstraintFault>
    ensures exact { Gives permit_of result (permit_in (part_of part.now)) }
    ensures some { IfOk result (λ texts. 1 ≤ length texts) }
{
    let name = part.item()?;
    let mut claim = Texts::new(alloc);
    add_text(&mut claim, &name, Form::Name)?;
    let sequence = name.behind.element(SEQUENCE)?;
    let texts = some_texts(claim, &sequence, Form::Value)?;
    sequence.behind.end(())?;
    Ok(texts)
}

/// These texts, and after them those of a SEQUENCE, of which there is one at least.
#[tactic(auto, unfolding(crate::specs::Read::some_in))]
fn some_texts(before: Texts, sequence: &Item, form: Form) -> Result<Texts, ConstraintFault>
    ensures exact { Gives (λ texts. texts) result (some_in (text_with form) before (item_of sequence.now)) }
    ensures more { IfOk result (λ texts. length before ≤ length texts) }
{
    let content = filled(sequence)?;
    each_text(before, &content, form)
}

/// These texts, and after them those of the part, one after another.
#[tactic(auto, using(der_reader::proofs::EachLaws::at_first))]
fn each_text(before: Texts, part: &Part, form: Form) -> Result<Texts, ConstraintFault>
    ensures exact { Gives (λ texts. texts) result (each_in (text_with form) before (part_of part.now)) }
    ensures more { IfOk result (λ texts. length before ≤ length texts) }
{
    let mut texts = before;
    let mut rest = *part;
    'texts: while !rest.left.is_empty() {
        let item = rest.item()?;
        add_text(&mut texts, &item, form)?;
        rest = item.behind;
    }
    Ok(texts)
}

/// Adds the text of an element, which has to be of this form.
#[tactic(auto, unfolding(crate::specs::Read::text_with, crate::specs::Read::text_of))]
fn add_text(texts: &mut Texts, item: &Item, form: Form) -> Result<(), ConstraintFault>
    ensures exact { Gives (λ _. texts.new) result (text_with form texts.old (item_of item.now)) }
    ensures more { OnOk result (length texts.old < length texts.new) }
{
    if item.der.tag != form.tag() {
        return Err(item.fault(ConstraintFault::DER).into());
    }
    if !form.passes(item.der.content) {
        return Err(item.fault(form.kind()).into());
    }
    texts.push(item.der.content)?;
    Ok(())
}
