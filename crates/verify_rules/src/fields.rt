//! Rules 3 to 5: the Identity fields, and which of them are judged.
ghost use Rattle.std.specs.Prelude.{◌≡◌, true, ◌∷◌, map, find, codes, IfSome};
ghost use Rattle.std.specs.List.{list_any};
ghost use Rattle.std.specs.Option.{option_copied, option_map};
ghost use Rattle.passport_claims.specs.Kind.{IsKnown};
ghost use Rattle.sip_message.specs.Accessors.{identities};
ghost use Rattle.passport_claims.specs.Passport.{is_text};
ghost use Rattle.verify_rules.specs.Call.{has_ppt, links, originating};
ghost use Rattle.verify_rules.specs.Ppt.{is_of};
ghost use Rattle.verify_rules.specs.Rules.{each, foreign_alg, is_es256};
ghost use Rattle.verify_rules.specs.Seen.{AreFields, field_seen, is_compact};

use crate::identity_field::{NumberedField, Ppt};
use crate::refusal::{Place, Stop};
use sip_message::Message;
use std::alloc::Global;

/// How many Identity fields a message may have (this project's own limit).
const MOST_FIELDS: usize = 16;

/// The Identity fields of a message, in message order.
#[tactic(auto, using(crate::proofs::FieldSteps::fields_start, crate::proofs::FieldSteps::field_more, crate::proofs::FieldSteps::numbers_more, crate::proofs::FieldSteps::field_bad, crate::proofs::FieldSteps::fields_many, crate::proofs::FieldSteps::none_bad, crate::proofs::FieldSteps::all_numbered))]
pub(crate) fn read_fields<'a>(
    alloc: Global,
    message: &'a Message<'a>,
) -> Result<Vec<NumberedField<'a>>, Stop>
    ensures { AreFields (λ fields. map field_seen fields.items) (identities message.now) result }
{
    let mut fields = Vec::new(alloc);
    'fields: for i in 0..message.identity_count() {
        if i >= MOST_FIELDS {
            return Err(Stop::Broken(Place::new(17, 0)));
        }
        match NumberedField::read(message.identity(i), i as u32 + 1) {
            Ok(field) => {
                if fields.push(field).is_err() {
                    return Err(Stop::Memory);
                }
            }
            Err(bad) => return Err(Stop::Broken(bad)),
        }
    }
    Ok(fields)
}

/// The field of the PASSporT that the originating side signed.
#[tactic(auto, using(crate::proofs::Known::known_with, crate::proofs::Known::known_without))]
pub(crate) fn originating<'f, 'a>(fields: &'f [NumberedField<'a>]) -> Option<&'f NumberedField<'a>>
    ensures field { option_map (λ field. field_seen field.now) result ≡ originating (map field_seen fields.now) }
    ensures known { IfSome result (λ field. IsKnown field.now.parts.ppt) }
{
    match first_of(fields, Ppt::Shaken) {
        Some(field) => Some(field),
        None => first_of(fields, Ppt::Absent),
    }
}

/// The first field with such a type.
fn first_of<'f, 'a>(fields: &'f [NumberedField<'a>], ppt: Ppt) -> Option<&'f NumberedField<'a>>
    ensures field { option_map (λ field. field_seen field.now) result ≡ find (is_of ppt) (map field_seen fields.now) }
    ensures with { IfSome result (λ field. is_of ppt (field_seen field.now) ≡ true) }
{
    for field in fields {
        if field.is(ppt) {
            return Some(field);
        }
    }
    None
}

/// The place of the first judged field with another algorithm.
pub(crate) fn foreign_alg(origin: &NumberedField<'_>, fields: &[NumberedField<'_>]) -> Option<Place>
    ensures { result ≡ each foreign_alg (field_seen origin.now ∷ links (map field_seen fields.now)) }
{
    if !is_es256(origin) {
        return Some(Place::new(origin.number, 0));
    }
    foreign_link(fields)
}

/// The place of the first link with another algorithm.
fn foreign_link(fields: &[NumberedField<'_>]) -> Option<Place>
    ensures { result ≡ each foreign_alg (links (map field_seen fields.now)) }
{
    for field in fields {
        if is_link(field) && !is_es256(field) {
            return Some(Place::new(field.number, 0));
        }
    }
    None
}

/// Whether a judged field's text is a token in its compact form, which leaves its Date to the message (RFC 8225,
/// section 7).
pub(crate) fn asks_date(origin: &NumberedField<'_>, fields: &[NumberedField<'_>]) -> bool
    ensures { result ≡ list_any is_compact (field_seen origin.now ∷ links (map field_seen fields.now)) }
{
    is_compact(origin) || has_compact_link(fields)
}

/// Whether a link's is.
fn has_compact_link(fields: &[NumberedField<'_>]) -> bool
    ensures { result ≡ list_any is_compact (links (map field_seen fields.now)) }
{
    for field in fields {
        if is_link(field) && is_compact(field) {
            return true;
        }
    }
    false
}

/// Whether the field's token is in its compact form.
fn is_compact(field: &NumberedField<'_>) -> bool
    ensures { result ≡ is_compact (field_seen field.now) }
{
    field.parts.token().starts_with(b"..")
}

/// Whether the field is that of a diversion (RFC 8946).
pub(crate) fn is_link(field: &NumberedField<'_>) -> bool
    ensures { result ≡ has_ppt (codes "div") (field_seen field.now) }
{
    field.is(Ppt::Div)
}

/// Whether the field's algorithm is ES256, which it is if none is given.
fn is_es256(field: &NumberedField<'_>) -> bool
    ensures { result ≡ is_es256 field.now.parts.alg }
{
    field.parts.alg().is_none() || is_text(field.parts.alg(), b"ES256")
}

/// Whether a value is given and is this text.
fn is_text(given: Option<&[u8]>, text: &[u8]) -> bool
    ensures { result ≡ is_text text.now (option_copied given.entry) }
{
    match given {
        Some(value) => value == text,
        None => false,
    }
}
