//! What a member of a header or a payload is.
ghost use Rattle.std.specs.Prelude.{◌≡◌, ◌&&◌, nat_le, []};
ghost use Rattle.std.specs.Option.{option_copied, option_map};
ghost use Rattle.serde_json.specs.View.{items_view, view};
ghost use Rattle.passport_claims.specs.Members.{called_in, items_length, number_in, number_of, numbers_after};
ghost use Rattle.passport_claims.specs.Members.{numbers_of, text_in, tn_in};
ghost use Rattle.passport_claims.specs.Read.{has_text, has_text_where};
ghost use Rattle.passport_claims.specs.Reading.{Gives, or_fault};
ghost use Rattle.passport_claims.specs.declared.fault.ClaimFault.{ClaimFault};

use crate::fault::ClaimFault;
use serde_json::Value;
use std::alloc::Global;
use tn_values::Number;

/// The text that a member is.
pub(crate) fn text_in<'a>(object: &'a Value, name: &str) -> Option<&'a str>
    ensures { option_copied result ≡ text_in name.now (view object.now) }
{
    match object.get(name) {
        Some(member) => member.as_str(),
        None => None,
    }
}

/// Whether a member is this text.
pub(crate) fn has_text(object: &Value, name: &str, text: &[u8]) -> bool
    ensures { result ≡ has_text name.now text.now (view object.now) }
{
    match text_in(object, name) {
        Some(member) => member.as_bytes() == text,
        None => false,
    }
}

/// Whether a member is the text if there is one, and else absent.
pub(crate) fn has_text_where(object: &Value, name: &str, text: Option<&[u8]>) -> bool
    ensures { result ≡ has_text_where name.now (option_copied text.entry) (view object.now) }
{
    match text {
        Some(text) => has_text(object, name, text),
        None => object.get(name).is_none(),
    }
}

/// The member `tn` of a member.
fn tn_in<'a>(object: &'a Value, name: &str) -> Option<&'a Value>
    ensures { option_map (λ value. view value.now) result ≡ tn_in name.now (view object.now) }
{
    match object.get(name) {
        Some(holder) => holder.get("tn"),
        None => None,
    }
}

/// The number that a value is as a text.
fn number_of(value: &Value) -> Option<Number>
    ensures { result ≡ number_of (view value.now) }
{
    match value.as_str() {
        Some(text) => Number::exact(text.as_bytes()),
        None => None,
    }
}

/// The number that the `tn` of a member is.
pub(crate) fn number_in(object: &Value, name: &str) -> Option<Number>
    ensures { result ≡ number_in name.now (view object.now) }
{
    match tn_in(object, name) {
        Some(tn) => number_of(tn),
        None => None,
    }
}

/// The called numbers: those of the array that the `tn` of `dest` is, which has some and at most so many.
pub(crate) fn called_in(
    alloc: Global,
    payload: &Value,
    most: usize,
) -> Result<Vec<Number>, ClaimFault>
    ensures { Gives (λ numbers. numbers.items) result (or_fault ClaimFault.Dest (called_in most (view payload.now))) }
{
    let Some(tn) = tn_in(payload, "dest") else {
        return Err(ClaimFault::Dest);
    };
    let Some(items) = tn.as_array() else {
        return Err(ClaimFault::Dest);
    };
    if !is_count(items, most) {
        return Err(ClaimFault::Dest);
    }
    numbers_of(alloc, items)
}

/// Whether there are some values, and at most so many.
#[tactic(auto, using(crate::proofs::MemberLaws::items_counted))]
fn is_count(items: &[Value], most: usize) -> bool
    ensures { result ≡ (nat_le 1 (items_length (items_view items.now))
        && nat_le (items_length (items_view items.now)) most) }
{
    1 <= items.len() && items.len() <= most
}

/// The numbers that the values are.
fn numbers_of(alloc: Global, items: &[Value]) -> Result<Vec<Number>, ClaimFault>
    ensures { Gives (λ numbers. numbers.items) result
        (or_fault ClaimFault.Dest (numbers_after [] (items_view items.now))) }
{
    let mut numbers = Vec::new(alloc);
    'numbers: for item in items {
        match number_of(item) {
            Some(number) => numbers.push(number)?,
            None => return Err(ClaimFault::Dest),
        }
    }
    Ok(numbers)
}
