//! Whether a payload meets constraints.
ghost use Rattle.std.specs.Prelude.{◌≡◌, true, option_map};
ghost use Rattle.std.specs.List.{list_all, list_any};
ghost use Rattle.std.specs.Str.{bytes_eq};
ghost use Rattle.serde_json.specs.Find.{get};
ghost use Rattle.serde_json.specs.View.{view};
ghost use Rattle.claim_constraints.specs.Constraints.{is_name, is_permit};
ghost use Rattle.claim_constraints.specs.Meets.{is_one_of, permits, stands};

use crate::permit::{Permit, Permits};
use crate::texts::Texts;
use serde_json::Value;
use std::str;

/// Whether each of these claims is a member of the payload.
#[tactic(auto, using(crate::proofs::PlaceLaws::fails_at, crate::proofs::PlaceLaws::passes_at, crate::proofs::PlaceLaws::all_next))]
pub(crate) fn all_stand(names: &Texts, payload: &Value) -> bool
    requires { list_all is_name names.now ≡ true }
    ensures { result ≡ list_all (stands (view payload.now)) names.now }
{
    for index in 0..names.count() {
        if !stands(names.text(index), payload) {
            return false;
        }
    }
    true
}

/// Whether each of these claims that is a member of the payload has one of its values there.
#[tactic(auto, using(crate::proofs::PlaceLaws::fails_at, crate::proofs::PlaceLaws::passes_at, crate::proofs::PlaceLaws::all_next))]
pub(crate) fn all_permitted(list: &Permits, payload: &Value) -> bool
    requires { list_all is_permit list.now ≡ true }
    ensures { result ≡ list_all (permits (view payload.now)) list.now }
{
    for index in 0..list.count() {
        if !is_permitted(&list.permit(index), payload) {
            return false;
        }
    }
    true
}

/// The member of this name.
#[tactic(auto, using(crate::proofs::NameLaws::name_utf8))]
fn member<'a>(name: &[u8], payload: &'a Value) -> Option<&'a Value>
    requires { is_name name.now ≡ true }
    ensures { option_map (λ value. view value.now) result ≡ get name.now (view payload.now) }
{
    match str::from_utf8(name) {
        Ok(name) => payload.get(name),
        Err(_) => None,
    }
}

/// Whether the claim of this name is a member of the payload.
fn stands(name: &[u8], payload: &Value) -> bool
    requires { is_name name.now ≡ true }
    ensures { result ≡ stands (view payload.now) name.now }
{
    member(name, payload).is_some()
}

/// Whether the claim is no member of the payload, or has one of its values there.
fn is_permitted(permit: &Permit<'_>, payload: &Value) -> bool
    requires { is_name permit.now.claim ≡ true }
    ensures { result ≡ permits (view payload.now) permit.now }
{
    match member(permit.claim(), payload) {
        Some(value) => has_value(permit, value),
        None => true,
    }
}

/// Whether this is a text that is one of the claim's values.
fn has_value(permit: &Permit<'_>, value: &Value) -> bool
    ensures { result ≡ is_one_of permit.now.values (view value.now) }
{
    match value.as_str() {
        Some(text) => has_text(permit, text.as_bytes()),
        None => false,
    }
}

/// Whether one of the claim's values is this text.
#[tactic(auto, using(crate::proofs::PlaceLaws::one_at, crate::proofs::PlaceLaws::any_next))]
fn has_text(permit: &Permit<'_>, text: &[u8]) -> bool
    ensures { result ≡ list_any (bytes_eq text.now) permit.now.values }
{
    for index in 0..permit.value_count() {
        if text == permit.value(index) {
            return true;
        }
    }
    false
}
