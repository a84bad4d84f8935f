ghost use Rattle.std.specs.Prelude.{◌≡◌, ◌↔◌, Some, IfOk, IsTrue, IsUtf8};
ghost use Rattle.base64.specs.GeneralPurpose.{IsBytes};
ghost use Rattle.serde_json.specs.Read.{read};
ghost use Rattle.serde_json.specs.View.{view, items_view, members_view};
ghost use Rattle.passport_json.specs.Deterministic.{Det, IsInOrder, IsWritable, is_plain, are_plain_items};
ghost use Rattle.passport_json.specs.Deterministic.{are_plain_members};

use serde_json::{Map, Value};
use std::alloc::{AllocError, Global};

/// How deep arrays and objects may be nested in one another.
const MOST_DEEP: u8 = 127;

/// The deterministic form of a JSON value (RFC 8225, section 9): no white space, and the members of each object in byte
/// order of their names. [`is_writable`] tells whether a value has this form. An error says that memory ran out.
#[tactic(auto, using(crate::proofs::OrderLaws::read_in_order))]
pub fn deterministic(alloc: Global, value: &Value) -> Result<Vec<u8>, AllocError>
    requires { IsWritable (view value.now) }
    ensures exact { IfOk result (λ text. text.items ≡ Det (view value.now)) }
    ensures in_order { IfOk result (λ text. IsInOrder (view value.now)) }
    ensures utf8 { IfOk result (λ text. IsUtf8 text.items) }
    ensures reads_back { IfOk result (λ text. read text.items ≡ Some (view value.now)) }
    ensures bytes { IfOk result (λ text. IsBytes text.items) }
{
    let text = value.to_vec(alloc)?;
    tell_bytes(&text);
    Ok(text)
}

/// Does nothing. That a slice holds bytes is known only of a parameter.
fn tell_bytes(text: &[u8])
    ensures { IsBytes text.now }
{}

/// Whether [`deterministic`] takes the value: no floating-point number is in it, and arrays and objects are nested at
/// most 127 deep in one another.
#[tactic(auto, using(crate::proofs::PlainLaws::plain_writable))]
pub fn is_writable(value: &Value) -> bool
    ensures { IsTrue result ↔ IsWritable (view value.now) }
{
    is_plain(value, MOST_DEEP)
}

/// Whether a value has no floating-point number and is at most so deep.
#[cycle(plain)]
fn is_plain(value: &Value, most: u8) -> bool
    ensures { result ≡ is_plain most (view value.now) }
{
    match value {
        Value::Null | Value::Bool(_) | Value::String(_) => true,
        Value::Number(_) => !value.is_f64(),
        Value::Array(items) => most > 0 && are_plain_items(items, most - 1),
        Value::Object(members) => most > 0 && are_plain_members(members, most - 1),
    }
}

/// The same of each item of an array.
#[cycle(plain)]
fn are_plain_items(items: &Vec<Value>, most: u8) -> bool
    ensures { result ≡ are_plain_items most (items_view items.now.items) }
{
    for item in items {
        if !is_plain(item, most) {
            return false;
        }
    }
    true
}

/// The same of each member of an object.
#[cycle(plain)]
fn are_plain_members(members: &Map<String, Value>, most: u8) -> bool
    ensures { result ≡ are_plain_members most (members_view members.now.entries) }
{
    for (_, value) in members.iter() {
        if !is_plain(value, most) {
            return false;
        }
    }
    true
}
