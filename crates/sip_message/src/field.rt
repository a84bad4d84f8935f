//! A header field, and what is asked of several.
ghost use Rattle.std.specs.Prelude.{◌≡◌, ◌<◌, [], length, map, slice_index_or};
ghost use Rattle.std.specs.List.{filter_map, slice_get};
ghost use Rattle.std.specs.Option.{option_copied};
ghost use Rattle.httpdate.specs.Date.{parse_secs};
ghost use Rattle.sip_message.specs.Accessors.{first, number_in, number_of, time_of, values};
ghost use Rattle.sip_message.specs.FieldValue.{values_named};
ghost use Rattle.sip_message.specs.Known.{is_named};
ghost use Rattle.sip_message.specs.Seen.{field_seen};

use crate::address::address_number;
use crate::known::Known;
use crate::name::Name;
use crate::value::Value;
use httpdate::HttpDate;
use tn_values::{Local, Number};

/// A header field and the offset of its first line.
#[derive(Debug, Drop)]
pub(crate) struct Field<'a> {
    pub place: u32,
    pub name: Name<'a>,
    pub value: Value<'a>,
}

/// The number of the first such field, None if there is none or its address has none.
pub(crate) fn number_of(fields: &[Field<'_>], known: Known, local: &Local) -> Option<Number>
    ensures { result ≡ number_of (is_named known) (map field_seen fields.now) local.now }
{
    match first_value(fields, known) {
        Some(value) => address_number(value, local),
        None => None,
    }
}

/// The time of the first such field, in Unix seconds, None if there is none or its value is no date.
pub(crate) fn time_of(fields: &[Field<'_>], known: Known) -> Option<u64>
    ensures { result ≡ time_of (is_named known) (map field_seen fields.now) }
{
    match first_value(fields, known) {
        Some(value) => seconds_of(value),
        None => None,
    }
}

/// The seconds in Unix time that a Date says.
fn seconds_of(text: &[u8]) -> Option<u64>
    ensures { result ≡ parse_secs text.now }
{
    match HttpDate::parse_ascii(text) {
        Ok(date) => Some(date.unix_secs()),
        Err(_) => None,
    }
}

/// The value of the first such field.
#[tactic(auto, using(crate::proofs::FieldSteps::values_step, crate::proofs::FieldSteps::values_end))]
fn first_value<'b>(fields: &'b [Field<'_>], known: Known) -> Option<&'b [u8]>
    ensures { option_copied result ≡ first (values (is_named known) (map field_seen fields.now)) }
{
    for field in fields {
        if field.name.is(known) {
            return Some(field.value.bytes());
        }
    }
    None
}

/// The number of the first such field that gives one.
#[tactic(auto, using(crate::proofs::FieldSteps::values_step, crate::proofs::FieldSteps::values_end))]
pub(crate) fn first_number(fields: &[Field<'_>], known: Known, local: &Local) -> Option<Number>
    ensures { result ≡ first (filter_map (number_in local.now) (values (is_named known) (map field_seen fields.now))) }
{
    for field in fields {
        if !field.name.is(known) {
            continue;
        }
        if let Some(number) = address_number(field.value.bytes(), local) {
            return Some(number);
        }
    }
    None
}

/// How many such fields there are.
#[tactic(auto, using(crate::proofs::FieldSteps::values_step, crate::proofs::FieldSteps::values_end))]
pub(crate) fn count(fields: &[Field<'_>], known: Known) -> usize
    ensures { result ≡ length (values (is_named known) (map field_seen fields.now)) }
{
    let mut count = 0;
    for field in fields {
        if field.name.is(known) {
            count += 1;
        }
    }
    count
}

/// The value of the `i`-th such field, counted from 0.
#[tactic(auto, using(crate::proofs::FieldSteps::values_step, crate::proofs::FieldSteps::values_end))]
pub(crate) fn value_at<'b>(fields: &'b [Field<'_>], known: Known, i: usize) -> &'b [u8]
    requires { i < length (values (is_named known) (map field_seen fields.now)) }
    ensures { result.now ≡ slice_index_or (values (is_named known) (map field_seen fields.now)) i [] }
{
    let mut left = i;
    for field in fields {
        if !field.name.is(known) {
            continue;
        }
        if left == 0 {
            return field.value.bytes();
        }
        left -= 1;
    }
    unreachable!()
}

/// The value of the `i`-th field of this name, counted from 0.
#[tactic(auto, using(crate::proofs::FieldSteps::values_step, crate::proofs::FieldSteps::values_end))]
pub(crate) fn value_named<'b>(fields: &'b [Field<'_>], name: &[u8], i: usize) -> Option<&'b [u8]>
    ensures { option_copied result ≡ slice_get (values_named name.now (map field_seen fields.now)) i }
{
    let mut left = i;
    for field in fields {
        if !field.name.is_one_with(name) {
            continue;
        }
        if left == 0 {
            return Some(field.value.bytes());
        }
        left -= 1;
    }
    None
}
