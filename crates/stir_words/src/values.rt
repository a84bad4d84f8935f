//! The values of options.
ghost use Rattle.std.specs.Prelude.{◌≡◌, ◌≤◌, IfSome};
ghost use Rattle.std.specs.List.{list_all};
ghost use Rattle.std.specs.Option.{option_copied};
ghost use Rattle.text_grammar.specs.Decimal.{number_up_to};
ghost use Rattle.text_grammar.specs.Uri.{is_uri};
ghost use Rattle.passport_claims.specs.Origid.{is_origid};
ghost use Rattle.stir_words.specs.ClapRules.{values_in};
ghost use Rattle.stir_words.specs.Values.{count_of, country_of, earlier_of, form_by, form_of, future_of, iat_of};
ghost use Rattle.stir_words.specs.Values.{is_key, is_key_byte, key_of, local_in, moment_of, national_of, past_of};
ghost use Rattle.stir_words.specs.Values.{plain_by, seed_of, shaken_by, size_of, text_if, workers_of, x5u_of};

use clap::ArgMatches;
use passport_claims::{Attest, Form, is_origid};
use text_grammar::{LAST_SECOND, is_uri, is_uri_byte, read_number};
use tn_values::{Local, Number};

/// A day in seconds.
const DAY: u64 = 86_400;

/// How many seconds old a PASSporT may be if that isn't given.
const PAST: u64 = 60;

/// How many seconds the `iat` of a PASSporT may be ahead if that isn't given.
const FUTURE: u64 = 5;

/// The most workers.
const MOST_WORKERS: u64 = 8;

/// The workers if their number isn't given.
const WORKERS: u64 = 1;

/// The greatest seed of a drill.
const LAST_SEED: u64 = 18_446_744_073_709_551_615;

/// The most calls of a drill.
const MOST_CALLS: u64 = 100_000;

/// The most slots of a level.
const MOST_SLOTS: u64 = 1_048_576;

/// The most digits of a national number.
const MOST_NATIONAL: u64 = 14;

/// How many digits a national number has if that isn't given.
const NATIONAL: u8 = 10;

/// The country if none is given.
const COUNTRY: &str = "1";

/// How many seconds old a PASSporT may be.
#[tactic(auto, using(crate::proofs::OrderLaws::within_a_day))]
pub(crate) fn past_of(given: &ArgMatches<'_>) -> Option<u64>
    ensures exact { result ≡ past_of (values_in given.now) }
    ensures within { IfSome result (λ past. past ≤ 86400) }
{
    match given.get_str("past") {
        Some(text) => read_number(text.as_bytes(), DAY),
        None => Some(PAST),
    }
}

/// How many seconds the `iat` of a PASSporT may be ahead.
#[tactic(auto, using(crate::proofs::OrderLaws::within_a_day))]
pub(crate) fn future_of(given: &ArgMatches<'_>) -> Option<u64>
    ensures exact { result ≡ future_of (values_in given.now) }
    ensures within { IfSome result (λ future. future ≤ 86400) }
{
    match given.get_str("future") {
        Some(text) => read_number(text.as_bytes(), DAY),
        None => Some(FUTURE),
    }
}

/// How many workers there are: 1 to 8.
#[tactic(auto, using(crate::proofs::OrderLaws::within_eight))]
pub(crate) fn workers_of(given: &ArgMatches<'_>) -> Option<u64>
    ensures exact { result ≡ workers_of (values_in given.now) }
    ensures some { IfSome result (λ workers. 1 ≤ workers) }
    ensures few { IfSome result (λ workers. workers ≤ 8) }
{
    let Some(text) = given.get_str("workers") else {
        return Some(WORKERS);
    };
    match read_number(text.as_bytes(), MOST_WORKERS) {
        Some(0) => None,
        number => number,
    }
}

/// The seed of a drill.
pub(crate) fn seed_of(given: &ArgMatches<'_>) -> Option<u64>
    ensures { result ≡ seed_of (values_in given.now) }
{
    match given.get_str("seed") {
        Some(text) => read_number(text.as_bytes(), LAST_SEED),
        None => None,
    }
}

/// How many calls a drill has: at most 100,000.
#[tactic(auto, using(crate::proofs::OrderLaws::within_memory))]
pub(crate) fn count_of(given: &ArgMatches<'_>) -> Option<u32>
    ensures exact { result ≡ count_of (values_in given.now) }
    ensures within { IfSome result (λ count. count ≤ 100000) }
{
    match given.get_str("count") {
        Some(text) => call_count(text),
        None => None,
    }
}

/// The number of at most 100,000 that a text writes.
#[tactic(auto, using(crate::proofs::OrderLaws::is_count))]
fn call_count(text: &str) -> Option<u32>
    ensures { result ≡ number_up_to 100000 text.now }
{
    match read_number(text.as_bytes(), MOST_CALLS) {
        Some(number) => Some(number as u32),
        None => None,
    }
}

/// How many slots a level of a desk has: 1 to 1,048,576.
#[tactic(auto, using(crate::proofs::OrderLaws::within_level))]
pub(crate) fn size_of(given: &ArgMatches<'_>) -> Option<u32>
    ensures exact { result ≡ size_of (values_in given.now) }
    ensures some { IfSome result (λ size. 1 ≤ size) }
    ensures few { IfSome result (λ size. size ≤ 1048576) }
{
    let Some(text) = given.get_str("size") else {
        return None;
    };
    match slot_count(text) {
        Some(0) => None,
        number => number,
    }
}

/// The number of at most 1,048,576 that a text writes.
#[tactic(auto, using(crate::proofs::OrderLaws::is_slots))]
fn slot_count(text: &str) -> Option<u32>
    ensures { result ≡ number_up_to 1048576 text.now }
{
    match read_number(text.as_bytes(), MOST_SLOTS) {
        Some(number) => Some(number as u32),
        None => None,
    }
}

/// The local numbering: the country's digits and the length of national numbers have to fit each other.
pub(crate) fn local_of(given: &ArgMatches<'_>) -> Option<Local>
    ensures { result ≡ local_in (values_in given.now) }
{
    let Some(national) = national_of(given) else {
        return None;
    };
    Local::new(country_of(given).as_bytes(), national)
}

/// The country's digits, as they are given.
fn country_of<'a>(given: &ArgMatches<'a>) -> &'a str
    ensures { result.now ≡ country_of (values_in given.now) }
{
    match given.get_str("country") {
        Some(text) => text,
        None => COUNTRY,
    }
}

/// How many digits a national number has.
fn national_of(given: &ArgMatches<'_>) -> Option<u8>
    ensures { result ≡ national_of (values_in given.now) }
{
    match given.get_str("national") {
        Some(text) => digit_count(text),
        None => Some(NATIONAL),
    }
}

/// The number of at most 14 that a text writes.
#[tactic(auto, using(crate::proofs::OrderLaws::is_small))]
fn digit_count(text: &str) -> Option<u8>
    ensures { result ≡ number_up_to 14 text.now }
{
    match read_number(text.as_bytes(), MOST_NATIONAL) {
        Some(number) => Some(number as u8),
        None => None,
    }
}

/// The name of the key, 1 to 64 bytes.
pub(crate) fn key_of<'a>(given: &ArgMatches<'a>) -> Option<&'a str>
    ensures { option_copied result ≡ key_of (values_in given.now) }
{
    match given.get_str("key") {
        Some(text) => key_in(text),
        None => None,
    }
}

/// The text, if it is the name of a key.
fn key_in(text: &str) -> Option<&str>
    ensures { option_copied result ≡ text_if is_key text.now }
{
    if is_key(text.as_bytes()) {
        Some(text)
    } else {
        None
    }
}

/// Whether a text can be the name of a key: 1 to 64 bytes of its alphabet.
#[tactic(auto, unfolding(crate::specs::Values::is_key))]
fn is_key(text: &[u8]) -> bool
    ensures { result ≡ is_key text.now }
{
    match text.len() {
        1..=64 => are_key_bytes(text),
        _ => false,
    }
}

/// Whether all bytes may be in the name of a key.
fn are_key_bytes(text: &[u8]) -> bool
    ensures { result ≡ list_all is_key_byte text.now }
{
    text.iter().all(|byte| is_key_byte(*byte))
}

/// Whether a byte may be in the name of a key: visible ASCII other than `;`, `,`, `"`, `<`, `>` and backslash.
fn is_key_byte(byte: u8) -> bool
    ensures { result ≡ is_key_byte byte }
{
    is_uri_byte(byte) && !matches!(byte, b';' | b',')
}

/// The URI of the key's certificates.
pub(crate) fn x5u_of<'a>(given: &ArgMatches<'a>) -> Option<&'a str>
    ensures { option_copied result ≡ x5u_of (values_in given.now) }
{
    match given.get_str("x5u") {
        Some(text) => uri_in(text),
        None => None,
    }
}

/// The text, if it is the URI of a certificate.
fn uri_in(text: &str) -> Option<&str>
    ensures { option_copied result ≡ text_if is_uri text.now }
{
    if is_uri(text.as_bytes()) {
        Some(text)
    } else {
        None
    }
}

/// When it is signed, in Unix seconds.
pub(crate) fn iat_of(given: &ArgMatches<'_>) -> Option<u64>
    ensures { result ≡ iat_of (values_in given.now) }
{
    match given.get_str("iat") {
        Some(text) => read_number(text.as_bytes(), LAST_SECOND),
        None => None,
    }
}

/// When the call came, in Unix seconds.
pub(crate) fn moment_of(given: &ArgMatches<'_>) -> Option<u64>
    ensures { result ≡ moment_of (values_in given.now) }
{
    match given.get_str("moment") {
        Some(text) => read_number(text.as_bytes(), LAST_SECOND),
        None => None,
    }
}

/// The number that was called before the diversion.
pub(crate) fn earlier_of(given: &ArgMatches<'_>) -> Option<Number>
    ensures { result ≡ earlier_of (values_in given.now) }
{
    match given.get_str("earlier") {
        Some(text) => Number::exact(text.as_bytes()),
        None => None,
    }
}

/// The form of the PASSporT, with the attestation and the identifier of the call for `shaken` alone.
pub(crate) fn form_of(given: &ArgMatches<'_>) -> Option<Form>
    ensures { result ≡ form_of (values_in given.now) }
{
    match given.get_str("form") {
        Some(form) => form_by(form, given.get_str("attest"), given.get_str("origid")),
        None => None,
    }
}

/// The form of that name; the attestation and the identifier are given exactly with `shaken`.
fn form_by(form: &str, attest: Option<&str>, origid: Option<&str>) -> Option<Form>
    ensures { result ≡ form_by form.now (option_copied attest.entry) (option_copied origid.entry) }
{
    match (attest, origid) {
        (Some(attest), Some(origid)) if form == "shaken" => shaken_by(attest, origid),
        (None, None) => plain_by(form),
        _ => None,
    }
}

/// The form of that name, without an attestation and an identifier.
fn plain_by(form: &str) -> Option<Form>
    ensures { result ≡ plain_by form.now }
{
    match form {
        "base" => Some(Form::Base),
        "compact" => Some(Form::Compact),
        _ => None,
    }
}

/// `shaken` with this attestation and this identifier.
fn shaken_by(attest: &str, origid: &str) -> Option<Form>
    ensures { result ≡ shaken_by attest.now origid.now }
{
    let Some(attest) = Attest::of(attest) else {
        return None;
    };
    let Some(origid) = origid_of(origid) else {
        return None;
    };
    Some(Form::Shaken { attest, origid })
}

/// The identifier of the call that a text is.
fn origid_of(text: &str) -> Option<[u8; 36]>
    ensures { result ≡ text_if is_origid text.now }
{
    if !is_origid(text.as_bytes()) {
        return None;
    }
    match <[u8; 36]>::try_from(text.as_bytes()) {
        Ok(origid) => Some(origid),
        Err(_) => None,
    }
}
