//! From a text to its canonical number.
ghost use Rattle.std.specs.Prelude.{◌≡◌, IsTrue, IfSome, Some};
ghost use Rattle.std.specs.Option.{option_map};
ghost use Rattle.tn_values.specs.Number.{exact};
ghost use Rattle.tn_values.specs.Canon.{Canon, is_national, with_country};

use crate::alphabet::are_digits;
use crate::kept::{Kept, kept_of};
use crate::numbering::Local;
use crate::numbers::Number;

/// The canonical number that a text stands for, or None if there is none. Most texts have no separators, and are read
/// as they stand.
pub(crate) fn canonical(text: &[u8], local: &Local) -> Option<Number>
    ensures { result ≡ Canon text.now local.now }
{
    match as_it_stands(text, local) {
        Some(number) => Some(number),
        None => without_separators(text, local),
    }
}

/// The number of a text without separators, or None if it has some or stands for none.
#[tactic(auto, using(crate::proofs::CanonLaws::stands_after_plus, crate::proofs::CanonLaws::stands_plainly))]
fn as_it_stands(text: &[u8], local: &Local) -> Option<Number>
    ensures { IfSome result (λ number. Canon text.now local.now ≡ Some number) }
{
    match text.split_first() {
        Some((first, rest)) if *first == b'+' => Number::exact(rest),
        _ => completed(text, local),
    }
}

/// The canonical number that a text with separators stands for, or None if there is none.
#[tactic(auto, unfolding(crate::specs::Canon::Canon, crate::specs::Number::is_number))]
fn without_separators(text: &[u8], local: &Local) -> Option<Number>
    ensures { result ≡ Canon text.now local.now }
{
    let Some(kept) = kept_of(text) else {
        return None;
    };
    match kept.bytes() {
        [] => None,
        [b'+', rest @ ..] => Number::exact(rest),
        number => completed(number, local),
    }
}

/// The number of a text without `+`: with the country's digits before it if it is national.
fn completed(text: &[u8], local: &Local) -> Option<Number>
    ensures { result ≡ option_map (with_country local.now) (exact text.now) }
{
    if is_national(text, local) {
        national_number(text, local)
    } else {
        Number::exact(text)
    }
}

/// Whether a text is digits alone, as many as a national number has.
fn is_national(text: &[u8], local: &Local) -> bool
    ensures { result ≡ is_national text.now local.now }
{
    text.len() == usize::from(local.national()) && are_digits(text)
}

/// The number of a national one: the country's digits and then its own.
#[tactic(auto, unfolding(crate::specs::Local::is_local, crate::specs::Number::is_number))]
fn national_number(text: &[u8], local: &Local) -> Option<Number>
    requires { IsTrue (is_national text.now local.now) }
    ensures { result ≡ option_map (with_country local.now) (exact text.now) }
{
    let country = local.country();
    let mut number = Kept::new();
    number.extend(country.bytes());
    number.extend(text);
    Number::exact(number.bytes())
}
