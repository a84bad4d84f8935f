ghost use Rattle.std.specs.Prelude.{◌≡◌, ℕ, ◌≤◌, ◌^◌, ◌<◌, Some, IfSome};
ghost use Rattle.std.specs.Char.{is_ascii_digit};
ghost use Rattle.std.specs.List.{list_all};
ghost use Rattle.std.specs.Fmt.{decimal};
ghost use Rattle.text_grammar.specs.Decimal.{is_decimal, number_up_to};

use std::str;

/// The number that a text of decimal digits writes, without a sign and without a leading zero except in `0` itself;
/// `None` if the text is none, or the number is above `most`.
#[tactic(auto, using(crate::proofs::DecimalLaws::number_written, crate::proofs::DecimalLaws::number_only))]
pub fn read_number(text: &[u8], most: u64) -> Option<u64>
    ensures exact { result ≡ number_up_to most text.now }
    ensures written { IfSome result (λ n. text.now ≡ decimal n) }
    ensures only { (n : ℕ) → n ≤ most → text.now ≡ decimal n → result ≡ Some n }
{
    parsed(text, most)
}

/// The number, if the text is one and it is no more than `most`.
#[tactic(auto, using(crate::proofs::DecimalLaws::is_text))]
fn parsed(text: &[u8], most: u64) -> Option<u64>
    ensures { result ≡ number_up_to most text.now }
{
    if !is_decimal(text) {
        return None;
    }
    let Ok(digits) = str::from_utf8(text) else {
        return None;
    };
    match digits.parse::<u64>() {
        Ok(number) if number <= most => Some(number),
        _ => None,
    }
}

/// Whether a text is digits without a leading zero.
fn is_decimal(text: &[u8]) -> bool
    ensures { result ≡ is_decimal text.now }
{
    match text {
        [] | [b'0', _, ..] => false,
        _ => all_digits(text),
    }
}

/// Whether all bytes are digits.
fn all_digits(text: &[u8]) -> bool
    ensures { result ≡ list_all is_ascii_digit text.now }
{
    text.iter().all(|byte| byte.is_ascii_digit())
}
