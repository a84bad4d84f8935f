//! The places of numbers of digits alone.
ghost use Rattle.std.specs.Prelude.{◌≡◌, ◌+◌, ◌^◌, ◌<◌, ◌≤◌, length, IsTrue, IfSome};
ghost use Rattle.tn_values.specs.Digit.{are_digits};
ghost use Rattle.tn_values.specs.Number.{is_number};
ghost use Rattle.tn_values.specs.Sides.{rank_in};
ghost use Rattle.tn_values.specs.Span.{value_of};

use crate::alphabet::are_digits;
use crate::numbers::Number;

/// The place of a number of digits alone: how many digits it has, and its value.
#[derive(Clone, Copy)]
pub(crate) struct Place {
    pub(crate) digits: usize,
    pub(crate) value: u64,
}

impl Place {
    ghost use Rattle.tn_values.specs.Place.{place_of};

    /// The place of a number, or None if a byte of it is no digit.
    #[tactic(auto, unfolding(crate::specs::Number::is_number))]
    pub(crate) fn of(number: &Number) -> Option<Place>
        ensures value { result ≡ place_of number.now }
        ensures number { IsTrue (is_number number.now) }
    {
        let bytes = number.bytes();
        if !are_digits(bytes) {
            return None;
        }
        Some(Place {
            digits: bytes.len(),
            value: value_of(bytes),
        })
    }
}

/// The rank of a number of digits alone among all such numbers, which go by length and then by value.
pub(crate) fn rank_of(number: &Number) -> Option<u64>
    ensures { result ≡ rank_in number.now }
{
    let bytes = number.bytes();
    if !are_digits(bytes) {
        return None;
    }
    Some(numbers_of(bytes.len()) + value_of(bytes))
}

/// How many numbers of so many digits there are.
pub(crate) fn numbers_of(digits: usize) -> u64
    requires { digits ≤ 15 }
    ensures value { result ≡ 10 ^ digits }
    ensures short { result ≤ 10 ^ 15 }
{
    10_u64.pow(digits as u32)
}

/// The decimal value of up to 15 digits.
pub(crate) fn value_of(digits: &[u8]) -> u64
    requires digits { IsTrue (are_digits digits.now) }
    requires short { length digits.now ≤ 15 }
    ensures value { result ≡ value_of digits.now }
    ensures below { result < 10 ^ length digits.now }
{
    let mut value = 0;
    for digit in digits {
        value = value * 10 + u64::from(*digit - b'0');
    }
    value
}
