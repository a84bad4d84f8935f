//! The numbers of the rules by which a call is judged by itself.
ghost use Rattle.std.specs.List.{prefix_len};
ghost use Rattle.std.specs.Prelude.{◌≡◌, nat_lt};
ghost use Rattle.call_judging.specs.RuleNumbers.{numbers_before};

/// The rules, in the order in which they are tried: on what the call itself says, on the chains of its PASSporTs, and
/// on the signatures with what comes after them. Rule 18, the one on replay, looks at other calls.
pub const RULES: [u8; 18] = [
    1, 2, 3, 4, 5, 6, 7, 8, 9, 10, 11, 12, 13, 14, 15, 16, 17, 19,
];

/// The first that looks at a file.
pub const FIRST_ON_FILES: u8 = 10;

/// The first that asks for a signature.
pub const FIRST_ON_SIGNATURES: u8 = 15;

/// The rules that are tried before the one of this number.
pub(crate) fn numbers_before(rule: u8) -> &'static [u8]
    ensures { result.now ≡ numbers_before rule }
{
    let count = count_before(&RULES, rule);
    &RULES[..count]
}

/// How many numbers the list begins with that are less than this one.
fn count_before(numbers: &[u8], rule: u8) -> usize
    ensures { result ≡ prefix_len (λ n. nat_lt n rule) numbers.now }
{
    numbers.iter().take_while(|number| **number < rule).count()
}
