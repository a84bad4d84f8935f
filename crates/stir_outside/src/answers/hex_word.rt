//! Words of hex digits.
ghost use Rattle.std.specs.Prelude.{◌≡◌};
ghost use Rattle.hex.specs.Hex.{hex_digit_value};
ghost use Rattle.stir_outside.specs.AnswersText.{byte_of, bytes_of};

/// The value of each byte as a hex digit of either case, and 255 for a byte that is none.
static DIGITS: [u8; 256] = [
    255, 255, 255, 255, 255, 255, 255, 255, 255, 255, 255, 255, 255, 255, 255, 255, 255, 255, 255,
    255, 255, 255, 255, 255, 255, 255, 255, 255, 255, 255, 255, 255, 255, 255, 255, 255, 255, 255,
    255, 255, 255, 255, 255, 255, 255, 255, 255, 255, 0, 1, 2, 3, 4, 5, 6, 7, 8, 9, 255, 255, 255,
    255, 255, 255, 255, 10, 11, 12, 13, 14, 15, 255, 255, 255, 255, 255, 255, 255, 255, 255, 255,
    255, 255, 255, 255, 255, 255, 255, 255, 255, 255, 255, 255, 255, 255, 255, 255, 10, 11, 12, 13,
    14, 15, 255, 255, 255, 255, 255, 255, 255, 255, 255, 255, 255, 255, 255, 255, 255, 255, 255,
    255, 255, 255, 255, 255, 255, 255, 255, 255, 255, 255, 255, 255, 255, 255, 255, 255, 255, 255,
    255, 255, 255, 255, 255, 255, 255, 255, 255, 255, 255, 255, 255, 255, 255, 255, 255, 255, 255,
    255, 255, 255, 255, 255, 255, 255, 255, 255, 255, 255, 255, 255, 255, 255, 255, 255, 255, 255,
    255, 255, 255, 255, 255, 255, 255, 255, 255, 255, 255, 255, 255, 255, 255, 255, 255, 255, 255,
    255, 255, 255, 255, 255, 255, 255, 255, 255, 255, 255, 255, 255, 255, 255, 255, 255, 255, 255,
    255, 255, 255, 255, 255, 255, 255, 255, 255, 255, 255, 255, 255, 255, 255, 255, 255, 255, 255,
    255, 255, 255, 255, 255, 255, 255, 255, 255, 255, 255, 255, 255, 255, 255, 255, 255, 255, 255,
    255, 255, 255,
];

/// The value of a hex digit of either case.
#[tactic(auto, using(crate::proofs::HexWords::is_digit, crate::proofs::HexWords::no_digit))]
fn digit(byte: u8) -> Option<u8>
    ensures { result ≡ hex_digit_value byte }
{
    let value = DIGITS[byte as usize];
    if value < 16 { Some(value) } else { None }
}

/// The byte that two hex digits write.
#[tactic(auto, using(crate::proofs::HexWords::digit_small))]
fn byte_of(high: u8, low: u8) -> Option<u8>
    ensures { result ≡ byte_of high low }
{
    let Some(high) = digit(high) else {
        return None;
    };
    let Some(low) = digit(low) else {
        return None;
    };
    Some(high * 16 + low)
}

/// The bytes that a word of 2 N hex digits writes, by a table of digits: an answers file has 322 of them a call.
#[tactic(auto, using(crate::proofs::HexWords::other_size, crate::proofs::HexWords::none_decoded, crate::proofs::HexWords::pair_bad))]
pub(crate) fn bytes_of<const N: usize>(word: &[u8]) -> Option<[u8; N]>
    ensures { result ≡ bytes_of N word.now }
{
    if word.len() % 2 != 0 || word.len() / 2 != N {
        return None;
    }
    let mut bytes = [0; N];
    'bytes: for i in 0..N {
        let Some(byte) = byte_of(word[2 * i], word[2 * i + 1]) else {
            return None;
        };
        bytes[i] = byte;
    }
    Some(bytes)
}
