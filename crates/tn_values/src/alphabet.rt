//! Which bytes may be in numbers.
ghost use Rattle.std.specs.Prelude.{◌≡◌};
ghost use Rattle.tn_values.specs.Canon.{is_separator};
ghost use Rattle.tn_values.specs.Digit.{is_digit, are_digits};
ghost use Rattle.tn_values.specs.Number.{is_number_byte, is_number};
ghost use Rattle.std.specs.List.{list_all};

/// Whether a byte may be in a number: `0-9 * #`.
fn is_number_byte(byte: u8) -> bool
    ensures { result ≡ is_number_byte byte }
{
    matches!(byte, b'0'..=b'9' | b'*' | b'#')
}

/// Whether a byte is dropped before a number is read: `(`, `)`, `-`, `.` or space.
pub(crate) fn is_separator(byte: u8) -> bool
    ensures { result ≡ is_separator byte }
{
    matches!(byte, b'(' | b')' | b'-' | b'.' | b' ')
}

/// Whether all bytes are digits.
pub(crate) fn are_digits(text: &[u8]) -> bool
    ensures { result ≡ are_digits text.now }
{
    text.iter().all(|byte| byte.is_ascii_digit())
}

/// Whether all bytes may be in a number.
fn are_number_bytes(text: &[u8]) -> bool
    ensures { result ≡ list_all is_number_byte text.now }
{
    text.iter().all(|byte| is_number_byte(*byte))
}

/// Whether a text is a number: 1 to 15 bytes of `0-9 * #`.
#[tactic(auto, unfolding(crate::specs::Number::is_number))]
pub(crate) fn is_number(text: &[u8]) -> bool
    ensures { result ≡ is_number text.now }
{
    match text.len() {
        1..=15 => are_number_bytes(text),
        _ => false,
    }
}
