//! INTEGERs that aren't negative (X.690, section 8.3).

ghost use Rattle.std.specs.Prelude.{◌≡◌, ℕ, ◌+◌, ◌-◌, ◌*◌, ◌^◌, ◌<◌, ◌≤◌, List, ◌++◌, length, take, replicate, IfOk};
ghost use Rattle.std.specs.Prelude.{IfErr, IsOkAnd, Ok, Err, Some, None, nat_lt, if◌then◌else◌};
ghost use Rattle.der_reader.specs.Fault.{bad_value};
ghost use Rattle.der_reader.specs.Integer.{IntegerText, big_endian, is_integer_text, magnitude, scalar_of, unsigned_of};

use crate::element::Der;
use crate::fault::DerFault;
use crate::tags::INTEGER;

impl<'a> Der<'a> {
    /// The number of an INTEGER from 0 up to 2^64 - 1 in its fewest bytes.
    ///
    /// Anything else is `VALUE` at 0: another tag, no content, a negative or a larger number, or a
    /// first byte 00 that isn't needed.
    #[tactic(auto, unfolding(crate::specs::Integer::unsigned_of))]
    pub fn unsigned(&self) -> Result<u64, DerFault>
        ensures exact { result ≡ unsigned_of self.now.tag self.now.content.now }
        ensures found { IfOk result (λ number. (self.now.tag ≡ 2) × IntegerText self.now.content.now number) }
        ensures only { (number : ℕ) → self.now.tag ≡ 2 → IntegerText self.now.content.now number
            → number < 2 ^ 64 → result ≡ Ok number }
        ensures fault { IfErr result (λ fault. fault ≡ bad_value) }
    {
        if self.tag != INTEGER || !is_minimal(self.content) {
            return Err(DerFault::value());
        }
        number(self.content).ok_or(DerFault::value())
    }

    /// The number of an INTEGER from 0 up to 2^256 - 1 in its fewest bytes, as 32 bytes, the highest
    /// first.
    ///
    /// Anything else is `VALUE` at 0, as in `unsigned`.
    #[tactic(auto, unfolding(crate::specs::Integer::scalar_of))]
    pub fn scalar(&self) -> Result<[u8; 32], DerFault>
        ensures exact { result ≡ scalar_of self.now.tag self.now.content.now }
        ensures found { IfOk result (λ bytes. (self.now.tag ≡ 2) × (length bytes ≡ 32)
            × IntegerText self.now.content.now (big_endian bytes)) }
        ensures only { (number : ℕ) → self.now.tag ≡ 2 → IntegerText self.now.content.now number
            → number < 2 ^ 256 → IsOkAnd result (λ bytes. big_endian bytes ≡ number) }
        ensures fault { IfErr result (λ fault. fault ≡ bad_value) }
    {
        if self.tag != INTEGER || !is_minimal(self.content) {
            return Err(DerFault::value());
        }
        let digits = without_sign(self.content);
        if digits.len() > 32 {
            return Err(DerFault::value());
        }
        let bytes = padded(digits);
        Ok(bytes)
    }
}

/// Whether some content is that of a number from 0 on, in its fewest bytes.
fn is_minimal(content: &[u8]) -> bool
    ensures { result ≡ is_integer_text content.now }
{
    match content {
        [0, second, ..] => *second >= 0x80,
        [0..=0x7F, ..] => true,
        _ => false,
    }
}

/// The number that the bytes are, the highest first, if it is below 2^64.
#[tactic(auto, using(crate::proofs::IntegerLaws::front_below))]
fn number(bytes: &[u8]) -> Option<u64>
    ensures { result ≡ (if nat_lt (big_endian bytes.now) (2 ^ 64) then Some (big_endian bytes.now) else None) }
{
    let mut number: u64 = 0;
    for byte in bytes {
        if number > u64::MAX >> 8 {
            return None;
        }
        number = number * 0x100 + u64::from(*byte);
    }
    Some(number)
}

/// The bytes of a number, without the byte 00 that comes before a high bit.
fn without_sign(content: &[u8]) -> &[u8]
    ensures { result.now ≡ magnitude content.now }
{
    match content {
        [0, digits @ ..] if !digits.is_empty() => digits,
        _ => content,
    }
}

/// The bytes after as many zeros as make them 32.
fn padded(digits: &[u8]) -> [u8; 32]
    requires { length digits.now ≤ 32 }
    ensures { result ≡ replicate (32 - length digits.now) 0 ++ digits.now }
{
    let mut bytes = [0; 32];
    bytes[32 - digits.len()..].copy_from_slice(digits);
    bytes
}
