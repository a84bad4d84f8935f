//! BIT STRINGs (X.690, sections 8.6 and 11.2.1).

ghost use Rattle.std.specs.Prelude.{◌≡◌, ℕ, ◌+◌, ◌*◌, ◌%◌, ◌^◌, ◌<◌, ◌≤◌, ◌==◌, ◌&&◌, nat_lt, List, length, IfOk};
ghost use Rattle.std.specs.Prelude.{IfErr, IsOkAnd, Ok};
ghost use Rattle.std.specs.Int.{w16, reverse_bits};
ghost use Rattle.der_reader.specs.Fault.{bad_value};
ghost use Rattle.der_reader.specs.Elem.{AllBytes};
ghost use Rattle.der_reader.specs.BitString.{BitText, FlagsText, bits_of, bits_view, flags_in, flags_of};

use crate::element::Der;
use crate::fault::DerFault;
use crate::tags::BIT_STRING;

impl<'a> Der<'a> {
    /// The bytes of a BIT STRING with no unused bits; anything else is `VALUE` at 0.
    #[tactic(auto, unfolding(crate::specs::BitString::bits_of))]
    pub fn bits(&self) -> Result<&'a [u8], DerFault>
        ensures exact { bits_view result ≡ bits_of self.now.tag self.now.content.now }
        ensures found { IfOk result (λ bits. (self.now.tag ≡ 3) × BitText self.now.content.now 0 bits.now) }
        ensures only { (bytes : List ℕ) → self.now.tag ≡ 3 → BitText self.now.content.now 0 bytes
            → IsOkAnd result (λ bits. bits.now ≡ bytes) }
        ensures fault { IfErr result (λ fault. fault ≡ bad_value) }
    {
        match self.content {
            [0, bits @ ..] if self.tag == BIT_STRING => Ok(bits),
            _ => Err(DerFault::value()),
        }
    }

    /// A BIT STRING of at most 16 bits as a number: bit i of the string, counted from its first, is
    /// bit i of the number, counted from its lowest, and the bits past the string's end are 0.
    ///
    /// Anything else is `VALUE` at 0: another tag, more bits, more than 7 unused bits, unused bits
    /// that aren't zero, or unused bits of an empty string.
    pub fn flags(&self) -> Result<u16, DerFault>
        ensures exact { result ≡ flags_of self.now.tag self.now.content.now }
        ensures found { IfOk result (λ flags. (self.now.tag ≡ 3) × FlagsText self.now.content.now flags) }
        ensures only { (flags : ℕ) → self.now.tag ≡ 3 → FlagsText self.now.content.now flags
            → flags < 2 ^ 16 → result ≡ Ok flags }
        ensures fault { IfErr result (λ fault. fault ≡ bad_value) }
    {
        if self.tag == BIT_STRING {
            flags_in(self.content)
        } else {
            Err(DerFault::value())
        }
    }
}

/// The flags of a BIT STRING's content.
#[tactic(auto, unfolding(crate::specs::BitString::flags_in))]
fn flags_in(content: &[u8]) -> Result<u16, DerFault>
    ensures exact { result ≡ flags_in content.now }

    // The laws of single bits rest on this.
    ensures octets { AllBytes content.now }

    ensures fault { IfErr result (λ fault. fault ≡ bad_value) }
{
    match content {
        [0] => Ok(0),
        [unused, first] if ends_in_zeros(*first, *unused) => Ok(flags_of_bytes(*first, 0)),
        [unused, first, second] if ends_in_zeros(*second, *unused) => {
            Ok(flags_of_bytes(*first, *second))
        }
        _ => Err(DerFault::value()),
    }
}

/// Whether `unused` is at most 7, and so many of the last bits are zero.
fn ends_in_zeros(byte: u8, unused: u8) -> bool
    ensures { result ≡ (nat_lt unused 8 && (byte % 2 ^ unused == 0)) }
{
    unused < 8 && byte % (1 << unused) == 0
}

/// The bits of two bytes, from the highest of the first on, as bits 0 to 15 of a number.
fn flags_of_bytes(first: u8, second: u8) -> u16
    ensures { result ≡ reverse_bits w16 (first * 0x100 + second) }
{
    (u16::from(first) * 0x100 + u16::from(second)).reverse_bits()
}
