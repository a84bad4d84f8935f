//! Service provider codes.
ghost use Rattle.std.specs.Prelude.{◌≡◌, ◌≤◌, length, IsTrue, Some, refl};
ghost use Rattle.std.specs.Ordering.{nat_cmp};
ghost use Rattle.std.specs.Cmp.Lexicographic.{slice_cmp, nat_list_cmp_total, texts_ties, texts_po};
ghost use Rattle.std.specs.List.{list_all};
ghost use Rattle.std.specs.Fmt.{padded};
ghost use Rattle.tn_auth_list.specs.Code.{code_of, is_code, is_code_byte};

use short_text::ShortText;
use std::cmp::Ordering;
use std::marker::Model;
use std::{fmt, str};

/// A service provider code: 1 to 32 bytes of visible ASCII, 0x21 to 0x7E (`ServiceProviderCode` of RFC 8226, section
/// 9).
///
/// That a code is no longer than 32 bytes and has no blank is this project's own rule. A contract sees the code as the
/// list of its bytes, and equality, order, hash and `{}` are those of this list: `12` comes before `123`, and `123`
/// before `13`.
#[derive(Clone, Copy, PartialEq, Eq, Hash)]
pub struct Code {
    text: ShortText<32>,
}

impl Model for Code {
    ghost use Rattle.std.specs.Prelude.{ℕ, List, IsTrue};
    ghost use Rattle.tn_auth_list.specs.Code.{is_code};

    ghost Value = { List ℕ };

    ghost view = { λ c. c.text };

    ghost invariant = { λ c. IsTrue (is_code c.text) };

    ghost inverse = { λ text. record { text = text } };
}

impl Code {
    /// The code that `text` is, byte for byte. None if it isn't 1 to 32 bytes from 0x21 to 0x7E.
    #[tactic(auto, unfolding(crate::specs::Code::is_code))]
    pub fn new(text: &[u8]) -> Option<Code>
        ensures { result ≡ code_of text.now }
    {
        match text.len() {
            1..=32 if are_code_bytes(text) => Some(Code {
                text: ShortText::new(text),
            }),
            _ => None,
        }
    }

    /// The bytes of the code, 1 to 32 from 0x21 to 0x7E.
    #[tactic(auto, unfolding(crate::specs::Code::is_code))]
    pub fn bytes(&self) -> &[u8]
        ensures value { result.now ≡ self.now }
        ensures code { IsTrue (is_code self.now) }
        ensures some { 1 ≤ length self.now }
        ensures short { length self.now ≤ 32 }
        ensures again { code_of self.now ≡ Some self.now }
    {
        self.text.bytes()
    }

    /// The code as text, 1 to 32 visible ASCII characters.
    pub fn as_str(&self) -> &str
        ensures { result.now ≡ self.now }
    {
        match str::from_utf8(self.bytes()) {
            Ok(text) => text,
            Err(_) => unreachable!(),
        }
    }
}

impl PartialOrd for Code {
    ghost partial_cmp = { λ a b. Some (slice_cmp nat_cmp a b) };

    ghost laws = { texts_po };

    fn partial_cmp(&self, other: &Code) -> Option<Ordering> {
        Some(self.cmp(other))
    }
}

/// By the bytes, as slices are ordered. It isn't derived, so that contracts of maps by code name this order.
impl Ord for Code {
    ghost cmp = { slice_cmp nat_cmp };

    ghost total = { nat_list_cmp_total };

    ghost matches_partial_cmp = { λ a b. refl };

    ghost matches_eq = { texts_ties };

    fn cmp(&self, other: &Code) -> Ordering {
        self.text.cmp(&other.text)
    }
}

impl fmt::Display for Code {
    ghost output = { λ code. Some code };

    ghost styled_output = { λ code spec. Some (padded spec code) };

    fn fmt<W: fmt::Write>(&self, f: &mut fmt::Formatter<W>) -> fmt::Result {
        f.pad(self.as_str())
    }
}

impl fmt::Debug for Code {
    fn fmt<W: fmt::Write>(&self, f: &mut fmt::Formatter<W>) -> fmt::Result {
        f.debug_tuple("Code").field(&self.as_str()).finish()
    }
}

/// Whether all bytes may be in a code.
fn are_code_bytes(text: &[u8]) -> bool
    ensures { result ≡ list_all is_code_byte text.now }
{
    text.iter().all(|byte| is_code_byte(*byte))
}

/// Whether a byte may be in a code.
fn is_code_byte(byte: u8) -> bool
    ensures { result ≡ is_code_byte byte }
{
    matches!(byte, b'!'..=b'~')
}
