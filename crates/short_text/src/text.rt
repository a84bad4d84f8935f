//! A text in a fixed array.
ghost use Rattle.std.specs.Prelude.{◌≡◌, ◌≤◌, length, Some, refl};
ghost use Rattle.std.specs.Ordering.{nat_cmp};
ghost use Rattle.std.specs.Hash as fed;
ghost use Rattle.std.specs.Cmp.Lexicographic.{slice_cmp, nat_list_eq_equiv, nat_list_cmp_total, texts_ties, texts_po};
ghost use Rattle.std.specs.Cmp.{partial_equiv_from_equiv};
ghost use Rattle.std.specs.Cmp.Rules.{hashing};
ghost use Rattle.std.specs.Str.{bytes_eq};
ghost use Rattle.std.proofs.Common.{rules};
ghost use Rattle.short_text.specs.Filled.{filled};

use std::cmp::Ordering;
use std::hash::{Hash, Hasher};
use std::marker::Model;

/// A text of at most `N` bytes, and of at most 255.
///
/// A contract sees it as the list of its bytes, and equality, order and hash are those of this list.
#[derive(Clone, Copy)]
pub struct ShortText<const N: usize> {
    bytes: [u8; N],
    len: u8,
}

impl<const N: usize> Model for ShortText<N> {
    ghost use Rattle.std.specs.Prelude.{ℕ, List, ◌≡◌, take, length, refl};
    ghost use Rattle.short_text.specs.Filled.{filled};

    ghost Value = { List ℕ };

    ghost view = { λ t. take t.len t.bytes };

    ghost invariant = { λ t. (length (take t.len t.bytes) ≡ t.len) × (filled N (take t.len t.bytes) ≡ t.bytes) };

    ghost inverse = { λ text. record { bytes = filled N text; len = length text } };

    ghost inverse_ok = { λ t h. Prim.rw (h.1, h.0) refl };
}

impl<const N: usize> ShortText<N> {
    /// The text of these bytes.
    pub fn new(text: &[u8]) -> ShortText<N>
        requires fits { length text.now ≤ N }
        requires short { length text.now ≤ 255 }
        ensures { result ≡ text.now }
    {
        ShortText {
            bytes: filled(text),
            len: text.len() as u8,
        }
    }

    /// The bytes of the text.
    pub fn bytes(&self) -> &[u8]
        ensures value { result.now ≡ self.now }
        ensures short { length self.now ≤ N }
    {
        &self.bytes[..usize::from(self.len)]
    }
}

impl<const N: usize> PartialEq for ShortText<N> {
    ghost eq = { bytes_eq };

    ghost laws = { partial_equiv_from_equiv nat_list_eq_equiv };

    fn eq(&self, other: &ShortText<N>) -> bool {
        self.bytes() == other.bytes()
    }
}

impl<const N: usize> Eq for ShortText<N> {
    ghost laws = { nat_list_eq_equiv };
}

impl<const N: usize> PartialOrd for ShortText<N> {
    ghost partial_cmp = { λ a b. Some (slice_cmp nat_cmp a b) };

    ghost laws = { texts_po };

    fn partial_cmp(&self, other: &ShortText<N>) -> Option<Ordering> {
        Some(self.cmp(other))
    }
}

/// By the bytes, as slices are ordered: `12` comes before `123`, and `123` before `13`.
impl<const N: usize> Ord for ShortText<N> {
    ghost cmp = { slice_cmp nat_cmp };

    ghost total = { nat_list_cmp_total };

    ghost matches_partial_cmp = { λ a b. refl };

    ghost matches_eq = { texts_ties };

    fn cmp(&self, other: &ShortText<N>) -> Ordering {
        self.bytes().cmp(&other.bytes())
    }
}

impl<const N: usize> Hash for ShortText<N> {
    ghost hash_input = { fed.slice fed.u8 };

    ghost respects_eq = { Prim.search (hashing, rules) };

    fn hash<H: Hasher>(&self, state: &mut H) {
        self.bytes().hash(state);
    }
}

/// The bytes with zeros after them.
fn filled<const N: usize>(text: &[u8]) -> [u8; N]
    requires { length text.now ≤ N }
    ensures { result ≡ filled N text.now }
{
    let mut bytes = [0; N];
    bytes[..text.len()].copy_from_slice(text);
    bytes
}
