//! A telephone number.
ghost use Rattle.std.specs.Prelude.{◌≡◌, ◌≤◌, ◌∷◌, ℕ, List, length, true, IsTrue, IfSome, Some};
ghost use Rattle.std.specs.Fmt.{padded};
ghost use Rattle.tn_values.specs.Digit.{are_digits};
ghost use Rattle.tn_values.specs.Number.{exact, is_number};
ghost use Rattle.tn_values.specs.Canon.{Canon, plus, without_separators, StandsFor};

use crate::alphabet::is_number;
use crate::numbering::Local;
use crate::reading::canonical;
use short_text::ShortText;
use std::marker::Model;
use std::{fmt, str};

/// A telephone number: 1 to 15 bytes of `0-9 * #` (`TelephoneNumber` of RFC 8226, section 9).
///
/// A contract sees it as the list of its bytes, and equality, order, hash and `{}` are those of this list: `12` comes
/// before `123`, and `123` before `13`.
#[derive(Clone, Copy, PartialEq, Eq, PartialOrd, Ord, Hash)]
pub struct Number {
    text: ShortText<15>,
}

impl Model for Number {
    ghost use Rattle.std.specs.Prelude.{ℕ, List, IsTrue};
    ghost use Rattle.tn_values.specs.Number.{is_number};

    ghost Value = { List ℕ };

    ghost view = { λ n. n.text };

    ghost invariant = { λ n. IsTrue (is_number n.text) };

    ghost inverse = { λ text. record { text = text } };
}

impl Number {
    /// The number that `text` is, byte for byte. None if it isn't 1 to 15 bytes of `0-9 * #`.
    #[tactic(auto, unfolding(crate::specs::Number::is_number))]
    pub fn exact(text: &[u8]) -> Option<Number>
        ensures { result ≡ exact text.now }
    {
        if !is_number(text) {
            return None;
        }
        Some(Number {
            text: ShortText::new(text),
        })
    }

    /// The canonical number that `text` stands for, or None if there is none.
    ///
    /// The bytes `(`, `)`, `-`, `.` and space are dropped. After a leading `+` the text is international and stays as
    /// it is. Otherwise a text of digits alone that is as long as a national number of `local` gets the country's
    /// digits before it, and any other stays as it is. What is left has to be a number: 1 to 15 bytes of `0-9 * #`.
    ///
    /// Texts that differ in the dropped bytes alone are read alike. Every number is read from its bytes after a `+`. It
    /// is also read from its bytes alone, unless they are digits and as many as a national number of `local` has.
    pub fn read(text: &[u8], local: &Local) -> Option<Number>
        ensures canonical { result ≡ Canon text.now local.now }
        ensures number { IfSome result (λ number. IsTrue (is_number number)) }
        ensures ways { IfSome result (λ number. StandsFor text.now local.now number) }
        ensures only { (number : List ℕ) → StandsFor text.now local.now number → result ≡ Some number }
        ensures separators { (other : List ℕ) → without_separators other ≡ without_separators text.now
            → Canon other local.now ≡ result }
        ensures international { (number : List ℕ) → is_number number ≡ true → text.now ≡ plus ∷ number
            → result ≡ Some number }
        ensures plain { is_number text.now ≡ true
            → (are_digits text.now ≡ true → length text.now ≡ local.now.national → ⊥) → result ≡ Some text.now }
    {
        canonical(text, local)
    }

    /// The bytes of the number, 1 to 15 of `0-9 * #`.
    #[tactic(auto, unfolding(crate::specs::Number::is_number))]
    pub fn bytes(&self) -> &[u8]
        ensures value { result.now ≡ self.now }
        ensures number { IsTrue (is_number self.now) }
        ensures some { 1 ≤ length self.now }
        ensures short { length self.now ≤ 15 }
        ensures again { exact self.now ≡ Some self.now }
    {
        self.text.bytes()
    }

    /// The number as text, 1 to 15 characters of `0-9 * #`.
    pub fn as_str(&self) -> &str
        ensures value { result.now ≡ self.now }
        ensures number { IsTrue (is_number self.now) }
    {
        match str::from_utf8(self.bytes()) {
            Ok(text) => text,
            Err(_) => unreachable!(),
        }
    }
}

impl fmt::Display for Number {
    ghost output = { λ number. Some number };

    ghost styled_output = { λ number spec. Some (padded spec number) };

    fn fmt<W: fmt::Write>(&self, f: &mut fmt::Formatter<W>) -> fmt::Result {
        f.pad(self.as_str())
    }
}

impl fmt::Debug for Number {
    fn fmt<W: fmt::Write>(&self, f: &mut fmt::Formatter<W>) -> fmt::Result {
        f.debug_tuple("Number").field(&self.as_str()).finish()
    }
}
