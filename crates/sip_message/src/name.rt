//! The name of a header field.
ghost use Rattle.std.specs.Prelude.{◌≡◌};
ghost use Rattle.sip_message.specs.FieldValue.{is_compact_form, is_one_field, is_pair};
ghost use Rattle.sip_message.specs.Known.{is_named};

use crate::known::Known;
use std::marker::Model;

/// The name of a header field, with what it means here: that is found out once, when the field is read. A contract sees
/// the text alone.
#[derive(Debug, Drop)]
pub(crate) struct Name<'a> {
    text: &'a [u8],
    known: Option<Known>,
}

impl<'a> Model for Name<'a> {
    ghost use Rattle.std.specs.Prelude.{◌≡◌, ℕ, List};
    ghost use Rattle.sip_message.specs.Known.{kind_of};

    ghost Value = { List ℕ };

    ghost view = { λ n. n.text.now };

    ghost invariant = { λ n. n.known ≡ kind_of n.text.now };
}

impl<'a> Name<'a> {
    /// This name.
    pub(crate) fn new(text: &'a [u8]) -> Name<'a>
        ensures { result ≡ text.now }
    {
        Name {
            text,
            known: Known::of(text),
        }
    }

    /// Whether a field of this name is such a one.
    #[tactic(auto, using(crate::proofs::KnownLaws::means_known, crate::proofs::KnownLaws::known_means))]
    pub(crate) fn is(&self, known: Known) -> bool
        ensures { result ≡ is_named known self.now }
    {
        self.known == Some(known)
    }

    /// Whether this name and another are one field's.
    pub(crate) fn is_one_with(&self, other: &[u8]) -> bool
        ensures { result ≡ is_one_field other.now self.now }
    {
        is_one_field(other, self.text)
    }
}

/// Whether two names are one field's: they differ in the case of letters alone, or one is the compact form of the
/// other.
fn is_one_field(name: &[u8], other: &[u8]) -> bool
    ensures { result ≡ is_one_field name.now other.now }
{
    name.eq_ignore_ascii_case(other) || is_compact_form(name, other) || is_compact_form(other, name)
}

/// Whether the one is the compact form of the other (RFC 3261, section 20; RFC 8224, section 4, for Identity).
fn is_compact_form(short: &[u8], long: &[u8]) -> bool
    ensures { result ≡ is_compact_form short.now long.now }
{
    is_pair(short, long, b"c", b"Content-Type")
        || is_pair(short, long, b"e", b"Content-Encoding")
        || is_pair(short, long, b"f", b"From")
        || is_pair(short, long, b"i", b"Call-ID")
        || is_pair(short, long, b"k", b"Supported")
        || is_pair(short, long, b"l", b"Content-Length")
        || is_pair(short, long, b"m", b"Contact")
        || is_pair(short, long, b"s", b"Subject")
        || is_pair(short, long, b"t", b"To")
        || is_pair(short, long, b"v", b"Via")
        || is_pair(short, long, b"y", b"Identity")
}

/// Whether this is such a compact form and that its long name, in letters of either case.
fn is_pair(short: &[u8], long: &[u8], form: &[u8], name: &[u8]) -> bool
    ensures { result ≡ is_pair short.now long.now form.now name.now }
{
    short.eq_ignore_ascii_case(form) && long.eq_ignore_ascii_case(name)
}
