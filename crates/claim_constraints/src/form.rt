//! The two forms of texts in constraints.
ghost use Rattle.std.specs.Prelude.{◌≡◌};
ghost use Rattle.std.specs.List.{list_all};
ghost use Rattle.std.specs.Str.{is_utf8};
ghost use Rattle.claim_constraints.specs.Constraints.{is_name, is_visible};
ghost use Rattle.claim_constraints.specs.Form.{kind_of, passes, tag_of};

use crate::fault::ConstraintFault;
use der_reader::tags::IA5_STRING;
use std::str;

/// The tag of a UTF8String (X.690, section 8.1.2).
const UTF8_STRING: u8 = 0x0C;

/// What a text in constraints is.
#[derive(Clone, Copy)]
pub(crate) enum Form {
    /// The name of a claim, an IA5String.
    Name,
    /// A value of one, a UTF8String.
    Value,
}

impl Form {
    /// The tag of its element.
    pub fn tag(self) -> u8
        ensures { result ≡ tag_of self }
    {
        match self {
            Form::Name => IA5_STRING,
            Form::Value => UTF8_STRING,
        }
    }

    /// The kind of the fault of a text that isn't of this form.
    pub fn kind(self) -> u8
        ensures { result ≡ kind_of self }
    {
        match self {
            Form::Name => ConstraintFault::NAME,
            Form::Value => ConstraintFault::VALUE,
        }
    }

    /// Whether a text is of this form.
    pub fn passes(self, text: &[u8]) -> bool
        ensures { result ≡ passes self text.now }
    {
        match self {
            Form::Name => is_name(text),
            Form::Value => is_utf8(text),
        }
    }
}

/// Whether a byte is visible ASCII.
fn is_visible(byte: u8) -> bool
    ensures { result ≡ is_visible byte }
{
    0x21 <= byte && byte <= 0x7E
}

/// Whether a text is a claim's name.
#[tactic(auto, unfolding(crate::specs::Constraints::is_name))]
fn is_name(text: &[u8]) -> bool
    ensures { result ≡ is_name text.now }
{
    match text.len() {
        1..=64 => are_visible(text),
        _ => false,
    }
}

/// Whether all bytes are visible ASCII.
fn are_visible(text: &[u8]) -> bool
    ensures { result ≡ list_all is_visible text.now }
{
    text.iter().all(|byte| is_visible(*byte))
}

/// Whether bytes are UTF-8.
#[tactic(auto, using(crate::proofs::NameLaws::text_is, crate::proofs::NameLaws::text_not))]
fn is_utf8(text: &[u8]) -> bool
    ensures { result ≡ is_utf8 text.now }
{
    str::from_utf8(text).is_ok()
}
