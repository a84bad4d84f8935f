//! An Identity field of a message, with its number and with what its type is.
ghost use Rattle.std.specs.Prelude.{◌≡◌};
ghost use Rattle.verify_rules.specs.Ppt.{ppt_of};

use crate::refusal::Place;
use identity_header::Field;

/// What the type of an Identity field is, its `ppt` (RFC 8224, section 4).
#[derive(Clone, Copy, Debug, PartialEq, Eq)]
pub(crate) enum Ppt {
    /// None is given (RFC 8225).
    Absent,
    /// `shaken` (RFC 8588).
    Shaken,
    /// `div` (RFC 8946).
    Div,
    /// Another one.
    Other,
}

impl Ppt {
    ghost use Rattle.std.specs.Option.{option_copied};

    /// What this type is.
    #[tactic(auto, unfolding(crate::specs::Ppt::ppt_of))]
    fn of(given: Option<&[u8]>) -> Ppt
        ensures { result ≡ ppt_of (option_copied given.entry) }
    {
        match given {
            None => Ppt::Absent,
            Some(text) => {
                if text == b"shaken".as_slice() {
                    Ppt::Shaken
                } else if text == b"div".as_slice() {
                    Ppt::Div
                } else {
                    Ppt::Other
                }
            }
        }
    }
}

/// An Identity field with its number, counted from 1 in message order. What its type is, is found out once, when it is
/// read.
#[derive(Drop)]
pub(crate) struct NumberedField<'a> {
    pub(crate) number: u32,
    pub(crate) parts: Field<'a>,
    ppt: Ppt,
    ghost typed: { ppt ≡ ppt_of parts.ppt },
}

impl<'a> NumberedField<'a> {
    ghost use Rattle.std.specs.Prelude.{◌≤◌, length};
    ghost use Rattle.identity_header.specs.Read.{read};
    ghost use Rattle.verify_rules.specs.Ppt.{is_type};
    ghost use Rattle.verify_rules.specs.Seen.{GivesField};

    /// The field with this value and this number, or where it stops being readable.
    pub(crate) fn read(value: &'a [u8], number: u32) -> Result<NumberedField<'a>, Place>
        requires { length value.now ≤ 65535 }
        ensures { GivesField number result (read value.now) }
    {
        match Field::read(value) {
            Ok(parts) => {
                let ppt = Ppt::of(parts.ppt());
                Ok(NumberedField { number, parts, ppt })
            }
            Err(fault) => Err(Place::new(number, fault.place)),
        }
    }

    /// Whether its type is such a one.
    #[tactic(auto, using(crate::proofs::PptLaws::means_ppt, crate::proofs::PptLaws::ppt_means))]
    pub(crate) fn is(&self, ppt: Ppt) -> bool
        ensures { result ≡ is_type ppt self.now.parts.ppt }
    {
        self.ppt == ppt
    }
}
