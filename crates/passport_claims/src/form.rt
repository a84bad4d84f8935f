//! The forms in which the PASSporT of a call's origin is signed.
ghost use Rattle.std.specs.Prelude.{◌≡◌};
ghost use Rattle.passport_claims.specs.Form.{form_kind};
ghost use Rattle.passport_claims.specs.Made.{has_origid};

use crate::kind::{Attest, Kind};

/// The form in which the PASSporT of a call's origin is signed.
#[derive(Clone, Copy, Debug)]
pub enum Form {
    /// Without a type (RFC 8225), in its full form.
    Base,
    /// Without a type, in its compact form (RFC 8225, section 7), which leaves out what the message says.
    Compact,
    /// `shaken` (RFC 8588): the attestation, and the identifier of the call, a UUID in 36 characters.
    Shaken { attest: Attest, origid: [u8; 36] },
}

impl Form {
    /// The type of the PASSporT.
    pub fn kind(&self) -> Kind
        ensures { result ≡ form_kind self.now }
    {
        match self {
            Form::Base | Form::Compact => Kind::Base,
            Form::Shaken { attest, origid } => Kind::Shaken {
                attest: *attest,
                origid: *origid,
            },
        }
    }

    /// Whether the identifier of the call, if the form has one, is of its form.
    pub fn has_origid(&self) -> bool
        ensures { result ≡ has_origid (form_kind self.now) }
    {
        self.kind().has_origid()
    }
}
