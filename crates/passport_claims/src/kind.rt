//! The types of a PASSporT and what each adds to the claims.
ghost use Rattle.std.specs.Prelude.{◌≡◌, IfSome};
ghost use Rattle.std.specs.Option.{option_copied};
ghost use Rattle.serde_json.specs.View.{view};
ghost use Rattle.passport_claims.specs.HasKind.{checked_kind, read_div, read_shaken};
ghost use Rattle.passport_claims.specs.Kind.{IsTypeText, attest_of, attest_text, div_in, level_in, ppt_of};
ghost use Rattle.passport_claims.specs.Made.{has_origid};

use crate::fault::ClaimFault;
use crate::members::{number_in, text_in};
use crate::origid::{is_origid, origid_of};
use crate::rows::is_text;
use serde_json::Value;
use tn_values::Number;

/// How well the signer knows the caller (RFC 8588, section 4).
#[derive(Clone, Copy, Debug, PartialEq, Eq)]
pub enum Attest {
    /// Full: the signer knows the caller and that the number is the caller's.
    A,
    /// Partial: the signer knows the caller, and not that the number is the caller's.
    B,
    /// Gateway: the signer only knows where the call entered.
    C,
}

impl Attest {
    /// The attestation that a text is, byte for byte; None for any other than `A`, `B` and `C`.
    pub fn of(text: &str) -> Option<Attest>
        ensures { result ≡ attest_of text.now }
    {
        match text {
            "A" => Some(Attest::A),
            "B" => Some(Attest::B),
            "C" => Some(Attest::C),
            _ => None,
        }
    }

    /// The attestation as it is written: `A`, `B` or `C`.
    pub fn as_str(self) -> &'static str
        ensures { result.now ≡ attest_text self }
    {
        match self {
            Attest::A => "A",
            Attest::B => "B",
            Attest::C => "C",
        }
    }
}

/// The type of a PASSporT with the claims that it adds.
#[derive(Clone, Copy, Debug)]
pub enum Kind {
    /// No type (RFC 8225).
    Base,
    /// `shaken` (RFC 8588): the attestation, and the identifier of the call, a UUID in 36 characters.
    Shaken { attest: Attest, origid: [u8; 36] },
    /// `div` (RFC 8946): the number that was called before the diversion.
    Div { div: Number },
}

impl Kind {
    /// The type as a header and an Identity header field have it (RFC 8225, section 8.1): none, `shaken` or `div`, one
    /// to six letters.
    #[tactic(auto, using(crate::proofs::KindLaws::type_text))]
    pub fn ppt(&self) -> Option<&'static str>
        ensures exact { option_copied result ≡ ppt_of self.now }
        ensures text { IfSome (ppt_of self.now) IsTypeText }
    {
        match self {
            Kind::Base => None,
            Kind::Shaken { .. } => Some("shaken"),
            Kind::Div { .. } => Some("div"),
        }
    }

    /// Whether the identifier of the call, if the type has one, is a UUID in 36 characters.
    pub fn has_origid(&self) -> bool
        ensures { result ≡ has_origid self.now }
    {
        match self {
            Kind::Shaken { origid, .. } => is_origid(origid),
            Kind::Base | Kind::Div { .. } => true,
        }
    }

    /// The attestation of `shaken` (RFC 8588, section 4); None for any other type.
    pub fn attest(&self) -> Option<Attest>
        ensures { result ≡ level_in self.now }
    {
        match self {
            Kind::Shaken { attest, .. } => Some(*attest),
            Kind::Base | Kind::Div { .. } => None,
        }
    }

    /// The number of `div` that was called before the diversion (RFC 8946, section 4.1); None for any other type.
    pub fn div(&self) -> Option<Number>
        ensures { result ≡ div_in self.now }
    {
        match self {
            Kind::Div { div } => Some(*div),
            Kind::Base | Kind::Shaken { .. } => None,
        }
    }
}

/// What the field's type adds.
pub(crate) fn checked_kind(payload: &Value, ppt: Option<&[u8]>) -> Result<Kind, ClaimFault>
    ensures { result ≡ checked_kind (option_copied ppt.entry) (view payload.now) }
{
    if is_text(ppt, b"shaken") {
        read_shaken(payload)
    } else if is_text(ppt, b"div") {
        read_div(payload)
    } else {
        Ok(Kind::Base)
    }
}

/// The type `shaken` with its two claims (RFC 8588, section 4).
fn read_shaken(payload: &Value) -> Result<Kind, ClaimFault>
    ensures { result ≡ read_shaken (view payload.now) }
{
    let Some(attest) = text_in(payload, "attest") else {
        return Err(ClaimFault::Attest);
    };
    let Some(attest) = Attest::of(attest) else {
        return Err(ClaimFault::Attest);
    };
    let Some(origid) = text_in(payload, "origid") else {
        return Err(ClaimFault::Origid);
    };
    match origid_of(origid) {
        Ok(origid) => Ok(Kind::Shaken { attest, origid }),
        Err(fault) => Err(fault),
    }
}

/// The type `div` with its claim (RFC 8946, section 4.1).
fn read_div(payload: &Value) -> Result<Kind, ClaimFault>
    ensures { result ≡ read_div (view payload.now) }
{
    match number_in(payload, "div") {
        Some(div) => Ok(Kind::Div { div }),
        None => Err(ClaimFault::Div),
    }
}
