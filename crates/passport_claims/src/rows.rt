//! The members of the header, and how many numbers may be called.
ghost use Rattle.std.specs.Prelude.{◌≡◌};
ghost use Rattle.std.specs.Option.{option_copied};
ghost use Rattle.serde_json.specs.View.{view};
ghost use Rattle.passport_claims.specs.Passport.{is_text, most_called};
ghost use Rattle.passport_claims.specs.Read.{checked_header};
ghost use Rattle.passport_claims.specs.Reading.{Gives};

use crate::fault::ClaimFault;
use crate::members::{has_text, has_text_where, text_in};
use serde_json::Value;

/// How many numbers a PASSporT may call, unless it is one of type `div`.
const MOST_CALLED: usize = 32;

/// The four members of the header. What comes is its `x5u`, which is the field's URI.
pub(crate) fn checked_header<'a>(
    header: &'a Value,
    ppt: Option<&[u8]>,
    info: &[u8],
) -> Result<&'a str, ClaimFault>
    ensures { Gives (λ x5u. x5u.now) result (checked_header (view header.now) (option_copied ppt.entry) info.now) }
{
    if !has_text(header, "typ", b"passport") {
        return Err(ClaimFault::Kind);
    }
    if !has_text(header, "alg", b"ES256") {
        return Err(ClaimFault::Alg);
    }
    if !has_text_where(header, "ppt", ppt) {
        return Err(ClaimFault::Ppt);
    }
    match text_in(header, "x5u") {
        Some(x5u) if x5u.as_bytes() == info => Ok(x5u),
        _ => Err(ClaimFault::X5u),
    }
}

/// How many numbers a PASSporT of the type may call.
pub(crate) fn most_called(ppt: Option<&[u8]>) -> usize
    ensures { result ≡ most_called (option_copied ppt.entry) }
{
    if is_text(ppt, b"div") { 1 } else { MOST_CALLED }
}

/// Whether a text is given and is this one.
pub(crate) fn is_text(given: Option<&[u8]>, text: &[u8]) -> bool
    ensures { result ≡ is_text text.now (option_copied given.entry) }
{
    match given {
        Some(value) => value == text,
        None => false,
    }
}
