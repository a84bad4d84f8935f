//! The identifier of a call.
ghost use Rattle.std.specs.Prelude.{◌≡◌, true, length, is_some};
ghost use Rattle.uuid.specs.Text.{parsed};
ghost use Rattle.passport_claims.specs.Origid.{is_origid, origid_of};
ghost use Rattle.passport_claims.specs.Reading.{or_fault};
ghost use Rattle.passport_claims.specs.declared.fault.ClaimFault.{ClaimFault};

use crate::fault::ClaimFault;
use std::str;
use uuid::Uuid;

/// The identifier that a text is, a UUID (RFC 4122, section 3) in 36 characters.
pub(crate) fn origid_of(text: &str) -> Result<[u8; 36], ClaimFault>
    ensures { result ≡ or_fault ClaimFault.Origid (origid_of text.now) }
{
    if !is_origid(text.as_bytes()) {
        return Err(ClaimFault::Origid);
    }
    match <[u8; 36]>::try_from(text.as_bytes()) {
        Ok(origid) => Ok(origid),
        Err(_) => Err(ClaimFault::Origid),
    }
}

/// Whether a text can be the identifier of a call (RFC 8588, section 5): a UUID (RFC 4122, section 3) in 36 characters.
#[tactic(auto, using(crate::proofs::OrigidLaws::text_is, crate::proofs::OrigidLaws::text_not), unfolding(crate::specs::Origid::is_origid))]
pub fn is_origid(text: &[u8]) -> bool
    ensures exact { result ≡ is_origid text.now }
    ensures size { result ≡ true → length text.now ≡ 36 }
{
    if text.len() != 36 {
        return false;
    }
    match str::from_utf8(text) {
        Ok(text) => is_uuid(text),
        Err(_) => false,
    }
}

/// Whether a text is a UUID (RFC 9562, section 4).
#[tactic(auto, using(crate::proofs::OrigidLaws::uuid_read))]
fn is_uuid(text: &str) -> bool
    ensures { result ≡ is_some (parsed text.now) }
{
    Uuid::try_parse(text).is_ok()
}
