ghost use Rattle.std.specs.Prelude.{◌≡◌, IfOk};
ghost use Rattle.passport_json.specs.Signing.{Signing, Ticket};

use base64::engine::general_purpose::URL_SAFE_NO_PAD;
use sha2::{Digest, Sha256};
use std::alloc::{AllocError, Global};

/// The text that is signed for a header and a payload (RFC 7515, section 2): base64url of the one without padding, a
/// dot, and base64url of the other. An error says that memory ran out.
pub fn signing_input(alloc: Global, header: &[u8], payload: &[u8]) -> Result<Vec<u8>, AllocError>
    ensures exact { IfOk result (λ text. text.items ≡ Signing header.now payload.now) }
{
    let mut text = URL_SAFE_NO_PAD.encode(alloc, header)?;
    text.push('.')?;
    URL_SAFE_NO_PAD.encode_string(payload, &mut text)?;
    Ok(text.into_bytes())
}

/// The ticket of a PASSporT, by which it is known again: the SHA-256 (FIPS 180-4) of the text that was signed.
pub fn ticket(signing: &[u8]) -> [u8; 32]
    ensures exact { result ≡ Ticket signing.now }
{
    Sha256::digest(signing)
}
