ghost use Rattle.std.specs.Prelude.{◌≡◌, false, length, Ok, IfOk, IfSome, IsTrue};
ghost use Rattle.base64.specs.Engines.{url_safe_no_pad};
ghost use Rattle.base64.specs.GeneralPurpose.{decode_of};
ghost use Rattle.serde_json.specs.View.{view};
ghost use Rattle.passport_json.specs.Base64.{IsBase64};
ghost use Rattle.passport_json.specs.Object.{IsObjectText, is_object};
ghost use Rattle.passport_json.specs.Parts.{AreParts, one_is_empty};
ghost use Rattle.passport_json.specs.Reading.{Gives};
ghost use Rattle.passport_json.specs.Seen.{texts_of};
ghost use Rattle.passport_json.specs.Token.{checked_parts, checked_base64, checked_signature, checked_json};
ghost use Rattle.passport_json.specs.Token.{decoded_signature};

use crate::fault::TokenFault;
use crate::parts::{Parts, one_is_empty, parts_of};
use base64::DecodeAllocError;
use base64::engine::general_purpose::URL_SAFE_NO_PAD;
use serde_json::Value;
use std::alloc::Global;

/// The three texts around exactly two dots. Of the first two, both are empty or neither is.
pub(crate) fn checked_parts(text: &[u8]) -> Result<Parts<'_>, TokenFault>
    ensures exact { Gives texts_of result (checked_parts text.now) }
    ensures parts { IfOk result (λ parts. AreParts text.now (texts_of parts)) }
    ensures both { IfOk result (λ parts. one_is_empty parts.header.now parts.payload.now ≡ false) }
{
    let Some(parts) = parts_of(text) else {
        return Err(TokenFault::Parts);
    };
    if one_is_empty(parts.header, parts.payload) {
        return Err(TokenFault::Parts);
    }
    Ok(parts)
}

/// The bytes of a part in base64url, counted from 1.
pub(crate) fn checked_base64(alloc: Global, text: &[u8], part: u8) -> Result<Vec<u8>, TokenFault>
    ensures exact { Gives (λ bytes. bytes.items) result (checked_base64 part text.now) }
    ensures encoded { IfOk result (λ bytes. IsBase64 text.now bytes.items) }
{
    match URL_SAFE_NO_PAD.decode(alloc, text) {
        Ok(bytes) => Ok(bytes),
        Err(DecodeAllocError::DecodeError(_)) => Err(TokenFault::Base64 { part }),
        Err(DecodeAllocError::OutOfMemory) => Err(TokenFault::Memory),
    }
}

/// A signature of 64 bytes.
fn checked_signature(bytes: Vec<u8>) -> Result<[u8; 64], TokenFault>
    ensures exact { result ≡ checked_signature bytes.items }
    ensures whole { IfOk result (λ signature. (signature ≡ bytes.items) × (length bytes.items ≡ 64)) }
{
    match <[u8; 64]>::try_from(bytes.as_slice()) {
        Ok(signature) => Ok(signature),
        Err(_) => Err(TokenFault::SignatureLength),
    }
}

/// The 64 bytes that a text of 86 symbols is the encoding of, which takes no memory.
fn usual_signature(text: &[u8]) -> Option<[u8; 64]>
    ensures { IfSome result (λ signature. decode_of url_safe_no_pad text.now ≡ Ok signature) }
{
    if text.len() != 86 {
        return None;
    }
    let mut buffer = [0; 66];
    match URL_SAFE_NO_PAD.decode_slice_unchecked(text, &mut buffer) {
        Ok(64) => buffer.first_chunk::<64>().copied(),
        _ => None,
    }
}

/// The 64 bytes of a signature in base64url (RFC 7518, section 3.4), the third part.
pub(crate) fn decoded_signature(alloc: Global, text: &[u8]) -> Result<[u8; 64], TokenFault>
    ensures exact { Gives (λ signature. signature) result (decoded_signature text.now) }
    ensures encoded { IfOk result (λ signature. IsBase64 text.now signature) }
    ensures size { IfOk result (λ signature. length signature ≡ 64) }
{
    if let Some(signature) = usual_signature(text) {
        return Ok(signature);
    }
    let bytes = checked_base64(alloc, text, 3)?;
    checked_signature(bytes)
}

/// The JSON object that the bytes of a part are.
#[tactic(auto, using(crate::proofs::ObjectLaws::json_object, crate::proofs::ObjectLaws::json_other, crate::proofs::ObjectLaws::json_text, crate::proofs::ObjectLaws::json_unread))]
pub(crate) fn checked_json(alloc: Global, bytes: Vec<u8>, part: u8) -> Result<Value, TokenFault>
    ensures exact { Gives view result (checked_json part bytes.items) }
    ensures object { IfOk result (λ value. IsObjectText bytes.items (view value)) }
    ensures members { IfOk result (λ value. IsTrue (is_object (view value))) }
{
    let value = match Value::from_slice(alloc, &bytes) {
        Ok(value) => value,
        Err(error) => {
            if error.is_memory() {
                return Err(TokenFault::Memory);
            }
            return Err(TokenFault::Json { part });
        }
    };
    if value.is_object() {
        Ok(value)
    } else {
        Err(TokenFault::Json { part })
    }
}
