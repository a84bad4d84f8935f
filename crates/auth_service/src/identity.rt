//! The Identity header field that is written.
ghost use Rattle.std.specs.Prelude.{◌≡◌, ◌≤◌, false, length, IfOk, IsTrue, Ok, Some, codes};
ghost use Rattle.lists.specs.Given.{Gives};
ghost use Rattle.text_grammar.specs.Grammar.{Run};
ghost use Rattle.text_grammar.specs.Uri.{is_uri};
ghost use Rattle.identity_header.specs.Parts.{is_digest_byte, parts};
ghost use Rattle.sip_message.specs.Added.{is_field_value, with_last, with_line, with_line_at};
ghost use Rattle.sip_message.specs.Head.{Head};
ghost use Rattle.sip_message.specs.Message.{MessageView};
ghost use Rattle.passport_json.specs.Spelled.{IsSignature};
ghost use Rattle.passport_claims.specs.Kind.{ppt_of};
ghost use Rattle.passport_claims.specs.Passport.{ClaimsView};
ghost use Rattle.passport_claims.specs.Signed.{IsSignable, signing_of};
ghost use Rattle.auth_service.specs.Answer.{names_provider, decided};
ghost use Rattle.auth_service.specs.Field.{field_name, field_of, token_by, value_of};
ghost use Rattle.auth_service.specs.Order.{is_order, wanted_of};
ghost use Rattle.auth_service.specs.Signed.{is_too_long};
ghost use Rattle.auth_service.specs.Written.{HasRoomFor, IsFor, IsWrittenField, line_size, type_size};

use crate::fault::SignFault;
use crate::passport::Signable;
use crate::wanted::{Shape, Wanted};
use base64::engine::general_purpose::URL_SAFE_NO_PAD;
use identity_header::Field;
use passport_claims::{Kind, Passport};
use passport_json::token_bytes_law;
use sip_message::{MOST_BYTES, MessageFault, MessageText};
use std::alloc::{AllocError, Global};
use text_grammar::uri_law;

/// How many bytes a type of a PASSporT adds to the field: `;ppt=` and its text, or none.
fn type_size(kind: &Kind) -> usize
    ensures exact { result ≡ type_size (ppt_of kind.now) }
    ensures within { result ≤ 11 }
{
    match kind.ppt() {
        Some(text) => 5 + text.len(),
        None => 0,
    }
}

/// How many bytes the line of the field has, by those of what is signed and of the certificates' URI. With these come
/// the field's name, the 86 bytes of the signature, and what parts them.
fn line_size(shape: &Shape, signing: usize, x5u: usize) -> usize
    requires signing { signing ≤ 8192 }
    requires x5u { x5u ≤ 2048 }
    ensures exact { result ≡ line_size shape.now signing x5u }
    ensures within { result ≤ 10368 }
{
    match shape {
        Shape::Full(kind) => signing + x5u + 117 + type_size(kind),
        Shape::Compact => x5u + 118,
    }
}

/// Whether the message with the wanted field would be longer than a message may be.
pub(crate) fn is_too_long(bytes: &[u8], order: &Wanted<'_>, signing: &[u8]) -> bool
    requires order { IsTrue (is_order (wanted_of order.now)) }
    requires signing { length signing.now ≤ 8192 }
    ensures { (claims : ClaimsView) → IsFor (wanted_of order.now) claims → signing.now ≡ signing_of claims
        → result ≡ is_too_long bytes.now order.now.shape claims }
{
    token_bytes_law();
    bytes.len() + line_size(&order.shape, signing.len(), order.x5u.len()) > MOST_BYTES
}

/// The token of what was signed and its signature; the signature alone in the compact form.
fn token_text(
    alloc: Global,
    shape: &Shape,
    signing: &[u8],
    signature: &[u8; 64],
) -> Result<Vec<u8>, AllocError>
    ensures { IfOk result (λ text. text.items ≡ token_by shape.now signing.now signature.now) }
{
    let encoded = URL_SAFE_NO_PAD.encode(alloc, signature)?;
    let mut text = Vec::new(alloc);
    match shape {
        Shape::Full(_) => {
            text.extend_from_slice(signing)?;
            text.push(b'.')?;
        }
        Shape::Compact => text.extend_from_slice(b"..")?,
    }
    text.extend_from_slice(encoded.as_bytes())?;
    Ok(text)
}

/// The field with this token, and of the PASSporT the certificates' URI and the type; the algorithm is ES256 (RFC 7518,
/// section 3.4).
fn field<'a>(token: &'a [u8], passport: &'a Passport) -> Field<'a>
    requires token { Run is_digest_byte 8192 token.now }
    requires x5u { IsTrue (is_uri passport.now.x5u) }
    ensures { result ≡ parts token.now passport.now.x5u (Some (codes "ES256")) (ppt_of passport.now.kind) }
{
    uri_law();
    let ppt = passport.kind().ppt().map(str::as_bytes);
    match Field::new(token, passport.x5u(), Some(b"ES256"), ppt) {
        Some(field) => field,
        None => unreachable!(),
    }
}

/// The value of the field of a PASSporT and its signature. Reading it gives the field again, and it can be written in a
/// line of a message.
pub(crate) fn field_value(
    alloc: Global,
    order: &Wanted<'_>,
    one: &Signable<'_>,
    signature: &[u8; 64],
) -> Result<Vec<u8>, AllocError>
    requires order { IsTrue (is_order (wanted_of order.now)) }
    requires ordered { IsFor (wanted_of order.now) one.now.draft.passport }
    requires signing { one.now.signing.items ≡ signing_of one.now.draft.passport }
    requires signable { IsSignable one.now.draft.passport }
    ensures exact { IfOk result (λ text. text.items ≡ value_of order.now.shape one.now.draft.passport signature.now) }
    ensures signature { IsSignature signature.now }
    ensures written { IfOk result
        (λ text. IsWrittenField text.items (field_of order.now.shape one.now.draft.passport signature.now)) }
{
    token_bytes_law();
    are_signature(signature);
    let token = token_text(alloc, &order.shape, &one.signing, signature)?;
    field(&token, &one.draft.passport).write(alloc)
}

/// Does nothing: of a parameter, and as a slice, 64 bytes are known as a signature.
fn are_signature(signature: &[u8; 64])
    ensures { IsSignature signature.now }
{
    let _bytes = signature.as_slice();
}

/// The message with a field of this value, for which there is room.
pub(crate) fn with_identity(
    alloc: Global,
    text: &MessageText<'_>,
    value: &[u8],
) -> Result<Vec<u8>, SignFault>
    requires value { IsTrue (is_field_value value.now) }
    requires room { HasRoomFor text.now.bytes value.now }
    ensures exact { Gives decided (λ out. out.items) result (Ok (with_line text.now.bytes field_name value.now)) }
    ensures placed { (message : MessageView) (head : Head text.now.bytes message)
        → IfOk result (λ out. out.items ≡ with_line_at head.empty.place text.now.bytes field_name value.now) }
    ensures added { (message : MessageView) → Head text.now.bytes message
        → IfOk result (λ out. Head out.items (with_last message field_name value.now)) }
    ensures apart { names_provider result ≡ false }
{
    match text.with_field(alloc, b"Identity", value) {
        Ok(out) => Ok(out),
        Err(MessageFault::Form(_)) => unreachable!(),
        Err(MessageFault::Memory) => Err(SignFault::Memory),
    }
}
