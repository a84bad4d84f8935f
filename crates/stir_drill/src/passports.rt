//! What is signed for a call of the drill.
ghost use Rattle.std.specs.Prelude.{◌≡◌, ◌≤◌, ◌<◌, ◌+◌, ◌++◌, length, IfOk, string_bytes};
ghost use Rattle.std.specs.Int.{bytes_high_first};
ghost use Rattle.hex.specs.Hex.{encode_lower};
ghost use Rattle.stir_drill.specs.Message.{signature_of, signing_of};
ghost use Rattle.stir_drill.specs.Spelled.{payload_text, payload_with};

use crate::drawn::Drawn;
use passport_json::signing_input;
use std::alloc::{AllocError, Global};

/// The header of every PASSporT of the drill.
const HEADER: &str =
    "{\"alg\":\"ES256\",\"ppt\":\"shaken\",\"typ\":\"passport\",\"x5u\":\"https://cert.example.org/drill.cer\"}";

/// The text that is signed for a call.
pub(crate) fn signing_text(alloc: Global, call: Drawn) -> Result<Vec<u8>, AllocError>
    requires number { call.number ≤ 100000 }
    requires line { call.line < 10000 }
    ensures exact { IfOk result (λ text. text.items ≡ signing_of call) }
    ensures short { IfOk result (λ text. length text.items ≤ 600) }
{
    let payload = payload_text(alloc, call)?;
    let text = signing_input(alloc, HEADER.as_bytes(), payload.as_bytes())?;
    Ok(text)
}

/// The payload of the PASSporT of a call.
fn payload_text(alloc: Global, call: Drawn) -> Result<String, AllocError>
    requires { call.line < 10000 }
    ensures { IfOk result (λ text. string_bytes text ≡ payload_text call) }
{
    let tail = origid_tail(alloc, call.number)?;
    let iat = call.change.issued(call.moment());
    let orig = call.change.calling(call.line);
    payload_with(alloc, iat, orig, &tail)
}

/// The last twelve hex digits of the identifier of a call.
fn origid_tail(alloc: Global, number: u64) -> Result<String, AllocError>
    ensures { IfOk result (λ text. string_bytes text ≡ encode_lower (bytes_high_first 6 number)) }
{
    let bytes = number.to_be_bytes();
    hex::encode(alloc, &bytes[2..])
}

/// The payload of a PASSporT that was issued at this moment, of this calling number, with an identifier that ends so.
fn payload_with(alloc: Global, iat: u64, orig: u64, tail: &str) -> Result<String, AllocError>
    ensures { IfOk result (λ text. string_bytes text ≡ payload_with iat orig tail.now) }
{
    let text = format!(in alloc;
        "{{\"attest\":\"A\",\"dest\":{{\"tn\":[\"12125551213\"]}},\"iat\":{iat},\"orig\":{{\"tn\":\"{orig}\"}},\"origid\":\"00000000-0000-4000-8000-{tail}\"}}"
    )?;
    Ok(text)
}

/// The signature of the PASSporT of a call: the call's number, and zero bytes.
pub(crate) fn signature(number: u64) -> [u8; 64]
    ensures { result ≡ signature_of number }
{
    let mut signature = [0; 64];
    signature[..8].copy_from_slice(&number.to_be_bytes());
    signature
}
