//! What a call's PASSporTs say.
ghost use Rattle.std.specs.Prelude.{◌≡◌, ◌<◌, ◌++◌, ◌∷◌, [], IfOk, OnOk, Some, decimal, length, string_bytes};
ghost use Rattle.std.specs.List.{slice_get};
ghost use Rattle.serde_json.specs.View.{view};
ghost use Rattle.verify_rules.specs.Call.{Reading};
ghost use Rattle.open_calls.specs.Claims.{claims_line, payload_text};

use crate::lines::add_line;
use passport_json::{deterministic, is_writable};
use serde_json::Value;
use std::alloc::{AllocError, Global};
use verify_rules::Screened;

/// Adds what one of them says: the number of its Identity field, and the payload that was signed. `AllocError` is the
/// only error.
#[tactic(auto, using(crate::proofs::ClaimsLaws::line_added))]
pub(crate) fn add_claims(
    alloc: Global,
    screened: &Screened,
    i: usize,
    text: &mut Vec<u8>,
) -> Result<(), AllocError>
    requires { i < length screened.now.readings }
    ensures { (one : Reading) → slice_get screened.now.readings i ≡ Some one
        → OnOk result (text.new.items ≡ text.old.items ++ claims_line one) }
{
    let number = number_text(alloc, screened.field(i))?;
    let payload = payload_text(alloc, screened.payload(i))?;
    text.extend_from_slice(number.as_bytes())?;
    add_line(&payload, text)
}

/// A number and the space after it. `AllocError` is the only error.
fn number_text(alloc: Global, number: u32) -> Result<String, AllocError>
    ensures { IfOk result (λ text. string_bytes text ≡ decimal number ++ 32 ∷ []) }
{
    format!(in alloc; "{number} ")
}

/// A payload in its deterministic form (RFC 8225, section 9), or a hyphen if it has none. `AllocError` is the only
/// error.
#[tactic(auto, using(crate::proofs::ClaimsLaws::in_form, crate::proofs::ClaimsLaws::formless))]
fn payload_text(alloc: Global, payload: &Value) -> Result<Vec<u8>, AllocError>
    ensures { IfOk result (λ text. text.items ≡ payload_text (view payload.now)) }
{
    if is_writable(payload) {
        return deterministic(alloc, payload);
    }
    Vec::from_slice(alloc, b"-")
}
