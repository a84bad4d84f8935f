ghost use Rattle.std.specs.Prelude.{◌≡◌, IfOk, IsTrue};
ghost use Rattle.serde_json.specs.View.{view};
ghost use Rattle.passport_json.specs.Compact.{checked_base};
ghost use Rattle.passport_json.specs.Deterministic.{IsWritable};
ghost use Rattle.passport_json.specs.Passport.{Header, Payload};
ghost use Rattle.passport_json.specs.Reading.{Gives};
ghost use Rattle.passport_json.specs.Seen.{call_of, passport_of};
ghost use Rattle.text_grammar.specs.Uri.{is_uri};

use crate::fault::TokenFault;
use crate::view::View;
use serde_json::{Value, json};
use std::alloc::{AllocError, Global};
use text_grammar::uri_text;
use tn_values::Number;

/// A PASSporT without a type, as a message and its Identity header field give it.
#[derive(Clone, Copy)]
pub(crate) struct Base<'a> {
    pub(crate) iat: u64,
    pub(crate) orig: Number,
    pub(crate) dest: Number,
    pub(crate) info: &'a [u8],
}

/// What a compact token is built from, if the message has it all and the field has no type.
pub(crate) fn checked_base<'a>(view: &View<'a>) -> Result<Base<'a>, TokenFault>
    ensures exact { Gives passport_of result (checked_base (call_of view.now)) }
{
    match (view.iat, view.orig, view.dest, view.ppt) {
        (Some(iat), Some(orig), Some(dest), None) => Ok(Base {
            iat,
            orig,
            dest,
            info: view.info,
        }),
        _ => Err(TokenFault::Compact),
    }
}

/// The header that is built.
#[tactic(auto, using(crate::proofs::CompactLaws::header_writable))]
pub(crate) fn header_of(alloc: Global, base: &Base<'_>) -> Result<Value, AllocError>
    requires { IsTrue (is_uri base.now.info.now) }
    ensures exact { IfOk result (λ value. view value ≡ Header (passport_of base.now)) }
    ensures writable { IfOk result (λ value. IsWritable (view value)) }
{
    let x5u = uri_text(base.info);
    let header = json!(in alloc; {"alg": "ES256", "typ": "passport", "x5u": x5u})?;
    Ok(header)
}

/// The payload that is built.
#[tactic(auto, using(crate::proofs::CompactLaws::payload_writable))]
pub(crate) fn payload_of(alloc: Global, base: &Base<'_>) -> Result<Value, AllocError>
    ensures exact { IfOk result (λ value. view value ≡ Payload (passport_of base.now)) }
    ensures writable { IfOk result (λ value. IsWritable (view value)) }
{
    let dest = base.dest.as_str();
    let orig = base.orig.as_str();
    let payload = json!(in alloc; {"dest": {"tn": [dest]}, "iat": base.iat, "orig": {"tn": orig}})?;
    Ok(payload)
}
