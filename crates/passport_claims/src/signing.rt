//! What is signed of a PASSporT.
ghost use Rattle.std.specs.Prelude.{◌≡◌, IfOk};
ghost use Rattle.serde_json.specs.View.{view};
ghost use Rattle.passport_json.specs.Deterministic.{Det, IsWritable};
ghost use Rattle.passport_json.specs.Signing.{Signing};
ghost use Rattle.passport_claims.specs.Signed.{IsSignable, IsTextOf, signing_of};

use crate::passport::Passport;
use passport_json::{
    compact_text_law, deterministic, full_text_law, signing_input, token_bytes_law, token_law,
};
use serde_json::Value;
use std::alloc::{AllocError, Global};

impl Passport {
    /// The text that is signed for it (RFC 7515, section 2): base64url of its deterministic header, a dot, and
    /// base64url of its deterministic payload (RFC 8225, section 9). An error says that memory ran out.
    ///
    /// With any signature it is a token of this PASSporT: reading it and its claims gives the same again. So it is in
    /// the compact form (RFC 8225, section 7), for a call that gives what the PASSporT says.
    pub fn signing_text(&self) -> Result<Vec<u8>, AllocError>
        ensures exact { IfOk result (λ text. text.items ≡ signing_of self.now) }
        ensures signable { IfOk result (λ text. IsSignable self.now) }
    {
        full_text_law();
        compact_text_law();
        token_law();
        token_bytes_law();
        let values = self.to_values()?;
        signing_of(self.alloc(), &values.0, &values.1)
    }
}

/// What is signed for this header and this payload, whose texts are read as these.
fn signing_of(alloc: Global, header: &Value, payload: &Value) -> Result<Vec<u8>, AllocError>
    requires header { IsWritable (view header.now) }
    requires payload { IsWritable (view payload.now) }
    ensures exact { IfOk result (λ text. text.items ≡ Signing (Det (view header.now)) (Det (view payload.now))) }
    ensures header { IfOk result (λ text. IsTextOf (Det (view header.now)) (view header.now)) }
    ensures payload { IfOk result (λ text. IsTextOf (Det (view payload.now)) (view payload.now)) }
{
    let header_text = deterministic(alloc, header)?;
    let payload_text = deterministic(alloc, payload)?;
    signing_input(alloc, &header_text, &payload_text)
}
