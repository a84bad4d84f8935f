//! What was signed as a PASSporT, with its payload.
ghost use Rattle.std.specs.Prelude.{◌≡◌, Some};
ghost use Rattle.passport_json.specs.Signed.{payload_in};
ghost use Rattle.serde_json.specs.View.{view};

use passport_json::Token;
use serde_json::Value;
use std::marker::Model;

/// What was signed as a token, and its payload (RFC 7515, section 2). In contracts it is what was signed. The rest of
/// the token isn't kept: a round keeps this for each call.
#[derive(Drop)]
pub(crate) struct SignedToken {
    signing: Vec<u8>,
    payload: Value,
}

impl Model for SignedToken {
    ghost use Rattle.std.specs.Prelude.{◌≡◌, ℕ, List, Some};
    ghost use Rattle.passport_json.specs.Signed.{payload_in};
    ghost use Rattle.serde_json.specs.View.{view as data_view};

    ghost Value = { List ℕ };

    ghost view = { λ t. t.signing.items };

    ghost invariant = { λ t. payload_in t.signing.items ≡ Some (data_view t.payload) };
}

impl SignedToken {
    /// What was signed as this token, with its payload.
    pub(crate) fn new(token: Token) -> SignedToken
        requires { payload_in token.signing ≡ Some token.payload }
        ensures { result ≡ token.signing }
    {
        let (signing, payload) = token.into_signed();
        SignedToken { signing, payload }
    }

    /// The payload (RFC 8225, section 5).
    pub(crate) fn payload(&self) -> &Value
        ensures { payload_in self.now ≡ Some (view result.now) }
    {
        &self.payload
    }
}
