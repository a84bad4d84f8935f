ghost use Rattle.std.specs.Prelude.{◌≡◌, ℕ, true, false, Err, Some, IfOk, IfSome, IsTrue, codes};
ghost use Rattle.std.specs.Bool.{nat_eq};
ghost use Rattle.std.specs.List.{starts_with};
ghost use Rattle.passport_json.specs.Compact.{CompactText, rebuilt};
ghost use Rattle.passport_json.specs.IssuedAt.{issued_at, IsIssuedAt};
ghost use Rattle.passport_json.specs.Object.{is_object};
ghost use Rattle.passport_json.specs.Reading.{Gives, IfRefused, IsOkUnlessMemory};
ghost use Rattle.passport_json.specs.Refused.{Refused};
ghost use Rattle.passport_json.specs.Seen.{call_of, passport_of};
ghost use Rattle.passport_json.specs.Signed.{payload_in};
ghost use Rattle.passport_json.specs.Token.{FullText, TokenText, read_compact, read_full, read_token};
ghost use Rattle.text_grammar.specs.Uri.{is_uri};
ghost use Rattle.passport_json.specs.View.{TokenView};
ghost use Rattle.serde_json.specs.View.{view};

use crate::compact::{Base, checked_base, header_of, payload_of};
use crate::fault::TokenFault;
use crate::parts::signing_of;
use crate::read::{checked_base64, checked_json, checked_parts, decoded_signature};
use crate::signing::signing_input;
use crate::view::View;
use crate::writing::deterministic;
use serde_json::Value;
use std::alloc::{AllocError, Global};
use std::marker::Model;
use text_grammar::LAST_SECOND;

/// A PASSporT (RFC 8225, section 3): header and payload as JSON objects, the text that was signed, the 64 bytes of the
/// signature, and whether it came in its compact form (section 7). In contracts it is the record of these five, of
/// which header and payload are objects.
#[derive(Debug, Drop)]
pub struct Token {
    header: Value,
    payload: Value,
    signing: Vec<u8>,
    signature: [u8; 64],
    compact: bool,
}

impl Model for Token {
    ghost use Rattle.std.specs.Prelude.{IsTrue};
    ghost use Rattle.serde_json.specs.View.{view as data_view};
    ghost use Rattle.passport_json.specs.Object.{is_object};
    ghost use Rattle.passport_json.specs.View.{TokenView, token_code};

    ghost Value = { TokenView };

    ghost coded = { token_code };

    ghost view = { λ t. record {
      header = data_view t.header;
      payload = data_view t.payload;
      signing = t.signing.items;
      signature = t.signature;
      compact = t.compact;
    } };

    ghost invariant = { λ t. IsTrue (is_object (data_view t.header)) × IsTrue (is_object (data_view t.payload)) };
}

impl Token {
    /// Reads a token in its full form, or in its compact form (RFC 8225, section 7). In the compact form the first two
    /// of the three texts around its dots are empty, and header and payload are built again. `view` gives what the
    /// message and its Identity header field say, and they are those of the PASSporT without a type that says the same.
    ///
    /// The checks are made in this order, and the first that is broken is the fault: `Parts`, `Base64` of part 1, 2
    /// and 3, `SignatureLength`; then `Compact` in the compact form, and `Json` of part 1 and 2 in the full form.
    /// `Memory` may come for any text. The view's `info` is a URI ([`is_uri`](text_grammar::is_uri) tells).
    #[tactic(auto, unfolding(crate::specs::Token::read_token))]
    pub fn read(alloc: Global, text: &[u8], view: &View<'_>) -> Result<Token, TokenFault>
        requires { IsTrue (is_uri view.now.info.now) }
        ensures exact { Gives (λ token. token) result (read_token (call_of view.now) text.now) }
        ensures found { IfOk result (λ token. TokenText text.now (call_of view.now) token) }
        ensures only { (token : TokenView) → TokenText text.now (call_of view.now) token
            → IsOkUnlessMemory result (λ read. read ≡ token) }
        ensures unique { (one other : TokenView) → TokenText text.now (call_of view.now) one
            → TokenText text.now (call_of view.now) other → one ≡ other }

        // A fault is the first check that the text breaks for its call, and the first that it breaks is the fault.
        ensures refused { IfRefused result (Refused text.now (call_of view.now)) }
        ensures only_refused { (fault : TokenFault) → Refused text.now (call_of view.now) fault
            → Gives (λ token. token) result (Err fault) }

        ensures read_again { (token : TokenView) → TokenText text.now (call_of view.now) token
            → read_token (call_of view.now) text.now ≡ Ok token }
        ensures signed { IfOk result (λ token. payload_in token.signing ≡ Some token.payload) }
    {
        if text.starts_with(b"..") {
            checked_compact(alloc, text, view)
        } else {
            read_full(alloc, text)
        }
    }

    /// The header, a JSON object (RFC 8225, section 4).
    pub fn header(&self) -> &Value
        ensures value { view result.now ≡ self.now.header }
        ensures object { IsTrue (is_object self.now.header) }
    {
        &self.header
    }

    /// The payload, a JSON object (RFC 8225, section 5).
    pub fn payload(&self) -> &Value
        ensures value { view result.now ≡ self.now.payload }
        ensures object { IsTrue (is_object self.now.payload) }
    {
        &self.payload
    }

    /// What was signed (RFC 7515, section 2): of the full form the received text before its second dot, byte for
    /// byte; of the compact form the signing input of the deterministic header and payload.
    pub fn signing(&self) -> &[u8]
        ensures { result.now ≡ self.now.signing }
    {
        &self.signing
    }

    /// The signature's bytes (RFC 7518, section 3.4).
    pub fn signature(&self) -> &[u8; 64]
        ensures { result.now ≡ self.now.signature }
    {
        &self.signature
    }

    /// Whether the token came in its compact form (RFC 8225, section 7).
    pub fn compact(&self) -> bool
        ensures { result ≡ self.now.compact }
    {
        self.compact
    }

    /// What was signed, and the payload, without the rest of the token.
    pub fn into_signed(self) -> (Vec<u8>, Value)
        ensures signing { result.0.items ≡ self.signing }
        ensures payload { view result.1 ≡ self.payload }
    {
        let Token {
            signing,
            payload,
            ..
        } = self;
        (signing, payload)
    }

    /// When the token was issued, in Unix seconds: the payload's `iat` (RFC 8225, section 5.1.1), if it is a number
    /// written as an integer that 64 bits hold, and not past the year 9999; else `None`.
    pub fn issued_at(&self) -> Option<u64>
        ensures exact { result ≡ issued_at self.now.payload }
        ensures found { IfSome result (λ seconds. IsIssuedAt self.now.payload seconds) }
        ensures only { (seconds : ℕ) → IsIssuedAt self.now.payload seconds → result ≡ Some seconds }
    {
        let seconds = self.payload.get("iat").and_then(Value::as_u64);
        seconds.filter(|seconds| *seconds <= LAST_SECOND)
    }
}

/// A text in the full form: three texts in base64url, with a dot between each two. The first two are JSON objects, and
/// the third is 64 bytes. Each part is decoded once.
#[tactic(auto, unfolding(crate::specs::Token::read_full))]
fn read_full(alloc: Global, text: &[u8]) -> Result<Token, TokenFault>
    ensures exact { Gives (λ token. token) result (read_full text.now) }
    ensures found { IfOk result (λ token. FullText text.now token) }
    ensures signed { IfOk result (λ token. payload_in token.signing ≡ Some token.payload) }
{
    let parts = checked_parts(text)?;
    let header_bytes = checked_base64(alloc, parts.header, 1)?;
    let payload_bytes = checked_base64(alloc, parts.payload, 2)?;
    let signature = decoded_signature(alloc, parts.signature)?;
    let header = checked_json(alloc, header_bytes, 1)?;
    let payload = checked_json(alloc, payload_bytes, 2)?;
    let signing = Vec::from_slice(alloc, signing_of(text, &parts))?;
    Ok(Token {
        header,
        payload,
        signing,
        signature,
        compact: false,
    })
}

/// A text whose first two parts are empty. They are the encoding of no bytes, so that the third is decoded first.
#[tactic(auto, unfolding(crate::specs::Token::read_compact))]
fn checked_compact(alloc: Global, text: &[u8], view: &View<'_>) -> Result<Token, TokenFault>
    requires uri { IsTrue (is_uri view.now.info.now) }
    requires dots { starts_with nat_eq text.now (codes "..") ≡ true }
    ensures exact { Gives (λ token. token) result (read_compact (call_of view.now) text.now) }
    ensures found { IfOk result (λ token. CompactText text.now (call_of view.now) token) }
    ensures signed { IfOk result (λ token. payload_in token.signing ≡ Some token.payload) }
{
    let parts = checked_parts(text)?;
    let signature = decoded_signature(alloc, parts.signature)?;
    match checked_base(view) {
        Ok(base) => Ok(rebuilt(alloc, &base, signature)?),
        Err(fault) => Err(fault),
    }
}

/// The token of a PASSporT without a type.
fn rebuilt(alloc: Global, base: &Base<'_>, signature: [u8; 64]) -> Result<Token, AllocError>
    requires { IsTrue (is_uri base.now.info.now) }
    ensures exact { IfOk result (λ token. token ≡ rebuilt (passport_of base.now) signature) }
    ensures signed { IfOk result (λ token. payload_in token.signing ≡ Some token.payload) }
{
    let header = header_of(alloc, base)?;
    let payload = payload_of(alloc, base)?;
    let header_text = deterministic(alloc, &header)?;
    let payload_text = deterministic(alloc, &payload)?;
    let signing = signing_input(alloc, &header_text, &payload_text)?;
    Ok(Token {
        header,
        payload,
        signing,
        signature,
        compact: true,
    })
}
