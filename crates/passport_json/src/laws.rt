//! Laws: a function here does nothing, and its clause is the law.
ghost use Rattle.std.specs.List.{list_all};
ghost use Rattle.std.specs.Prelude.{◌≡◌, ◌≤◌, ◌+◌, ◌*◌, ◌/◌, ℕ, true, List, length, Ok, Some};
ghost use Rattle.base64.specs.Engines.{url_safe_no_pad};
ghost use Rattle.base64.specs.GeneralPurpose.{IsBytes, encode_of};
ghost use Rattle.serde_json.specs.Data.{Data};
ghost use Rattle.text_grammar.specs.Cut.{lacks};
ghost use Rattle.text_grammar.specs.Grammar.{Run};
ghost use Rattle.passport_json.specs.Compact.{CallView, CompactText, base_of, rebuilt};
ghost use Rattle.passport_json.specs.Parts.{dot};
ghost use Rattle.passport_json.specs.Passport.{PassportView};
ghost use Rattle.passport_json.specs.Signed.{GivesNumbers, payload_in};
ghost use Rattle.passport_json.specs.Signing.{Signing};
ghost use Rattle.passport_json.specs.Spelled.{IsSignature, IsSpelled, compact_text, full_text, full_token, is_symbol};
ghost use Rattle.passport_json.specs.Spelled.{is_token_byte};
ghost use Rattle.passport_json.specs.Token.{FullText, TokenText, read_token};
ghost use Rattle.passport_json.specs.View.{TokenView};

/// What a text holds as a token for a call is read of it (RFC 8225, sections 3 and 7).
pub fn token_law()
    ensures { (text : List ℕ) (call : CallView) (token : TokenView) → TokenText text call token
        → read_token call text ≡ Ok token }
{}

/// What is read of bytes as a token for a call is what they hold.
pub fn token_found_law()
    ensures { (text : List ℕ) (call : CallView) (token : TokenView) → IsBytes text → read_token call text ≡ Ok token
        → TokenText text call token }
{}

/// Header, payload and signature written as a full token hold these (RFC 7515, section 7.1), whatever the signature.
pub fn full_text_law()
    ensures { (header_text payload_text signature : List ℕ) (header payload : Data) → IsSpelled header_text header
        → IsSpelled payload_text payload → IsSignature signature
        → FullText (full_text (Signing header_text payload_text) signature)
        (full_token header payload header_text payload_text signature) }
{}

/// A signature written as a compact token (RFC 8225, section 7) is that of the PASSporT that the call gives.
pub fn compact_text_law()
    ensures { (signature : List ℕ) (call : CallView) (passport : PassportView) → IsSignature signature
        → base_of call ≡ Some passport → CompactText (compact_text signature) call (rebuilt passport signature) }
{}

/// The base64url text of bytes (RFC 4648, section 5, without padding): its symbols are letters, digits, `-` and `_`, so
/// that no dot is among them, four for each three bytes.
pub fn base64_law()
    ensures symbols { (bytes : List ℕ) → IsBytes bytes → list_all is_symbol (encode_of url_safe_no_pad bytes) ≡ true }
    ensures dots { (bytes : List ℕ) → lacks dot (encode_of url_safe_no_pad bytes) ≡ true }
    ensures size { (bytes : List ℕ) → length (encode_of url_safe_no_pad bytes) ≡ (4 * length bytes + 2) / 3 }
{}

/// The text of a token (RFC 7515, section 7.1) is symbols and dots, and has 87 bytes beside what was signed, or 88 in
/// the compact form. It is no longer than 8,192 bytes if the texts of header and payload together are no longer than
/// 6,000.
pub fn token_bytes_law()
    ensures full { (header payload signature : List ℕ) → IsBytes header → IsBytes payload → IsSignature signature
        → length header + length payload ≤ 6000
        → Run is_token_byte 8192 (full_text (Signing header payload) signature) }
    ensures compact { (signature : List ℕ) → IsSignature signature → Run is_token_byte 8192 (compact_text signature) }
    ensures full_size { (signing signature : List ℕ) → IsSignature signature
        → length (full_text signing signature) ≡ length signing + 87 }
    ensures compact_size { (signature : List ℕ) → IsSignature signature → length (compact_text signature) ≡ 88 }
{}

/// What was signed as a token has the token's payload after its dot (RFC 7515, section 2): in the full form as it was
/// received, and in the compact form as it is built of a call that gives numbers.
pub fn signed_law()
    ensures full { (text : List ℕ) (token : TokenView) → FullText text token
        → payload_in token.signing ≡ Some token.payload }
    ensures compact { (text : List ℕ) (call : CallView) (token : TokenView) → CompactText text call token
        → GivesNumbers call → payload_in token.signing ≡ Some token.payload }
{}
