//! The URI of a certificate.
ghost use Rattle.std.specs.Prelude.{◌≡◌, ◌↔◌, ◌≤◌, ℕ, List, length, IsTrue, IsUtf8};
ghost use Rattle.std.specs.List.{list_all, prefix_len};
ghost use Rattle.text_grammar.specs.Bytes.{is_uri_byte};
ghost use Rattle.text_grammar.specs.Grammar.{Run};
ghost use Rattle.text_grammar.specs.Uri.{is_uri};

use crate::blocks::{BLOCK, uri_block_len};
use crate::is_uri_byte;
use std::str;

/// Whether a text can be the URI of a certificate in an Identity header field's `info` (RFC 8224, section 4): 1 to
/// 2,048 visible ASCII bytes without `"`, `<`, `>` and backslash.
#[tactic(auto, using(crate::proofs::UriLaws::uri_utf8))]
pub fn is_uri(text: &[u8]) -> bool
    ensures value { result ≡ is_uri text.now }
    ensures utf8 { IsTrue (is_uri text.now) → IsUtf8 text.now }
    ensures run { IsTrue result ↔ Run is_uri_byte 2048 text.now }
{
    has_form_of_uri(text)
}

/// Whether a text has the bytes and the length of a URI.
#[tactic(auto, unfolding(crate::specs::Uri::is_uri))]
fn has_form_of_uri(text: &[u8]) -> bool
    ensures { result ≡ is_uri text.now }
{
    match text.len() {
        1..=2048 => are_uri_bytes(text),
        _ => false,
    }
}

/// Whether all bytes may be in a URI.
fn are_uri_bytes(text: &[u8]) -> bool
    ensures { result ≡ list_all is_uri_byte text.now }
{
    uri_len(text) == text.len()
}

/// How many uri bytes a text begins with: 32 at a time, the last 32 once more where they overlap.
pub fn uri_len(text: &[u8]) -> usize
    ensures count { result ≡ prefix_len is_uri_byte text.now }
    ensures within { result ≤ length text.now }
{
    if text.len() < BLOCK {
        return uri_len_by_bytes(text);
    }
    let last = text.len() - BLOCK;
    let mut place = 0;
    'whole: while place < last {
        let count = uri_block_len(text, place);
        if count < BLOCK {
            return place + count;
        }
        place += BLOCK;
    }
    last + uri_block_len(text, last)
}

/// How many uri bytes a text begins with, byte by byte.
fn uri_len_by_bytes(text: &[u8]) -> usize
    ensures count { result ≡ prefix_len is_uri_byte text.now }
    ensures within { result ≤ length text.now }
{
    text.iter().take_while(|byte| is_uri_byte(**byte)).count()
}

/// The URI as text: it is ASCII.
pub fn uri_text(uri: &[u8]) -> &str
    requires { IsTrue (is_uri uri.now) }
    ensures { result.now ≡ uri.now }
{
    match str::from_utf8(uri) {
        Ok(text) => text,
        Err(_) => unreachable!(),
    }
}

/// A law, with nothing to do: what may be written between the angle brackets of `info` in an Identity header field (RFC
/// 8224, section 4) can be the URI of a certificate, and nothing else can.
pub fn uri_law()
    ensures { (text : List ℕ) → Run is_uri_byte 2048 text ↔ IsTrue (is_uri text) }
{}
