ghost use Rattle.std.specs.Prelude.{◌≡◌, ◌≤◌, ◌↔◌, length, IsTrue, IfSome};
ghost use Rattle.std.specs.List.{prefix_len, list_all};
ghost use Rattle.std.specs.Option.{option_copied};
ghost use Rattle.text_grammar.specs.Grammar.{Any, Run};
ghost use Rattle.identity_header.specs.Parts as parts;
ghost use Rattle.identity_header.specs.Spelling as spelling;

use crate::blocks::digest_block_len;
use text_grammar::BLOCK;

/// The most bytes of a token.
pub(crate) const DIGEST_MOST: usize = 8192;

/// The most bytes of a uri.
pub(crate) const URI_MOST: usize = 2048;

/// A byte of the token: letters, digits, `-`, `_`, `.`.
pub(crate) fn is_digest_byte(byte: u8) -> bool
    ensures { result ≡ parts.is_digest_byte byte }
{
    byte.is_ascii_alphanumeric() || matches!(byte, b'-' | b'_' | b'.')
}

/// A byte of a value without quotes.
pub(crate) fn is_bare_byte(byte: u8) -> bool
    ensures { result ≡ parts.is_bare_byte byte }
{
    byte.is_ascii_graphic() && !matches!(byte, b';' | b',' | b'"' | b'<' | b'>' | b'\\')
}

/// A byte of a value between quotes.
pub(crate) fn is_quoted_byte(byte: u8) -> bool
    ensures { result ≡ parts.is_quoted_byte byte }
{
    byte >= b' ' && !matches!(byte, b'"' | b'\\' | 0x7f)
}

/// Whether all bytes are those of a token.
fn all_digest(text: &[u8]) -> bool
    ensures { result ≡ list_all parts.is_digest_byte text.now }
{
    text.iter().all(|byte| is_digest_byte(*byte))
}

/// Whether all bytes may be in a value without quotes.
fn all_bare(text: &[u8]) -> bool
    ensures { result ≡ list_all parts.is_bare_byte text.now }
{
    text.iter().all(|byte| is_bare_byte(*byte))
}

/// Whether all bytes may be between quotes.
fn all_quoted(text: &[u8]) -> bool
    ensures { result ≡ list_all parts.is_quoted_byte text.now }
{
    text.iter().all(|byte| is_quoted_byte(*byte))
}

/// Whether a text is a token: 1 to 8192 digest bytes.
pub(crate) fn is_digest(text: &[u8]) -> bool
    ensures { IsTrue result ↔ Run parts.is_digest_byte 8192 text.now }
{
    match text.len() {
        1..=DIGEST_MOST => all_digest(text),
        _ => false,
    }
}

/// Whether a value, if there is one, may be between quotes.
pub(crate) fn may_be_quoted(value: Option<&[u8]>) -> bool
    ensures { IsTrue result ↔ IfSome (option_copied value.entry) (Any parts.is_quoted_byte) }
{
    match value {
        Some(text) => all_quoted(text),
        None => true,
    }
}

/// Whether a value may be written without quotes: one or more bare bytes.
pub(crate) fn is_bare(text: &[u8]) -> bool
    ensures { result ≡ spelling.is_bare text.now }
{
    !text.is_empty() && all_bare(text)
}

/// How many digest bytes a text begins with: 32 at a time, the last 32 once more where they overlap.
pub(crate) fn digest_len(text: &[u8]) -> usize
    ensures count { result ≡ prefix_len parts.is_digest_byte text.now }
    ensures within { result ≤ length text.now }
{
    if text.len() < BLOCK {
        return digest_len_by_bytes(text);
    }
    let last = text.len() - BLOCK;
    let mut place = 0;
    'whole: while place < last {
        let count = digest_block_len(text, place);
        if count < BLOCK {
            return place + count;
        }
        place += BLOCK;
    }
    last + digest_block_len(text, last)
}

/// How many digest bytes a text begins with, byte by byte.
fn digest_len_by_bytes(text: &[u8]) -> usize
    ensures count { result ≡ prefix_len parts.is_digest_byte text.now }
    ensures within { result ≤ length text.now }
{
    text.iter()
        .take_while(|byte| is_digest_byte(**byte))
        .count()
}

/// How many bare bytes a text begins with.
pub(crate) fn bare_len(text: &[u8]) -> usize
    ensures count { result ≡ prefix_len parts.is_bare_byte text.now }
    ensures within { result ≤ length text.now }
{
    text.iter().take_while(|byte| is_bare_byte(**byte)).count()
}

/// How many bytes a text begins with that may be between quotes.
pub(crate) fn quoted_len(text: &[u8]) -> usize
    ensures count { result ≡ prefix_len parts.is_quoted_byte text.now }
    ensures within { result ≤ length text.now }
{
    text.iter()
        .take_while(|byte| is_quoted_byte(**byte))
        .count()
}
