//! What the readers of text formats share: byte classes, URIs, decimal numbers, a text cut in two, the lines and words
//! of a file, and grammars in proofs.
//!
//! Each function takes bytes and answers a value, or a view into the bytes; none takes memory.
//!
//! - One byte: [`is_blank`], [`is_name_byte`], [`is_visible`], [`is_uri_byte`], [`lower`].
//! - A prefix of a text: [`blank_count`], [`name_len`] and [`uri_len`] count, [`skip_blanks`] and [`front`] cut.
//!   [`byte_at`], [`letter_at`], [`word_at`] and [`some_at`] take what a format asks for, or answer a [`Stop`] with the
//!   text from where the reader can't go on.
//! - A block of [`BLOCK`] bytes, each with a mark: [`outside`] takes away the marks of the bytes in a range, and
//!   [`first_left`] counts up to the first mark that is left. [`uri_len`] tests 32 bytes at a time so.
//! - A whole text: [`is_word`], [`read_number`], [`is_uri`].
//! - A text in two: [`cut`] at the first such byte, [`behind`] after a prefix.
//! - A file of rows, as the chain map, the code table and the answers file are (this project's own form): [`Lines`]
//!   with their numbers, and [`words_of`] a line.
//!
//! ```text
//! the bytes of a file
//!    | Lines::new, then Lines::next until None     comments (`;`) and empty lines are counted and passed over
//!    v
//! Line { number, text }
//!    | words_of
//!    v
//! Words::Two, Three or Four                        each word has a byte at least; one space between each two
//! ```
//!
//! ```rust
//! assert_eq!(read_number(b"65535", 65_535), Some(65_535));
//! assert_eq!(read_number(b"065535", 65_535), None);
//! let Some((name, value)) = cut(b"ppt=shaken", b'=') else { .. };
//! let mut lines = Lines::new(b"; trust\nhttps://cert.example.org/a.cer a.der\n");
//! let Some(line) = lines.next() else { .. };       // line.number is 2
//! let Some(Words::Two(x5u, file)) = words_of(line.text) else { .. };
//! ```
//!
//! What the words of a line mean, and which rows a file refuses, is said by the crate of each file: `cert_store`,
//! `tn_auth_list`, `stir_outside`. The log, the state file, a message head and an Identity value have forms of their
//! own (`call_log`, `state_text`, `sip_message`, `identity_header`). URIs aren't taken apart, only tested ([`is_uri`]:
//! 1 to 2,048 bytes, this project's own rule).
//!
//! Proved: each function gives exactly what its list function in `specs/` gives, and a line has these words just if it
//! is these words with single spaces ([`words_law`]). `specs/Rows` says what a file of rows is. `specs/Grammar` has the
//! pieces of which formats are put together, and `proofs/Laws` joins a grammar, its reader and the place of a fault.
//! `docs/dev/PROVED.md` lists them under "The outside, and texts".
//!
//! Cases: sections `text` (`text.lines`, `text.line_count`, `text.words` among them) and `tokens` (`tokens.is_uri`) of
//! `crates/vectors/stdin`.
#![tactic(auto)]

mod blocks;
mod decimal;
mod lines;
mod split;
mod uri;
mod words;

ghost use Rattle.std.specs.Prelude.{◌≡◌, ◌≤◌, length, map, take};
ghost use Rattle.std.specs.List.{prefix_len};
ghost use Rattle.text_grammar.specs.Bytes as bytes;
ghost use Rattle.text_grammar.specs.Reading as reading;
ghost use Rattle.text_grammar.specs.Gives.{Gives, slice_view, split_view};

pub use blocks::{BLOCK, first_left, outside};
pub use decimal::read_number;
pub use lines::{Line, Lines, line_count};
pub use split::{behind, cut};
pub use uri::{is_uri, uri_law, uri_len, uri_text};
pub use words::{Words, words_law, words_of};

/// The last second of the year 9999, in Unix time: the latest moment that a text of this program names (this project's
/// own limit).
pub const LAST_SECOND: u64 = 253_402_300_799;

/// Where a reader can't go on: the rest of the text from there.
#[derive(Clone, Copy, Debug)]
pub struct Stop<'a> {
    pub left: &'a [u8],
}

/// Whether a byte is a space or a tab.
pub fn is_blank(byte: u8) -> bool
    ensures { result ≡ bytes.is_blank byte }
{
    matches!(byte, b' ' | b'\t')
}

/// Whether a byte may be in a name: RFC 3261, section 25.1, `token`.
pub fn is_name_byte(byte: u8) -> bool
    ensures { result ≡ bytes.is_name_byte byte }
{
    byte.is_ascii_alphanumeric()
        || matches!(
            byte,
            b'-' | b'.' | b'!' | b'%' | b'*' | b'_' | b'+' | b'\'' | b'~' | b'`'
        )
}

/// Whether a byte is visible ASCII, 0x21 to 0x7E.
pub fn is_visible(byte: u8) -> bool
    ensures { result ≡ bytes.is_visible byte }
{
    byte.is_ascii_graphic()
}

/// Whether a byte may be in a URI: visible ASCII without `"`, `<`, `>` and backslash.
pub fn is_uri_byte(byte: u8) -> bool
    ensures { result ≡ bytes.is_uri_byte byte }
{
    is_visible(byte) && !matches!(byte, b'"' | b'<' | b'>' | b'\\')
}

/// The byte, with a letter A to Z as a to z.
pub fn lower(byte: u8) -> u8
    ensures { result ≡ bytes.lower byte }
{
    byte.to_ascii_lowercase()
}

/// Whether a text is a word, in letters of either case; the word is given in small letters.
pub fn is_word(text: &[u8], word: &[u8]) -> bool
    requires { map bytes.lower word.now ≡ word.now }
    ensures { result ≡ bytes.is_word word.now text.now }
{
    text.eq_ignore_ascii_case(word)
}

/// How many blanks a text begins with.
pub fn blank_count(text: &[u8]) -> usize
    ensures count { result ≡ prefix_len bytes.is_blank text.now }
    ensures within { result ≤ length text.now }
{
    text.iter().take_while(|byte| is_blank(**byte)).count()
}

/// How many name bytes a text begins with.
pub fn name_len(text: &[u8]) -> usize
    ensures count { result ≡ prefix_len bytes.is_name_byte text.now }
    ensures within { result ≤ length text.now }
{
    text.iter().take_while(|byte| is_name_byte(**byte)).count()
}

/// What follows the blanks that a text begins with.
pub fn skip_blanks(text: &[u8]) -> &[u8]
    ensures { result.now ≡ reading.skip bytes.is_blank text.now }
{
    &text[blank_count(text)..]
}

/// What follows this byte; a text that doesn't begin with it is refused.
pub fn byte_at(byte: u8, text: &[u8]) -> Result<&[u8], Stop<'_>>
    ensures { Gives slice_view result (reading.byte_at byte text.now) }
{
    match text {
        [first, rest @ ..] if *first == byte => Ok(rest),
        _ => Err(Stop { left: text }),
    }
}

/// What follows this letter, in either case; the letter is given as a small one.
pub fn letter_at(letter: u8, text: &[u8]) -> Result<&[u8], Stop<'_>>
    ensures { Gives slice_view result (reading.letter_at letter text.now) }
{
    match text {
        [first, rest @ ..] if lower(*first) == letter => Ok(rest),
        _ => Err(Stop { left: text }),
    }
}

/// What follows this word, in letters of either case; the word is given in small letters.
pub fn word_at<'a>(word: &[u8], text: &'a [u8]) -> Result<&'a [u8], Stop<'a>>
    ensures { Gives slice_view result (reading.word_at word.now text.now) }
{
    let mut left = text;
    for letter in word {
        left = letter_at(*letter, left)?;
    }
    Ok(left)
}

/// The first bytes of a text, at most this many.
pub fn front(text: &[u8], most: usize) -> &[u8]
    ensures bytes { result.now ≡ take most text.now }
    ensures within { length result.now ≤ length text.now }
{
    if text.len() <= most {
        text
    } else {
        &text[..most]
    }
}

/// The first bytes of a text, and what follows them; none are refused.
pub fn some_at(count: usize, text: &[u8]) -> Result<(&[u8], &[u8]), Stop<'_>>
    requires { count ≤ length text.now }
    ensures { Gives split_view result (reading.some_at count text.now) }
{
    if count == 0 {
        return Err(Stop { left: text });
    }
    Ok(text.split_at(count))
}
