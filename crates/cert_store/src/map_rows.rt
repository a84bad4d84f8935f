//! The lines of a chain map.
ghost use Rattle.std.specs.Prelude.{◌≡◌, IsTrue};
ghost use Rattle.std.specs.Option.{option_map};
ghost use Rattle.cert_store.specs.ChainMap.{is_file_name, is_x5u, row_of, row_of_two};
ghost use Rattle.cert_store.specs.MapEntry.{entry_row};
ghost use Rattle.std.specs.List.{list_all};
ghost use Rattle.text_grammar.specs.Bytes as bytes;

use std::str;
use text_grammar::{Words, is_uri_byte, is_visible, words_of};

/// The most bytes of a file's name.
const LONGEST_NAME: usize = 255;

/// What a line of a chain map says: which file has the certificates of an x5u.
#[derive(Clone, Copy, Debug)]
pub(crate) struct Entry<'a> {
    pub(crate) x5u: &'a [u8],
    pub(crate) file: &'a str,
}

/// What a line says: `X5U FILE`. None if it says something else.
#[tactic(auto, unfolding(crate::specs::ChainMap::row_of))]
pub(crate) fn row_of(line: &[u8]) -> Option<Entry<'_>>
    ensures { option_map entry_row result ≡ row_of line.now }
{
    match words_of(line) {
        Some(Words::Two(x5u, file)) => row_of_two(x5u, file),
        _ => None,
    }
}

/// What two words say, if they are an x5u and a file's name.
fn row_of_two<'a>(x5u: &'a [u8], file: &'a [u8]) -> Option<Entry<'a>>
    ensures { option_map entry_row result ≡ row_of_two x5u.now file.now }
{
    if !is_x5u(x5u) {
        return None;
    }
    if !is_file_name(file) {
        return None;
    }
    Some(Entry {
        x5u,
        file: name_text(file),
    })
}

/// Whether a word is an x5u: bytes of the uri alphabet.
fn is_x5u(word: &[u8]) -> bool
    ensures { result ≡ is_x5u word.now }
{
    word.iter().all(|byte| is_uri_byte(*byte))
}

/// Whether a word is a file's name: at most 255 bytes of visible ASCII.
fn is_file_name(word: &[u8]) -> bool
    ensures { result ≡ is_file_name word.now }
{
    word.len() <= LONGEST_NAME && are_visible(word)
}

/// Whether all bytes are visible ASCII.
fn are_visible(word: &[u8]) -> bool
    ensures { result ≡ list_all bytes.is_visible word.now }
{
    word.iter().all(|byte| is_visible(*byte))
}

/// A file's name is ASCII, so it is text.
fn name_text(name: &[u8]) -> &str
    requires { IsTrue (is_file_name name.now) }
    ensures { result.now ≡ name.now }
{
    match str::from_utf8(name) {
        Ok(text) => text,
        Err(_) => unreachable!(),
    }
}
