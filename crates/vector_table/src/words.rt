//! The words of a call as what its parameters take.

use crate::table::{Unread, number, text};
use std::alloc::Global;

/// The bytes of one word or more, put together.
pub fn joined(alloc: Global, words: &[&[u8]]) -> Result<Vec<u8>, Unread> {
    if words.is_empty() {
        return Err(Unread::Call);
    }
    let mut bytes = Vec::new(alloc);
    for word in words {
        bytes.extend_from_slice(word)?;
    }
    Ok(bytes)
}

/// Files, each a name and a content.
pub fn files_of(alloc: Global, words: &[&[u8]]) -> Result<Vec<(Vec<u8>, Vec<u8>)>, Unread> {
    let mut files = Vec::new(alloc);
    let mut rest = words;
    for _ in words {
        let [name, content, behind @ ..] = rest else {
            break;
        };
        let name = Vec::from_slice(alloc, name)?;
        let content = Vec::from_slice(alloc, content)?;
        files.push((name, content))?;
        rest = behind;
    }
    Ok(files)
}

/// A word; none if it is `-`.
pub fn given(word: &[u8]) -> Option<&[u8]> {
    if word == b"-".as_slice() {
        None
    } else {
        Some(word)
    }
}

/// Numbers with commas between.
pub fn numbers_of(alloc: Global, words: &[u8]) -> Result<Vec<u64>, Unread> {
    let mut numbers = Vec::new(alloc);
    for word in text(words)?.split(',') {
        put_number(word, &mut numbers)?;
    }
    Ok(numbers)
}

/// Puts after others the number that a word is; an empty word is none.
fn put_number(word: &str, numbers: &mut Vec<u64>) -> Result<(), Unread> {
    if !word.is_empty() {
        numbers.push(number(word.as_bytes())?)?;
    }
    Ok(())
}
