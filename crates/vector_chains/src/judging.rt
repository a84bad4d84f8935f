//! Authority lists, and the files by which chains are judged, as the words of a call have them.

use cert_store::{ChainMap, Judged, MapFault, judge_chain};
use delegation::{AnchorFault, Anchors};
use std::alloc::{AllocError, Global};
use stir_outside::AnswerProvider;
use tn_auth_list::{AuthList, Code, CodeTable, Entry, TableFault};
use vector_table::{Unread, number_of, span_of, text};

/// A length that no text of lines may reach.
const TOO_LONG: usize = 4_000_000_000;

/// The code that a word is.
pub fn code_of(text: &[u8]) -> Result<Code, Unread> {
    Code::new(text).ok_or(Unread::Value)
}

/// The list of entries `=NUMBER`, `START+COUNT` and `CODE`, with commas between.
pub fn list_of(alloc: Global, words: &[u8]) -> Result<AuthList, Unread> {
    AuthList::build(entries_of(alloc, words)?).ok_or(Unread::Value)
}

/// Entries as those of [`list_of`].
pub fn entries_of(alloc: Global, words: &[u8]) -> Result<Vec<Entry>, Unread> {
    let mut entries = Vec::new(alloc);
    for word in text(words)?.split(',') {
        put_entry_of(word, &mut entries)?;
    }
    Ok(entries)
}

/// Puts after others the entry that a word is; an empty word is none.
fn put_entry_of(word: &str, entries: &mut Vec<Entry>) -> Result<(), Unread> {
    if !word.is_empty() {
        entries.push(entry_of(word)?)?;
    }
    Ok(())
}

/// The entry that a word is.
fn entry_of(word: &str) -> Result<Entry, Unread> {
    if let Some(number) = word.strip_prefix('=') {
        return Ok(Entry::Single(number_of(number.as_bytes())?));
    }
    match word.split_once('+') {
        Some((start, count)) => Ok(Entry::Range(span_of(start, count)?)),
        None => Ok(Entry::Code(code_of(word.as_bytes())?)),
    }
}

/// The code table that a text is, or its first bad line.
pub fn read_table(alloc: Global, text: &[u8]) -> Result<Result<CodeTable, u32>, Unread> {
    if text.len() >= TOO_LONG {
        return Err(Unread::Value);
    }
    match CodeTable::read(alloc, text) {
        Ok(table) => Ok(Ok(table)),
        Err(TableFault::Line { line }) => Ok(Err(line)),
        Err(TableFault::Memory) => Err(Unread::Memory),
    }
}

/// The chain map that a text is, or its first bad line.
pub fn read_map(alloc: Global, text: &[u8]) -> Result<Result<ChainMap, u32>, Unread> {
    if text.len() >= TOO_LONG {
        return Err(Unread::Value);
    }
    match ChainMap::read(alloc, text) {
        Ok(map) => Ok(Ok(map)),
        Err(MapFault::Line { line }) => Ok(Err(line)),
        Err(MapFault::Memory) => Err(Unread::Memory),
    }
}

/// The code table that a text is.
pub fn table_of(alloc: Global, text: &[u8]) -> Result<CodeTable, Unread> {
    whole(read_table(alloc, text)?)
}

/// The chain map that a text is.
pub fn map_of(alloc: Global, text: &[u8]) -> Result<ChainMap, Unread> {
    whole(read_map(alloc, text)?)
}

/// What was read of a text that has no bad line.
fn whole<T: Drop>(read: Result<T, u32>) -> Result<T, Unread> {
    match read {
        Ok(value) => Ok(value),
        Err(_) => Err(Unread::Value),
    }
}

/// The anchors that some bytes are.
pub fn anchors_of(alloc: Global, bytes: &[u8]) -> Result<Anchors, Unread> {
    match Anchors::read(alloc, bytes) {
        Ok(anchors) => Ok(anchors),
        Err(AnchorFault::At { .. }) => Err(Unread::Value),
        Err(AnchorFault::Memory) => Err(Unread::Memory),
    }
}

/// A chain as the rules on it judge it.
pub fn judged(
    alloc: Global,
    chain: &[u8],
    anchors: &Anchors,
    table: &CodeTable,
    provider: &mut AnswerProvider<'_>,
) -> Result<Judged, AllocError> {
    judge_chain(alloc, chain, anchors, table, provider)
}
