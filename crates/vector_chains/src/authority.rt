//! Authority lists and code tables: the calls of `tn_auth_list`.

use crate::judging::{code_of, entries_of, read_table, table_of};
use std::alloc::Global;
use tn_auth_list::{AuthList, Code, Entry, Grant, ListFault, TableFault};
use vector_table::{
    Answer, Unread, fault, number, number_of, ok_or_line, or_none, ordering, put_span, shown, word,
};

/// What a call answers.
pub fn answer(alloc: Global, call: &str, words: &[&[u8]]) -> Result<String, Unread> {
    match call {
        "code" => code(alloc, words),
        "compare_codes" => compared(alloc, words),
        "show_code" => show(alloc, words),
        "read" => read(alloc, words),
        "count" => count(alloc, words),
        "write" => write(alloc, words),
        "build" => build(alloc, words),
        "fault" => says(alloc, words),
        "table" => table(alloc, words),
        "table_fault" => table_says(alloc, words),
        "grant" => grant(alloc, words),
        _ => Err(Unread::Call),
    }
}

/// The code that a text is, or `none`.
fn code(alloc: Global, words: &[&[u8]]) -> Result<String, Unread> {
    let [text] = words else {
        return Err(Unread::Call);
    };
    or_none(alloc, Code::new(text))
}

/// A code as it is printed.
fn show(alloc: Global, words: &[&[u8]]) -> Result<String, Unread> {
    let [code] = words else {
        return Err(Unread::Call);
    };
    shown(alloc, &code_of(code)?)
}

/// What a fault of a code table says.
fn table_says(alloc: Global, words: &[&[u8]]) -> Result<String, Unread> {
    let [line] = words else {
        return Err(Unread::Call);
    };
    let line = number(line)?;
    word(alloc, TableFault::Line { line })
}

/// What a fault of a list says.
fn says(alloc: Global, words: &[&[u8]]) -> Result<String, Unread> {
    let [kind, place] = words else {
        return Err(Unread::Call);
    };
    let kind = number(kind)?;
    let place = number(place)?;
    word(alloc, ListFault::At { kind, place })
}

/// How many entries a list has, or `none`.
fn count(alloc: Global, words: &[&[u8]]) -> Result<String, Unread> {
    let [bytes] = words else {
        return Err(Unread::Call);
    };
    match AuthList::read(alloc, bytes) {
        Ok(list) => word(alloc, list.entries().len()),
        Err(_) => word(alloc, "none"),
    }
}

/// How many entries the list of these entries has, or `none`.
fn build(alloc: Global, words: &[&[u8]]) -> Result<String, Unread> {
    let [entries] = words else {
        return Err(Unread::Call);
    };
    match AuthList::build(entries_of(alloc, entries)?) {
        Some(list) => word(alloc, list.entries().len()),
        None => word(alloc, "none"),
    }
}

/// Whether one code is less than another, equal or greater.
fn compared(alloc: Global, words: &[&[u8]]) -> Result<String, Unread> {
    let [left, right] = words else {
        return Err(Unread::Call);
    };
    word(alloc, ordering(code_of(left)?.cmp(&code_of(right)?)))
}

/// The entries of a list in DER, or the fault.
fn read(alloc: Global, words: &[&[u8]]) -> Result<String, Unread> {
    let [bytes] = words else {
        return Err(Unread::Call);
    };
    match AuthList::read(alloc, bytes) {
        Ok(list) => put_entries(Answer::new(alloc).word("ok"), &list).line(),
        Err(ListFault::At { kind, place }) => fault(alloc, kind, place),
        Err(ListFault::Memory) => Err(Unread::Memory),
    }
}

/// Puts the entries of a list after other words, as `code CODE`, `range START COUNT` and `single NUMBER`.
pub fn put_entries(answer: Answer, list: &AuthList) -> Answer {
    let mut answer = answer;
    for entry in list.entries() {
        answer = put_entry(answer, entry);
    }
    answer
}

/// Puts an entry after other words.
fn put_entry(answer: Answer, entry: &Entry) -> Answer {
    match entry {
        Entry::Code(code) => answer.word("code").word(*code),
        Entry::Range(span) => put_span(answer.word("range"), span),
        Entry::Single(number) => answer.word("single").word(*number),
    }
}

/// The bytes that the list writes which is read from these.
fn write(alloc: Global, words: &[&[u8]]) -> Result<String, Unread> {
    let [bytes] = words else {
        return Err(Unread::Call);
    };
    let Ok(list) = AuthList::read(alloc, bytes) else {
        return Err(Unread::Value);
    };
    let written = list.write()?;
    Answer::new(alloc).hex(written.as_slice()).line()
}

/// `ok`, or the first bad line of a code table.
fn table(alloc: Global, words: &[&[u8]]) -> Result<String, Unread> {
    let [text] = words else {
        return Err(Unread::Call);
    };
    ok_or_line(alloc, read_table(alloc, text)?)
}

/// What a table grants a code: `nothing`, `all`, or whether a number is among those that it grants.
fn grant(alloc: Global, words: &[&[u8]]) -> Result<String, Unread> {
    let [text, code, digits] = words else {
        return Err(Unread::Call);
    };
    let table = table_of(alloc, text)?;
    match table.numbers(&code_of(code)?) {
        Grant::Nothing => word(alloc, "nothing"),
        Grant::All => word(alloc, "all"),
        Grant::These(set) => word(alloc, set.has(&number_of(digits)?)),
    }
}
