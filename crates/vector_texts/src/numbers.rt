//! Numbers, the local numbering, spans and sets: the calls of `tn_values`.

use std::alloc::Global;
use tn_values::{Local, Number, NumberSet, Span};
use vector_table::{
    Answer, Unread, local_of, number, number_of, or_none, ordering, put_local, put_numbers,
    put_span, shown, span_of, text, word,
};

/// What a call answers.
pub fn answer(alloc: Global, call: &str, words: &[&[u8]]) -> Result<String, Unread> {
    match call {
        "exact" => exact(alloc, words),
        "compare" => compared(alloc, words),
        "show" => show(alloc, words),
        "span" => span(alloc, words),
        "set" => set(alloc, words),
        "parts" => parts(alloc, words),
        "has" => has(alloc, words),
        "within" => within(alloc, words),
        "local" => local(alloc, words),
        _ => local_answer(alloc, call, words),
    }
}

/// What a call answers that reads texts under a local numbering.
fn local_answer(alloc: Global, call: &str, words: &[&[u8]]) -> Result<String, Unread> {
    let [country, national, words @ ..] = words else {
        return Err(Unread::Call);
    };
    let local = local_of(country, national)?;
    match call {
        "read" => read(alloc, &local, words),
        _ => Err(Unread::Call),
    }
}

/// The number that digits are, or `none`.
fn exact(alloc: Global, words: &[&[u8]]) -> Result<String, Unread> {
    let [digits] = words else {
        return Err(Unread::Call);
    };
    or_none(alloc, Number::exact(digits))
}

/// Whether one number is less than another, equal or greater.
fn compared(alloc: Global, words: &[&[u8]]) -> Result<String, Unread> {
    let [left, right] = words else {
        return Err(Unread::Call);
    };
    word(alloc, ordering(number_of(left)?.cmp(&number_of(right)?)))
}

/// A number as it is printed.
fn show(alloc: Global, words: &[&[u8]]) -> Result<String, Unread> {
    let [digits] = words else {
        return Err(Unread::Call);
    };
    shown(alloc, &number_of(digits)?)
}

/// The number that is read from a text, or `none`.
fn read(alloc: Global, local: &Local, words: &[&[u8]]) -> Result<String, Unread> {
    let [text] = words else {
        return Err(Unread::Call);
    };
    or_none(alloc, Number::read(text, local))
}

/// The country and the national length of a local numbering, or `none`.
fn local(alloc: Global, words: &[&[u8]]) -> Result<String, Unread> {
    let [country, national] = words else {
        return Err(Unread::Call);
    };
    match Local::new(country, number(national)?) {
        Some(local) => put_local(Answer::new(alloc), &local).line(),
        None => word(alloc, "none"),
    }
}

/// The start and the size of a span, or `none`.
fn span(alloc: Global, words: &[&[u8]]) -> Result<String, Unread> {
    let [start, size] = words else {
        return Err(Unread::Call);
    };
    match Span::new(number_of(start)?, number(size)?) {
        Some(span) => put_span(Answer::new(alloc), &span).line(),
        None => word(alloc, "none"),
    }
}

/// The spans and the single numbers of a set, in their order.
fn set(alloc: Global, words: &[&[u8]]) -> Result<String, Unread> {
    let [words] = words else {
        return Err(Unread::Call);
    };
    let set = set_of(alloc, words)?;
    let mut answer = Answer::new(alloc).word("spans");
    for span in set.spans() {
        answer = put_span(answer, span);
    }
    put_numbers(answer.word("singles"), set.singles()).line()
}

/// How many spans and single numbers a set has.
fn parts(alloc: Global, words: &[&[u8]]) -> Result<String, Unread> {
    let [words] = words else {
        return Err(Unread::Call);
    };
    word(alloc, set_of(alloc, words)?.parts())
}

/// Whether a set has a number.
fn has(alloc: Global, words: &[&[u8]]) -> Result<String, Unread> {
    let [words, digits] = words else {
        return Err(Unread::Call);
    };
    let set = set_of(alloc, words)?;
    word(alloc, set.has(&number_of(digits)?))
}

/// Whether a set lies within another.
fn within(alloc: Global, words: &[&[u8]]) -> Result<String, Unread> {
    let [child, parent] = words else {
        return Err(Unread::Call);
    };
    let parent = set_of(alloc, parent)?;
    word(alloc, set_of(alloc, child)?.within(&parent))
}

/// The set of spans `START+SIZE` and single numbers, with commas between.
fn set_of(alloc: Global, words: &[u8]) -> Result<NumberSet, Unread> {
    let mut spans = Vec::new(alloc);
    let mut singles = Vec::new(alloc);
    for word in text(words)?.split(',') {
        put_member(word, &mut spans, &mut singles)?;
    }
    Ok(NumberSet::build(spans, singles)?)
}

/// Puts after others the span or the single number that a word is; an empty word is neither.
fn put_member(word: &str, spans: &mut Vec<Span>, singles: &mut Vec<Number>) -> Result<(), Unread> {
    if word.is_empty() {
        return Ok(());
    }
    match word.split_once('+') {
        Some((start, size)) => spans.push(span_of(start, size)?)?,
        None => singles.push(number_of(word.as_bytes())?)?,
    }
    Ok(())
}
