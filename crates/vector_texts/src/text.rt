//! Lines, words and decimal digits: the calls of `text_grammar`.

use std::alloc::Global;
use text_grammar::{Line, Lines, Words, behind, cut, line_count, read_number, words_of};
use vector_table::{Answer, Unread, number, or_none, word};

/// What a call answers.
pub fn answer(alloc: Global, call: &str, words: &[&[u8]]) -> Result<String, Unread> {
    match call {
        "lines" => lines(alloc, words),
        "line_count" => count(alloc, words),
        "words" => words_answer(alloc, words),
        "number" => number_answer(alloc, words),
        "cut" => cut_answer(alloc, words),
        "behind" => behind_answer(alloc, words),
        _ => Err(Unread::Call),
    }
}

/// The lines of a text that say something, each as its number and what is on it, and `end`.
fn lines(alloc: Global, words: &[&[u8]]) -> Result<String, Unread> {
    let [text] = words else {
        return Err(Unread::Call);
    };
    if text.len() >= 4_000_000_000 {
        return Err(Unread::Value);
    }
    let mut lines = Lines::new(text);
    let mut answer = Answer::new(alloc);
    for _ in 0..text.len() {
        answer = put_line(answer, lines.next());
    }
    answer.word("end").line()
}

/// Puts after other words the number of a line and what is on it.
fn put_line(answer: Answer, line: Option<Line<'_>>) -> Answer {
    match line {
        Some(line) => answer.word(line.number).text(line.text),
        None => answer,
    }
}

/// How many lines a text has.
fn count(alloc: Global, words: &[&[u8]]) -> Result<String, Unread> {
    let [text] = words else {
        return Err(Unread::Call);
    };
    word(alloc, line_count(text))
}

/// The words of a line, or `none`.
fn words_answer(alloc: Global, words: &[&[u8]]) -> Result<String, Unread> {
    let [line] = words else {
        return Err(Unread::Call);
    };
    match words_of(line) {
        Some(words) => put_words(Answer::new(alloc), words).line(),
        None => word(alloc, "none"),
    }
}

/// Puts the words of a line after others.
fn put_words(answer: Answer, words: Words<'_>) -> Answer {
    match words {
        Words::Two(a, b) => answer.text(a).text(b),
        Words::Three(a, b, c) => answer.text(a).text(b).text(c),
        Words::Four(a, b, c, d) => answer.text(a).text(b).text(c).text(d),
    }
}

/// The number that digits are, if it is no more than a most.
fn number_answer(alloc: Global, words: &[&[u8]]) -> Result<String, Unread> {
    let [digits, most] = words else {
        return Err(Unread::Call);
    };
    or_none(alloc, read_number(digits, number(most)?))
}

/// A text cut at the first byte that is the one byte of a word.
fn cut_answer(alloc: Global, words: &[&[u8]]) -> Result<String, Unread> {
    let [bytes, [byte]] = words else {
        return Err(Unread::Call);
    };
    two_or_none(alloc, cut(bytes, *byte))
}

/// What comes after a prefix.
fn behind_answer(alloc: Global, words: &[&[u8]]) -> Result<String, Unread> {
    let [bytes, front] = words else {
        return Err(Unread::Call);
    };
    match behind(bytes, front) {
        Some(rest) => Answer::new(alloc).text(rest).line(),
        None => word(alloc, "none"),
    }
}

/// Two texts, or `none`.
fn two_or_none(alloc: Global, parts: Option<(&[u8], &[u8])>) -> Result<String, Unread> {
    match parts {
        Some((front, rest)) => Answer::new(alloc).text(front).text(rest).line(),
        None => word(alloc, "none"),
    }
}
