//! The words of a call as the values of the crates below: numbers and answers files.

use crate::answer::Answer;
use crate::table::{Unread, number};
use crate::words::given;
use std::alloc::Global;
use stir_outside::{AnswerFault, Answers};
use tn_values::{Local, Number, Span};

/// A length that no text of lines may reach.
const TOO_LONG: usize = 4_000_000_000;

/// The number that a word is.
pub fn number_of(digits: &[u8]) -> Result<Number, Unread> {
    Number::exact(digits).ok_or(Unread::Value)
}

/// The number of seconds that a word is; none if it is `-`.
pub fn seconds(word: &[u8]) -> Result<Option<u64>, Unread> {
    match given(word) {
        Some(word) => Ok(Some(number(word)?)),
        None => Ok(None),
    }
}

/// The telephone number that a word is; none if it is `-`.
pub fn telephone(word: &[u8]) -> Result<Option<Number>, Unread> {
    match given(word) {
        Some(word) => Ok(Some(number_of(word)?)),
        None => Ok(None),
    }
}

/// The local numbering of two words.
pub fn local_of(country: &[u8], national: &[u8]) -> Result<Local, Unread> {
    Local::new(country, number(national)?).ok_or(Unread::Value)
}

/// The span of a start and a size.
pub fn span_of(start: &str, size: &str) -> Result<Span, Unread> {
    let size = number(size.as_bytes())?;
    Span::new(number_of(start.as_bytes())?, size).ok_or(Unread::Value)
}

/// The answers that a text holds, or its first bad line.
pub fn read_answers(alloc: Global, text: &[u8]) -> Result<Result<Answers, u32>, Unread> {
    if text.len() >= TOO_LONG {
        return Err(Unread::Value);
    }
    match Answers::read(alloc, text) {
        Ok(answers) => Ok(Ok(answers)),
        Err(AnswerFault::Line { line }) => Ok(Err(line)),
        Err(AnswerFault::Memory) => Err(Unread::Memory),
    }
}

/// The answers that a text holds.
pub fn answers_of(alloc: Global, text: &[u8]) -> Result<Answers, Unread> {
    whole(read_answers(alloc, text)?)
}

/// What was read of a text that has no bad line.
fn whole<T: Drop>(read: Result<T, u32>) -> Result<T, Unread> {
    match read {
        Ok(value) => Ok(value),
        Err(_) => Err(Unread::Value),
    }
}

/// Puts the country and the national length of a local numbering after other words.
pub fn put_local(answer: Answer, local: &Local) -> Answer {
    answer.word(local.country()).word(local.national())
}

/// Puts the start and the size of a span after other words.
pub fn put_span(answer: Answer, span: &Span) -> Answer {
    answer.word(span.start()).word(span.size())
}

/// Puts numbers after other words.
pub fn put_numbers(answer: Answer, numbers: &[Number]) -> Answer {
    let mut answer = answer;
    for number in numbers {
        answer = answer.word(*number);
    }
    answer
}
