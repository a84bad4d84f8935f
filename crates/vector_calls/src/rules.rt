//! Calls judged by the rules of the call: the calls of `verify_rules`.

use std::alloc::Global;
use vector_table::{Answer, Unread, joined, local_of, number, word};
use verify_rules::{Place, Refusal, ScreenFault, Screened, Settings, code, screen};

/// The most seconds that a PASSporT may be old or ahead.
const MOST_SECONDS: u64 = 86_400;

/// What a call answers.
pub fn answer(alloc: Global, call: &str, words: &[&[u8]]) -> Result<String, Unread> {
    match call {
        "screen" => screened(alloc, words),
        "code" => code_answer(alloc, words),
        _ => Err(Unread::Call),
    }
}

/// The response code of a rule.
fn code_answer(alloc: Global, words: &[&[u8]]) -> Result<String, Unread> {
    let [rule] = words else {
        return Err(Unread::Call);
    };
    word(alloc, code(number(rule)?))
}

/// What is said of a message that came at a moment.
fn screened(alloc: Global, words: &[&[u8]]) -> Result<String, Unread> {
    let [country, national, past, future, moment, message @ ..] = words else {
        return Err(Unread::Call);
    };
    let settings = settings_of(country, national, past, future)?;
    let moment = number(moment)?;
    let message = joined(alloc, message)?;
    match screen(alloc, message.as_slice(), moment, &settings) {
        Ok(screened) => put_screened(Answer::new(alloc).word("screened"), &screened).line(),
        Err(ScreenFault::Refused(refusal)) => put_refusal(Answer::new(alloc), refusal).line(),
        Err(ScreenFault::Memory) => Err(Unread::Memory),
    }
}

/// The settings of these words.
fn settings_of(
    country: &[u8],
    national: &[u8],
    past: &[u8],
    future: &[u8],
) -> Result<Settings, Unread> {
    let local = local_of(country, national)?;
    let past = number(past)?;
    let future = number(future)?;
    if past > MOST_SECONDS || future > MOST_SECONDS {
        return Err(Unread::Value);
    }
    Ok(Settings {
        local,
        past,
        future,
    })
}

/// Puts the fields of the judged PASSporTs in call order, the last second, and the ticket after other words.
fn put_screened(answer: Answer, screened: &Screened) -> Answer {
    let mut answer = answer;
    for place in 0..screened.count() {
        answer = answer.word(screened.field(place));
    }
    answer.word(screened.last()).hex(screened.ticket())
}

/// Puts `refused`, the response code, the rule, and where it is broken after other words.
pub fn put_refusal(answer: Answer, refusal: Refusal) -> Answer {
    let answer = answer
        .word("refused")
        .word(code(refusal.rule))
        .word(refusal.rule);
    put_place(answer, refusal.place)
}

/// Puts a place after other words.
pub fn put_place(answer: Answer, place: Place) -> Answer {
    answer.word(place.field).word(place.part)
}
