//! Answers files and the provider over one: the calls of `stir_outside` about them.

use std::alloc::Global;
use stir_outside::{AnswerProvider, Provider};
use vector_table::{Answer, Unread, answers_of, joined, numbers_of, ok_or_line, read_answers};

/// What a call answers.
pub fn answer(alloc: Global, call: &str, words: &[&[u8]]) -> Result<String, Unread> {
    match call {
        "read" => read(alloc, words),
        "ask" => ask(alloc, words),
        _ => Err(Unread::Call),
    }
}

/// `ok`, or the first bad line of an answers file.
fn read(alloc: Global, words: &[&[u8]]) -> Result<String, Unread> {
    let file = joined(alloc, words)?;
    ok_or_line(alloc, read_answers(alloc, file.as_slice())?)
}

/// What a provider over an answers file answers to some calls, how many were made and how many failed.
fn ask(alloc: Global, words: &[&[u8]]) -> Result<String, Unread> {
    let [file, failing, calls @ ..] = words else {
        return Err(Unread::Call);
    };
    let answers = answers_of(alloc, file)?;
    let failing = numbers_of(alloc, failing)?;
    let mut provider = answers.provider(failing.as_slice())?;
    let answer = put_answers(Answer::new(alloc), &mut provider, calls)?;
    answer.word(provider.asks()).word(provider.faults()).line()
}

/// Puts after other words what a provider answers to some calls.
fn put_answers(
    answer: Answer,
    provider: &mut AnswerProvider<'_>,
    calls: &[&[u8]],
) -> Result<Answer, Unread> {
    let mut answer = answer;
    let mut place: usize = 0;
    for _ in calls {
        let Some([call, words @ ..]) = calls.get(place..) else {
            break;
        };
        let taken = taken_by(call);
        let Some(words) = words.get(..taken) else {
            return Err(Unread::Call);
        };
        answer = asked(answer, provider, call, words)?;
        place = place.saturating_add(taken).saturating_add(1);
    }
    Ok(answer)
}

/// How many words a call of a provider takes.
fn taken_by(call: &[u8]) -> usize {
    match call {
        b"confirm" => 3,
        _ => 2,
    }
}

/// Puts after other words what a provider answers to the call of this name.
fn asked(
    answer: Answer,
    provider: &mut AnswerProvider<'_>,
    call: &[u8],
    words: &[&[u8]],
) -> Result<Answer, Unread> {
    match call {
        b"confirm" => confirmed(answer, provider, words),
        b"sign" => signed(answer, provider, words),
        _ => Err(Unread::Call),
    }
}

/// Puts after other words whether a provider confirms a signature.
fn confirmed(
    answer: Answer,
    provider: &mut AnswerProvider<'_>,
    words: &[&[u8]],
) -> Result<Answer, Unread> {
    let [key, digest, signature] = words else {
        return Err(Unread::Call);
    };
    let key = bytes_of::<65>(key)?;
    let digest = bytes_of::<32>(digest)?;
    let signature = bytes_of::<64>(signature)?;
    match provider.confirm(key, digest, signature) {
        Ok(good) => Ok(answer.word(good)),
        Err(_) => Ok(answer.word("failed")),
    }
}

/// Puts after other words the signature that a provider makes.
fn signed(
    answer: Answer,
    provider: &mut AnswerProvider<'_>,
    words: &[&[u8]],
) -> Result<Answer, Unread> {
    let [name, digest] = words else {
        return Err(Unread::Call);
    };
    let digest = bytes_of::<32>(digest)?;
    match provider.sign(name, digest) {
        Ok(Some(signature)) => Ok(answer.hex(&signature)),
        Ok(None) => Ok(answer.word("none")),
        Err(_) => Ok(answer.word("failed")),
    }
}

/// A word of exactly so many bytes.
fn bytes_of<const N: usize>(word: &[u8]) -> Result<&[u8; N], Unread> {
    match word.split_first_chunk::<N>() {
        Some((bytes, [])) => Ok(bytes),
        _ => Err(Unread::Value),
    }
}
