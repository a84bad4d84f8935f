//! What a line of a state says.
ghost use Rattle.std.specs.Prelude.{◌≡◌, ◌≤◌, IfSome};
ghost use Rattle.state_text.specs.Reading.{call_number, call_on, ended_number, kept_on, number_on, ticket_of};
ghost use Rattle.state_text.specs.Reading.{written_when};

use crate::entries::MOST_LAST;
use crate::kept::Kept;
use text_grammar::{behind, cut, read_number};

/// A number of at most `most`, up to the LF with which the text ends.
#[tactic(auto, using(text_grammar::proofs::DecimalLaws::number_within), unfolding(crate::specs::Reading::ended_number))]
fn ended_number(text: &[u8], most: u64) -> Option<u64>
    ensures exact { result ≡ ended_number most text.now }
    ensures within { IfSome result (λ number. number ≤ most) }
{
    let Some((digits, rest)) = cut(text, b'\n') else {
        return None;
    };
    if rest.is_empty() {
        read_number(digits, most)
    } else {
        None
    }
}

/// The number of at most `most` after this name, on a line with its LF.
#[tactic(auto, unfolding(crate::specs::Reading::number_on))]
pub(crate) fn number_on(line: &[u8], name: &[u8], most: u64) -> Option<u64>
    ensures exact { result ≡ number_on name.now most line.now }
    ensures within { IfSome result (λ number. number ≤ most) }
{
    let Some(rest) = behind(line, name) else {
        return None;
    };
    ended_number(rest, most)
}

/// The ticket that a word of 64 lower-case hex digits writes.
#[tactic(auto, unfolding(crate::specs::Reading::ticket_of))]
fn ticket_of(word: &[u8]) -> Option<[u8; 32]>
    ensures { result ≡ ticket_of word.now }
{
    let mut ticket = [0; 32];
    match hex::decode_to_slice(word, &mut ticket) {
        Ok(()) => if_lower_case(ticket, word),
        Err(_) => None,
    }
}

/// The ticket, if the word is its text: upper-case digits decode too.
fn if_lower_case(ticket: [u8; 32], word: &[u8]) -> Option<[u8; 32]>
    ensures { result ≡ written_when word.now ticket }
{
    let mut again = [0; 64];
    match hex::encode_to_slice(ticket, &mut again) {
        Ok(()) if again.as_slice() == word => Some(ticket),
        _ => None,
    }
}

/// The entry that a line writes, of a call with a number of at most `most`.
#[tactic(auto, unfolding(crate::specs::Reading::kept_on))]
pub(crate) fn kept_on(line: &[u8], most: u32) -> Option<([u8; 32], Kept)>
    ensures { result ≡ kept_on most line.now }
{
    let Some(rest) = behind(line, b"kept ") else {
        return None;
    };
    let Some((word, rest)) = cut(rest, b' ') else {
        return None;
    };
    let Some(ticket) = ticket_of(word) else {
        return None;
    };
    call_on(rest, most, ticket)
}

/// The entry of this ticket, by the two numbers after it.
fn call_on(rest: &[u8], most: u32, ticket: [u8; 32]) -> Option<([u8; 32], Kept)>
    ensures { result ≡ call_on most rest.now ticket }
{
    let Some((digits, rest)) = cut(rest, b' ') else {
        return None;
    };
    let Some(call) = call_number(digits, most) else {
        return None;
    };
    let Some(last) = ended_number(rest, MOST_LAST) else {
        return None;
    };
    Some((ticket, Kept { call, last }))
}

/// The number of a call, which is at least 1.
fn call_number(digits: &[u8], most: u32) -> Option<u32>
    ensures { result ≡ call_number most digits.now }
{
    match read_number(digits, u64::from(most)) {
        Some(0) => None,
        Some(number) => Some(number as u32),
        None => None,
    }
}
