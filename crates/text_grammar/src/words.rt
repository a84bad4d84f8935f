//! The words of a line.
ghost use Rattle.std.specs.Prelude.{◌≡◌, ◌↔◌, ℕ, List, Some};
ghost use Rattle.std.specs.Option.{option_map};
ghost use Rattle.text_grammar.specs.LineWords.{IsLineOf, line_words, none_empty, word_list};

use crate::cut;

/// The words of a line that has two to four of them.
#[derive(Clone, Copy, Debug)]
pub enum Words<'a> {
    Two(&'a [u8], &'a [u8]),
    Three(&'a [u8], &'a [u8], &'a [u8]),
    Four(&'a [u8], &'a [u8], &'a [u8], &'a [u8]),
}

/// The words of a line, with exactly one space between each two.
///
/// None if there are fewer than two words or more than four, or if a word is empty, as at the ends of the line or
/// between two spaces in a row.
#[tactic(auto, using(crate::proofs::WordLaws::one_part, crate::proofs::WordLaws::two_parts, crate::proofs::WordLaws::three_parts, crate::proofs::WordLaws::four_parts, crate::proofs::WordLaws::more_parts))]
pub fn words_of(line: &[u8]) -> Option<Words<'_>>
    ensures { option_map word_list result ≡ line_words line.now }
{
    let Some((first, others)) = cut(line, b' ') else {
        return None;
    };
    let Some((second, more)) = cut(others, b' ') else {
        return with_none_empty(Words::Two(first, others));
    };
    let Some((third, last)) = cut(more, b' ') else {
        return with_none_empty(Words::Three(first, second, more));
    };
    match cut(last, b' ') {
        Some(_) => None,
        None => with_none_empty(Words::Four(first, second, third, last)),
    }
}

/// The words, if none is empty.
fn with_none_empty(words: Words<'_>) -> Option<Words<'_>>
    ensures { option_map word_list result ≡ none_empty (word_list words.entry) }
{
    let some_empty = match words {
        Words::Two(a, b) => a.is_empty() || b.is_empty(),
        Words::Three(a, b, c) => a.is_empty() || b.is_empty() || c.is_empty(),
        Words::Four(a, b, c, d) => a.is_empty() || b.is_empty() || c.is_empty() || d.is_empty(),
    };
    if some_empty { None } else { Some(words) }
}

/// A law, with nothing to do: a line has these words exactly if it is two to four words without a space, with one space
/// between each two.
pub fn words_law()
    ensures { (line : List ℕ) (words : List (List ℕ)) → (line_words line ≡ Some words) ↔ IsLineOf line words }
{}
