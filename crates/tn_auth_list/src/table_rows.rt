//! The lines of the code table.
ghost use Rattle.std.specs.Prelude.{◌≡◌};
ghost use Rattle.tn_auth_list.specs.CodeTable.{given_of, is_all, range_of, row_of, with_code};

use crate::codes::Code;
use text_grammar::{Words, read_number, words_of};
use tn_values::{Number, Span};

/// What a line of the table gives its code.
#[derive(Clone, Copy, Debug)]
pub(crate) enum Gives {
    All,
    Range(Span),
    Single(Number),
}

/// A line of the table.
#[derive(Clone, Copy, Debug)]
pub(crate) struct Row {
    pub(crate) code: Code,
    pub(crate) gives: Gives,
}

impl Gives {
    /// Whether the line gives all numbers.
    pub(crate) fn is_all(&self) -> bool
        ensures { result ≡ is_all self.now }
    {
        matches!(self, Gives::All)
    }
}

/// What a line says: `CODE *`, `CODE NUMBER` or `CODE START COUNT`. None if it is none of these.
#[tactic(auto, unfolding(crate::specs::CodeTable::row_of))]
pub(crate) fn row_of(line: &[u8]) -> Option<Row>
    ensures { result ≡ row_of line.now }
{
    match words_of(line) {
        Some(Words::Two(code, given)) => with_code(code, given_of(given)),
        Some(Words::Three(code, start, count)) => with_code(code, range_of(start, count)),
        _ => None,
    }
}

/// The row of a code and what it is given, if both are such.
fn with_code(code: &[u8], gives: Option<Gives>) -> Option<Row>
    ensures { result ≡ with_code code.now gives }
{
    Some(Row {
        code: Code::new(code)?,
        gives: gives?,
    })
}

/// The second of two words: `*` is all numbers, and any other is a number.
fn given_of(word: &[u8]) -> Option<Gives>
    ensures { result ≡ given_of word.now }
{
    if word == b"*".as_slice() {
        return Some(Gives::All);
    }
    Some(Gives::Single(Number::exact(word)?))
}

/// The numbers of the range that the words START and COUNT write.
fn range_of(start: &[u8], count: &[u8]) -> Option<Gives>
    ensures { result ≡ range_of start.now count.now }
{
    let start = Number::exact(start)?;
    let size = read_number(count, u64::MAX)?;
    if size < 2 {
        return None;
    }
    Some(Gives::Range(Span::new(start, size)?))
}
