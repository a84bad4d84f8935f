//! The lines of a state file, each with its LF.
ghost use Rattle.std.specs.Prelude.{◌≡◌, ◌+◌, ◌^◌, ◌-◌, ◌<◌, [], ◌∷◌, length, MatchOption, IfSome};
ghost use Rattle.state_text.specs.Lines.{ended_lines};

use std::marker::Model;
use text_grammar::cut;

/// The lines that are still to be read, each with the LF at its end; the last may lack it. A contract sees them, and
/// the number of the first.
#[derive(Drop)]
pub(crate) struct Lines<'a> {
    /// The text that is still to be read.
    left: &'a [u8],
    /// Which line of the file the next one is, from 1.
    number: u32,
}

impl<'a> Model for Lines<'a> {
    ghost use Rattle.std.specs.Prelude.{◌+◌, ◌^◌, ◌<◌, length};
    ghost use Rattle.state_text.specs.Lines.{LinesView, ended_lines};

    ghost Value = { LinesView };

    ghost view = { λ l. record { number = l.number; lines = ended_lines l.left.now } };

    ghost invariant = { λ l. l.number + length l.left.now < 2 ^ 32 };
}

impl<'a> Lines<'a> {
    /// The lines of a text.
    pub(crate) fn new(text: &'a [u8]) -> Lines<'a>
        requires { length text.now < 2 ^ 32 - 1 }
        ensures { result ≡ record { number = 1; lines = ended_lines text.now } }
    {
        Lines {
            left: text,
            number: 1,
        }
    }

    /// The number of the next line.
    pub(crate) fn number(&self) -> u32
        ensures { result ≡ self.now.number }
    {
        self.number
    }

    /// The next line; None if there is no more.
    pub(crate) fn next(&mut self) -> Option<&'a [u8]>
        ensures { MatchOption result ((self.old.lines ≡ []) × (self.new ≡ self.old))
            (λ line. (self.old.lines ≡ line.now ∷ self.new.lines) × (self.new.number ≡ self.old.number + 1)) }
    {
        let Some((line, rest)) = first_line(self.left) else {
            return None;
        };
        self.left = rest;
        self.number += 1;
        Some(line)
    }
}

/// The first line of a text with its LF, and what comes after it; None of the empty text.
#[tactic(auto, using(crate::proofs::LineLaws::first_is, crate::proofs::LineLaws::last_is, crate::proofs::LineLaws::none_is))]
pub fn first_line(text: &[u8]) -> Option<(&[u8], &[u8])>
    ensures line { MatchOption result (ended_lines text.now ≡ [])
        (λ found. ended_lines text.now ≡ found.0.now ∷ ended_lines found.1.now) }
    ensures shorter { IfSome result (λ found. length found.1.now < length text.now) }
{
    if text.is_empty() {
        return None;
    }
    match cut(text, b'\n') {
        Some((front, _)) => Some(text.split_at(front.len() + 1)),
        None => Some(text.split_at(text.len())),
    }
}
