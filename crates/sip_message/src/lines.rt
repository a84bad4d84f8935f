//! The physical lines of a message, one after another.
ghost use Rattle.std.specs.Prelude.{◌≡◌, ◌≤◌, [], ◌∷◌, length, MatchOption};
ghost use Rattle.std.specs.Option.{option_copied, option_map};
ghost use Rattle.std.specs.Str.Lines.{strip_carriage_return};
ghost use Rattle.sip_message.specs.Lines.{LineView, NextLine, NextContinuation, lines_of};
ghost use Rattle.sip_message.specs.Seen.{line_seen};

use std::marker::Model;
use text_grammar::cut;

/// A physical line without its LF and one CR directly before that, and the offset of its first byte.
#[derive(Clone, Copy, Debug)]
pub(crate) struct Line<'a> {
    pub place: u32,
    pub text: &'a [u8],
}

/// The lines that are left. A contract sees their list.
#[derive(Drop)]
pub(crate) struct Lines<'a> {
    place: usize,
    rest: &'a [u8],
}

impl<'a> Model for Lines<'a> {
    ghost use Rattle.std.specs.Prelude.{List, ◌≤◌, ◌+◌, length};
    ghost use Rattle.sip_message.specs.Lines.{LineView, lines_from};
    ghost use Rattle.text_grammar.specs.Line.{pieces};

    ghost Value = { List LineView };

    ghost view = { λ l. lines_from l.place (pieces l.rest.now) };

    ghost invariant = { λ l. l.place + length l.rest.now ≤ 65535 };
}

impl<'a> Lines<'a> {
    /// The lines of at most 65,535 bytes.
    pub(crate) fn new(bytes: &'a [u8]) -> Lines<'a>
        requires { length bytes.now ≤ 65535 }
        ensures { result ≡ lines_of bytes.now }
    {
        Lines {
            place: 0,
            rest: bytes,
        }
    }

    /// Takes the next line, if one is left; a last piece without LF is none.
    #[tactic(auto, using(crate::proofs::LineSteps::line_taken, crate::proofs::LineSteps::none_left, crate::proofs::LineSteps::line_size))]
    pub(crate) fn next(&mut self) -> Option<Line<'a>>
        ensures { NextLine (option_map line_seen result) self.old self.new }
    {
        let Some((piece, rest)) = cut(self.rest, b'\n') else {
            return None;
        };
        let place = self.place;
        self.place = place + piece.len() + 1;
        self.rest = rest;
        Some(Line {
            place: place as u32,
            text: without_return(piece),
        })
    }

    /// Takes the next line and gives its text, if it begins with space or tab.
    #[tactic(auto, using(crate::proofs::ContinuationSteps::stops_here, crate::proofs::ContinuationSteps::begins_here))]
    pub(crate) fn next_continuation(&mut self) -> Option<&'a [u8]>
        ensures { NextContinuation (option_copied result) self.old self.new }
    {
        match self.rest {
            [b' ' | b'\t', ..] => match self.next() {
                Some(line) => Some(line.text),
                None => None,
            },
            _ => None,
        }
    }
}

/// A line without one CR at its end.
fn without_return(line: &[u8]) -> &[u8]
    ensures { result.now ≡ strip_carriage_return line.now }
{
    match line {
        [front @ .., b'\r'] => front,
        _ => line,
    }
}
