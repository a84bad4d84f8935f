//! The lines of a text file.
ghost use Rattle.std.specs.Prelude.{◌≡◌, ◌+◌, ◌-◌, ◌^◌, ◌<◌, [], ◌∷◌, length, MatchOption, IfSome};
ghost use Rattle.std.specs.Str.Lines.{strip_carriage_return};
ghost use Rattle.text_grammar.specs.FileLines.{file_lines, is_passed_over, numbered_from, text_lines};

use crate::cut;
use std::marker::Model;

/// A line of a text file, without its end.
#[derive(Clone, Copy, Debug)]
pub struct Line<'a> {
    /// Which line of the file it is, from 1; lines that are passed over count.
    pub number: u32,
    /// What is written on it.
    pub text: &'a [u8],
}

/// The lines of a text file that say something, one by one.
///
/// A line ends at LF, and one CR directly before that is dropped; the last line may lack its LF. Empty lines and lines
/// that begin with `;` are passed over, and counted. A contract sees the lines that are still to come.
#[derive(Debug, Drop)]
pub struct Lines<'a> {
    left: &'a [u8],
    number: u32,
}

impl<'a> Model for Lines<'a> {
    ghost use Rattle.std.specs.Prelude.{ℕ, List, ◌+◌, ◌^◌, ◌<◌, length};
    ghost use Rattle.text_grammar.specs.FileLines.{numbered_from};

    ghost Value = { List (ℕ × List ℕ) };

    ghost view = { λ l. numbered_from l.number l.left.now };

    ghost invariant = { λ l. l.number + length l.left.now < 2 ^ 32 };
}

impl<'a> Lines<'a> {
    /// The lines of `text`.
    pub fn new(text: &'a [u8]) -> Lines<'a>
        requires { length text.now < 2 ^ 32 - 1 }
        ensures { result ≡ text_lines text.now }
    {
        Lines {
            left: text,
            number: 1,
        }
    }

    /// The next line that isn't passed over, or None if there is no more.
    pub fn next(&mut self) -> Option<Line<'a>>
        ensures { MatchOption result ((self.old ≡ []) × (self.new ≡ []))
            (λ line. self.old ≡ (line.number, line.text.now) ∷ self.new) }
    {
        while let Some((text, rest)) = first_line(self.left) {
            let number = self.number;
            self.left = rest;
            self.number = number + 1;
            if !is_passed_over(text) {
                return Some(Line { number, text });
            }
        }
        None
    }
}

/// The first line of the text without its end, and what comes after it; None of the empty text.
#[tactic(auto, using(crate::proofs::LineLaws::first_of, crate::proofs::LineLaws::last_of))]
fn first_line(text: &[u8]) -> Option<(&[u8], &[u8])>
    ensures line { MatchOption result (file_lines text.now ≡ [])
        (λ found. file_lines text.now ≡ found.0.now ∷ file_lines found.1.now) }
    ensures shorter { IfSome result (λ found. length found.1.now < length text.now) }
{
    if text.is_empty() {
        return None;
    }
    match cut(text, b'\n') {
        Some((line, rest)) => Some((without_return(line), rest)),
        None => Some(text.split_at(text.len())),
    }
}

/// How many lines the text has, those that are passed over too.
pub fn line_count(text: &[u8]) -> usize
    ensures { result ≡ length (file_lines text.now) }
{
    let mut left = text;
    let mut count = 0;
    while let Some((_, rest)) = first_line(left) {
        left = rest;
        count += 1;
    }
    count
}

/// A line without one CR at its end.
fn without_return(line: &[u8]) -> &[u8]
    ensures { result.now ≡ strip_carriage_return line.now }
{
    match line {
        [front @ .., b'\r'] => front,
        _ => line,
    }
}

/// Whether a line says nothing.
fn is_passed_over(line: &[u8]) -> bool
    ensures { result ≡ is_passed_over line.now }
{
    matches!(line, [] | [b';', ..])
}
