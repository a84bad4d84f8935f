//! A line of a table up to the call that it names, and why a run over a table ends before the table does.

use crate::answer::Answer;
use crate::table::{Line, Names, Unread};
use std::alloc::{AllocError, Global};
use std::fmt::{Display, Error, Formatter, Write};
use std::io;

/// What is to be done for a line.
#[derive(Drop)]
pub enum Step<'a> {
    /// This is written: the line calls nothing.
    Write(String),
    /// A call of a subject is answered, on the bytes of each of its words.
    Call {
        subject: &'a str,
        call: &'a str,
        words: Vec<Vec<u8>>,
    },
}

/// What is to be done for a line, by the names that were defined before it; a line that defines one adds it.
pub fn next_step<'a>(alloc: Global, names: &mut Names, line: &'a str) -> Result<Step<'a>, Unread> {
    match Line::of(line)? {
        Line::Comment => Ok(Step::Write(String::from_str(alloc, line)?)),
        Line::Definition { name, words } => {
            names.define(alloc, name, words)?;
            let written = Answer::new(alloc).word(name).word("=").line()?;
            Ok(Step::Write(written))
        }
        Line::Call {
            subject,
            call,
            words,
        } => {
            let words = names.arguments(alloc, words)?;
            Ok(Step::Call {
                subject,
                call,
                words,
            })
        }
    }
}

/// The same words, to look into.
pub fn slices(alloc: Global, words: &[Vec<u8>]) -> Result<Vec<&[u8]>, AllocError> {
    let mut slices = Vec::new(alloc);
    for word in words {
        slices.push(word.as_slice())?;
    }
    Ok(slices)
}

/// The status if a line can't be read.
const UNREAD: u8 = 2;
/// The status if the table can't be taken in or an answer can't be written.
const FAILED: u8 = 3;

/// Why a run over a table ends before the table does.
#[derive(Drop)]
pub enum TableError {
    /// The line of this number can't be read.
    Line(u64, Unread),
    /// The table wasn't given, or an answer wasn't taken.
    Failed(io::Error),
}

impl TableError {
    /// The status that the run ends with.
    pub fn status(&self) -> u8 {
        match self {
            TableError::Line(_, _) => UNREAD,
            TableError::Failed(_) => FAILED,
        }
    }
}

impl Display for TableError {
    fn fmt<W: Write>(&self, f: &mut Formatter<W>) -> Result<(), Error> {
        match self {
            TableError::Line(number, reason) => {
                let reason = reason.reason();
                write!(f, "line {number} can't be read: {reason}")
            }
            TableError::Failed(error) => write!(f, "{error}"),
        }
    }
}

impl From<io::Error> for TableError {
    fn from(error: io::Error) -> TableError {
        TableError::Failed(error)
    }
}
