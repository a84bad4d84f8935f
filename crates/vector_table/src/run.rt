//! A whole table answered, from its first line to its last.

use crate::step::{Step, TableError, next_step, slices};
use crate::table::{Names, Unread};
use std::alloc::Global;
use std::process::ExitCode;
use std::thread::Threads;

/// A call of a table: what it is about, its name, and its words.
#[derive(Clone, Copy)]
pub struct Asked<'a> {
    /// What it is about, as `claims`.
    pub subject: &'a str,
    /// Its name.
    pub call: &'a str,
    /// Its words.
    pub words: &'a [&'a [u8]],
}

/// What is answered, or why the call can't be read.
pub type Answered = Result<String, Unread>;

/// Who answers the calls of a table.
pub trait Subjects {
    ghost use Rattle.std.specs.Thread.{IsSync};

    /// What a call answers; `rt` starts the threads that it wants.
    fn called<R: Threads + Sync>(&self, rt: &R, alloc: Global, asked: Asked<'_>) -> Answered
        requires shared { IsSync R.row };
}

/// Answers the table on the standard input, and says why if it can't be answered to its end.
pub fn answer_table<R: Input + Print + Eprint + Threads + Sync, S: Subjects>(
    rt: &R,
    alloc: Global,
    subjects: &S,
) -> ExitCode {
    match answer_lines(rt, alloc, subjects) {
        Ok(()) => ExitCode::SUCCESS,
        Err(error) => {
            let _ = eprintln!(rt; "{error}");
            ExitCode::from(error.status())
        }
    }
}

/// Answers each line of the table.
fn answer_lines<R: Input + Print + Threads + Sync, S: Subjects>(
    rt: &R,
    alloc: Global,
    subjects: &S,
) -> Result<(), TableError> {
    let mut names = Names::new(alloc);
    let mut number: u64 = 0;
    for line in rt.lines(alloc) {
        let line = line?;
        number = number.saturating_add(1);
        match answered(rt, alloc, subjects, &mut names, line.as_str()) {
            Ok(text) => rt.println(text.as_str())?,
            Err(reason) => return Err(TableError::Line(number, reason)),
        }
    }
    Ok(())
}

/// What is written for a line.
fn answered<R: Threads + Sync, S: Subjects>(
    rt: &R,
    alloc: Global,
    subjects: &S,
    names: &mut Names,
    line: &str,
) -> Result<String, Unread> {
    match next_step(alloc, names, line)? {
        Step::Write(text) => Ok(text),
        Step::Call {
            subject,
            call,
            words,
        } => {
            let words = slices(alloc, words.as_slice())?;
            let asked = Asked {
                subject,
                call,
                words: words.as_slice(),
            };
            subjects.called(rt, alloc, asked)
        }
    }
}
