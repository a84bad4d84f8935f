//! What the crates that answer a table of calls share: the lines of a table, the words of a call as values, and the
//! words of an answer.
//!
//! - [`answer_table`] is the loop: it reads a table from the standard input, and writes one line for each. A line
//!   defines a name, makes a call, or is written back as it is. The head of `crates/vectors/stdin` says how a line is
//!   written.
//! - [`Subjects`] is what a program implements: it answers `SUBJECT.CALL WORD ..`, or says by [`Unread`] that it can't
//!   be read.
//! - [`number`], [`text`], [`number_of`], [`answers_of`] and their kin read words, and [`Answer`] puts an answer
//!   together.
//! - [`Drip`] and [`Trickle`] are a source that gives one byte a read and a sink that takes one a write.
//!
//! ```rust
//! Answer::new(alloc).word(line.number).text(line.text).line()
//! ```
//!
//! No expected value is here: those are the lines of `stdout`, which come from outside the program. No code of the
//! product is here either.
#![tactic(auto)]

mod answer;
mod devices;
mod run;
mod step;
mod table;
mod values;
mod words;

pub use answer::{Answer, fault, ok, ok_or_line, or_none, ordering, shown, word};
pub use devices::{Drip, Trickle};
pub use run::{Answered, Asked, Subjects, answer_table};
pub use table::{Unread, number, text};
pub use values::{
    answers_of, local_of, number_of, put_local, put_numbers, put_span, read_answers, seconds,
    span_of, telephone,
};
pub use words::{files_of, given, joined, numbers_of};
