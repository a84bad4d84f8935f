//! The one loop over a log: its calls are read in batches, and a batch is answered and its lines written before the
//! next is read.
//!
//! # The way through
//!
//! ```text
//! LogReader   --a batch of calls-->   LogCommand::answer   --BatchAnswer: its lines, and whether all is well-->   the sink
//!    | until the log ends, or a fault stops it
//!    v
//! LogCommand::closing (the text after the last batch), the line of a fault, the status
//! ```
//!
//! - [`LogCommand`] is what a command implements: how many calls a batch has, what answers them, and the text that
//!   closes the report.
//! - [`run_log`] goes on from where the reader is: it may begin at any number and moment, and may have bytes ahead.
//! - An [`AnswerError`] stops a run at a file of certificates or for memory. [`RunError`] says how a run ended before
//!   the log did.
//!
//! ```rust
//! let mut reader = LogReader::new(alloc);
//! let status = run_log(&rt, alloc, &mut command, &mut reader, &mut shelf, &mut input, &mut sink);
//! ```
//!
//! Memory is taken for one batch at a time. A fault of the log, or a read that fails, ends the run after the calls
//! before it were answered.
//!
//! # What it isn't
//!
//! It knows no rule and no round. Rounds of 256 calls are `log_rounds`, single calls `single_calls`, and the files of a
//! command `stir_files`.
//!
//! # What is proved
//!
//! What a run promises by its status is said once, in the words that a command has for its batches: `specs/Words`
//! (`LogSays`) and `specs/Ending` (the six ways in which a run ends). [`batch_law`] is what commands cite.
//! `docs/dev/PROVED.md`, "A log", has the table.
//!
//! # Cases
//!
//! Whole runs in `crates/vectors/stdin`, in which each read and each write fails in turn, and `tests/cli/*.rows`.
#![tactic(auto)]

mod answer;
mod batches;
mod command;
mod ends;
mod laws;
mod reading;
mod run;
mod stop;

pub use answer::BatchAnswer;
pub use command::{Answered, LogCommand};
pub use ends::RunError;
pub use laws::batch_law;
pub use run::run_log;
pub use stop::AnswerError;
/// Memory ran out.
pub use std::alloc::AllocError as Memory;
