//! The drill from its seed to its summary: a log is made, judged in rounds of 256 calls by the files that were made
//! with it, and summed up.
//!
//! ```text
//! seed, count   --Drill::make (stir_drill)-->   log and files   --read_files-->   world, answers
//!    | run_log (log_run), with rounds of verify_service on 1 to 8 workers
//!    v
//! Counts   --summary-->   seven lines in the sink
//! ```
//!
//! ```rust
//! let status = run_drill(&rt, alloc, 42, 1_000, 8, &mut sink);  // 0, 4 if a write failed, or 6 if memory ran out
//! ```
//!
//! It reads no file and no input: seed, count and workers are all. The report of single calls isn't written, only the
//! summary.
//!
//! - `read_files` gives the drill's world and answers, [`DrillFiles`], as `stir_files` does of anybody's files.
//!   `DrillLog` is its log as a source, and `DrillShelf` the shelf with the chain's file: no read of them fails.
//! - `Counts` begins with none. `Counts::add` counts the outcomes of a round, and `Counts::summary` gives the seven
//!   lines. Which of the calls with one ticket is the valid one may differ from run to run; how many are valid doesn't.
//!
//! Proved: at status 0 the summary is that of outcomes which the rules give for the calls of the seed, in which no call
//! is set aside; and it is one text for one seed, on however many workers ([`rounds_law`], [`summary_law`],
//! [`winners_law`]). What is counted round by round is the summary of all ([`count_law`]), and the files are what the
//! drill's texts say by their grammars ([`files_law`]). `docs/dev/PROVED.md` has the clauses.
//!
//! Cases: `tests/cli/drill.rows`, since the command `drill` is this call. The counts in them are those of
//! `crates/vectors/generators/drills.py`. Section `drill` of `crates/vectors/stdin` has the texts.
#![tactic(auto)]

mod command;
mod count_laws;
mod counts;
mod file_laws;
mod files;
mod laws;
mod log;
mod run;
mod shelf;

pub use count_laws::{count_law, summary_law, winners_law};
pub use file_laws::files_law;
pub use files::DrillFiles;
pub use laws::rounds_law;
pub use run::run_drill;
