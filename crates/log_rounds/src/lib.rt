//! A log judged round by round: a verification service over an answers file, as a command over batches of 256 calls.
//!
//! - A [`LogVerifier`] is the service, the answers and how many workers there are. It implements `LogCommand` of
//!   `log_run`.
//! - [`judge_log`] reads the calls of a log in rounds of 256, has the verifier judge each round, and writes a line for
//!   each call before the next round is read. Its answer is the status: 0 if all calls are valid, 1 if some aren't, and
//!   3 to 6 if something stopped it.
//! - [`judge_log_on`] is the same from the state of an earlier run on, and writes the state that a [`HandingVerifier`]
//!   hands on: `verify --state`.
//!
//! ```rust
//! let mut verifier = LogVerifier { service, answers: &answers, workers: 1 };
//! let status = judge_log(&rt, alloc, &mut verifier, &mut shelf, &mut input, &mut sink);
//! ```
//!
//! Memory is taken for one round at a time. The loop itself is `log_run`'s and a round `verify_service`'s; the named
//! files are read before, by `stir_files`. Single calls, without replay, are `single_calls`'.
//!
//! Proved: what was written is the report of the rounds, each outcome may be given to its call, and by the premise that
//! no two signed texts have one SHA-256 the outcomes of the whole log are legal (`replay_law`). The reads of files are
//! bounded. `specs/Batches`, `Judged` and `Reads` have the words, and `docs/dev/PROVED.md`, "A log", the clauses.
//! [`status_law`] says what the status of a whole report means, [`runs_law`] that runs which hand their state on are
//! legal together, and [`output_law`] that the whole output of such a run is the file for the next. [`day_law`] says
//! that a log may be judged call by call, on any number of machines, and settled by its tickets afterwards, and
//! [`days_law`] the same of a day after others.
//!
//! Cases: `tests/cli/verify.rows`, and `crates/vectors/stdin` for reads and writes that fail.
#![tactic(auto)]

mod handing;
mod judging;
mod laws;
mod report;
mod run;
mod verifier;
mod workers;

pub use handing::{HandingVerifier, judge_log_on};
pub use laws::{day_law, days_law, output_law, runs_law, status_law};
pub use run::judge_log;
pub use verifier::LogVerifier;
/// Memory ran out.
pub use std::alloc::AllocError as Memory;
