//! Calls by themselves: which rules each meets, up to the first that it breaks, and what a provider of signatures would
//! be asked for it.
//!
//! # The way through
//!
//! - An [`Explainer`] says of each rule whether a call meets it, up to the first that it breaks. [`explain_log`] writes
//!   these lines for each call of a log.
//! - An [`Asker`] says which questions a provider would be asked for a call: those of certificates, and those of
//!   PASSporTs. [`ask_log`] writes them for a log, each question once.
//!
//! ```rust
//! let mut explainer = Explainer::new(settings, world, &answers);
//! let status = explain_log(&rt, alloc, &mut explainer, &mut shelf, &mut input, &mut sink);
//! ```
//!
//! Both judge a call by itself, as `call_judging` does, over the files that a shelf gives. They are commands of
//! `log_run` with batches of one call: the lines of each are written before the next is read, so memory is taken for
//! one call at a time.
//!
//! # What it isn't
//!
//! No replay: rule 18 looks at other calls, and only `log_rounds` tries it. `ask` asks nobody: it lists the questions,
//! and a verifier outside answers them in an answers file.
//!
//! # What is proved
//!
//! The lines of a call are those of the rules before the first broken one, and its own. A question is listed exactly if
//! a call of the log asks it ([`asked_law`], [`asks_law`]), and providers that agree on the listed questions let each
//! call be judged alike ([`agreement_law`]). `docs/dev/PROVED.md`, "A log", has the clauses.
//!
//! # Cases
//!
//! `tests/cli/explain.rows` and `tests/cli/ask.rows`; `crates/vectors/stdin` for reads and writes that fail.
#![tactic(auto)]

mod asker;
mod asking;
mod explainer;
mod laws;
mod reading;
mod run;
mod written;

pub use asker::Asker;
pub use explainer::Explainer;
pub use laws::{agreement_law, asked_law, asks_law};
pub use run::{ask_log, explain_log};
