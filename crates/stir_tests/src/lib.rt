//! Tests of what data can't show: real files and streams, memory forms by themselves, files of the longest, and threads
//! on a live desk.
//!
//! No code of the product is here. Rows with an input and an answer aren't either: they are lines of
//! `crates/vectors/stdin`, `crates/vectors/stdin` and `tests/cli`, which cost no proof.
//!
//! - `adapters`: the shelf, the source and the sink over real files and streams (`stir_outside`).
//! - `memory`, `answers`: memory forms and providers that fail on command.
//! - `large`: a code table, a chain map and an answers file with as many lines as the program takes.
//! - `live`: claims on a live desk, one after another and from eight threads at once (`live_desk`).
//! - `numbers`: that equal telephone numbers hash alike (`tn_values`).
//!
//! `rt test stir_tests` runs them, and so does the gate. Each test is named by what it shows.
#![tactic(auto)]

#[cfg(test)]
mod adapters;
#[cfg(test)]
mod answers;
#[cfg(test)]
mod large;
#[cfg(test)]
mod live;
#[cfg(test)]
mod memory;
#[cfg(test)]
mod numbers;
