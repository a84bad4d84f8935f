//! The outside of the program as it is proved against: files, input, output, and whoever knows of signatures.
//!
//! # The way through
//!
//! | Trait | What it is | In memory | Real |
//! |---|---|---|---|
//! | [`Shelf`] | files by their names | [`ShelfMem`] | [`FileShelf`] |
//! | [`Source`] | bytes to be read | [`SourceMem`], [`SlowMem`] | [`StdinSource`] |
//! | [`Sink`] | bytes to be written | [`SinkMem`] | [`StdoutSink`] |
//! | [`Provider`] | confirms and makes signatures | [`AnswerProvider`], [`SteadyProvider`] | outside, by an answers file |
//! | [`Gate`] | a point that a worker passes before it judges a call | - | [`NoGate`] |
//!
//! Each object counts what went wrong with it. Memory forms tell what they hold, so that a clause can name the bytes;
//! files and streams tell nothing. [`Answers`] reads an answers file (this project's own format), and its providers
//! answer as the file says. An [`AnswersReader`] says in how many threads: [`OneThread`] or [`SeveralThreads`].
//! [`read_up_to`] and [`write_whole`] are the loops over a source and a sink, and [`end_with`] writes the last line of
//! a run and gives its [`Status`].
//!
//! ```rust
//! let mut input = SourceMem::new(bytes, failing);           // its reads with the numbers of `failing` fail
//! read_up_to(&mut input, &mut text, 65_535)?;               // ReadFault::Source only if `input.faults()` rose
//! let status = end_with(&mut sink, memory_line(), Status::Memory);
//! ```
//!
//! # What it isn't
//!
//! No cryptography: whether a signature is good is what the answers file says. No network, no clock, no environment.
//! The formats of the files that a shelf holds are read elsewhere (`stir_files` and the crates below it).
//!
//! # What is proved
//!
//! A fault comes only if the object's own count rose, and no count falls. The memory forms fail at exactly the listed
//! calls, and the adapters raise each count at its own event alone. An answers file is read exactly, or its first bad
//! line is named. `docs/dev/PROVED.md`, "The outside, and texts", has the clauses. What the kit's contracts say of real
//! files and streams is trusted.
//!
//! # Cases
//!
//! Sections `answers` and `outside` of `crates/vectors/stdin`, and `adapters`, `answers` and `memory` in
//! `crates/stir_tests`.
#![tactic(auto)]

mod adapters;
mod answers;
mod ending;
mod gate;
mod laws;
mod memory;
mod provider;
mod shelf;
mod sink;
mod source;
mod status;
mod transfer;

pub use adapters::files::FileShelf;
pub use adapters::stdin::StdinSource;
pub use adapters::stdout::StdoutSink;
pub use answers::held::{AnswerFault, Answers};
pub use answers::provider::AnswerProvider;
pub use answers::reader::{AnswersReader, OneThread, SeveralThreads};
pub use answers::steady::SteadyProvider;
pub use ending::{end_with, memory_line};
pub use gate::{Gate, NoGate};
pub use laws::files_law;
pub use memory::shelf::ShelfMem;
pub use memory::sink::SinkMem;
pub use memory::slow::SlowMem;
pub use memory::source::SourceMem;
pub use provider::Provider;
pub use shelf::{Shelf, ShelfFault};
pub use sink::Sink;
pub use source::{Failed, Source};
pub use status::Status;
pub use std::alloc::AllocError as Memory;
pub use transfer::{ReadFault, read_up_to, write_whole};
