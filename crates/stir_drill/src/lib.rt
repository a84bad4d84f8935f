//! The drill: a large valid input of `verify`, made from a number (this project's own format).
//!
//! [`Drill::make`] takes a seed and a count of at most 100,000 calls, and gives:
//!
//! - `log`: calls from one certificate's numbers, of which some are repeated, without a PASSporT, too old, not
//!   confirmed, or from another number;
//! - `anchors`, `table` and `chains`: the trust anchors, the code table and the chain map by which they are judged;
//! - `shelf`: the file of the one chain;
//! - `answers`: which signatures are good.
//!
//! ```rust
//! let drill = Drill::make(alloc, 42, 1_000)?;               // out of memory is the only error
//! let bytes = drill.log.as_slice();
//! ```
//!
//! No key is made and nothing is signed: signatures are placeholders, which the answers confirm. It judges nothing and
//! counts nothing: `drill` reads what is made here, judges it and sums up.
//!
//! Proved: each file is a function of seed and count, in the words of its format. The log is whole ([`log_law`]), no
//! line of the answers is refused ([`answers_law`]), and what each call is depends on the first of its two draws
//! ([`call_law`]). `docs/dev/PROVED.md` has the clauses, and `specs/Calls` and `specs/World` the definitions.
//!
//! Cases: section `drill` of `crates/vectors/stdin`: the size and the SHA-256 of each file.
#![tactic(auto)]

mod calls;
mod certificates;
mod change;
mod drawn;
mod entries;
mod generator;
mod laws;
mod maker;
mod messages;
mod passports;
mod world;

pub use laws::{answers_law, call_law, log_law};
pub use maker::Drill;
/// Memory ran out.
pub use std::alloc::AllocError as Memory;
