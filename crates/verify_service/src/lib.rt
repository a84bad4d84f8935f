//! The verification service (RFC 8224, section 6.2): it judges the calls of a round, and lets each PASSporT pass one
//! call.
//!
//! # The way through
//!
//! ```text
//! the calls of a round, 1 to 256
//!    | Service::prepare     the rules of the call; a class for each ticket; the chains that are needed, read and judged once; all that takes memory
//!    v
//! Prepared
//!    | Service::carry       1 to 8 workers, in threads of their own: the rules of the chains, then the past, then a claim on the desk
//!    v
//! Carried                   an Outcome for each call   --report_line-->   the lines of the report
//! ```
//!
//! - [`Service::new`] takes the settings and the [`World`] (chain map, anchors, code table). [`Service::round`] is
//!   `prepare` and then `carry`.
//! - A [`Worker`] is a provider of signatures and a gate. Their providers say the same. If there are several, each
//!   judges its calls in a thread of its own.
//! - [`Service::judge`] judges a call of a prepared round, for a caller with threads of its own.
//!
//! ```rust
//! let mut service = Service::new(alloc, settings, world)?;
//! let carried = service.round(&rt, &mut shelf, &mut workers, &calls)?;
//! for outcome in carried.outcomes() {
//!     // Valid, Refused(refusal), Replay { winner }, Unread(place) or Unasked(place)
//! }
//! ```
//!
//! The service holds up to 4,096 judged chains, and the past of tickets, from round to round. From run to run
//! [`Service::state`] hands its past on, and [`Service::restore`] goes on from it: `verify --state`.
//!
//! # What it isn't
//!
//! It reads no log and writes nothing: `log_rounds` and `log_run` do. The rules themselves are in `verify_rules`, and
//! the claims in `replay_desk`.
//!
//! # What is proved
//!
//! Each outcome is what the rules say of its call in the world of the files and the signatures. Of the calls that pass
//! with one ticket one is valid, and each other a replay of it, whatever the workers do at once. A call is set aside no
//! more often than reads or questions failed. If memory runs out, that is before the first claim. Rounds one after
//! another, from a new service on and from state to state, are legal together ([`rounds_law`]). `docs/dev/PROVED.md`,
//! "Rounds", has the clauses, and `docs/dev/ARCHITECTURE.md` the way of a round in detail.
//!
//! # Cases
//!
//! Sections `rounds` and `workers` of `crates/vectors/stdin`; whole logs in `tests/cli/verify.rows`.
#![tactic(auto)]

mod carried;
mod carry;
mod chain_files;
mod handover;
mod judge;
mod kept;
mod laws;
mod outcome;
mod prepare;
mod prepared;
mod ready;
mod report;
mod round;
mod round_chains;
mod round_end;
mod round_needs;
mod screening;
mod seats;
mod service;
mod stored_chains;
mod texts;
mod tickets;
mod worker;
mod worker_calls;
mod worker_chains;

pub use call_log::{Call, LogFault, LogReader};
pub use carried::Carried;
pub use cert_store::World;
pub use laws::{call_law, report_law, rounds_law, six_law};
pub use outcome::Outcome;
pub use prepared::Prepared;
pub use replay_desk::State;
pub use report::{report_line, report_lines, said};
pub use service::Service;
pub use worker::Worker;
/// Memory ran out.
pub use std::alloc::AllocError as Memory;
