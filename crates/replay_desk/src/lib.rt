//! Who passes with a ticket: at most one call passes with a PASSporT (rule 18, this project's own).
//!
//! # The way through
//!
//! - Within a round, workers that don't wait for each other claim on a [`Desk`], which has one word for each class of
//!   calls with one ticket. [`Desk::claim`] is one compare-and-exchange on the word of the class: the [`Claim`] is won,
//!   or lost to the call that the word names.
//! - A worker claims with a [`Seat`], a token without bytes that carries what was won and lost with it. [`Desk::split`]
//!   and [`Desk::join`] halve a seat and put two together, and [`Desk::close`] takes the last one.
//! - From round to round the [`Past`] keeps which call passed with which ticket, for as long as the PASSporT is fresh:
//!   [`Past::reserve`], [`Past::add`], [`Past::find`], [`Past::purge`].
//! - From run to run a [`State`] hands that on; it is read and written by `state_text`.
//!
//! ```rust
//! let (desk, mut seat) = Desk::new(alloc, classes)?;
//! match desk.claim(&mut seat, class, call.number()) {
//!     Claim::Won => ..,
//!     Claim::Lost { winner } => ..,
//! }
//! desk.close(seat);
//! ```
//!
//! # What it isn't
//!
//! It knows no tickets of a round, but their classes: `verify_service` gives each ticket one. A desk for tickets as
//! they come, without rounds, is `live_desk`. Nothing is said of which of several threads wins.
//!
//! # What is proved
//!
//! A class is won at most once, in any order of any threads' steps, and each loss names its one winner: `specs/Rule` is
//! the rule that the words of a desk and all its seats meet between any two steps. The past is a finite map, whole
//! after each call. `docs/dev/PROVED.md`, "Rounds", has the clauses.
//!
//! # Cases
//!
//! `src/tests.rs`, section `state` (`state.list`) of `crates/vectors/stdin`, and sections `rounds` and `workers` there,
//! by the rounds of `verify_service`.
#![tactic(auto)]

mod claim;
mod desk;
mod past;
mod steps;
#[cfg(test)]
mod tests;
mod ticket_key;
mod view;

pub use claim::Claim;
pub use desk::{Desk, Seat};
pub use past::Past;
pub use state_text::{Kept, State, StateFault};
/// Memory ran out.
pub use std::alloc::AllocError as Memory;
pub use ticket_key::TicketKey;
