//! A desk at which tickets of 256 bits are claimed as they come, by any number of threads, without rounds (this
//! project's own rule).
//!
//! A ticket is won at most once, and nobody waits.
//!
//! # The way through
//!
//! ```text
//! ticket   --cut into six pieces, one a level-->   six codes   --Live::claim-->   LiveClaim::Won, Lost or Full
//! ```
//!
//! A [`Live`] desk has six levels of words. The code of a piece names the slot of the piece before, so that a slot of
//! the last level stands for a whole ticket. A claim goes from level to level and exchanges a word that is 0 for its
//! code. It wins if it is the one that set the ticket's word at the last level. If a level has no slot left, it is
//! full.
//!
//! A thread claims with a [`LiveSeat`], a token without bytes that carries what was set and found with it.
//! [`Live::split`] and [`Live::join`] halve a seat and put two together; [`Live::held`] looks without claiming, and
//! [`Live::close`] takes the last seat.
//!
//! ```rust
//! let (desk, mut seat) = Live::new(alloc, 65_536)?;         // so many slots a level, 48 bytes for each
//! match desk.claim(&mut seat, &ticket) {
//!     LiveClaim::Won => ..,
//!     LiveClaim::Lost => ..,
//!     LiveClaim::Full { level } => ..,
//! }
//! desk.close(seat);
//! ```
//!
//! # What it isn't
//!
//! Nothing is forgotten: a desk has no purge, and one that is full stays full. It doesn't say who won. Rounds with a
//! winner's number are `replay_desk`'s. Nothing is said of time or progress.
//!
//! # What is proved
//!
//! Won, Lost and Full come exactly as told, in any order of any threads' steps; a claim makes at most six times as many
//! steps as a level has slots. The rule that the words of a desk and all its seats meet between any two steps is in
//! `specs/Rule` and `specs/Views`. `docs/dev/PROVED.md` has the clauses.
//!
//! # Cases
//!
//! `live` in `crates/stir_tests`: claims one after another, and eight threads on one desk.
#![tactic(auto)]

mod claim;
mod claiming;
mod desk;
mod laws;
mod looking;
mod pieces;
mod steps;
mod view;

pub use claim::LiveClaim;
pub use desk::{Live, LiveSeat};
pub use laws::{
    pieces_are_the_ticket, reading_stands_once, search_goes_round, ticket_is_won_once,
    word_stands_once,
};
/// Memory ran out.
pub use std::alloc::AllocError as Memory;
