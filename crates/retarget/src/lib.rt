//! The retarget gateway (RFC 8946, section 4; RFC 3261, section 16.6): a call that passed is sent to another number,
//! and its diversion is signed.
//!
//! # The way through
//!
//! ```text
//! the bytes of an INVITE, and what `verify_rules::screen` gave for them
//!    | finish                     the rules of the chains, over the chains of the PASSporTs
//!    | the number of the Hop      where the call goes on; one at which it hasn't been
//!    | with_target, divert        the request URI, and one more Identity field of the type `div`
//!    v
//! the bytes of the INVITE that goes on
//! ```
//!
//! - A [`Hop`] says where the call goes on, and by which key and certificate the diversion is signed; [`Hop::is_valid`]
//!   tells whether it can be.
//! - [`retarget`] does all of it, or answers a [`HopFault`]: the verdict on a call that didn't pass, or one of the
//!   faults 21 to 27.
//!
//! ```rust
//! let screened = screen(alloc, message, moment, &settings)?;
//! let onward = retarget(alloc, message, &screened, &chains, moment, &hop, &holder, &mut provider)?;
//! ```
//!
//! # What it isn't
//!
//! No call is sent, no chain read and no key held. Where a call is to go is the caller's to decide. Replay isn't looked
//! at: whoever needs rule 18 asks `verify_service`.
//!
//! # What is proved
//!
//! What it writes is the message with the other request URI and with one more field, whose PASSporT goes from the
//! calling number and the earlier called one to the new one. At the next hop it breaks none of the rules of the call
//! and the chains, if the conditions hold that [`retarget`] names. Each fault comes just if its cause is there and
//! those before it aren't. `docs/dev/PROVED.md`, "The retarget gateway", has the clauses.
//!
//! # Cases
//!
//! `tests/cli/retarget.rows`.
#![tactic(auto)]

mod fault;
mod gateway;
mod hop;
mod laws;
mod onward;
mod written;

pub use fault::HopFault;
pub use gateway::retarget;
pub use hop::Hop;
