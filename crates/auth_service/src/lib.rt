//! The authentication service (RFC 8224, section 4.1; RFC 8946, section 4.1): an INVITE goes in, and comes out with a
//! signed Identity field.
//!
//! # The way through
//!
//! - By a [`SignOrder`] [`sign`] tells where the call comes from, in one [`Form`]: a PASSporT from the calling number
//!   to that of To.
//! - By a [`DivertOrder`] [`divert`] tells that it goes to another number than before: a PASSporT of the type `div`
//!   from the calling number to that of the request URI.
//! - The key stays outside. A provider is asked once for the signature over a digest, by the key's name.
//! - With a [`Holder`], which is an authority list and a code table, only that is signed which the list covers.
//! - A [`SignFault`] says why nothing was signed; the first four have numbers in the report.
//!
//! ```rust
//! if order.is_valid() {
//!     let signed = sign(alloc, message, &order, holder.as_ref(), &mut provider)?;
//! }
//! ```
//!
//! # What it isn't
//!
//! No key is held, and no signature made or verified. Whether the call may be made, and which attestation it deserves,
//! is the caller's to decide. What the order leaves open isn't guessed: an order that isn't valid is a call that the
//! contract forbids.
//!
//! # What is proved
//!
//! The bytes are exactly those of one definition, or the first of four faults, each with its cause in the message, the
//! order and the holder. What comes out is read back as the PASSporT that was signed, and breaks none of the rules of
//! the call at the next hop ([`signed_rules_law`], [`diverted_rules_law`]). `docs/SIGNING.md` tells how, and
//! `docs/dev/PROVED.md`, "Signing", has the clauses.
//!
//! # Cases
//!
//! Section `signing` of `crates/vectors/stdin`, and `tests/cli/sign.rows`.
#![tactic(auto)]

mod diverted;
mod fault;
mod identity;
mod laws;
mod order;
mod passport;
mod signer;
mod wanted;

pub use diverted::diverted_rules_law;
pub use fault::SignFault;
pub use laws::signed_rules_law;
pub use order::{DivertOrder, Holder, SignOrder};
pub use passport_claims::Form;
pub use signer::{divert, sign};
