//! The claims of a PASSporT (RFC 8225, sections 4 and 5), and what its type adds to them ([`Kind`]).
//!
//! # The way through
//!
//! - [`Passport::from_token`] reads the header and payload of a token, with the `ppt` and `info` of its field. A
//!   [`ClaimFault`] says which claim is wrong.
//! - The [`Passport`] has its [`Kind`], the certificate's URI ([`Passport::x5u`]), the second of its issue
//!   ([`Passport::iat`]), the calling number ([`Passport::orig`]) and the called ones ([`Passport::dest`]).
//! - [`chain`] puts the `div` PASSporTs of a diverted call into the [`Order`] in which the call went, or says by a
//!   [`ChainFault`] which link breaks the way. [`chain_of`] does so for PASSporTs that aren't in a slice: any list of
//!   them is [`Passports`].
//! - A signer goes the other way: [`Passport::new`], then [`Passport::to_values`] or [`Passport::signing_text`]. A
//!   [`Form`] says which PASSporT is meant.
//!
//! ```rust
//! let passport = Passport::from_token(alloc, &token, field.ppt(), field.info())?;
//! let order = chain(&passport, &links, message.target_number(&local))?;
//! ```
//!
//! # What it isn't
//!
//! It compares nothing with the message (rules 7 to 9 in `verify_rules` do) and trusts no certificate. PASSporTs of
//! other types are refused.
//!
//! # What is proved
//!
//! A PASSporT is read just if header and payload have all claims of its type, and at most one fits. Each of the ten
//! faults, and each of the five of an order, is said in the standards' words, both ways. What [`Passport::to_values`]
//! writes reads back. The laws for the crates above are [`claims_law`], [`order_law`], [`one_link_more_law`] and
//! [`signed_claims_law`]; `docs/dev/PROVED.md`, "Messages and PASSporTs", has the rest.
//!
//! # Cases
//!
//! Sections `claims` and `order` of `crates/vectors/stdin`, and `signing.text` there.
#![tactic(auto)]

mod diversion;
mod fault;
mod form;
mod kind;
mod laws;
mod links;
mod members;
mod order;
mod origid;
mod passport;
mod passports;
mod rows;
mod signing;
mod values;

pub use diversion::{chain, chain_of};
pub use fault::ClaimFault;
pub use form::Form;
pub use kind::{Attest, Kind};
pub use laws::{claims_law, one_link_more_law, order_law, signed_claims_law};
pub use order::{ChainFault, Order};
pub use origid::is_origid;
pub use passport::Passport;
pub use passports::Passports;
pub use std::alloc::AllocError as Memory;
