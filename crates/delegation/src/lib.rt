//! Which numbers a certificate may speak for, and whether certificates are a path up to a trust anchor (RFC 5280,
//! section 6; RFC 8226; RFC 9060).
//!
//! # The way through
//!
//! - [`covers`] says whether an authority list covers a number, by the code table for its codes.
//! - An [`Authority`] is all numbers or those of a list, and [`within`] says whether one gives nothing that another
//!   doesn't have: what a delegate certificate must not exceed.
//! - [`Anchors::read`] takes a file of at most 256 trusted certificates.
//! - [`shape`] says whether certificates, the leaf first, are a path up to one of the anchors. A [`Shape`] names the
//!   anchor, and a [`PathFault`] the first thing that is wrong, with its certificate.
//!
//! ```rust
//! let anchors = Anchors::read(alloc, bytes)?;
//! let path = shape(&chain, &anchors)?;                      // or the PathFault, such as NO_ANCHOR at the last certificate
//! let allowed = covers(list, &number, &table);
//! ```
//!
//! # What it isn't
//!
//! No signature is verified and no date compared here: `cert_store` asks a provider, and the moment of a call. There is
//! no revocation and no policy tree, and names are compared byte for byte (this project's own rule).
//!
//! # What is proved
//!
//! A list covers a number just if one of its entries holds it. One authority lies within another just if every number
//! does, which is decided without trying them all. A path is found just if there is one, and otherwise the fault is the
//! first row that applies, both ways. [`covers_law`], [`within_law`] and [`path_law`] are the laws for the crates
//! above, and `docs/dev/PROVED.md`, "Certificates", has the clauses.
//!
//! # Cases
//!
//! Section `paths` of `crates/vectors/stdin`.
#![tactic(auto)]

mod anchors;
mod authority;
mod coverage;
mod fault;
mod found;
mod gathering;
mod laws;
mod path;
mod usage;

pub use anchors::Anchors;
pub use authority::{Authority, within};
pub use coverage::covers;
pub use fault::{AnchorFault, PathFault};
pub use found::Shape;
pub use laws::{covers_law, path_law, within_law};
pub use path::shape;
/// Memory ran out.
pub use std::alloc::AllocError as Memory;
