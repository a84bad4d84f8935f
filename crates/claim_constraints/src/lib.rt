//! Constraints on the claims of PASSporTs, as a certificate may have them: which claims must be there, and which values
//! some may have.
//!
//! They follow the JWTClaimConstraints of RFC 8226, section 8, but their form and their meaning are this project's own.
//!
//! - [`Constraints::read`] takes their DER, and [`Constraints::write`] gives their one DER text, if
//!   [`Constraints::is_writable`].
//! - [`Constraints::build`] makes them of names, and of claims, each with its permitted values.
//! - [`Constraints::meets`] asks whether a payload meets them.
//!
//! ```rust
//! let constraints = Constraints::read(alloc, bytes)?;       // ConstraintFault has the kind of the fault and its offset
//! if !constraints.meets(token.payload()) { .. }
//! ```
//!
//! `x509_profile` reads them of a certificate's extension, and `verify_rules` asks whether payloads meet them. Claims
//! that a certificate excludes (RFC 9118) aren't part of them.
//!
//! Proved: constraints are read just if the bytes are their one text, and the first fault is said both ways. They are
//! met just if each claim that must be there is a member of the payload and each member with permitted values is one of
//! them ([`constraints_law`]; `docs/dev/PROVED.md` has the clauses).
//!
//! Cases: section `constraints` of `crates/vectors/stdin`, which `crates/vectors/generators/constraints.py` prints.
#![tactic(auto)]

mod constraints;
mod fault;
mod form;
mod laws;
mod meeting;
mod permit;
mod reading;
mod rules;
mod sizes;
mod texts;
mod writing;

pub use constraints::Constraints;
pub use fault::ConstraintFault;
pub use laws::constraints_law;
/// Memory ran out.
pub use std::alloc::AllocError as Memory;
