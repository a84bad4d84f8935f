//! One value of a SIP Identity header field (RFC 8224, section 4.1): the token, the place of its certificates, and
//! `alg` and `ppt`.
//!
//! ```text
//! value   --Field::read-->   Field   --token, info, alg, ppt-->   views into the value
//! parts   --Field::new --->  Field   --write------------------>   the one spelling of a value
//! ```
//!
//! ```rust
//! let field = Field::read(b"e30.e30.c2ln;info=<https://cert.example.org/a.cer>;ppt=shaken")?;
//! let kind = field.ppt();                                   // Some of the bytes of `shaken`
//! ```
//!
//! [`Field::read`] takes a value whose continuation lines are joined already, as `sip_message` hands it out. Names are
//! compared without case, `alg` and `ppt` come at most once, and other parameters are passed over. A [`FieldFault`] has
//! the place up to which the value could still have become one.
//!
//! The token isn't looked into: its three parts are read by `passport_json`. Whether `info` is the URI in the token,
//! and `ppt` its type, is asked by `passport_claims`. The bytes of a token and of a URI are tested 32 at a time, by
//! `text_grammar`'s `outside` and `uri_len`.
//!
//! Proved: a value is accepted just if it is in the grammar, with exactly its four parts. The place of a fault is the
//! length of the longest prefix with which some value begins. What is written is read back ([`field_law`];
//! `docs/dev/PROVED.md`, "Messages and PASSporTs").
//!
//! Cases: section `identity` of `crates/vectors/stdin`.
#![tactic(auto)]

mod blocks;
mod bytes;
mod field;
mod laws;
mod params;

pub use field::{Field, FieldFault};
pub use laws::field_law;
// The refused allocation, which is all that can fail when a field is written.
pub use std::alloc::AllocError as Memory;
