//! Certificates of the profile that signs PASSporTs: X.509 version 3 with ECDSA keys on P-256 and SHA-256 (RFC 5280,
//! 5480, 5758 and 8226).
//!
//! # The way through
//!
//! - [`Certificate::read`] takes the DER of one certificate, at most 8,192 bytes. A [`CertFault`] has the kind of the
//!   first broken part and its offset.
//! - The [`Certificate`] is asked for its names, its validity ([`Certificate::not_before`], [`Certificate::not_after`],
//!   Unix seconds), its key, the digest of what is signed, and the signature. Its extensions say
//!   [`Certificate::is_ca`], [`Certificate::path_length`], [`Certificate::usage`], the key identifiers,
//!   [`Certificate::list`], the telephone numbers that the holder may speak for, and [`Certificate::constraints`], what
//!   is demanded of the claims of a PASSporT.
//! - [`read_chain`] takes a file of at most six certificates one after another, the leaf first, of at most
//!   [`MOST_CHAIN_BYTES`].
//!
//! ```rust
//! let chain = read_chain(alloc, bytes)?;                    // CertChainFault has the number of the certificate and its offset
//! if let Some(leaf) = chain.first() {
//!     let list = leaf.list();                               // None if it has no such list
//! }
//! ```
//!
//! # What it isn't
//!
//! Nothing is verified: whether certificates are a path to a trust anchor is asked in `delegation`, and whether a
//! signature is good of a provider (`cert_store`). PEM isn't read, but by `stirctl chain`. Other algorithms, critical
//! extensions outside the profile and enhanced constraints on claims are refused.
//!
//! # What is proved
//!
//! A certificate is read just if the bytes are one of the profile, and at most one fits. The first broken part is said
//! both ways, part by part in byte order and extension by extension. `docs/dev/PROVED.md`, "Certificates", has the
//! clauses; [`certificate_law`], [`authority_law`] and [`chain_law`] are the laws for the crates above.
//!
//! # Cases
//!
//! Section `certificates` of `crates/vectors/stdin`, of which `crates/vectors/generators/certificates.py` prints the
//! certificates; `tests/cli/show.rows`.
#![tactic(auto)]

mod certificate;
mod chain;
mod contents;
mod extension_id;
mod extensions;
mod fault;
mod laws;
mod octets;
mod signature;
mod tbs;

pub use certificate::Certificate;
pub use chain::{CertChainFault, MOST_CHAIN_BYTES, read_chain};
pub use fault::CertFault;
pub use laws::{authority_law, certificate_law, chain_law};
