//! What the certificates of a chain say: in lines, for the command `show` and the library for C, and by parts, for a
//! host that reads no DER itself.
//!
//! # The way through
//!
//! - [`lines_of_chain`] takes the certificates that `x509_profile::read_chain` read, and gives their lines, numbered
//!   from 1.
//! - [`certificate_part`] gives one [`Part`] of a certificate as bytes, as a host needs them to tell whether it is
//!   revoked (RFC 5280): its serial number, its names, the codes that it may speak for, the digest of its signed part,
//!   the seconds at which it is valid, or the URIs at which its revocation is told.
//!
//! ```rust
//! let chain = read_chain(alloc, bytes)?;
//! let lines = lines_of_chain(alloc, chain.as_slice())?;        // `certificate 1`, `not-before ..`, `not-after ..`, `ca no`, ..
//! let serial = certificate_part(alloc, &chain[0], Part::Serial)?;
//! let uris = certificate_part(alloc, &chain[0], Part::Revocation)?;    // None if it names none
//! ```
//!
//! # What it isn't
//!
//! Nothing is judged: whether the certificates are a path is asked in `delegation`. No list of revoked certificates is
//! read or fetched. The names in a certificate have no lines. An extension of CRL distribution points that isn't of its
//! form has no URIs, or fewer.
//!
//! # What is proved
//!
//! The lines are exactly those of one definition (`specs/Show`), whose format `docs/FORMATS.md` tells. Each part is
//! what `x509_profile` says of the certificate, or is said of its whole text. `docs/dev/PROVED.md`, "Certificates", has
//! the clauses.
//!
//! # Cases
//!
//! `tests/cli/show.rows`, and `tests/service` through the library for C.
#![tactic(auto)]

mod lines;
mod made;
mod parts;
mod revocation;
mod serial;

pub use lines::lines_of_chain;
pub use parts::{Part, certificate_part};
