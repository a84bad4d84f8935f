//! DER elements, both ways: a reader that accepts the one DER form and nothing else, and a writer (X.690).
//!
//! The profile is that of certificates (RFC 5280): tags of one byte, and contents of at most 65,535 bytes.
//!
//! # The way through
//!
//! - [`Der::next`] takes the first element of some bytes, and gives it with the rest. [`Der::sole`] takes the one
//!   element that the bytes are, and [`Der::optional`] one that may be absent. An element is a view: its tag, all its
//!   bytes, its content.
//! - The element then reads its content: [`Der::unsigned`] and [`Der::scalar`] an INTEGER, [`Der::bits`] and
//!   [`Der::flags`] a BIT STRING, [`Der::boolean`], [`Der::time`]. The tags are in [`tags`].
//! - A format of several elements goes by [`Outer`], [`Part`] and [`Item`]: these know the place of each element in the
//!   whole text, so that a [`Fault`] names it.
//! - [`put`], [`put_integer`] and [`encode`] write.
//!
//! ```rust
//! let outer = Outer::read(bytes, tags::SEQUENCE)?;
//! let first = outer.content().element(tags::INTEGER)?;
//! let second = first.behind.element(tags::BOOLEAN)?;
//! second.behind.end(second.der)                             // bytes left over are a Fault at the first of them
//! ```
//!
//! # What it isn't
//!
//! No ASN.1 compiler and no BER: a length that isn't in its fewest bytes, a tag of several bytes and an indefinite
//! length are refused. Object identifiers and strings are handed on as bytes; what they mean is said in `x509_profile`,
//! `tn_auth_list` and `claim_constraints`.
//!
//! # What is proved
//!
//! An element is read just if the bytes begin with its one text; which fault comes, and where, is said both ways; what
//! [`put`] writes is read back. The clauses are in `docs/dev/PROVED.md`, and the laws ([`element_law`], [`integer_law`]
//! and their kin) are cited by the crates of certificates.
//!
//! # Cases
//!
//! Section `der` of `crates/vectors/stdin`.
#![tactic(auto)]

mod bit_string;
mod boolean;
mod element;
mod fault;
mod integer;
mod laws;
mod moment;
mod optional;
mod part;
pub mod tags;
mod time;
mod write;

pub use element::Der;
pub use fault::DerFault;
pub use laws::{bit_string_law, boolean_law, bytes_law, element_law, integer_law, time_law};
pub use part::{Fault, Item, Outer, Part};
pub use write::{Memory, encode, put, put_integer};
