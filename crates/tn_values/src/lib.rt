//! Telephone numbers: their exact and their canonical form (RFC 8224, section 8.3), spans of them and sets (RFC 8226,
//! section 9).
//!
//! # The way through
//!
//! - A [`Number`] is 1 to 15 bytes of `0-9 * #`, and contracts see it as the list of its bytes. [`Number::exact`] takes
//!   a text that is one, byte for byte, as the claims of a PASSporT have it (RFC 8225, section 5.2.1).
//! - [`Number::read`] brings the text of a SIP message to its canonical form, with the country's digits that a
//!   [`Local`] has.
//! - A [`Span`] is a range of numbers of one length.
//! - A [`NumberSet`] is what spans and single numbers hold together, as the entries of a `TNAuthList` do.
//!   [`NumberSet::build`] merges and sorts them, and alone takes memory; [`NumberSet::has`] asks for a number by one
//!   search, whose looks [`Steps`] counts, and [`NumberSet::within`] compares two sets.
//!
//! ```rust
//! let Some(local) = Local::new(b"1", 10) else { .. };
//! let number = Number::read(b"(215) 555-1212", &local);     // 12155551212
//! let Some(start) = Number::exact(b"12155551200") else { .. };
//! let span = Span::new(start, 100);                         // the hundred numbers from there on
//! ```
//!
//! # What it isn't
//!
//! No numbering plan: which countries and lengths there are isn't known here, beyond the one country of a [`Local`]. It
//! takes no URI apart (that is `sip_message`) and reads no certificate (`tn_auth_list`).
//!
//! # What is proved
//!
//! `Number::read` gives exactly the canonical number, in one of three ways. A set has a number just if a span or single
//! that was given holds it, at a cost of the binary logarithm. [`NumberSet::within`] is true just if every number of
//! the one is in the other. `docs/dev/PROVED.md` has the clauses, and [`number_law`], [`set_law`] and
//! [`every_number_law`] are the laws for the crates above.
//!
//! # Cases
//!
//! Section `numbers` of `crates/vectors/stdin`; that equal numbers hash alike, in `crates/stir_tests`.
#![tactic(auto)]

mod alphabet;
mod kept;
mod laws;
mod merging;
mod numbering;
mod numbers;
mod places;
mod reading;
mod search;
mod sets;
mod sorted;
mod spans;
mod steps;

pub use laws::{every_number_law, number_law, set_law};
pub use numbering::Local;
pub use numbers::Number;
pub use sets::NumberSet;
pub use sorted::{Side, Sorted};
pub use spans::Span;
pub use steps::Steps;
/// Memory ran out.
pub use std::alloc::AllocError as Memory;
