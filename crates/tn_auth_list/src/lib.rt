//! The `TNAuthList` of a certificate: which telephone numbers its holder may speak for (RFC 8226, section 9).
//!
//! # The way through
//!
//! - [`AuthList::read`] takes the DER of a list, which is 1 to 1,000 entries. [`AuthList::build`] makes one of entries,
//!   and [`AuthList::write`] gives its one DER text.
//! - An [`Entry`] is a [`Code`] (a service provider code), a range of numbers or a number.
//! - [`CodeTable::read`] takes the code table, a text file (this project's own format), and [`CodeTable::numbers`]
//!   answers a [`Grant`]: what a code stands for.
//!
//! ```rust
//! let list = AuthList::read(alloc, bytes)?;                 // ListFault has the kind of the fault and its offset
//! for entry in list.entries() {
//!     if let Entry::Code(code) = entry {
//!         let grant = table.numbers(code);                  // Grant::Nothing, All or These
//!     }
//! }
//! ```
//!
//! # What it isn't
//!
//! Whether a list covers a number, and lies within another list, is asked in `delegation`. Where the list is in a
//! certificate is the work of `x509_profile`. A code says nothing of numbers by itself: only the code table does.
//!
//! # What is proved
//!
//! A list is read just if the bytes are its one DER text, and the first fault is said in the grammar's words, both ways
//! ([`list_law`]). A table is exactly what its lines say, or its first bad line is named. `docs/dev/PROVED.md`,
//! "Certificates", has the clauses.
//!
//! # Cases
//!
//! Section `authority` of `crates/vectors/stdin`, and large tables in `crates/stir_tests`.
#![tactic(auto)]

mod auth_list;
mod codes;
mod entries;
mod faults;
mod laws;
mod reading;
mod table;
mod table_groups;
mod table_rows;
mod writing;

pub use auth_list::AuthList;
pub use codes::Code;
pub use entries::Entry;
pub use faults::ListFault;
pub use laws::list_law;
pub use table::{CodeTable, Grant, TableFault};
/// Memory ran out.
pub use std::alloc::AllocError as Memory;
