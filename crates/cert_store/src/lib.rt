//! Certificate chains by their x5u, the header parameter that says where the certificates of a token are (RFC 7515,
//! section 4.1.5).
//!
//! # The way through
//!
//! ```text
//! x5u   --ChainMap::file-->   the name of a file   --the shelf-->   bytes
//! bytes --judge_chain----->   Judged               --Cache::put-->  held for later calls
//! ```
//!
//! - A [`ChainMap`] says which file has the certificates of which x5u. It is a text file (this project's own format).
//! - [`judge_chain`] judges the bytes of such a file once: all that depends on the bytes, the trust anchors, the code
//!   table and the provider alone. These are the rules 11, 12, 14 and 15 of the report.
//! - The [`Judged`] chain is asked where a rule is broken, and by [`Judged::out_of_date`] for rule 13 at the moment of
//!   a call. [`Judged::question`] gives what the provider is asked, a [`Question`] a certificate.
//! - A [`Cache`] keeps judged chains, the most recently used first.
//! - A [`World`] is what calls are judged by: chain map, anchors and code table.
//!
//! ```rust
//! let judged = judge_chain(alloc, &bytes, &world.anchors, &world.table, &mut provider)?;
//! let broken = judged.profile().or(judged.shape());         // the number of a certificate, if a rule is broken
//! let late = judged.out_of_date(call.moment());
//! ```
//!
//! # What it isn't
//!
//! No file is fetched: the shelf has them (`stirctl fetch` gets them beforehand). No signature is verified: the
//! provider answers. Which PASSporT a chain has to vouch for is asked in `verify_rules`.
//!
//! # What is proved
//!
//! What is judged is a function of bytes, anchors, table and provider, and the same is said in each rule's own words.
//! The provider is asked once for each certificate that isn't an anchor, and only if rules 11, 12 and 14 hold. A chain
//! that is held stays until as many others were used as the cache may hold. `docs/dev/PROVED.md`, "Certificates", has
//! the clauses.
//!
//! # Cases
//!
//! Sections `chains` and `cache` of `crates/vectors/stdin`; a full chain map in `crates/stir_tests`.
#![tactic(auto)]

mod authority;
mod cache;
mod judge;
mod judged;
mod laws;
mod map;
mod map_rows;
mod path;
mod signatures;
mod world;
mod x5u;

pub use cache::Cache;
pub use judge::judge_chain;
pub use judged::{Asked, Judged, Question};
pub use laws::{cache_law, file_name_law, judged_law, questions_law, use_law};
pub use map::{ChainMap, MapFault};
pub use world::World;
/// Memory ran out.
pub use std::alloc::AllocError as Memory;
