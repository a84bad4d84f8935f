//! A call judged by itself: by all rules but the one on replay, over the chains of its PASSporTs.
//!
//! # The way through
//!
//! ```text
//! a message and its moment
//!    | verify_rules::screen   the rules of the call
//!    v
//! Screened
//!    | read_chains            for each PASSporT: x5u -> chain map -> file -> judged chain, as far as there is one: a ChainStatus
//!    v
//! CallChains
//!    | verify_rules::finish   the rules of the chains
//!    v
//! Finding                     Passes(pass), Refused(refusal), Unread(place) or Unasked(place)
//! ```
//!
//! - [`judge_call`] goes the whole way, and [`judge_screened`] from the second step on. [`read_chains`] reads and
//!   judges the chains of a call that was screened, and [`chain_in`] one chain. [`pass_of`] tells by what a screened
//!   call is known again.
//! - The files come from a `stir_outside::Shelf`, and the answers about signatures from a `stir_outside::Provider`.
//!
//! ```rust
//! let mut chains = CallChains::new(alloc);
//! match judge_call(alloc, &settings, &world, &mut shelf, &mut provider, &mut chains, message, moment)? {
//!     Finding::Passes(pass) => .., // known again by pass.ticket, until pass.last
//!     other => ..,
//! }
//! ```
//!
//! # What it isn't
//!
//! It looks at no other call: replay is a matter of `verify_service`. It keeps nothing, starts no thread, and reads no
//! log. The rules themselves are in `verify_rules`, and those on a chain in `cert_store`.
//!
//! # What is proved
//!
//! What is found is what the rules say of the call in the world of the files and the signatures. A call is set aside
//! only if a read or a question failed and was counted. `docs/dev/PROVED.md` has the clauses.
//!
//! # Cases
//!
//! `tests/cli/explain.rows` and `tests/cli/retarget.rows`.
#![tactic(auto)]

mod always_yes;
mod chains;
mod explaining;
mod fetching;
mod finding;
mod judge;
mod laws;
mod questions;
mod reading;
mod rule_numbers;

pub use always_yes::AlwaysYes;
pub use chains::{CallChains, ChainStatus};
pub use explaining::explained;
pub use fetching::{Fetched, fetch, fetch_file, judge_file};
pub use finding::{Finding, Pass};
pub use judge::{judge_call, judge_screened, pass_of};
pub use laws::{
    call_agreement_law, call_questions_law, chain_size_law, chains_law, explain_law, fresh_law,
    lines_law, rule_numbers_law,
};
pub use questions::{asks_own, chain_questions, own_questions, question_line};
pub use reading::{chain_in, read_chains};
pub use rule_numbers::{FIRST_ON_FILES, FIRST_ON_SIGNATURES, RULES};
