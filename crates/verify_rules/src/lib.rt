//! The rules by which a verification service judges a call (RFC 8224, section 6.2), without replay: the rules of the
//! call and the chains.
//!
//! # The way through
//!
//! ```text
//! the bytes of a message
//!    | screen                     the rules of the call: what the call itself says, before any certificate is looked at
//!    v
//! Screened                        the PASSporTs in the order in which the call went, their digests, the ticket of the last
//!    | finish, over Chains        the rules of the chains: what is known of the chain of each PASSporT, as a ChainState
//!    v
//! Verdict                         Passed, Refused with the first broken rule and its place, Unread or Unasked
//! ```
//!
//! - [`Settings`] are told once: how numbers are read, and how long a PASSporT is fresh.
//! - A [`Refusal`] has the number of the rule and the [`Place`]: the Identity field and a part of it. [`code`] gives
//!   the response code of a rule.
//! - [`covers_passport`] is rule 17 by itself: whether the leaf's list covers what a PASSporT speaks for.
//!
//! ```rust
//! match screen(alloc, call.message(), call.moment(), &settings) {
//!     Ok(screened) => finish(&screened, &chains, call.moment(), &table, &mut provider),
//!     Err(ScreenFault::Refused(refusal)) => Verdict::Refused(refusal),
//!     Err(ScreenFault::Memory) => ..,
//! }
//! ```
//!
//! # What it isn't
//!
//! Rule 18, on replay, looks at other calls: it is the work of `verify_service` and `replay_desk`. Chains are handed
//! in, not read: `cert_store` judges them. No response is sent: a code is a number in a report.
//!
//! # What is proved
//!
//! A call is refused exactly with the first rule that it breaks, at the first place at which it is broken; the same is
//! said of each rule in the standard's own words, both ways. `docs/RULES.md` has the rules with their codes, places and
//! sections, and `docs/dev/PROVED.md`, "The rules", the clauses. The laws re-exported here are what the crates above
//! cite.
//!
//! # Cases
//!
//! Sections `rules` and `verdicts` of `crates/vectors/stdin`; whole logs in `tests/cli/verify.rows`.
#![tactic(auto)]

mod asking;
mod chains;
mod codes;
mod early;
mod events;
mod facts;
mod fields;
mod identity_field;
mod judged_passport;
mod late;
mod laws;
mod leaf_authority;
mod next_hop;
mod once;
mod passports;
mod readings;
mod refusal;
mod screened;
mod settings;
mod signed_token;
mod turns;
mod unmet;
mod verdict;

pub use chains::{ChainState, Chains};
pub use codes::code;
pub use early::screen;
pub use laws::{
    code_law, covers_kind_law, first_law, last_second_law, late_words_law, numbers_law,
    one_field_law, provider_law, right_law, same_world_law, screened_law, signed_law, unasked_law,
    words_law,
};
pub use leaf_authority::covers_passport;
pub use next_hop::{more_law, moved_law};
pub use refusal::{Place, Refusal, ScreenFault};
pub use screened::Screened;
pub use settings::Settings;
pub use verdict::{Verdict, finish};
