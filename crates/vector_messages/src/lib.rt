//! Calls of a table on messages and what is read of them: the cases of the crates up to `passport_claims`, and of
//! `claim_constraints`.
//!
//! A module for each subject, each with one `answer`: [`messages`] (`sip_message`), [`identity`] (`identity_header`),
//! [`tokens`] (`passport_json`, and `is_uri`), [`claims`] and [`order`] (`passport_claims`), [`constraints`]
//! (`claim_constraints`), and [`signing`]: `with_field`, and what is signed of a PASSporT.
//!
//! The lines are the sections of these names in `crates/vectors/stdin`.
#![tactic(auto)]

pub mod claims;
pub mod constraints;
pub mod identity;
pub mod messages;
pub mod order;
pub mod signing;
pub mod tokens;
