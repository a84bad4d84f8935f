//! Calls of a table on calls that are judged and messages that are signed: the cases of `verify_rules`,
//! `verify_service` and `auth_service`.
//!
//! A module for each subject: [`rules`] (the rules of the call, and the response codes), [`verdicts`] (the rules of the
//! chains), [`rounds`], [`workers`] and [`signing`] (`sign`, `divert`). Rounds are judged on one worker, and on several
//! that wait for each other at a gate.
//!
//! The lines are the sections of these names in `crates/vectors/stdin`; scripts of `crates/vectors/generators` print
//! the calls in them.
#![tactic(auto)]

mod lending;
mod logs;
pub mod rounds;
pub mod rules;
pub mod signing;
pub mod verdicts;
pub mod workers;
