//! Calls of a table on texts and bytes: the cases of the crates that read and write them.
//!
//! A module for each subject, each with one `answer`: [`text`] (`text_grammar`), [`numbers`] (`tn_values`), [`der`]
//! (`der_reader`), [`answers`] and [`outside`] (`stir_outside`), [`log`] (`call_log`), [`state`] (`state_text`, and the
//! list of `replay_desk`'s past), and [`drills`] (`stir_drill`, the section `drill`).
//!
//! The lines are the sections of these names in `crates/vectors/stdin`. How a line is read and an answer written is in
//! `vector_table`.
#![tactic(auto)]

pub mod answers;
pub mod der;
pub mod drills;
pub mod log;
pub mod numbers;
pub mod outside;
pub mod state;
pub mod text;
