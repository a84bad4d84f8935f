//! `stir` for callers in C, who hold worlds, chains and calls.
//!
//! # The way through
//!
//! ```text
//! settings, trust anchors, code table --stir_world_open-->  a world
//! a world, the bytes of a chain       --stir_chain_open-->  a chain, judged once
//!    | stir_chain_questions, stir_chain_confirm              what the host has to confirm of it, and which of it he confirmed
//! a world, a message, a moment        --stir_call_open-->   a call, screened by the rules of the call
//!    | stir_call_x5u, stir_call_chain                        which chains it asks for, and which are handed in
//!    | stir_call_questions                                   its PASSporTs' own signatures, and what holds if all are confirmed
//!    | stir_call_judge                                       the verdict by those that are; stir_call_explain, with a line for each rule
//! a key's chain, a message --stir_to_sign, stir_to_divert-->  the digest that is to be signed
//!    | stir_signed, stir_diverted                            the message with its Identity field, by the signature that was made
//! certificates --stir_show-->                                what they say, in lines
//! ```
//!
//! - A handle is closed, or the address of one owner ([`owner`]): a share of a world, a chain, or a call. [`handle`]
//!   and [`slot`] are what it is in memory, and [`taking`] takes its owner out for a call and puts it back.
//! - Each call gives a [`Said`]: its `kind`, and what belongs to that kind. A text goes into the caller's room.
//! - `open_calls` judges a call, and signs a message or sends a call on.
//!
//! ```c
//! stir_said said = stir_call_open(&world, moment, message, message_size, &call);
//! if (said.kind == STIR_PASSES) { .. stir_call_chain(&call, 0, &chain); said = stir_call_questions(&call, room, sizeof room); }
//! ```
//!
//! No file is read, nothing is waited for, and no thread is started. A handle is in one call at a time; threads have
//! shares of their own.
//!
//! # What it isn't
//!
//! No rule is decided here, and no ES256 is done: the caller asks his verifier and his signer. Nothing remembers
//! tickets: letting each pass once is the caller's part. The pointers and lengths, and that the chains are those to
//! which the x5us lead, are believed; `include/stir.h` says what the caller owes.
//!
//! # What is proved
//!
//! The clauses of each export say of the bytes from which the handles were opened what the rules say of the call: which
//! rule is broken first, by what the call is known again, what is asked, what is to be signed; and which input is at
//! fault. `docs/dev/PROVED.md`, "The library for C", has them. Neither a file nor a provider can fail here, so no call
//! is set aside.
//!
//! # Cases
//!
//! `tests/service`: C programs, Python and the crate `stir` call each function, beside what the proved program prints.
#![tactic(auto)]

mod abi;
mod call_chains;
mod exports_call;
mod exports_chain;
mod exports_judging;
mod exports_parts;
mod exports_retarget;
mod exports_showing;
mod exports_signing;
mod exports_world;
mod handle;
mod handles;
mod judging;
mod key;
mod loose;
mod moving;
mod owner;
mod owning;
mod parts;
mod question_bytes;
mod said;
mod showing;
mod slot;
mod taking;
mod told_signing;
mod writing;

pub use abi::stir_abi;
pub use exports_call::{stir_call_chain, stir_call_close, stir_call_open};
pub use exports_chain::{
    stir_chain_close, stir_chain_confirm, stir_chain_open, stir_chain_questions, stir_chain_share,
};
pub use exports_judging::{
    stir_call_claims, stir_call_explain, stir_call_header, stir_call_judge, stir_call_lines,
    stir_call_questions, stir_call_x5u,
};
pub use exports_parts::stir_chain_part;
pub use exports_retarget::{stir_retargeted, stir_to_retarget};
pub use exports_showing::stir_show;
pub use exports_signing::{SigningOrder, stir_diverted, stir_signed, stir_to_divert, stir_to_sign};
pub use exports_world::{Settings, stir_world_close, stir_world_open, stir_world_share};
pub use handles::{CallHandle, ChainHandle, WorldHandle};
pub use said::Said;
