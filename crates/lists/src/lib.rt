//! Words of definitions and laws of lists that several crates cite: steps of a reading, and what holds of all bytes of
//! a text.
//!
//! There is no code here and nothing to call. Definitions of other crates import these words, and their proofs the
//! laws.
//!
//! - `specs/Steps`: a reading step by step, up to its first fault: `step >>= next`.
//! - `specs/Given`: what a call of the code gives, compared with what a definition gives. Running out of memory is free
//!   in it.
//! - `proofs/`: laws of these words, and of lists of bytes.
//!
//! ```text
//! ghost use Rattle.lists.specs.Steps.{◌>>=◌};
//! ```
//!
//! Laws of lists that the kit has aren't repeated: `rt lemma` finds those. What a text format is made of is in
//! `text_grammar`.
#![tactic(auto)]
