//! Forms of the outside that live in memory and tell their content: for tests and for proofs.

pub mod shelf;
pub mod sink;
pub mod slow;
pub mod source;
