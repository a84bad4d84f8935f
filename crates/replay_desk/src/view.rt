//! What a seat knows. It exists in proofs alone.
use std::collections::LinkedList;

/// The wins and losses of a seat, as pairs of a class and a call, and its share of the desk. No value of it is made.
pub struct View {
    /// The classes that were won with this seat, each with the call that won it.
    pub wins: LinkedList<(u64, u64)>,
    /// The classes that were lost with this seat, each with the call that had won it.
    pub losses: LinkedList<(u64, u64)>,
    /// How many of the desk's parts the seat has; 2^32 parts are the whole desk.
    pub share: u64,
}
