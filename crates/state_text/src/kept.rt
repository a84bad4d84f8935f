//! What is kept of a ticket.

/// A call that passed. The order is that of its number first.
#[derive(Clone, Copy, Debug, PartialEq, Eq, PartialOrd, Ord)]
pub struct Kept {
    /// The call's number.
    pub call: u32,
    /// The last second, in Unix time, at which the call's PASSporT is fresh.
    pub last: u64,
}
