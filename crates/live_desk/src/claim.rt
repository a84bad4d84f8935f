//! The answer to a claim.

/// How a claim ended.
#[derive(Clone, Copy, Debug, PartialEq, Eq)]
pub enum LiveClaim {
    /// This claim set the ticket's word at the last level: it is the first of the ticket.
    Won,
    /// This claim found the ticket's code at the last level: another claim of the ticket had set it.
    Lost,
    /// Each slot of a level is another ticket's, so that the desk has no room for this one.
    Full {
        /// The level, 1 to 6.
        level: u8,
    },
}
