//! The answer to a claim.

/// How a claim ended.
#[derive(Clone, Copy, Debug, PartialEq, Eq)]
pub enum Claim {
    /// The class was free, and belongs to the call from now on.
    Won,
    /// The class belongs to another claim already.
    Lost {
        /// The call that won the class.
        winner: u32,
    },
}
