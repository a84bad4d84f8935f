//! Why words order nothing.

/// Why the words of a command line order nothing.
#[derive(Clone, Copy, Debug, PartialEq, Eq)]
pub enum WordsFault {
    /// The words are refused.
    Refused,
    /// Memory ran out.
    Memory,
}
