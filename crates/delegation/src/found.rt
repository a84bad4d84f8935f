//! What a path comes to.

/// What a path comes to.
#[derive(Clone, Copy, Debug, PartialEq, Eq)]
pub struct Shape {
    /// The number of the anchor that is the issuer of the last certificate. None if that certificate is
    /// itself an anchor, byte for byte.
    pub anchor: Option<u16>,
}
