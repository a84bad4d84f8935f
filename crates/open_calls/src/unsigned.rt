//! Why no message comes out.

/// Which input is at fault.
#[derive(Clone, Copy, Debug, PartialEq, Eq)]
pub enum Unread {
    /// The key's chain isn't certificates one after another, or its first has no authority list (RFC 8226, section 9).
    Certificate,
    /// What is to be signed isn't an order: its form, its URI, its second, the identifier of the call or the earlier
    /// number.
    Order,
    /// The signature hasn't 64 bytes.
    Signature,
    /// Memory ran out.
    Memory,
}

/// Why no message comes out.
#[derive(Clone, Copy, Debug)]
pub enum Unsigned {
    /// An input is at fault, or memory ran out.
    Input(Unread),
    /// Nothing may be signed: 1 the message can't be, 2 it lacks a number, 3 the holder may not speak for the number.
    Withheld(u8),
    /// There is no signature for this digest.
    Digest([u8; 32]),
}
