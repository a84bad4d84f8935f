//! Tag bytes of one byte (X.690, section 8.1.2).

/// A BOOLEAN.
pub const BOOLEAN: u8 = 0x01;
/// An INTEGER.
pub const INTEGER: u8 = 0x02;
/// A BIT STRING.
pub const BIT_STRING: u8 = 0x03;
/// An OCTET STRING.
pub const OCTET_STRING: u8 = 0x04;
/// An OBJECT IDENTIFIER.
pub const OBJECT_IDENTIFIER: u8 = 0x06;
/// An IA5String.
pub const IA5_STRING: u8 = 0x16;
/// A UTCTime.
pub const UTC_TIME: u8 = 0x17;
/// A GeneralizedTime.
pub const GENERALIZED_TIME: u8 = 0x18;
/// A SEQUENCE.
pub const SEQUENCE: u8 = 0x30;
