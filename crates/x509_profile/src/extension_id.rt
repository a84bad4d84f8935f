//! The extensions that the profile knows.

ghost use Rattle.std.specs.Prelude.{◌≡◌};
ghost use Rattle.x509_profile.specs.ExtensionId.{name_of, named};

/// The extension of an OID.
#[derive(Clone, Copy, Debug)]
pub(crate) enum ExtensionId {
    /// 2.5.29.19 (RFC 5280, section 4.2.1.9).
    BasicConstraints,
    /// 2.5.29.15 (RFC 5280, section 4.2.1.3).
    KeyUsage,
    /// 2.5.29.14 (RFC 5280, section 4.2.1.2).
    SubjectKey,
    /// 2.5.29.35 (RFC 5280, section 4.2.1.1).
    AuthorityKey,
    /// The telephone number authorization list: 1.3.6.1.5.5.7.1.26 (RFC 8226, section 9).
    AuthorityList,
    /// Constraints on claims: 1.3.6.1.5.5.7.1.27 (RFC 8226, section 8). Their form is this project's own.
    ClaimConstraints,
    /// Enhanced constraints on claims: 1.3.6.1.5.5.7.1.33 (RFC 9118, section 4).
    EnhancedConstraints,
    /// Any other.
    Unknown,
}

impl ExtensionId {
    /// The extension that an OID's content names.
    #[tactic(auto, unfolding(crate::specs::ExtensionId::name_of))]
    pub fn of(oid: &[u8]) -> ExtensionId
        ensures { named result ≡ name_of oid.now }
    {
        if oid == [0x55, 0x1D, 19].as_slice() {
            ExtensionId::BasicConstraints
        } else if oid == [0x55, 0x1D, 15].as_slice() {
            ExtensionId::KeyUsage
        } else if oid == [0x55, 0x1D, 14].as_slice() {
            ExtensionId::SubjectKey
        } else if oid == [0x55, 0x1D, 35].as_slice() {
            ExtensionId::AuthorityKey
        } else if oid == [0x2B, 0x06, 0x01, 0x05, 0x05, 0x07, 0x01, 26].as_slice() {
            ExtensionId::AuthorityList
        } else if oid == [0x2B, 0x06, 0x01, 0x05, 0x05, 0x07, 0x01, 27].as_slice() {
            ExtensionId::ClaimConstraints
        } else if oid == [0x2B, 0x06, 0x01, 0x05, 0x05, 0x07, 0x01, 33].as_slice() {
            ExtensionId::EnhancedConstraints
        } else {
            ExtensionId::Unknown
        }
    }
}
