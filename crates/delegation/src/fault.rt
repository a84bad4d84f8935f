//! Why some bytes aren't trust anchors, and why some certificates aren't a path.

ghost use Rattle.std.specs.Prelude.{◌≡◌};
ghost use Rattle.delegation.specs.Path.{fault_at};

use std::alloc::AllocFailed;
use std::error::Error;
use std::fmt;

/// Why bytes aren't read as trust anchors.
#[derive(Clone, Copy, Debug, PartialEq, Eq)]
pub enum AnchorFault {
    /// What is at this place isn't an anchor, or is one past the 256th.
    At {
        /// The offset, in bytes from the first one that was given, at which it begins.
        place: u32,
    },
    /// Memory ran out, and nothing is said of the bytes.
    Memory,
}

impl<T: Drop> From<AllocFailed<T>> for AnchorFault {
    ghost use Rattle.std.specs.Prelude.{◌≡◌};
    ghost use Rattle.delegation.specs.declared.fault.AnchorFault.TheVariants.{Memory};

    ghost from_gives = { λ _ fault. fault ≡ Memory };

    fn from(_refused: AllocFailed<T>) -> AnchorFault {
        AnchorFault::Memory
    }
}

impl fmt::Display for AnchorFault {
    fn fmt<W: fmt::Write>(&self, f: &mut fmt::Formatter<W>) -> fmt::Result {
        match self {
            AnchorFault::At { place } => write!(f, "no trust anchor stands at byte {place}"),
            AnchorFault::Memory => f.write_str("out of memory"),
        }
    }
}

impl Error for AnchorFault {}

/// Why certificates aren't a path.
#[derive(Clone, Copy, Debug, PartialEq, Eq)]
pub struct PathFault {
    /// What is wrong: one of the numbers below.
    pub kind: u8,
    /// The certificate at which it is, counted from the leaf, which is 1; 0 if there is none.
    pub place: u8,
}

impl PathFault {
    /// There is no certificate.
    pub const EMPTY: u8 = 1;
    /// The certificate's subject isn't the issuer of the one before it (RFC 5280, section 6.1.3 (a)(4)).
    pub const NAMES: u8 = 2;
    /// The certificate may not certify others (RFC 5280, section 6.1.4 (k) and (n)).
    pub const NOT_ISSUER: u8 = 3;
    /// More certificates are between this one and the leaf than it allows (RFC 5280, section 4.2.1.9).
    pub const PATH_LENGTH: u8 = 4;
    /// The last certificate isn't a trust anchor, and none has issued it (RFC 5280, section 6.1.1 (d)).
    pub const NO_ANCHOR: u8 = 5;
    /// The leaf's key may not sign (RFC 5280, section 4.2.1.3).
    pub const LEAF_USE: u8 = 6;

    /// A fault of this kind at the certificate of this number.
    pub(crate) fn new(kind: u8, place: u8) -> PathFault
        ensures { result ≡ fault_at kind place }
    {
        PathFault { kind, place }
    }
}

impl fmt::Display for PathFault {
    fn fmt<W: fmt::Write>(&self, f: &mut fmt::Formatter<W>) -> fmt::Result {
        let reason = match self.kind {
            PathFault::EMPTY => "there is no certificate",
            PathFault::NAMES => "its subject isn't the issuer of the one before it",
            PathFault::NOT_ISSUER => "it may not certify others",
            PathFault::PATH_LENGTH => "too many certificates stand below it",
            PathFault::NO_ANCHOR => "no trust anchor has issued it",
            _ => "its key may not sign",
        };
        write!(f, "certificate {}: {reason}", self.place)
    }
}

impl Error for PathFault {}
