//! Why some bytes aren't a certificate of the profile.

use der_reader::Fault;
use std::alloc::AllocError;
use std::error::Error;
use std::fmt;

/// Why bytes aren't read as a certificate.
#[derive(Clone, Copy, Debug, PartialEq, Eq)]
pub enum CertFault {
    /// The first broken part, in byte order.
    At {
        /// What is broken: one of the numbers below.
        kind: u8,
        /// The offset, in bytes from the certificate's first one, at which the broken part is.
        place: u32,
    },
    /// Memory ran out, and nothing is said of the bytes.
    Memory,
}

impl CertFault {
    /// An element can't be read, has another tag, or isn't of its form, or bytes are left over.
    pub const DER: u8 = 1;
    /// The version isn't 3 (RFC 5280, section 4.1.2.1).
    pub const VERSION: u8 = 2;
    /// An algorithm isn't ecdsa-with-SHA256 (RFC 5758, section 3.2).
    pub const ALGORITHM: u8 = 3;
    /// The key isn't an uncompressed point of P-256 (RFC 5480, section 2).
    pub const KEY: u8 = 4;
    /// The validity isn't two times (RFC 5280, section 4.1.2.5).
    pub const TIME: u8 = 5;
    /// A critical extension isn't known (RFC 5280, section 4.2).
    pub const CRITICAL: u8 = 6;
    /// The constraints on claims can't be read (RFC 8226, section 8), or they are enhanced ones (RFC 9118), which the
    /// profile doesn't have.
    pub const CONSTRAINT: u8 = 7;
    /// The telephone number authorization list can't be read (RFC 8226, section 9).
    pub const LIST: u8 = 8;
    /// The signature isn't two numbers below 2^256 (RFC 5480 appendix A).
    pub const SIGNATURE: u8 = 9;
}

impl From<Fault> for CertFault {
    ghost use Rattle.std.specs.Prelude.{◌≡◌};
    ghost use Rattle.x509_profile.specs.declared.fault.CertFault.TheVariants.{At};

    ghost from_gives = { λ broken fault. fault ≡ At broken.kind broken.place };

    fn from(broken: Fault) -> CertFault {
        CertFault::At {
            kind: broken.kind,
            place: broken.place,
        }
    }
}

impl From<AllocError> for CertFault {
    ghost use Rattle.std.specs.Prelude.{◌≡◌};
    ghost use Rattle.x509_profile.specs.declared.fault.CertFault.TheVariants.{Memory};

    ghost from_gives = { λ _ fault. fault ≡ Memory };

    fn from(_refused: AllocError) -> CertFault {
        CertFault::Memory
    }
}

impl fmt::Display for CertFault {
    fn fmt<W: fmt::Write>(&self, f: &mut fmt::Formatter<W>) -> fmt::Result {
        let (kind, place) = match self {
            CertFault::At { kind, place } => (*kind, *place),
            CertFault::Memory => return f.write_str("out of memory"),
        };
        let reason = match kind {
            CertFault::VERSION => "the version isn't 3",
            CertFault::ALGORITHM => "the algorithm isn't ecdsa-with-SHA256",
            CertFault::KEY => "the key isn't an uncompressed point of P-256",
            CertFault::TIME => "the validity isn't two times",
            CertFault::CRITICAL => "a critical extension isn't known",
            CertFault::CONSTRAINT => "the constraints on claims can't be read or are enhanced ones",
            CertFault::LIST => "the authorization list can't be read",
            CertFault::SIGNATURE => "the signature isn't two numbers of 256 bits",
            _ => "an element can't be read or isn't of its form",
        };
        write!(f, "{reason}, at byte {place}")
    }
}

impl Error for CertFault {}
