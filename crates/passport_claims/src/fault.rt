ghost use Rattle.std.specs.Prelude.{◌≡◌};

use std::alloc::{AllocError, AllocFailed};
use thiserror::Error;

/// Why header and payload are not those of a PASSporT, or why there is no PASSporT of some parts: the first claim that
/// is broken, in this order.
#[derive(Clone, Copy, Debug, PartialEq, Eq, Error)]
pub enum ClaimFault {
    /// The header's `typ` is not the text `passport` (RFC 8225, section 4.1).
    #[error("the header's typ is not passport")]
    Kind,
    /// The header's `alg` is not the text `ES256` (RFC 8225, section 4.2).
    #[error("the header's alg is not ES256")]
    Alg,
    /// The header's `ppt` is not the field's, or is there though the field has none (RFC 8224, section 4.1).
    #[error("the header's ppt is not the field's")]
    Ppt,
    /// The header's `x5u` is not the field's `info`, byte for byte (RFC 8224, section 4.1).
    #[error("the header's x5u is not the field's info")]
    X5u,
    /// The payload's `iat` is not an integer from 0 to 253,402,300,799 (RFC 8225, section 5.1.1).
    #[error("the payload's iat is not a time in seconds")]
    Iat,
    /// The payload's `orig` is not an object whose `tn` is a number (RFC 8225, section 5.2.1).
    #[error("the payload's orig is not a number")]
    Orig,
    /// The payload's `dest` is not an object whose `tn` is an array of 1 to 32 numbers, or of one for `div` (RFC 8225,
    /// section 5.2.1; RFC 8946, section 4.1).
    #[error("the payload's dest is not a list of numbers")]
    Dest,
    /// The payload's `attest` is not `A`, `B` or `C`, for `shaken` (RFC 8588, section 4).
    #[error("the payload's attest is not A, B or C")]
    Attest,
    /// The payload's `origid` is not a UUID in 36 characters, for `shaken` (RFC 8588, section 5).
    #[error("the payload's origid is not a UUID")]
    Origid,
    /// The payload's `div` is not an object whose `tn` is a number, for `div` (RFC 8946, section 4.1).
    #[error("the payload's div is not a number")]
    Div,
    /// Memory ran out, and nothing is said of the claims.
    #[error("out of memory")]
    Memory,
}

impl ClaimFault {
    ghost use Rattle.passport_claims.specs.Fault.{fault_number};

    /// The fault's number in this project's reports: 1 to 10 in the order of the names; `None` if memory ran out, which
    /// is no fault of the claims.
    pub fn number(self) -> Option<u8>
        ensures { result ≡ fault_number self }
    {
        match self {
            ClaimFault::Kind => Some(1),
            ClaimFault::Alg => Some(2),
            ClaimFault::Ppt => Some(3),
            ClaimFault::X5u => Some(4),
            ClaimFault::Iat => Some(5),
            ClaimFault::Orig => Some(6),
            ClaimFault::Dest => Some(7),
            ClaimFault::Attest => Some(8),
            ClaimFault::Origid => Some(9),
            ClaimFault::Div => Some(10),
            ClaimFault::Memory => None,
        }
    }
}

impl From<AllocError> for ClaimFault {
    ghost use Rattle.std.specs.Prelude.{◌≡◌};
    ghost use Rattle.passport_claims.specs.declared.fault.ClaimFault.TheVariants.{Memory};

    ghost from_gives = { λ _ fault. fault ≡ Memory };

    fn from(_refused: AllocError) -> ClaimFault {
        ClaimFault::Memory
    }
}

impl<T: Drop> From<AllocFailed<T>> for ClaimFault {
    ghost use Rattle.std.specs.Prelude.{◌≡◌};
    ghost use Rattle.passport_claims.specs.declared.fault.ClaimFault.TheVariants.{Memory};

    ghost from_gives = { λ _ fault. fault ≡ Memory };

    fn from(_refused: AllocFailed<T>) -> ClaimFault {
        ClaimFault::Memory
    }
}
