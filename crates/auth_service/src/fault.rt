//! Why nothing was signed.
ghost use Rattle.std.specs.Prelude.{◌≡◌};
ghost use Rattle.auth_service.specs.Answer.{number_of};

use std::alloc::AllocError;
use thiserror::Error;

/// Why a message was not signed: the first fault in this order.
#[derive(Clone, Copy, Debug, Error)]
pub enum SignFault {
    /// The bytes are no INVITE (RFC 3261, section 7); or, in the compact form, their Date is not the order's second; or
    /// both numbers are there and the message with its new field would be longer than 65,535 bytes.
    #[error("the message can't be signed")]
    Form,
    /// There is no calling number, or To has none; for a diversion, the request URI.
    #[error("the message lacks a number")]
    NoNumber,
    /// The holder's authority doesn't cover the calling number; for a diversion, the earlier one (RFC 8226, section 9).
    #[error("the holder may not speak for the number")]
    Authority,
    /// The provider has no signature by this key for this digest, the SHA-256 (FIPS 180-4) of what was to be signed.
    #[error("the key has no signature for the digest")]
    NoSignature { digest: [u8; 32] },
    /// The provider failed, and counted it.
    #[error("the provider failed")]
    Provider,
    /// Memory ran out, and nothing is said of the message.
    #[error("out of memory")]
    Memory,
}

impl SignFault {
    /// The fault's number in this project's reports: 1 to 5 in the order of the names; `None` if memory ran out.
    pub fn number(&self) -> Option<u8>
        ensures { result ≡ number_of self.now }
    {
        match self {
            SignFault::Form => Some(1),
            SignFault::NoNumber => Some(2),
            SignFault::Authority => Some(3),
            SignFault::NoSignature { .. } => Some(4),
            SignFault::Provider => Some(5),
            SignFault::Memory => None,
        }
    }
}

impl From<AllocError> for SignFault {
    ghost use Rattle.std.specs.Prelude.{◌≡◌};
    ghost use Rattle.auth_service.specs.declared.fault.SignFault.TheVariants.{Memory};

    ghost from_gives = { λ _ fault. fault ≡ Memory };

    fn from(_refused: AllocError) -> SignFault {
        SignFault::Memory
    }
}
