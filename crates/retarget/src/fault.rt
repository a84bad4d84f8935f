//! Why a call doesn't go on.
ghost use Rattle.std.specs.Prelude.{◌≡◌};
ghost use Rattle.retarget.specs.Answer.{hop_fault, number_of};

use auth_service::SignFault;
use std::alloc::AllocError;
use thiserror::Error;
use verify_rules::Verdict;

/// Why a call doesn't go on: the first fault in this order.
#[derive(Clone, Copy, Debug, Error)]
pub enum HopFault {
    /// The call didn't pass; the verdict is never [`Verdict::Passed`].
    #[error("the call didn't pass")]
    Verdict(Verdict),
    /// The target isn't a request URI (RFC 3261, section 25.1, with this project's own leniencies), or gives no number.
    #[error("the target gives no number")]
    Target,
    /// The call has been at the target's number.
    #[error("the call has been at the number")]
    Loop,
    /// The message has 16 Identity fields, or the call 8 diversions, and so there is no room for one more (this
    /// project's own limits).
    #[error("the call was diverted too often")]
    Full,
    /// What goes on would be longer than 65,535 bytes.
    #[error("the message would be too long")]
    Size,
    /// The holder's authority doesn't cover the earlier number (RFC 8226, section 9).
    #[error("the holder may not speak for the number")]
    Authority,
    /// The provider has no signature by this key for this digest, the SHA-256 (FIPS 180-4) of what was to be signed.
    #[error("the key has no signature for the digest")]
    NoSignature { digest: [u8; 32] },
    /// The provider failed at the signature, and counted it.
    #[error("the provider failed")]
    Provider,
    /// Memory ran out, and nothing is said of the call.
    #[error("out of memory")]
    Memory,
}

impl HopFault {
    /// The fault's number in this project's reports: 21 to 27 in the order of the names; `None` for a verdict, and if
    /// memory ran out.
    pub fn number(&self) -> Option<u8>
        ensures { result ≡ number_of self.now }
    {
        match self {
            HopFault::Target => Some(21),
            HopFault::Loop => Some(22),
            HopFault::Full => Some(23),
            HopFault::Size => Some(24),
            HopFault::Authority => Some(25),
            HopFault::NoSignature { .. } => Some(26),
            HopFault::Provider => Some(27),
            HopFault::Verdict(_) | HopFault::Memory => None,
        }
    }

    /// What a fault of the signer is here: a message that can't be signed is one that would be too long, since it is an
    /// INVITE that has its numbers.
    pub(crate) fn of(fault: SignFault) -> HopFault
        ensures { result ≡ hop_fault fault }
    {
        match fault {
            SignFault::Form => HopFault::Size,
            SignFault::NoNumber => HopFault::Target,
            SignFault::Authority => HopFault::Authority,
            SignFault::NoSignature { digest } => HopFault::NoSignature { digest },
            SignFault::Provider => HopFault::Provider,
            SignFault::Memory => HopFault::Memory,
        }
    }
}

impl From<AllocError> for HopFault {
    ghost use Rattle.std.specs.Prelude.{◌≡◌};
    ghost use Rattle.retarget.specs.declared.fault.HopFault.TheVariants.{Memory};

    ghost from_gives = { λ _ fault. fault ≡ Memory };

    fn from(_refused: AllocError) -> HopFault {
        HopFault::Memory
    }
}
