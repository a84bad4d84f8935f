ghost use Rattle.std.specs.Prelude.{◌≡◌};

use std::alloc::AllocError;
use thiserror::Error;

/// Why a text is not a token: the first check that it breaks, in the order that `Token::read` gives.
#[derive(Clone, Copy, Debug, PartialEq, Eq, Error)]
pub enum TokenFault {
    /// The text doesn't have exactly two dots, or exactly one of the first two of the three texts around
    /// them is empty.
    #[error("the token is not three parts with a dot between each two")]
    Parts,
    /// This part, counted from 1, is not the unpadded base64url encoding of any bytes (RFC 4648, section 5).
    #[error("part {part} of the token is not base64url")]
    Base64 { part: u8 },
    /// This part's bytes, counted from 1, are not a JSON object.
    #[error("part {part} of the token is not a JSON object")]
    Json { part: u8 },
    /// The signature is not 64 bytes.
    #[error("the token's signature is not 64 bytes")]
    SignatureLength,
    /// The token is in its compact form, and the call has no Date, no calling or no called number, or its
    /// Identity header field has a PASSporT type.
    #[error("the message lacks what a token in its compact form leaves out")]
    Compact,
    /// Memory ran out, and nothing is said of the text.
    #[error("out of memory")]
    Memory,
}

impl TokenFault {
    ghost use Rattle.passport_json.specs.Fault.{fault_number};

    /// The fault's number in this project's reports: 1 to 5 in the order Parts, Base64, Json, SignatureLength, Compact;
    /// `None` if memory ran out, which is no fault of the text.
    pub fn number(self) -> Option<u8>
        ensures { result ≡ fault_number self }
    {
        match self {
            TokenFault::Parts => Some(1),
            TokenFault::Base64 { .. } => Some(2),
            TokenFault::Json { .. } => Some(3),
            TokenFault::SignatureLength => Some(4),
            TokenFault::Compact => Some(5),
            TokenFault::Memory => None,
        }
    }
}

impl From<AllocError> for TokenFault {
    ghost use Rattle.std.specs.Prelude.{◌≡◌};
    ghost use Rattle.passport_json.specs.declared.fault.TokenFault.TheVariants.{Memory};

    ghost from_gives = { λ _ fault. fault ≡ Memory };

    fn from(_refused: AllocError) -> TokenFault {
        TokenFault::Memory
    }
}
