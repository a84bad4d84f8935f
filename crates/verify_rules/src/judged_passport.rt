//! A judged PASSporT.

use crate::signed_token::SignedToken;
use passport_claims::Passport;

/// A judged PASSporT: the number of its Identity field, what it says, what was signed as it with its payload, the
/// digest of that, and the signature.
#[derive(Drop)]
pub(crate) struct JudgedPassport {
    pub(crate) field: u32,
    pub(crate) claims: Passport,
    pub(crate) signed: SignedToken,
    pub(crate) digest: [u8; 32],
    pub(crate) signature: [u8; 64],
}
