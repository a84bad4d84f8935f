//! What is to be signed of a message, as it is handed in.
ghost use Rattle.std.specs.Option.{option_map};
ghost use Rattle.std.specs.Prelude.{◌≡◌};
ghost use Rattle.open_calls.specs.Order.{IsReadAs, form_of, given_of, order_in, shaken_of, wanted_of};

use crate::wanted::Wanted;
use auth_service::{DivertOrder, Form, SignOrder};
use passport_claims::{Attest, is_origid};
use tn_values::{Local, Number};

/// What is to be signed of a message.
#[derive(Clone, Copy)]
pub enum Order<'a> {
    /// Where its call comes from (RFC 8224, section 4.1): a PASSporT from the calling number to that of To.
    Origin {
        /// When it is signed, in Unix seconds, at most 253,402,300,799.
        iat: u64,
        /// 0 without a type, 1 compact (RFC 8225, section 7), and for `shaken` the letter of the attestation (RFC 8588,
        /// section 4).
        form: u8,
        /// The identifier of the call, a UUID in 36 characters, if the form is `shaken`; else it isn't looked at.
        origid: &'a [u8],
        /// The URI of the key's certificates, 1 to 2,048 bytes.
        x5u: &'a [u8],
    },
    /// That it goes to another number than before (RFC 8946, section 4.1): a PASSporT of the type `div` from the
    /// calling number to that of the request URI.
    Diversion {
        /// When it is signed, in Unix seconds, at most 253,402,300,799.
        iat: u64,
        /// The number that was called before: 1 to 15 bytes of digits, `*` and `#`.
        earlier: &'a [u8],
        /// The URI of the key's certificates, 1 to 2,048 bytes.
        x5u: &'a [u8],
    },
}

impl<'a> Order<'a> {
    /// What the authentication service is asked to sign, if it can be.
    #[tactic(auto, using(crate::proofs::OrderLaws::no_order, crate::proofs::OrderLaws::not_valid, crate::proofs::OrderLaws::is_read))]
    pub(crate) fn wanted(&self, local: Local) -> Option<Wanted<'a>>
        ensures { IsReadAs (given_of self.now) local result }
    {
        let Some(wanted) = self.shaped(local) else {
            return None;
        };
        if !wanted.is_valid() {
            return None;
        }
        Some(wanted)
    }

    /// The same, whether or not its URI and its second are of their forms.
    fn shaped(&self, local: Local) -> Option<Wanted<'a>>
        ensures { option_map wanted_of result ≡ order_in (given_of self.now) local }
    {
        match self {
            Order::Origin {
                iat,
                form,
                origid,
                x5u,
            } => {
                let form = form_of(*form, origid)?;
                Some(Wanted::Origin(SignOrder {
                    form,
                    key: b"",
                    x5u,
                    iat: *iat,
                    local,
                }))
            }
            Order::Diversion { iat, earlier, x5u } => {
                let earlier = Number::exact(earlier)?;
                Some(Wanted::Diversion(DivertOrder {
                    earlier,
                    key: b"",
                    x5u,
                    iat: *iat,
                    local,
                }))
            }
        }
    }
}

/// The form of this number, with the identifier of the call if it is `shaken`.
fn form_of(number: u8, origid: &[u8]) -> Option<Form>
    ensures { result ≡ form_of number origid.now }
{
    match number {
        0 => Some(Form::Base),
        1 => Some(Form::Compact),
        b'A' => shaken(Attest::A, origid),
        b'B' => shaken(Attest::B, origid),
        b'C' => shaken(Attest::C, origid),
        _ => None,
    }
}

/// `shaken` with this attestation, if the identifier is one.
fn shaken(attest: Attest, origid: &[u8]) -> Option<Form>
    ensures { result ≡ shaken_of attest origid.now }
{
    if !is_origid(origid) {
        return None;
    }
    match <[u8; 36]>::try_from(origid) {
        Ok(origid) => Some(Form::Shaken { attest, origid }),
        Err(_) => None,
    }
}
