//! What is to be signed, and for whom.
ghost use Rattle.std.specs.Prelude.{◌≡◌};
ghost use Rattle.auth_service.specs.Order.{divert_order_of, is_order, order_of, wanted_of};

use crate::wanted::{Shape, Wanted};
use passport_claims::{Form, Kind};
use tn_auth_list::{AuthList, CodeTable};
use tn_values::{Local, Number};

/// What is to be signed of a message: where its call comes from (RFC 8224, section 4.1).
#[derive(Clone, Copy, Debug)]
pub struct SignOrder<'a> {
    /// In which form.
    pub form: Form,
    /// The name by which the provider knows the key.
    pub key: &'a [u8],
    /// The URI of the key's certificates, 1 to 2,048 bytes ([`is_uri`](text_grammar::is_uri) tells).
    pub x5u: &'a [u8],
    /// When it is signed, in Unix seconds, at most 253,402,300,799.
    pub iat: u64,
    /// How the numbers of the message are read.
    pub local: Local,
}

/// What is to be signed of a message that goes to another number than before (RFC 8946, section 4.1).
#[derive(Clone, Copy, Debug)]
pub struct DivertOrder<'a> {
    /// The number that was called before.
    pub earlier: Number,
    /// The name by which the provider knows the key.
    pub key: &'a [u8],
    /// The URI of the key's certificates, 1 to 2,048 bytes ([`is_uri`](text_grammar::is_uri) tells).
    pub x5u: &'a [u8],
    /// When it is signed, in Unix seconds, at most 253,402,300,799.
    pub iat: u64,
    /// How the numbers of the message are read.
    pub local: Local,
}

impl<'a> SignOrder<'a> {
    /// Whether [`sign`](crate::sign) takes the order: its URI, its second and the identifier of the call are of their
    /// forms.
    pub fn is_valid(&self) -> bool
        ensures { result ≡ is_order (order_of self.now) }
    {
        self.wanted().is_valid()
    }

    /// What it wants.
    pub(crate) fn wanted(&self) -> Wanted<'a>
        ensures { wanted_of result ≡ order_of self.now }
    {
        Wanted {
            shape: Shape::of(&self.form),
            key: self.key,
            x5u: self.x5u,
            iat: self.iat,
            local: self.local,
        }
    }
}

impl<'a> DivertOrder<'a> {
    /// Whether [`divert`](crate::divert) takes the order: its URI and its second are of their forms.
    pub fn is_valid(&self) -> bool
        ensures { result ≡ is_order (divert_order_of self.now) }
    {
        self.wanted().is_valid()
    }

    /// What it wants: a PASSporT of the type `div`, from the earlier number.
    pub(crate) fn wanted(&self) -> Wanted<'a>
        ensures { wanted_of result ≡ divert_order_of self.now }
    {
        Wanted {
            shape: Shape::Full(Kind::Div { div: self.earlier }),
            key: self.key,
            x5u: self.x5u,
            iat: self.iat,
            local: self.local,
        }
    }
}

/// Who signs: the authority list of his certificate (RFC 8226, section 9), and the numbers that the codes in it stand
/// for.
#[derive(Clone, Copy, Debug)]
pub struct Holder<'a> {
    pub list: &'a AuthList,
    pub table: &'a CodeTable,
}
