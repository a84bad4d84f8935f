//! Where a call goes on.
ghost use Rattle.std.specs.Prelude.{◌≡◌};
ghost use Rattle.auth_service.specs.Order.{divert_order_of};
ghost use Rattle.retarget.specs.Hop.{diversion, hop_of, is_hop, next_number};

use auth_service::DivertOrder;
use sip_message::{is_target, uri_number};
use text_grammar::{LAST_SECOND, is_uri};
use tn_values::{Local, Number};

/// Where a call goes on, and by which key its diversion is signed.
#[derive(Clone, Copy, Debug)]
pub struct Hop<'a> {
    /// The request URI of the message that goes on.
    pub target: &'a [u8],
    /// The name by which the provider knows the key.
    pub key: &'a [u8],
    /// The URI of the key's certificates, 1 to 2,048 bytes ([`is_uri`](text_grammar::is_uri) tells).
    pub x5u: &'a [u8],
    /// When it is signed, in Unix seconds, at most 253,402,300,799.
    pub iat: u64,
    /// How the numbers of the message and of the target are read.
    pub local: Local,
}

impl<'a> Hop<'a> {
    /// Whether [`retarget`](crate::retarget) takes the hop: the URI of its certificates and its second are of their
    /// forms.
    pub fn is_valid(&self) -> bool
        ensures { result ≡ is_hop (hop_of self.now) }
    {
        is_uri(self.x5u) && self.iat <= LAST_SECOND
    }

    /// The number to which the call goes on: that of the target, None if it isn't a request URI or gives none.
    pub(crate) fn number(&self) -> Option<Number>
        ensures { result ≡ next_number (hop_of self.now) }
    {
        if !is_target(self.target) {
            return None;
        }
        uri_number(self.target, &self.local)
    }

    /// What is signed of the message that goes on, by the number that was called before.
    pub(crate) fn order(&self, earlier: Number) -> DivertOrder<'a>
        ensures { divert_order_of result ≡ diversion (hop_of self.now) earlier }
    {
        DivertOrder {
            earlier,
            key: self.key,
            x5u: self.x5u,
            iat: self.iat,
            local: self.local,
        }
    }
}
