//! Where a call goes on, as it is handed in.
ghost use Rattle.std.specs.Prelude.{◌≡◌};
ghost use Rattle.retarget.specs.Hop.{hop_of};
ghost use Rattle.open_calls.specs.Going.{hop_by, target_of};

use retarget::Hop;
use tn_values::Local;
use x509_profile::Certificate;

/// Where a call goes on, and by whose certificate its diversion is signed.
#[derive(Clone, Copy)]
pub struct Target<'a> {
    /// The request URI of the message that goes on.
    pub uri: &'a [u8],
    /// The first certificate of the key's chain, if there is any.
    pub leaf: Option<&'a Certificate>,
    /// The URI of that chain, 1 to 2,048 bytes.
    pub x5u: &'a [u8],
    /// When it is signed, in Unix seconds, at most 253,402,300,799.
    pub iat: u64,
}

impl<'a> Target<'a> {
    /// The same, as the gateway takes it: who asks for the signature knows the key, so it has no name.
    pub(crate) fn hop(&self, local: Local) -> Hop<'a>
        ensures { hop_of result ≡ hop_by (target_of self.now) local }
    {
        Hop {
            target: self.uri,
            key: b"",
            x5u: self.x5u,
            iat: self.iat,
            local,
        }
    }
}
