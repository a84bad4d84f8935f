//! What is wanted of a message, whichever order it comes from.
ghost use Rattle.std.specs.Prelude.{◌≡◌};
ghost use Rattle.auth_service.specs.Order.{is_order, kind_of, shape_of, wanted_of};

use passport_claims::{Form, Kind};
use text_grammar::{LAST_SECOND, is_uri};
use tn_values::Local;

/// How a PASSporT is written (RFC 8225, section 7).
#[derive(Clone, Copy, Debug)]
pub(crate) enum Shape {
    /// In full, with its type.
    Full(Kind),
    /// Compact and without a type: what the message says is left out.
    Compact,
}

/// What is to be signed, by which key.
#[derive(Clone, Copy, Debug)]
pub(crate) struct Wanted<'a> {
    /// How the PASSporT is written.
    pub(crate) shape: Shape,
    /// The name by which the provider knows the key.
    pub(crate) key: &'a [u8],
    /// The URI of the key's certificates.
    pub(crate) x5u: &'a [u8],
    /// When it is signed, in Unix seconds.
    pub(crate) iat: u64,
    /// How the numbers of the message are read.
    pub(crate) local: Local,
}

impl Shape {
    /// That of a form.
    pub(crate) fn of(form: &Form) -> Shape
        ensures { result ≡ shape_of form.now }
    {
        match form {
            Form::Base => Shape::Full(Kind::Base),
            Form::Compact => Shape::Compact,
            Form::Shaken { attest, origid } => Shape::Full(Kind::Shaken {
                attest: *attest,
                origid: *origid,
            }),
        }
    }

    /// The type of the PASSporT: none in the compact form.
    pub(crate) fn kind(&self) -> Kind
        ensures { result ≡ kind_of self.now }
    {
        match self {
            Shape::Full(kind) => *kind,
            Shape::Compact => Kind::Base,
        }
    }
}

impl Wanted<'_> {
    /// Whether its URI, its second and the identifier of the call are of their forms.
    pub(crate) fn is_valid(&self) -> bool
        ensures { result ≡ is_order (wanted_of self.now) }
    {
        is_uri(self.x5u) && self.iat <= LAST_SECOND && self.shape.kind().has_origid()
    }
}
