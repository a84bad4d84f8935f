//! The header fields that have a meaning here.
ghost use Rattle.std.specs.Prelude.{◌≡◌, find};
ghost use Rattle.sip_message.specs.Known.{is_named, kind_of};
ghost use Rattle.sip_message.specs.Names.{is_either};

/// A header field that has a meaning here.
#[derive(Clone, Copy, Debug, PartialEq, Eq)]
pub(crate) enum Known {
    From,
    To,
    Identity,
    Asserted,
    Date,
}

impl Known {
    /// The one of this name, None if a field of this name has no meaning here. A name is compared only with those of
    /// its length.
    #[tactic(auto, using(crate::proofs::LengthLaws::of_one, crate::proofs::LengthLaws::of_two, crate::proofs::LengthLaws::of_four, crate::proofs::LengthLaws::of_eight, crate::proofs::LengthLaws::of_nineteen, crate::proofs::LengthLaws::of_another))]
    pub(crate) fn of(name: &[u8]) -> Option<Known>
        ensures { result ≡ kind_of name.now }
    {
        match name.len() {
            1 => first_named(&[Known::From, Known::To, Known::Identity], name),
            2 => first_named(&[Known::To], name),
            4 => first_named(&[Known::From, Known::Date], name),
            8 => first_named(&[Known::Identity], name),
            19 => first_named(&[Known::Asserted], name),
            _ => None,
        }
    }

    /// Whether a field of this name is such a one. Names are compared without case, and some have a short form.
    pub(crate) fn is_named(self, name: &[u8]) -> bool
        ensures { result ≡ is_named self name.now }
    {
        match self {
            Known::From => is_either(name, b"from", b"f"),
            Known::To => is_either(name, b"to", b"t"),
            Known::Identity => is_either(name, b"identity", b"y"),
            Known::Asserted => name.eq_ignore_ascii_case(b"p-asserted-identity"),
            Known::Date => name.eq_ignore_ascii_case(b"date"),
        }
    }
}

/// The first of these that has this name.
fn first_named(all: &[Known], name: &[u8]) -> Option<Known>
    ensures { result ≡ find (λ known. is_named known name.now) all.now }
{
    all.iter().copied().find(|known| known.is_named(name))
}

/// Whether a name is one of two, in letters of either case.
fn is_either(name: &[u8], long: &[u8], short: &[u8]) -> bool
    ensures { result ≡ is_either name.now long.now short.now }
{
    name.eq_ignore_ascii_case(long) || name.eq_ignore_ascii_case(short)
}
