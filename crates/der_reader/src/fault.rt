//! Why some bytes aren't the DER element that was asked for.

ghost use Rattle.std.specs.Prelude.{◌≡◌, ◌<◌, ◌^◌};
ghost use Rattle.der_reader.specs.Fault.{short_at, high_tag_at, bad_length_at, bad_value};

use std::error::Error;
use std::fmt;

/// Why bytes aren't read as a DER element, or an element isn't of the form that was asked for.
#[derive(Clone, Copy, Debug, PartialEq, Eq)]
pub struct DerFault {
    /// `SHORT`, `TAG`, `LENGTH` or `VALUE`.
    pub kind: u8,
    /// The offset, in bytes from the first one that was given, at which the fault is.
    pub place: u32,
}

impl DerFault {
    /// The bytes end before the element does; the place is where they end.
    pub const SHORT: u8 = 1;
    /// The tag has a number in further bytes (X.690, section 8.1.2.4), which no element here has.
    pub const TAG: u8 = 2;
    /// The length is indefinite, has more than two bytes, or isn't the shortest (X.690, section 10.1).
    pub const LENGTH: u8 = 3;
    /// The element isn't of the form that was asked for; the place is 0.
    pub const VALUE: u8 = 4;

    /// The bytes end at this place.
    pub(crate) fn short(place: usize) -> DerFault
        requires { place < 2 ^ 32 }
        ensures { result ≡ short_at place }
    {
        DerFault {
            kind: DerFault::SHORT,
            place: place as u32,
        }
    }

    /// The tag byte announces a tag number in further bytes.
    pub(crate) fn tag() -> DerFault
        ensures { result ≡ high_tag_at 0 }
    {
        DerFault {
            kind: DerFault::TAG,
            place: 0,
        }
    }

    /// The length isn't one that the profile takes.
    pub(crate) fn length() -> DerFault
        ensures { result ≡ bad_length_at 1 }
    {
        DerFault {
            kind: DerFault::LENGTH,
            place: 1,
        }
    }

    /// The element isn't of the form that was asked for.
    pub fn value() -> DerFault
        ensures { result ≡ bad_value }
    {
        DerFault {
            kind: DerFault::VALUE,
            place: 0,
        }
    }
}

impl fmt::Display for DerFault {
    fn fmt<W: fmt::Write>(&self, f: &mut fmt::Formatter<W>) -> fmt::Result {
        let reason = match self.kind {
            DerFault::SHORT => "the element is cut short",
            DerFault::TAG => "the tag number is too high",
            DerFault::LENGTH => "the length isn't in DER's shortest form",
            _ => "the element isn't of the expected form",
        };
        write!(f, "{reason}, at byte {}", self.place)
    }
}

impl Error for DerFault {}
