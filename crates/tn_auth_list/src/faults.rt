//! Why some bytes are no authority list.
ghost use Rattle.std.specs.Prelude.{◌≡◌};
ghost use Rattle.tn_auth_list.specs.declared.faults.ListFault.TheVariants.{At, Memory};

use der_reader::Fault;
use std::alloc::AllocFailed;
use std::error::Error;
use std::fmt;

/// Why bytes aren't read as a `TNAuthList`.
#[derive(Clone, Copy, Debug, PartialEq, Eq)]
pub enum ListFault {
    /// The first fault of the bytes.
    At {
        /// `DER`, `EMPTY`, `CODE`, `NUMBER`, `COUNT` or `LIMIT`.
        kind: u8,
        /// The offset of the fault, in bytes from the first one that was given.
        place: u32,
    },
    /// Memory ran out.
    Memory,
}

impl ListFault {
    /// An element can't be read or has another tag, or bytes are left over. The place is that of the DER fault, of the
    /// element, or of the first byte left over.
    pub const DER: u8 = 1;
    /// The list has no entry; the place is 0.
    pub const EMPTY: u8 = 2;
    /// The IA5String at the place isn't a code: 1 to 32 bytes from 0x21 to 0x7E.
    pub const CODE: u8 = 3;
    /// The IA5String at the place isn't a number, 1 to 15 bytes of `0-9 * #`, or as a range's start not of digits
    /// alone.
    pub const NUMBER: u8 = 4;
    /// The INTEGER at the place isn't the count of a range: from 2 to 2^64 - 1, in its fewest bytes.
    pub const COUNT: u8 = 5;
    /// A 1,001st entry begins at the place.
    pub const LIMIT: u8 = 6;
}

impl fmt::Display for ListFault {
    fn fmt<W: fmt::Write>(&self, f: &mut fmt::Formatter<W>) -> fmt::Result {
        match self {
            ListFault::At { kind, place } => { write!(f, "{}, at byte {place}", reason(*kind)) }
            ListFault::Memory => write!(f, "memory ran out"),
        }
    }
}

/// What a fault of this kind is, in words.
fn reason(kind: u8) -> &'static str {
    match kind {
        ListFault::DER => "the bytes aren't in the list's DER form",
        ListFault::EMPTY => "the list has no entry",
        ListFault::CODE => "the text is no service provider code",
        ListFault::NUMBER => "the text is no telephone number",
        ListFault::COUNT => "the number is no count of a range",
        _ => "the list has more than 1,000 entries",
    }
}

impl Error for ListFault {}

impl<T: Drop> From<AllocFailed<T>> for ListFault {
    ghost from_gives = { λ _ fault. fault ≡ Memory };

    fn from(_error: AllocFailed<T>) -> ListFault {
        ListFault::Memory
    }
}

impl From<Fault> for ListFault {
    ghost from_gives = { λ own fault. fault ≡ At own.kind own.place };

    fn from(own: Fault) -> ListFault {
        ListFault::At {
            kind: own.kind,
            place: own.place,
        }
    }
}
