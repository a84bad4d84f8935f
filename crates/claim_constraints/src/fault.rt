//! Why bytes are no constraints.
ghost use Rattle.std.specs.Prelude.{◌≡◌};
ghost use Rattle.claim_constraints.specs.declared.fault.ConstraintFault.TheVariants.{At, Memory};

use der_reader::Fault;
use std::alloc::{AllocError, AllocFailed};
use std::error::Error;
use std::fmt;

/// Why bytes aren't read as constraints.
#[derive(Clone, Copy, Debug, PartialEq, Eq)]
pub enum ConstraintFault {
    /// The first fault of the bytes.
    At {
        /// `DER`, `EMPTY`, `NAME` or `VALUE`.
        kind: u8,
        /// The offset, in bytes from the first one that was given, at which the fault is.
        place: u32,
    },
    /// Memory ran out.
    Memory,
}

impl ConstraintFault {
    /// An element can't be read or has another tag, or bytes are left over. The place is that of the DER fault, of the
    /// element, or of the first byte left over.
    pub const DER: u8 = 1;
    /// The SEQUENCE at the place is empty.
    pub const EMPTY: u8 = 2;
    /// The IA5String at the place isn't a name: 1 to 64 bytes from 0x21 to 0x7E.
    pub const NAME: u8 = 3;
    /// The UTF8String at the place isn't a value: it isn't UTF-8.
    pub const VALUE: u8 = 4;
}

impl fmt::Display for ConstraintFault {
    fn fmt<W: fmt::Write>(&self, f: &mut fmt::Formatter<W>) -> fmt::Result {
        match self {
            ConstraintFault::At { kind, place } => {
                write!(f, "{}, at byte {place}", reason(*kind))
            }
            ConstraintFault::Memory => write!(f, "memory ran out"),
        }
    }
}

/// What a fault of this kind is, in words.
fn reason(kind: u8) -> &'static str {
    match kind {
        ConstraintFault::DER => "the bytes aren't in the constraints' DER form",
        ConstraintFault::EMPTY => "a SEQUENCE of the constraints is empty",
        ConstraintFault::NAME => "the text is no name of a claim",
        _ => "the text isn't UTF-8",
    }
}

impl Error for ConstraintFault {}

impl From<AllocError> for ConstraintFault {
    ghost from_gives = { λ _ fault. fault ≡ Memory };

    fn from(_error: AllocError) -> ConstraintFault {
        ConstraintFault::Memory
    }
}

impl<T: Drop> From<AllocFailed<T>> for ConstraintFault {
    ghost from_gives = { λ _ fault. fault ≡ Memory };

    fn from(_error: AllocFailed<T>) -> ConstraintFault {
        ConstraintFault::Memory
    }
}

impl From<Fault> for ConstraintFault {
    ghost from_gives = { λ own fault. fault ≡ At own.kind own.place };

    fn from(own: Fault) -> ConstraintFault {
        ConstraintFault::At {
            kind: own.kind,
            place: own.place,
        }
    }
}
