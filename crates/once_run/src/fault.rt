//! Why a text is no list of tickets.
use std::alloc::AllocError;
use std::error::Error;
use std::fmt;

/// Why a text is no list of tickets.
#[derive(Clone, Copy, Debug, PartialEq, Eq)]
pub enum TicketsFault {
    /// This line is the first that has no ticket, or one too many. Lines count from 1, those that are passed over too.
    Line { line: u32 },
    /// Memory ran out.
    Memory,
}

impl fmt::Display for TicketsFault {
    fn fmt<W: fmt::Write>(&self, f: &mut fmt::Formatter<W>) -> fmt::Result {
        match self {
            TicketsFault::Line { line } => write!(f, "line {line} isn't one of a list of tickets"),
            TicketsFault::Memory => f.write_str("memory ran out"),
        }
    }
}

impl Error for TicketsFault {}

impl From<AllocError> for TicketsFault {
    ghost use Rattle.std.specs.Prelude.{◌≡◌};
    ghost use Rattle.once_run.specs.declared.fault.TicketsFault.TheVariants.{Memory};

    ghost from_gives = { λ _ fault. fault ≡ Memory };

    fn from(_refused: AllocError) -> TicketsFault {
        TicketsFault::Memory
    }
}
