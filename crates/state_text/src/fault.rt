//! Why a text is no state file.
use std::alloc::AllocError;
use std::error::Error;
use std::fmt;

/// Why a text is no state file.
#[derive(Clone, Copy, Debug, PartialEq, Eq)]
pub enum StateFault {
    /// This line is the first that can't be read, or it is the one after the last and lines are missing. Lines count
    /// from 1, those before the state too.
    Line { line: u32 },
    /// Memory ran out.
    Memory,
}

impl fmt::Display for StateFault {
    fn fmt<W: fmt::Write>(&self, f: &mut fmt::Formatter<W>) -> fmt::Result {
        match self {
            StateFault::Line { line } => write!(f, "line {line} isn't one of a state"),
            StateFault::Memory => f.write_str("memory ran out"),
        }
    }
}

impl Error for StateFault {}

impl From<AllocError> for StateFault {
    ghost use Rattle.std.specs.Prelude.{◌≡◌};
    ghost use Rattle.state_text.specs.declared.fault.StateFault.TheVariants.{Memory};

    ghost from_gives = { λ _ fault. fault ≡ Memory };

    fn from(_refused: AllocError) -> StateFault {
        StateFault::Memory
    }
}
