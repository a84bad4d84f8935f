use stir_outside::{Failed, ReadFault};

/// Why a log can't be read on. A place is the offset of the first byte of the entry at fault.
#[derive(Clone, Copy, Debug, PartialEq, Eq)]
pub enum LogFault {
    /// What comes there is no entry.
    Grammar { place: u64 },
    /// The moment of the entry is below that of the entry before.
    Backward { place: u64 },
    /// An entry, or anything else, after the last that a log may have.
    Many { place: u64 },
    /// A read of the source failed.
    Source,
    /// Memory ran out.
    Memory,
}

impl From<Failed> for LogFault {
    ghost use Rattle.std.specs.Prelude.{◌≡◌};
    ghost use Rattle.call_log.specs.declared.fault.LogFault.TheVariants.{Source};

    ghost from_gives = { λ _ fault. fault ≡ Source };

    fn from(_: Failed) -> LogFault {
        LogFault::Source
    }
}

impl From<ReadFault> for LogFault {
    ghost use Rattle.std.specs.Prelude.{◌≡◌};
    ghost use Rattle.call_log.specs.Reading.{fault_of_read};

    ghost from_gives = { λ read fault. fault ≡ fault_of_read read };

    fn from(fault: ReadFault) -> LogFault {
        match fault {
            ReadFault::Source => LogFault::Source,
            ReadFault::Memory => LogFault::Memory,
        }
    }
}
