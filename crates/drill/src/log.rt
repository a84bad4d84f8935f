//! The log of the drill.
ghost use Rattle.std.specs.Prelude.{◌≡◌, [], Some, true};

use std::marker::Model;
use stir_outside::{Failed, Source, SourceMem};

/// A log in memory of which no read fails.
#[derive(Drop)]
pub(crate) struct DrillLog {
    bytes: SourceMem,
}

impl Model for DrillLog {
    ghost use Rattle.std.specs.Prelude.{◌≡◌, [], true};
    ghost use Rattle.stir_outside.specs.Memory.{SourceState};

    ghost Value = { SourceState };

    ghost view = { λ s. s.bytes };

    ghost invariant = { λ s. s.bytes.failing ≡ [] };
}

impl DrillLog {
    /// The log of these bytes.
    pub(crate) fn new(bytes: SourceMem) -> DrillLog
        requires { bytes.failing ≡ [] }
        ensures { result ≡ bytes }
    {
        DrillLog { bytes }
    }
}

impl Source for DrillLog {
    ghost left = { λ s. Some s.left };

    ghost whole = { λ _. true };

    ghost faults = { λ s. 0 };

    ghost reads = { λ s. s.reads };

    fn read(&mut self, buf: &mut [u8]) -> Result<usize, Failed> {
        self.bytes.read(buf)
    }
}
