ghost use Rattle.std.specs.Prelude.{◌≡◌, ℕ, ◌<◌, ◌≤◌, length, IfOk};
ghost use Rattle.std.specs.Io.KnownBytes.{WriteAppends};
ghost use Rattle.stir_outside.specs.Count.{HasCause, faults_after};

use crate::sink::Sink;
use crate::source::Failed;
use std::io::Write;
use std::marker::Model;

/// The sink over a writer, as the standard output. Each of its errors, and a write that takes nothing,
/// is `Failed` and is counted.
#[derive(Drop)]
pub struct StdoutSink<W: Write + Drop> {
    writer: W,
    faults: u64,
}

impl<W: Write + Drop> Model for StdoutSink<W> {
    ghost use Rattle.stir_outside.specs.Adapters.{WriterState};

    ghost Value = { WriterState };

    ghost view = { λ s. record { written = W.contents s.writer; faults = s.faults } };
}

impl<W: Write + Drop> StdoutSink<W> {
    /// The sink over this writer, with no fault so far.
    pub fn new(writer: W) -> StdoutSink<W>
        ensures { result ≡ record { written = W.contents writer; faults = 0 } }
    {
        StdoutSink { writer, faults: 0 }
    }

    /// How many writes failed.
    pub fn faults(&self) -> u64
        ensures { result ≡ self.now.faults }
    {
        self.faults
    }
}

impl<W: Write + Drop> Sink for StdoutSink<W> {
    ghost written = { λ s. s.written };

    ghost faults = { λ s. s.faults };

    fn write(&mut self, bytes: &[u8]) -> Result<usize, Failed>
        requires { 0 < length bytes.now }
        ensures some { IfOk result (λ count. 0 < count) }
        ensures within { IfOk result (λ count. count ≤ length bytes.now) }
        ensures bytes { WriteAppends self.old.written self.new.written result bytes.now }
        ensures cause { HasCause self.old.faults self.new.faults result }

        // A write that failed is a fault, and no other is.
        ensures faults { self.new.faults ≡ faults_after self.old.faults result }
    {
        match self.writer.write(bytes) {
            Ok(count) if count > 0 => Ok(count),
            _ => {
                self.faults = self.faults.saturating_add(1);
                Err(Failed)
            }
        }
    }
}
