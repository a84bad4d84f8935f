ghost use Rattle.std.specs.Prelude.{◌≡◌, ℕ, ◌<◌, ◌≤◌, length, IfOk, true, false};
ghost use Rattle.std.specs.Io.KnownBytes.{ReadConsumes};
ghost use Rattle.stir_outside.specs.Count.{HasCause, faults_after, reads_after};
ghost use Rattle.stir_outside.specs.Told.{Fills};

use crate::source::{Failed, Source};
use std::io::Read;
use std::marker::Model;

/// The source over a reader, as the standard input. Each of its errors is `Failed` and is counted.
#[derive(Drop)]
pub struct StdinSource<R: Read + Drop> {
    reader: R,
    faults: u64,
    reads: u64,
}

impl<R: Read + Drop> Model for StdinSource<R> {
    ghost use Rattle.stir_outside.specs.Adapters.{ReaderState};

    ghost Value = { ReaderState };

    ghost view = { λ s. record { left = R.remaining s.reader; faults = s.faults; reads = s.reads } };
}

impl<R: Read + Drop> StdinSource<R> {
    /// The source over this reader, with no fault so far.
    pub fn new(reader: R) -> StdinSource<R>
        ensures { result ≡ record { left = R.remaining reader; faults = 0; reads = 0 } }
    {
        StdinSource {
            reader,
            faults: 0,
            reads: 0,
        }
    }

    /// How many reads failed.
    pub fn faults(&self) -> u64
        ensures { result ≡ self.now.faults }
    {
        self.faults
    }
}

impl<R: Read + Drop> Source for StdinSource<R> {
    ghost left = { λ s. s.left };

    ghost whole = { λ _. false };

    ghost faults = { λ s. s.faults };

    ghost reads = { λ s. s.reads };

    fn read(&mut self, buf: &mut [u8]) -> Result<usize, Failed>
        requires { 0 < length buf.old }
        ensures within { IfOk result (λ count. count ≤ length buf.new) }
        ensures bytes { ReadConsumes self.old.left self.new.left result buf.new }
        ensures cause { HasCause self.old.faults self.new.faults result }
        ensures counted { self.new.reads ≡ reads_after self.old.reads result }
        ensures fills { false ≡ true → IfOk result (Fills self.new.left (length buf.old)) }
        ensures same_whole { false ≡ false }

        // A read that failed is a fault, and no other is: not the end of the bytes.
        ensures faults { self.new.faults ≡ faults_after self.old.faults result }
    {
        match self.reader.read(buf) {
            Ok(count) => {
                self.reads = self.reads.saturating_add(1);
                Ok(count)
            }
            Err(_) => {
                self.faults = self.faults.saturating_add(1);
                Err(Failed)
            }
        }
    }
}
