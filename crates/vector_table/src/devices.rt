//! A source and a sink in memory that go byte by byte.

use stir_outside::{Failed, Sink, SinkMem, Source, SourceMem};

/// A source that gives one byte a read.
#[derive(Drop)]
pub struct Drip {
    pub source: SourceMem,
}

impl Source for Drip {
    ghost use Rattle.std.specs.Prelude.{Some, false};

    ghost left = { λ s. Some s.source.left };

    ghost whole = { λ _. false };

    ghost faults = { λ s. s.source.faults };

    ghost reads = { λ s. s.source.reads };

    fn read(&mut self, buf: &mut [u8]) -> Result<usize, Failed> {
        self.source.read(&mut buf[..1])
    }
}

/// A sink that takes one byte a write.
#[derive(Drop)]
pub struct Trickle {
    pub sink: SinkMem,
}

impl Sink for Trickle {
    ghost use Rattle.std.specs.Prelude.{Some};

    ghost written = { λ s. Some s.sink.written };

    ghost faults = { λ s. s.sink.faults };

    fn write(&mut self, bytes: &[u8]) -> Result<usize, Failed> {
        self.sink.write(&bytes[..1])
    }
}
