ghost use Rattle.std.specs.Prelude.{◌≡◌, ℕ, ◌≤◌, ◌<◌, Some, Ok, true, false, length, min, IfOk};
ghost use Rattle.std.specs.Io.KnownBytes.{ReadConsumes};
ghost use Rattle.stir_outside.specs.Count.{HasCause, reads_after};
ghost use Rattle.stir_outside.specs.Told.{Fills};

use crate::source::{Failed, Source};
use std::marker::Model;

/// A source over bytes in memory that gives one byte a read and never fails. A contract sees the bytes that are left.
#[derive(Drop)]
pub struct SlowMem {
    bytes: Vec<u8>,
    taken: usize,
    reads: u64,
}

impl Model for SlowMem {
    ghost use Rattle.std.specs.Prelude.{◌≤◌, drop, vec_len};
    ghost use Rattle.stir_outside.specs.Memory.{SlowState};

    ghost Value = { SlowState };

    ghost view = { λ s. record { left = drop s.taken s.bytes.items; reads = s.reads } };

    ghost invariant = { λ s. s.taken ≤ vec_len s.bytes };
}

impl SlowMem {
    /// A source of these bytes.
    pub fn new(bytes: Vec<u8>) -> SlowMem
        ensures { result ≡ record { left = bytes.items; reads = 0 } }
    {
        SlowMem {
            bytes,
            taken: 0,
            reads: 0,
        }
    }

    /// The bytes that are left.
    pub fn bytes(&self) -> &[u8]
        ensures { result.now ≡ self.now.left }
    {
        let (_, left) = self.bytes.as_slice().split_at(self.taken);
        left
    }
}

impl Source for SlowMem {
    ghost left = { λ s. Some s.left };

    ghost whole = { λ _. false };

    ghost faults = { λ _. 0 };

    ghost reads = { λ s. s.reads };

    fn read(&mut self, buf: &mut [u8]) -> Result<usize, Failed>
        requires { 0 < length buf.old }
        ensures within { IfOk result (λ count. count ≤ length buf.new) }
        ensures bytes { ReadConsumes (Some self.old.left) (Some self.new.left) result buf.new }
        ensures cause { HasCause 0 0 result }
        ensures counted { self.new.reads ≡ reads_after self.old.reads result }
        ensures fills { false ≡ true → IfOk result (Fills (Some self.new.left) (length buf.old)) }
        ensures same_whole { false ≡ false }

        // One byte, and none only if none is left; it never fails.
        ensures gives { result ≡ Ok (min 1 (length self.old.left)) }
    {
        self.reads = self.reads.saturating_add(1);
        if self.taken == self.bytes.len() {
            return Ok(0);
        }
        buf[0] = self.bytes[self.taken];
        self.taken += 1;
        Ok(1)
    }
}
