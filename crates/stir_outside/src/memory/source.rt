ghost use Rattle.std.specs.Prelude.{◌≡◌, ℕ, ◌-◌, ◌≤◌, ◌<◌, Option, Some, true, length, min, take, drop, IfOk, is_err};
ghost use Rattle.std.specs.Io.KnownBytes.{ReadConsumes};
ghost use Rattle.stir_outside.specs.Count.{HasCause, faults_after, one_more, reads_after};
ghost use Rattle.stir_outside.specs.Memory.{is_failing};
ghost use Rattle.stir_outside.specs.Told.{Fills};

use crate::source::{Failed, Source};
use std::marker::Model;

/// A source over bytes in memory, whose reads fail at chosen calls.
#[derive(Drop)]
pub struct SourceMem {
    bytes: Vec<u8>,
    taken: usize,
    failing: Vec<u64>,
    calls: u64,
    faults: u64,
    reads: u64,
}

impl Model for SourceMem {
    ghost use Rattle.std.specs.Prelude.{◌≤◌, drop, vec_len};
    ghost use Rattle.stir_outside.specs.Memory.{SourceState};

    ghost Value = { SourceState };

    ghost view = { λ s. record {
      left = drop s.taken s.bytes.items;
      calls = s.calls;
      failing = s.failing.items;
      faults = s.faults;
      reads = s.reads;
    } };

    ghost invariant = { λ s. s.taken ≤ vec_len s.bytes };
}

impl SourceMem {
    ghost use Rattle.std.specs.Prelude.{[]};

    /// A source of these bytes. The calls of `read` that are listed, counted from 1, fail.
    pub fn new(bytes: Vec<u8>, failing: Vec<u64>) -> SourceMem
        ensures { result ≡ record { left = bytes.items; calls = 0; failing = failing.items; faults = 0; reads = 0 } }
    {
        SourceMem {
            bytes,
            taken: 0,
            failing,
            calls: 0,
            faults: 0,
            reads: 0,
        }
    }

    /// The bytes that are left.
    pub fn bytes(&self) -> &[u8]
        ensures { result.now ≡ self.now.left }
    {
        let (_, left) = self.bytes.as_slice().split_at(self.taken);
        left
    }

    /// How many reads failed.
    pub fn faults(&self) -> u64
        ensures { result ≡ self.now.faults }
    {
        self.faults
    }
}

impl Source for SourceMem {
    ghost left = { λ s. Some s.left };

    ghost whole = { λ _. true };

    ghost faults = { λ s. s.faults };

    ghost reads = { λ s. s.reads };

    fn read(&mut self, buf: &mut [u8]) -> Result<usize, Failed>
        requires { 0 < length buf.old }
        ensures within { IfOk result (λ count. count ≤ length buf.new) }
        ensures bytes { ReadConsumes (Some self.old.left) (Some self.new.left) result buf.new }
        ensures cause { HasCause self.old.faults self.new.faults result }
        ensures counted { self.new.reads ≡ reads_after self.old.reads result }
        ensures fills { true ≡ true → IfOk result (Fills (Some self.new.left) (length buf.old)) }
        ensures same_whole { true ≡ true }

        // Exactly the listed calls fail, and any other gives as much as there is room for.
        ensures fails { is_err result ≡ is_failing self.old.calls self.old.failing }
        ensures gives { IfOk result (λ count. count ≡ min (length buf.old) (length self.old.left)) }
        ensures calls { self.new.calls ≡ one_more self.old.calls }
        ensures failing { self.new.failing ≡ self.old.failing }
        ensures faults { self.new.faults ≡ faults_after self.old.faults result }
    {
        self.calls = self.calls.saturating_add(1);
        if self.failing.contains(&self.calls) {
            self.faults = self.faults.saturating_add(1);
            return Err(Failed);
        }
        let (_, left) = self.bytes.as_slice().split_at(self.taken);
        let count = copy_front(buf, left);
        self.taken += count;
        self.reads = self.reads.saturating_add(1);
        Ok(count)
    }
}

/// Copies as much as there is room for.
fn copy_front(to: &mut [u8], from: &[u8]) -> usize
    ensures count { result ≡ min (length to.old) (length from.now) }
    ensures copied { take result to.new ≡ take result from.now }
{
    let count = to.len().min(from.len());
    to[..count].copy_from_slice(&from[..count]);
    count
}
