ghost use Rattle.std.specs.Prelude.{◌≡◌, ℕ, ◌-◌, ◌+◌, ◌≤◌, ◌<◌, ◌==◌, ◌||◌, Option, Some, length, min, max, IfOk, OnOk};
ghost use Rattle.std.specs.Prelude.{OnErr, is_err};
ghost use Rattle.std.specs.Io.KnownBytes.{WriteAppends};
ghost use Rattle.stir_outside.specs.Count.{HasCause, faults_after, one_more};
ghost use Rattle.stir_outside.specs.Memory.{is_failing};

use crate::sink::Sink;
use crate::source::Failed;
use std::alloc::{AllocError, Global};
use std::marker::Model;

/// A sink in memory. Its writes fail at chosen calls, and if no room was reserved.
#[derive(Drop)]
pub struct SinkMem {
    bytes: Vec<u8>,
    room: usize,
    failing: Vec<u64>,
    calls: u64,
    faults: u64,
}

impl Model for SinkMem {
    ghost use Rattle.std.specs.Prelude.{◌≤◌, ◌+◌, vec_len, vec_capacity};
    ghost use Rattle.stir_outside.specs.Memory.{SinkState};

    ghost Value = { SinkState };

    ghost view = { λ s. record {
      written = s.bytes.items;
      room = s.room;
      calls = s.calls;
      failing = s.failing.items;
      faults = s.faults;
    } };

    ghost invariant = { λ s. vec_len s.bytes + s.room ≤ vec_capacity s.bytes };
}

impl SinkMem {
    ghost use Rattle.std.specs.Prelude.{[]};

    /// An empty sink without room. The calls of `write` that are listed, counted from 1, fail.
    pub fn new(alloc: Global, failing: Vec<u64>) -> SinkMem
        ensures { result ≡ record { written = []; room = 0; calls = 0; failing = failing.items; faults = 0 } }
    {
        SinkMem {
            bytes: Vec::new(alloc),
            room: 0,
            failing,
            calls: 0,
            faults: 0,
        }
    }

    /// Makes room for at least `room` bytes more; a refusal changes nothing.
    pub fn reserve(&mut self, room: usize) -> Result<(), AllocError>
        ensures ok { OnOk result (self.new ≡ record self.old { room = max self.old.room room }) }
        ensures err { OnErr result (self.new ≡ self.old) }
    {
        let room = self.room.max(room);
        self.bytes.reserve(room)?;
        self.room = room;
        Ok(())
    }

    /// The bytes that were written.
    pub fn bytes(&self) -> &[u8]
        ensures { result.now ≡ self.now.written }
    {
        self.bytes.as_slice()
    }

    /// How many writes failed.
    pub fn faults(&self) -> u64
        ensures { result ≡ self.now.faults }
    {
        self.faults
    }
}

impl Sink for SinkMem {
    ghost written = { λ s. Some s.written };

    ghost faults = { λ s. s.faults };

    fn write(&mut self, bytes: &[u8]) -> Result<usize, Failed>
        requires { 0 < length bytes.now }
        ensures some { IfOk result (λ count. 0 < count) }
        ensures within { IfOk result (λ count. count ≤ length bytes.now) }
        ensures bytes { WriteAppends (Some self.old.written) (Some self.new.written) result bytes.now }
        ensures cause { HasCause self.old.faults self.new.faults result }

        // Exactly the listed calls and those without room fail, and any other takes as much as there is room for.
        ensures fails { is_err result ≡ (is_failing self.old.calls self.old.failing || self.old.room == 0) }
        ensures takes { IfOk result (λ count. count ≡ min self.old.room (length bytes.now)) }
        ensures room { IfOk result (λ count. self.new.room ≡ self.old.room - count) }
        ensures room_kept { OnErr result (self.new.room ≡ self.old.room) }
        ensures calls { self.new.calls ≡ one_more self.old.calls }
        ensures failing { self.new.failing ≡ self.old.failing }
        ensures faults { self.new.faults ≡ faults_after self.old.faults result }
    {
        self.calls = self.calls.saturating_add(1);
        if self.failing.contains(&self.calls) || self.room == 0 {
            self.faults = self.faults.saturating_add(1);
            return Err(Failed);
        }
        let count = self.room.min(bytes.len());
        if self.bytes.extend_from_slice(&bytes[..count]).is_err() {
            unreachable!()
        }
        self.room -= count;
        Ok(count)
    }
}
