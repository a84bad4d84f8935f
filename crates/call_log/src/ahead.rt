ghost use Rattle.std.specs.Prelude.{◌≡◌, ◌≤◌, ◌<◌, [], false, IfOk, OnErr, vec_len};
ghost use Rattle.std.specs.Io.KnownBytes.{Consumes, IsAtEnd};
ghost use Rattle.stir_outside.specs.Count.{Rose};
ghost use Rattle.stir_outside.specs.declared.transfer.ReadFault.{ReadFault};
ghost use Rattle.call_log.specs.Bytes.{ByteFrom, PieceFrom};
ghost use Rattle.call_log.specs.Supply.{Asks, Draws, available, supply_of};

use std::marker::Model;
use stir_outside::{Failed, ReadFault, Source};

/// How many bytes one read asks for.
const BLOCK: usize = 65_536;

/// The bytes that were taken of a source and not used yet, in a block, and whether the source has said that it has
/// ended.
#[derive(Drop)]
pub(crate) struct Ahead {
    block: [u8; BLOCK],
    start: usize,
    end: usize,
    ended: bool,
}

impl Model for Ahead {
    ghost use Rattle.std.specs.Prelude.{◌-◌, ◌≤◌, take, drop};
    ghost use Rattle.call_log.specs.Supply.{AheadState};

    ghost Value = { AheadState };

    ghost view = { λ a. record { bytes = take (a.end - a.start) (drop a.start a.block); ended = a.ended } };

    ghost invariant = { λ a. (a.start ≤ a.end) × (a.end ≤ 65536) };
}

impl Ahead {
    /// None yet.
    pub(crate) fn new() -> Ahead
        ensures { result ≡ record { bytes = []; ended = false } }
    {
        Ahead {
            block: [0; BLOCK],
            start: 0,
            end: 0,
            ended: false,
        }
    }

    /// Takes a block of the source if no byte is ahead, unless the source has ended.
    fn fill<I: Source>(&mut self, source: &mut I) -> Result<(), Failed>
        ensures same { Consumes (available self.old (I.left source.old)) (available self.new (I.left source.new)) [] }
        ensures some { IfOk result (λ _. self.new.bytes ≡ [] → IsAtEnd (available self.new (I.left source.new))) }
        ensures draws { Draws (supply_of I.Source self.old.ended source.old)
            (supply_of I.Source self.new.ended source.new) }
        ensures rose { OnErr result (Rose (I.faults source.old) (I.faults source.new)) }
        ensures drained { OnErr result (available self.new (I.left source.new) ≡ I.left source.new) }
    {
        if self.start < self.end {
            return Ok(());
        }
        if self.ended {
            return Ok(());
        }
        self.start = 0;
        self.end = 0;
        let count = source.read(&mut self.block)?;
        self.end = count;
        self.ended = count == 0;
        Ok(())
    }

    /// The next byte, of those ahead or else of the source; `None` if the source has ended.
    pub(crate) fn next_byte<I: Source>(&mut self, source: &mut I) -> Result<Option<u8>, Failed>
        ensures byte { ByteFrom
            (available self.old (I.left source.old)) (available self.new (I.left source.new)) result }
        ensures draws { Draws (supply_of I.Source self.old.ended source.old)
            (supply_of I.Source self.new.ended source.new) }
        ensures rose { OnErr result (Rose (I.faults source.old) (I.faults source.new)) }
        ensures drained { OnErr result (available self.new (I.left source.new) ≡ I.left source.new) }
    {
        self.fill(source)?;
        if self.start == self.end {
            return Ok(None);
        }
        let byte = self.block[self.start];
        self.start += 1;
        Ok(Some(byte))
    }

    /// Puts at most so many of the next bytes after what `bytes` holds, as many as are ahead, and says how many; 0 only
    /// if the source has ended.
    pub(crate) fn copy_to<I: Source>(
        &mut self,
        source: &mut I,
        bytes: &mut Vec<u8>,
        most: usize,
    ) -> Result<usize, ReadFault>
        requires { 0 < most }
        ensures piece { PieceFrom most (available self.old (I.left source.old)) (available self.new (I.left source.new))
            bytes.old.items bytes.new.items result }
        ensures asks { Asks I.Source self.old source.old self.new source.new (result ≡ Err ReadFault.Source) }
    {
        self.fill(source)?;
        let count = most.min(self.end - self.start);
        bytes.extend_from_slice(&self.block[self.start..self.start + count])?;
        self.start += count;
        Ok(count)
    }
}
