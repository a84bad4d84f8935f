ghost use Rattle.std.specs.Prelude.{◌≡◌, ℕ, ◌<◌, ◌≤◌, Err, OnOk, OnErr, vec_len};
ghost use Rattle.std.specs.Io.KnownBytes.{Appends, IsAtEnd};
ghost use Rattle.stir_outside.specs.Count.{GoesOn, HasCause, Rose};
ghost use Rattle.stir_outside.specs.Told.{Takes, AppendsFront};

use crate::sink::Sink;
use crate::source::{Failed, Source};
use std::alloc::AllocError;

/// Why a source wasn't read up to the limit.
#[derive(Clone, Copy, Debug, PartialEq, Eq)]
pub enum ReadFault {
    /// A read failed.
    Source,
    /// Memory ran out.
    Memory,
}

impl From<Failed> for ReadFault {
    ghost use Rattle.stir_outside.specs.declared.transfer.ReadFault.{ReadFault};

    ghost from_gives = { λ _ fault. fault ≡ ReadFault.Source };

    fn from(_: Failed) -> Self {
        ReadFault::Source
    }
}

impl From<AllocError> for ReadFault {
    ghost use Rattle.stir_outside.specs.declared.transfer.ReadFault.{ReadFault};

    ghost from_gives = { λ _ fault. fault ≡ ReadFault.Memory };

    fn from(_: AllocError) -> Self {
        ReadFault::Memory
    }
}

/// The bytes that one read asks for at most.
const BLOCK: usize = 4096;

/// Reads from the source, and appends to `bytes`, until it has `limit` bytes or the source ends. What was taken before
/// a fault is kept: `bytes` has gained all that the source lost, in every case.
#[tactic(auto, using(crate::proofs::Transfers::takes_none, crate::proofs::Transfers::takes_more))]
pub fn read_up_to<I: Source>(
    source: &mut I,
    bytes: &mut Vec<u8>,
    limit: usize,
) -> Result<(), ReadFault>
    requires { vec_len bytes.old ≤ limit }
    ensures taken { Takes (I.left source.old) (I.left source.new) bytes.old.items bytes.new.items }
    ensures limited { vec_len bytes.new ≤ limit }
    ensures ended { OnOk result (vec_len bytes.new < limit → IsAtEnd (I.left source.new)) }
    ensures short { OnErr result (vec_len bytes.new < limit) }
    ensures go_on { GoesOn (I.faults source.old) (I.faults source.new) }
    ensures rose { result ≡ Err ReadFault.Source → Rose (I.faults source.old) (I.faults source.new) }
{
    let mut block = [0; BLOCK];
    while bytes.len() < limit {
        let room = block.len().min(limit - bytes.len());
        bytes.reserve(room)?;
        let count = source.read(&mut block[..room])?;
        if count == 0 {
            break;
        }
        bytes.extend_from_slice(&block[..count])?;
    }
    Ok(())
}

/// Writes the whole text to the sink; at a fault a prefix of it was written.
#[tactic(auto, using(crate::proofs::Transfers::written_none, crate::proofs::Transfers::written_more, crate::proofs::Transfers::written_all, crate::proofs::Transfers::written_front))]
pub fn write_whole<O: Sink>(sink: &mut O, text: &[u8]) -> Result<(), Failed>
    ensures whole { OnOk result (Appends (O.written sink.old) (O.written sink.new) text.now) }
    ensures front { OnErr result (AppendsFront (O.written sink.old) (O.written sink.new) text.now) }
    ensures cause { HasCause (O.faults sink.old) (O.faults sink.new) result }
{
    let mut rest = text;
    while !rest.is_empty() {
        let count = sink.write(rest)?;
        let (_, left) = rest.split_at(count);
        rest = left;
    }
    Ok(())
}
