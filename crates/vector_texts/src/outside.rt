//! The loops over a source that gives a byte a read and a sink that takes one a write: the calls of `stir_outside`.

use std::alloc::Global;
use stir_outside::{ReadFault, SinkMem, SourceMem, read_up_to, write_whole};
use vector_table::{Answer, Drip, Trickle, Unread, number, numbers_of};

/// What a call answers.
pub fn answer(alloc: Global, call: &str, words: &[&[u8]]) -> Result<String, Unread> {
    match call {
        "read" => read(alloc, words),
        "write" => write(alloc, words),
        _ => Err(Unread::Call),
    }
}

/// What is read of a source after other bytes, up to a limit for both, when the listed reads fail: `ok` or `fault`, the
/// bytes, those that are left, and how many reads failed.
fn read(alloc: Global, words: &[&[u8]]) -> Result<String, Unread> {
    let [limit, failing, front, text] = words else {
        return Err(Unread::Call);
    };
    let limit = number(limit)?;
    if front.len() > limit {
        return Err(Unread::Value);
    }
    let failing = numbers_of(alloc, failing)?;
    let mut source = Drip {
        source: SourceMem::new(text.to_vec(alloc)?, failing),
    };
    let mut bytes = front.to_vec(alloc)?;
    let said = match read_up_to(&mut source, &mut bytes, limit) {
        Ok(()) => "ok",
        Err(ReadFault::Source) => "fault",
        Err(ReadFault::Memory) => return Err(Unread::Memory),
    };
    Answer::new(alloc)
        .word(said)
        .text(bytes.as_slice())
        .text(source.source.bytes())
        .word(source.source.faults())
        .line()
}

/// What is written of a text into a sink with so much room, when the listed writes fail: `ok` or `fault`, the bytes,
/// and how many writes failed.
fn write(alloc: Global, words: &[&[u8]]) -> Result<String, Unread> {
    let [room, failing, text] = words else {
        return Err(Unread::Call);
    };
    let room = number(room)?;
    let failing = numbers_of(alloc, failing)?;
    let mut sink = SinkMem::new(alloc, failing);
    sink.reserve(room)?;
    let mut sink = Trickle { sink };
    let said = if write_whole(&mut sink, text).is_ok() {
        "ok"
    } else {
        "fault"
    };
    Answer::new(alloc)
        .word(said)
        .text(sink.sink.bytes())
        .word(sink.sink.faults())
        .line()
}
