//! Logs of calls, from a source that gives one byte a read: the calls of `call_log`.

use call_log::{Call, LogFault, LogReader};
use std::alloc::Global;
use stir_outside::SourceMem;
use vector_table::{Answer, Drip, Unread, joined, number, numbers_of};

/// What a call answers.
pub fn answer(alloc: Global, call: &str, words: &[&[u8]]) -> Result<String, Unread> {
    match call {
        "read" => read(alloc, words),
        "after" => after(alloc, words),
        "count" => count(alloc, words),
        _ => Err(Unread::Call),
    }
}

/// How many calls are read at most.
const MOST_SHOWN: u32 = 8;

/// The greatest number of a call from which a log can go on.
const MOST_CALL: u32 = 4_000_000_000;

/// What [`put_calls`] says of a log some of whose reads fail, and how many bytes of it are left.
fn read(alloc: Global, words: &[&[u8]]) -> Result<String, Unread> {
    let [failing, log @ ..] = words else {
        return Err(Unread::Call);
    };
    let failing = numbers_of(alloc, failing)?;
    let bytes = joined(alloc, log)?;
    let mut source = Drip {
        source: SourceMem::new(bytes, failing),
    };
    let mut reader = LogReader::new(alloc);
    let answer = put_calls(alloc, &mut reader, &mut source)?;
    answer.word(source.source.bytes().len()).line()
}

/// The same of a log that goes on from a call of this number and this moment, and of which no read fails.
fn after(alloc: Global, words: &[&[u8]]) -> Result<String, Unread> {
    let [call, moment, log @ ..] = words else {
        return Err(Unread::Call);
    };
    let call: u32 = number(call)?;
    let moment: u64 = number(moment)?;
    if call > MOST_CALL {
        return Err(Unread::Value);
    }
    let mut source = Drip {
        source: SourceMem::new(joined(alloc, log)?, Vec::new(alloc)),
    };
    let mut reader = LogReader::after(alloc, call, moment);
    let answer = put_calls(alloc, &mut reader, &mut source)?;
    answer.word(source.source.bytes().len()).line()
}

/// The number, moment and message of each call, and how the log ends; a fault is answered again by the next call.
fn put_calls(alloc: Global, reader: &mut LogReader, source: &mut Drip) -> Result<Answer, Unread> {
    let mut answer = Answer::new(alloc);
    for _ in 0..MOST_SHOWN {
        match reader.next(source) {
            Ok(Some(call)) => answer = put_call(answer, &call),
            Ok(None) => return Ok(answer.word("end")),
            Err(fault) => {
                let is_kept = reader.next(source).err() == Some(fault);
                let answer = ended(answer, fault)?;
                return Ok(if is_kept {
                    answer
                } else {
                    answer.word("forgotten")
                });
            }
        }
    }
    Ok(answer.word("more"))
}

/// Puts the number, the moment and the message of a call after other words.
fn put_call(answer: Answer, call: &Call) -> Answer {
    answer
        .word(call.number())
        .word(call.moment())
        .text(call.message())
}

/// Which fault ended a log, and where.
fn ended(answer: Answer, fault: LogFault) -> Result<Answer, Unread> {
    match fault {
        LogFault::Grammar { place } => Ok(answer.word("grammar").word(place)),
        LogFault::Backward { place } => Ok(answer.word("backward").word(place)),
        LogFault::Many { place } => Ok(answer.word("many").word(place)),
        LogFault::Source => Ok(answer.word("source")),
        LogFault::Memory => Err(Unread::Memory),
    }
}

/// How many calls are read before the log ends, the length of the last one's message, and how it ends.
fn count(alloc: Global, words: &[&[u8]]) -> Result<String, Unread> {
    let bytes = joined(alloc, words)?;
    let mut source = SourceMem::new(bytes, Vec::new(alloc));
    let mut reader = LogReader::new(alloc);
    let mut count: u64 = 0;
    let mut length = 0;
    for _ in 0..u32::MAX {
        match reader.next(&mut source) {
            Ok(Some(call)) => {
                count = count.saturating_add(1);
                length = call.message().len();
            }
            Ok(None) => break,
            Err(fault) => {
                let answer = Answer::new(alloc).word(count).word(length);
                return ended(answer, fault)?.line();
            }
        }
    }
    Answer::new(alloc)
        .word(count)
        .word(length)
        .word("end")
        .line()
}
