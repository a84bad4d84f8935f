//! Calls on the drill: the sizes and the SHA-256 of the files that [`Drill::make`] makes.

use sha2::{Digest, Sha256};
use std::alloc::Global;
use stir_drill::Drill;
use stir_outside::Shelf;
use vector_table::{Answer, Unread, number, word};

/// The most calls of a drill.
const MOST_CALLS: u32 = 100_000;

/// The name of the chain's file, and the most bytes that it may have.
const CHAIN_NAME: &str = "drill.der";

const MOST_OF_CHAIN: usize = 49_152;

/// What a call answers: it names a file, and its words are the seed and the count of calls.
pub fn answer(alloc: Global, call: &str, words: &[&[u8]]) -> Result<String, Unread> {
    let [seed, count] = words else {
        return Err(Unread::Call);
    };
    let seed = number(seed)?;
    let count = number(count)?;
    if count > MOST_CALLS {
        return Err(Unread::Value);
    }
    let drill = Drill::make(alloc, seed, count)?;
    file_of(alloc, call, drill)
}

/// The size and the SHA-256 of a file of the drill.
fn file_of(alloc: Global, call: &str, drill: Drill) -> Result<String, Unread> {
    match call {
        "log" => digest(alloc, drill.log.as_slice()),
        "anchors" => digest(alloc, drill.anchors.as_slice()),
        "table" => digest(alloc, drill.table.as_slice()),
        "chains" => digest(alloc, drill.chains.as_slice()),
        "answers" => digest(alloc, drill.answers.as_slice()),
        "chain" => chain(alloc, drill),
        _ => Err(Unread::Call),
    }
}

/// The same of the file on the shelf.
fn chain(alloc: Global, drill: Drill) -> Result<String, Unread> {
    let mut shelf = drill.shelf;
    match shelf.read(alloc, CHAIN_NAME, MOST_OF_CHAIN) {
        Ok(bytes) => digest(alloc, bytes.as_slice()),
        Err(_) => word(alloc, "none"),
    }
}

/// How many bytes there are, and their SHA-256 (FIPS 180-4).
fn digest(alloc: Global, bytes: &[u8]) -> Result<String, Unread> {
    let digest = Sha256::digest(bytes);
    Answer::new(alloc)
        .word(bytes.len())
        .hex(digest.as_slice())
        .line()
}
