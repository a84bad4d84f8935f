//! What a seat knows. It exists in proofs alone. Levels and slots are counted from 0.
use std::collections::LinkedList;

/// A word that a seat set.
pub struct SetWord {
    /// The level.
    pub level: u64,
    /// The slot.
    pub slot: u64,
    /// The word, which is the ticket's code at the level.
    pub word: u64,
    /// The ticket that was claimed.
    pub ticket: [u8; 32],
}

/// A nonzero word that a seat found.
pub struct SeenWord {
    /// The level.
    pub level: u64,
    /// The slot.
    pub slot: u64,
    /// The word.
    pub word: u64,
}

/// A slot whose word a load found 0. It may have been set since.
pub struct Blank {
    /// The level.
    pub level: u64,
    /// The slot.
    pub slot: u64,
}

/// What a seat set and found, and its share of the desk. No value of it is made.
pub struct View {
    /// How many slots a level has. A step that knows the place of a word tells its level and slot by it.
    pub size: u64,
    /// The words that the seat set.
    pub sets: LinkedList<SetWord>,
    /// The nonzero words that it found.
    pub seen: LinkedList<SeenWord>,
    /// The slots that its loads found 0, which the rule says nothing of. They tell why a ticket wasn't held.
    pub blanks: LinkedList<Blank>,
    /// How many of the desk's parts the seat has; 2^32 parts are the whole desk.
    pub share: u64,
    /// How many steps on words were made with the seat, and with those that were joined to it.
    pub steps: u64,
}
