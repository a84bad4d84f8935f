//! A buffer for what is kept of a text.
ghost use Rattle.std.specs.Prelude.{◌≡◌, ◌+◌, ◌<◌, ◌≤◌, [], ◌∷◌, ◌++◌, ◌↔◌, length, IsTrue, MatchOption};
ghost use Rattle.tn_values.specs.Canon.{without_separators};

use crate::alphabet::is_separator;
use std::marker::Model;

/// The longest number with its `+`.
pub(crate) const CAPACITY: usize = 16;

/// Up to 16 bytes, kept in place. A contract sees their list.
#[derive(Drop)]
pub(crate) struct Kept {
    bytes: [u8; CAPACITY],
    count: usize,
}

impl Model for Kept {
    ghost use Rattle.std.specs.Prelude.{ℕ, ◌≤◌, List, take};

    ghost Value = { List ℕ };

    ghost view = { λ k. take k.count k.bytes };

    ghost invariant = { λ k. k.count ≤ 16 };
}

impl Kept {
    /// A buffer that keeps nothing.
    pub(crate) fn new() -> Kept
        ensures { result ≡ [] }
    {
        Kept {
            bytes: [0; CAPACITY],
            count: 0,
        }
    }

    /// Whether 16 bytes are kept.
    fn is_full(&self) -> bool
        ensures { IsTrue result ↔ (16 ≤ length self.now) }
    {
        self.count >= CAPACITY
    }

    /// Keeps one byte more.
    fn push(&mut self, byte: u8)
        requires { length self.old < 16 }
        ensures { self.new ≡ self.old ++ byte ∷ [] }
    {
        self.bytes[self.count] = byte;
        self.count += 1;
    }

    /// Keeps these bytes too.
    pub(crate) fn extend(&mut self, bytes: &[u8])
        requires { length self.old + length bytes.now ≤ 16 }
        ensures { self.new ≡ self.old ++ bytes.now }
    {
        for byte in bytes {
            self.push(*byte);
        }
    }

    /// The bytes that are kept.
    pub(crate) fn bytes(&self) -> &[u8]
        ensures { result.now ≡ self.now }
    {
        &self.bytes[..self.count]
    }
}

/// The text without its separators, or None if more than 16 bytes are left.
pub(crate) fn kept_of(text: &[u8]) -> Option<Kept>
    ensures { MatchOption result
        (16 < length (without_separators text.now))
        (λ kept. kept ≡ without_separators text.now) }
{
    let mut kept = Kept::new();
    for byte in text {
        if is_separator(*byte) {
            continue;
        }
        if kept.is_full() {
            return None;
        }
        kept.push(*byte);
    }
    Some(kept)
}
