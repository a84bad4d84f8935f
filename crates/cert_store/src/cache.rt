//! The cache of judged chains.
ghost use Rattle.std.specs.Prelude.{◌≡◌, ◌≤◌, [], false, length, is_some, IfOk, IsOk, IsSome, OnOk, OnErr};
ghost use Rattle.std.specs.Option.{option_copied};
ghost use Rattle.cert_store.specs.Asking.{is_failed};
ghost use Rattle.cert_store.specs.Holding.{AreAnswered, chain_of, put_in, touched};
ghost use Rattle.cert_store.specs.Using.{IsOnce, names};

use crate::Memory;
use crate::judged::Judged;
use crate::x5u::{X5u, X5uView};
use lru::LruCache;
use std::alloc::Global;
use std::marker::Model;
use std::num::NonZeroUsize;

/// Judged chains by the x5u that names them (RFC 7515, section 4.1.5), kept from call to call. If there are too many,
/// the least recently used one leaves (this project's own rule).
///
/// A contract sees the chains with their x5us, the most recently used first, and how many there may be. The provider
/// answered every question of each of them.
#[derive(Drop)]
pub struct Cache {
    held: LruCache<X5u, Judged>,
}

impl Model for Cache {
    ghost use Rattle.cert_store.specs.Holding.{AreAnswered, Holding};

    ghost Value = { Holding };

    ghost view = { λ c. record { entries = c.held.entries; capacity = c.held.cap } };

    ghost invariant = { λ c. AreAnswered c.held.entries };
}

impl Cache {
    /// A cache for at most `capacity` chains, at least 1, which holds none yet. `Memory` comes only if memory ran out.
    pub fn new(alloc: Global, capacity: usize) -> Result<Cache, Memory>
        requires { 1 ≤ capacity }
        ensures { IfOk result (λ cache. cache ≡ record { entries = []; capacity = capacity }) }
    {
        let Some(capacity) = NonZeroUsize::new(capacity) else {
            unreachable!();
        };
        let held = LruCache::sparse(alloc, capacity)?;
        Ok(Cache { held })
    }

    /// The chain that is held for the x5u; None exactly if none is. This is no use: the order stays.
    pub fn peek(&self, x5u: &[u8]) -> Option<&Judged>
        ensures { option_copied result ≡ chain_of x5u.now self.now.entries }
    {
        self.held.peek(X5uView { bytes: x5u })
    }

    /// Makes the chain that is held for the x5u the most recently used one; false exactly if none is held, and then
    /// nothing changes.
    pub fn touch(&mut self, x5u: &[u8]) -> bool
        ensures held { result ≡ is_some (chain_of x5u.now self.old.entries) }
        ensures order { self.new ≡ record self.old { entries = touched x5u.now self.old.entries } }
    {
        self.held.promote(X5uView { bytes: x5u })
    }

    /// Holds a chain for the x5u as the most recently used one, in place of the one that was held for it. If none was
    /// and the cache is full, the least recently used chain leaves. The provider must not have failed at a question of
    /// the chain: [`Judged::asked`] says whether it did. `Memory` comes only if memory ran out, which it can't if a
    /// chain was held for the x5u; then nothing changes.
    pub fn put(&mut self, x5u: Vec<u8>, judged: Judged) -> Result<(), Memory>
        requires answered { is_failed judged.asked ≡ false }
        ensures put { OnOk result (self.new ≡ record self.old { entries = put_in x5u.items judged self.old }) }
        ensures refused { OnErr result (self.new ≡ self.old) }
        ensures again { IsSome (chain_of x5u.items self.old.entries) → IsOk result }
    {
        match self.held.put(X5u::new(x5u), judged) {
            Ok(_) => Ok(()),
            Err(_) => Err(Memory),
        }
    }

    /// What holds of every cache, for callers. The provider answered every question of the chains, each x5u has one,
    /// and there are no more of them than there may be. It does nothing when it runs.
    pub fn answered(&self)
        ensures answered { AreAnswered self.now.entries }
        ensures once { IsOnce (names self.now.entries) }
        ensures few { length self.now.entries ≤ self.now.capacity }
    {
        let _ = self.held.len();
    }
}
