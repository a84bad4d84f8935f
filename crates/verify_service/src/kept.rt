//! The chains that a round keeps for itself, and which chains these are: those that the cache doesn't hold from then
//! on.
ghost use Rattle.std.specs.Prelude.{◌≡◌, ℕ, List, [], OnOk, OnErr};
ghost use Rattle.std.specs.Option.{option_copied};
ghost use Rattle.cert_store.specs.Asking.{is_failed};
ghost use Rattle.verify_rules.specs.States.{have};
ghost use Rattle.call_judging.specs.Chains.{state_of};
ghost use Rattle.verify_service.specs.Kept.{IsKeptState, Keeps, StoresChain, kept_state};

use call_judging::ChainStatus;
use cert_store::{Asked, Cache, Judged};
use std::alloc::{AllocError, Global};
use std::collections::HashMap;
use std::marker::Model;

/// What is known, for one round alone, of chains by their x5u (RFC 7515, section 4.1.5): there is none, its file
/// couldn't be read or is too long, or a question of it failed. A contract sees what is known for which x5u, in no
/// order that it names.
#[derive(Drop)]
pub(crate) struct KeptChains {
    chains: HashMap<Vec<u8>, ChainStatus>,
}

impl Model for KeptChains {
    ghost use Rattle.verify_service.specs.Kept.{Kept, kept_in};

    ghost Value = { Kept };

    ghost view = { λ k. kept_in k.chains.entries };
}

impl KeptChains {
    /// None yet.
    pub(crate) fn new(alloc: Global) -> KeptChains
        ensures { result ≡ [] }
    {
        KeptChains {
            chains: HashMap::new(alloc),
        }
    }

    /// What is known of the chain of this x5u.
    pub(crate) fn get(&self, x5u: &[u8]) -> Option<&ChainStatus>
        ensures { IsKeptState result (kept_state x5u.now self.now) }
    {
        // Most rounds keep none, and a look-up goes over the whole x5u for its hash.
        if self.chains.is_empty() {
            return None;
        }
        self.chains.get(x5u)
    }

    /// Keeps what is known of the chain of this x5u, in place of what was. `AllocError` is the only error.
    pub(crate) fn keep(&mut self, x5u: Vec<u8>, chain: ChainStatus) -> Result<(), AllocError>
        ensures { OnOk result (Keeps x5u.items (state_of chain) self.old self.new) }
    {
        match self.chains.insert(x5u, chain) {
            Ok(_) => Ok(()),
            Err(_) => Err(AllocError),
        }
    }
}

/// Has the cache hold the chain of an x5u, if it was judged and each of its questions was answered, and else the round
/// keep it. `AllocError` is the only error; the cache then is as it was.
pub(crate) fn store_chain(
    alloc: Global,
    x5u: &[u8],
    chain: ChainStatus,
    cache: &mut Cache,
    kept: &mut KeptChains,
) -> Result<(), AllocError>
    ensures stored { OnOk result (StoresChain x5u.now (state_of chain) cache.old cache.new kept.old kept.new) }
    ensures refused { OnErr result (cache.new ≡ cache.old) }
{
    let x5u = Vec::from_slice(alloc, x5u)?;
    match chain {
        ChainStatus::Judged(judged) => match judged.asked() {
            Asked::Failed { .. } => kept.keep(x5u, ChainStatus::Judged(judged)),
            Asked::NotAsked => cache.put(x5u, judged),
            Asked::Yes => cache.put(x5u, judged),
            Asked::No { .. } => cache.put(x5u, judged),
        },
        ChainStatus::Missing => kept.keep(x5u, ChainStatus::Missing),
        ChainStatus::TooLong => kept.keep(x5u, ChainStatus::TooLong),
        ChainStatus::Unread => kept.keep(x5u, ChainStatus::Unread),
    }
}
