//! The chains of a call's PASSporTs, as a round has them.
ghost use Rattle.std.specs.Prelude.{◌≡◌, ◌<◌, length, Some};
ghost use Rattle.std.specs.List.{slice_get};
ghost use Rattle.verify_rules.specs.States.{seen};
ghost use Rattle.verify_service.specs.Kept.{state_for, states_for};

use crate::kept::KeptChains;
use cert_store::Cache;
use verify_rules::{ChainState, Chains, Screened};

/// The chains of a call's PASSporTs, in the order in which the call went: each from those that the round keeps, and
/// else from those that the cache holds. There is none for an x5u that is in neither. Nothing is copied.
#[derive(Clone, Copy)]
pub(crate) struct RoundChains<'a> {
    pub(crate) kept: &'a KeptChains,
    pub(crate) held: &'a Cache,
    pub(crate) screened: &'a Screened,
}

impl<'a> Chains for RoundChains<'a> {
    ghost states = { λ c. states_for c.kept.now c.held.now.entries c.screened.now.readings };

    #[tactic(auto, using(call_judging::proofs::ListLaws::mapped_length))]
    fn count(&self) -> usize {
        self.screened.count()
    }

    fn state(&self, i: usize) -> ChainState<'_> {
        state_for(self.kept, self.held, self.screened.passport(i).x5u())
    }
}

/// What is known of the chain of this x5u (RFC 7515, section 4.1.5).
fn state_for<'a>(kept: &'a KeptChains, held: &'a Cache, x5u: &[u8]) -> ChainState<'a>
    ensures { seen result ≡ state_for kept.now held.now.entries x5u.now }
{
    if let Some(chain) = kept.get(x5u) {
        return chain.state();
    }
    match held.peek(x5u) {
        Some(judged) => ChainState::Have(judged),
        None => ChainState::NoChain,
    }
}
