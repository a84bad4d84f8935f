//! The chains that are given for the PASSporTs of a call.
ghost use Rattle.std.specs.Prelude.{◌≡◌, ◌<◌, ◌++◌, ◌∷◌, [], length, OnOk, Some, true};
ghost use Rattle.std.specs.List.{list_all, slice_get};
ghost use Rattle.std.specs.Option.{option_copied};
ghost use Rattle.verify_rules.specs.States.{seen};
ghost use Rattle.open_calls.specs.OpenChains.{is_known, state_or_none, states_of};

use crate::chain::OpenChain;
use std::alloc::{AllocError, Global};
use std::marker::Model;
use verify_rules::{ChainState, Chains};

/// What was given for each PASSporT of a call, in the order in which the call went: its chain, or none. In contracts it
/// is this list.
#[derive(Drop)]
pub struct OpenChains<'a> {
    chains: Vec<Option<&'a OpenChain>>,
}

impl<'a> Model for OpenChains<'a> {
    ghost use Rattle.std.specs.Prelude.{◌≡◌, true, List, Option, map};
    ghost use Rattle.std.specs.List.{list_all};
    ghost use Rattle.std.specs.Option.{option_copied};
    ghost use Rattle.open_calls.specs.OpenChains.{ChainView, is_known, states_of};

    ghost Value = { List (Option ChainView) };

    ghost view = { λ c. map option_copied c.chains.items };

    ghost invariant = { λ c. list_all is_known (states_of (map option_copied c.chains.items)) ≡ true };
}

impl<'a> OpenChains<'a> {
    /// None.
    pub fn new(alloc: Global) -> OpenChains<'a>
        ensures { result ≡ [] }
    {
        OpenChains {
            chains: Vec::new(alloc),
        }
    }

    /// One more: what is given for the next PASSporT. `AllocError` is the only error.
    pub fn push(&mut self, chain: Option<&'a OpenChain>) -> Result<(), AllocError>
        ensures { OnOk result (self.new ≡ self.old ++ option_copied chain.entry ∷ []) }
    {
        learn(chain);
        self.chains.push(chain)?;
        Ok(())
    }

    /// Nothing is left open by what is known of them.
    pub fn known(&self)
        ensures { list_all is_known (states_of self.now) ≡ true }
    {
        let _ = &self.chains;
    }
}

/// Does nothing: what is known of a chain leaves nothing open.
fn learn(chain: Option<&OpenChain>)
    ensures { is_known (state_or_none (option_copied chain.entry)) ≡ true }
{
    match chain {
        Some(chain) => {
            let _ = chain.state();
        }
        None => {}
    }
}

impl<'a> Chains for OpenChains<'a> {
    ghost states = { λ c. states_of c };

    fn count(&self) -> usize
        ensures { result ≡ length (states_of self.now) }
    {
        self.chains.len()
    }

    #[tactic(auto, using(crate::proofs::ListLaws::seen_at))]
    fn state(&self, i: usize) -> ChainState<'_>
        requires { i < length (states_of self.now) }
        ensures { slice_get (states_of self.now) i ≡ Some (seen result) }
    {
        state_of(self.chains[i])
    }
}

/// What is known of the chain of a PASSporT, as the rules take it.
fn state_of<'b>(chain: Option<&'b OpenChain>) -> ChainState<'b>
    ensures { seen result ≡ state_or_none (option_copied chain.entry) }
{
    match chain {
        Some(chain) => chain.state(),
        None => ChainState::NoChain,
    }
}
