//! The chains of a call, each asked for once.
ghost use Rattle.std.specs.Prelude.{◌≡◌, ◌≤◌, length};

use crate::chains::{ChainState, Chains};
use std::marker::Model;

/// What is known of the chains of a call's PASSporTs, of which there are at most nine. Each rule asks for it anew, and
/// what is asked for may take a search. In contracts it is the list of it.
#[derive(Drop)]
pub(crate) struct Once<'a> {
    states: [ChainState<'a>; 9],
    count: usize,
}

impl<'a> Model for Once<'a> {
    ghost use Rattle.std.specs.Prelude.{◌≡◌, ◌≤◌, List, length, map, take};
    ghost use Rattle.verify_rules.specs.States.{State, seen};

    ghost Value = { List State };

    ghost view = { λ o. map seen (take o.count o.states) };

    ghost invariant = { λ o. (o.count ≤ 9) × (length o.states ≡ 9) };
}

impl<'a> Once<'a> {
    /// What is known of these.
    #[tactic(auto, using(crate::proofs::OnceLaws::none_yet, crate::proofs::OnceLaws::all_of, crate::proofs::OnceLaws::nine))]
    pub(crate) fn of<C: Chains>(chains: &'a C) -> Once<'a>
        requires { length (C.states chains.now) ≤ 9 }
        ensures { result ≡ C.states chains.now }
    {
        let count = chains.count();
        let mut states = [ChainState::NoChain; 9];
        'states: for i in 0..count {
            states[i] = chains.state(i);
        }
        Once { states, count }
    }
}

impl<'a> Chains for Once<'a> {
    ghost states = { λ o. o };

    #[tactic(auto, using(crate::proofs::OnceLaws::counted))]
    fn count(&self) -> usize {
        self.count
    }

    #[tactic(auto, using(crate::proofs::OnceLaws::at, crate::proofs::OnceLaws::counted))]
    fn state(&self, i: usize) -> ChainState<'_> {
        let states: &[ChainState<'_>] = &self.states;
        states[i]
    }
}
