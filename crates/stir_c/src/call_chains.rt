//! The chains that were handed in for the PASSporTs of a call.
ghost use Rattle.std.specs.Prelude.{◌≡◌, ◌<◌, ◌++◌, ◌∷◌, [], IfOk, OnOk, None, length, map, replicate, slice_set};
ghost use Rattle.std.specs.Arc.{arc_value};
ghost use Rattle.std.specs.Option.{option_map};

use open_calls::{OpenChain, OpenChains};
use std::alloc::{AllocError, Global};
use std::marker::Model;
use std::sync::Arc;

/// For each PASSporT of a call a share of its chain, if one was handed in. In contracts it is the list of these chains.
#[derive(Drop)]
pub struct CallChains {
    chains: Vec<Option<Arc<OpenChain, Global>>>,
}

impl Model for CallChains {
    ghost use Rattle.std.specs.Prelude.{List, Option, map};
    ghost use Rattle.std.specs.Arc.{arc_value};
    ghost use Rattle.std.specs.Option.{option_map};
    ghost use Rattle.open_calls.specs.OpenChains.{ChainView};

    ghost Value = { List (Option ChainView) };

    ghost view = { λ c. map (option_map arc_value) c.chains.items };
}

impl CallChains {
    /// For so many PASSporTs, and none was handed in. `AllocError` is the only error.
    pub(crate) fn none(alloc: Global, count: usize) -> Result<CallChains, AllocError>
        ensures { IfOk result (λ chains. chains ≡ replicate count None) }
    {
        let chains = nothings(alloc, count)?;
        Ok(CallChains { chains })
    }

    /// For how many PASSporTs they are.
    pub(crate) fn count(&self) -> usize
        ensures { result ≡ length self.now }
    {
        self.chains.len()
    }

    /// From now on this one for the PASSporT of this index.
    #[tactic(auto, using(crate::proofs::CallChainsLaws::one_put))]
    pub(crate) fn put(&mut self, index: usize, chain: Option<Arc<OpenChain, Global>>)
        requires { index < length self.old }
        ensures { self.new ≡ slice_set self.old index (option_map arc_value chain) }
    {
        self.chains[index] = chain;
    }

    /// The same, as calls are judged over them. `AllocError` is the only error.
    pub(crate) fn open(&self, alloc: Global) -> Result<OpenChains<'_>, AllocError>
        ensures { IfOk result (λ chains. chains ≡ self.now) }
    {
        opened(alloc, self.chains.as_slice())
    }
}

/// So many times nothing. `AllocError` is the only error.
fn nothings(alloc: Global, count: usize) -> Result<Vec<Option<Arc<OpenChain, Global>>>, AllocError>
    ensures { IfOk result (λ chains. chains.items ≡ replicate count None) }
{
    let mut chains = Vec::new(alloc);
    'passports: for _at in 0..count {
        chains.push(None)?;
    }
    Ok(chains)
}

/// These, as calls are judged over them. `AllocError` is the only error.
fn opened(
    alloc: Global,
    given: &[Option<Arc<OpenChain, Global>>],
) -> Result<OpenChains<'_>, AllocError>
    ensures { IfOk result (λ chains. chains ≡ map (option_map arc_value) given.now) }
{
    let mut chains = OpenChains::new(alloc);
    'passports: for chain in given {
        add(chain, &mut chains)?;
    }
    Ok(chains)
}

/// Adds what was handed in for one PASSporT. `AllocError` is the only error.
fn add<'a>(
    chain: &'a Option<Arc<OpenChain, Global>>,
    chains: &mut OpenChains<'a>,
) -> Result<(), AllocError>
    ensures { OnOk result (chains.new ≡ chains.old ++ option_map arc_value chain.now ∷ []) }
{
    match chain {
        Some(chain) => chains.push(Some(&**chain)),
        None => chains.push(None),
    }
}
