//! The x5u texts of a round (RFC 7515, section 4.1.5): those whose chains it has to read, each once.
ghost use Rattle.std.specs.Prelude.{◌≡◌, ◌<◌, ◌∷◌, [], ℕ, List, length, OnOk, Some};
ghost use Rattle.std.specs.List.{list_any, slice_get};
ghost use Rattle.std.specs.Str.{bytes_eq};
ghost use Rattle.cert_store.specs.Holding.{chain_of, touched};
ghost use Rattle.verify_service.specs.Needed.{all_named, named_by, needed, once, touch_all, x5us};

use crate::screening::{ReadyCall, Screening};
use cert_store::{Cache, ChainMap, cache_law};
use indexmap::IndexSet;
use std::alloc::{AllocError, Global};
use std::marker::Model;
use verify_rules::Screened;

/// Texts, each once, in the order in which they were added. In contracts they are the list of these.
#[derive(Drop)]
pub(crate) struct Texts {
    texts: IndexSet<Vec<u8>>,
}

impl Model for Texts {
    ghost use Rattle.std.specs.Prelude.{ℕ, List, map};
    ghost use Rattle.std.specs.Vec.{vec_items};

    ghost Value = { List (List ℕ) };

    ghost view = { λ t. map vec_items t.texts.keys };
}

impl Texts {
    /// None yet.
    pub(crate) fn new(alloc: Global) -> Texts
        ensures { result ≡ [] }
    {
        Texts {
            texts: IndexSet::new(alloc),
        }
    }

    /// How many there are.
    #[tactic(auto, using(crate::proofs::TextLaws::text_count))]
    pub(crate) fn count(&self) -> usize
        ensures { result ≡ length self.now }
    {
        self.texts.len()
    }

    /// The text at this index.
    #[tactic(auto, using(crate::proofs::TextLaws::text_count))]
    pub(crate) fn text(&self, index: usize) -> &[u8]
        requires { index < length self.now }
        ensures { slice_get self.now index ≡ Some result.now }
    {
        self.texts.as_slice()[index].as_slice()
    }

    /// Whether this is one of them.
    pub(crate) fn has(&self, text: &[u8]) -> bool
        ensures { result ≡ list_any (bytes_eq text.now) self.now }
    {
        self.texts.contains(text)
    }

    /// Adds a text after the others, unless it is one of them. `AllocError` is the only error.
    pub(crate) fn add(&mut self, alloc: Global, text: &[u8]) -> Result<(), AllocError>
        ensures { OnOk result (self.new ≡ once self.old (text.now ∷ [])) }
    {
        if self.has(text) {
            return Ok(());
        }
        let own = Vec::from_slice(alloc, text)?;
        self.texts.insert(own)?;
        Ok(())
    }
}

/// Uses the chains that these calls need and the cache holds, and adds the x5u texts of the others that are listed.
/// `AllocError` is the only error; the cache holds the same chains then.
pub(crate) fn gather_calls(
    alloc: Global,
    chains: &ChainMap,
    calls: &[ReadyCall],
    cache: &mut Cache,
    texts: &mut Texts,
) -> Result<(), AllocError>
    ensures texts { OnOk result
        (texts.new ≡ once texts.old (needed chains.now cache.old.entries (all_named calls.now))) }
    ensures held { OnOk result
        (cache.new ≡ record cache.old { entries = touch_all (all_named calls.now) cache.old.entries }) }
    ensures same { (x5u : List ℕ) → chain_of x5u cache.new.entries ≡ chain_of x5u cache.old.entries }
    ensures capacity { cache.new.capacity ≡ cache.old.capacity }
{
    cache_law();
    'calls: for call in calls {
        gather_call(alloc, chains, &call.screening, cache, texts)?;
    }
    Ok(())
}

/// The same of one call, which needs no chain unless it passed the rules of the call.
fn gather_call(
    alloc: Global,
    chains: &ChainMap,
    screening: &Screening,
    cache: &mut Cache,
    texts: &mut Texts,
) -> Result<(), AllocError>
    ensures texts { OnOk result
        (texts.new ≡ once texts.old (needed chains.now cache.old.entries (named_by screening.now))) }
    ensures held { OnOk result
        (cache.new ≡ record cache.old { entries = touch_all (named_by screening.now) cache.old.entries }) }
    ensures same { (x5u : List ℕ) → chain_of x5u cache.new.entries ≡ chain_of x5u cache.old.entries }
    ensures capacity { cache.new.capacity ≡ cache.old.capacity }
{
    match screening {
        Screening::Passed(screened) => gather_passports(alloc, chains, screened, cache, texts),
        Screening::Refused(_) => Ok(()),
        Screening::Open => Ok(()),
    }
}

/// The same of the PASSporTs of a call, in the order in which it went.
fn gather_passports(
    alloc: Global,
    chains: &ChainMap,
    screened: &Screened,
    cache: &mut Cache,
    texts: &mut Texts,
) -> Result<(), AllocError>
    ensures texts { OnOk result
        (texts.new ≡ once texts.old (needed chains.now cache.old.entries (x5us screened.now.readings))) }
    ensures held { OnOk result
        (cache.new ≡ record cache.old { entries = touch_all (x5us screened.now.readings) cache.old.entries }) }
    ensures same { (x5u : List ℕ) → chain_of x5u cache.new.entries ≡ chain_of x5u cache.old.entries }
    ensures capacity { cache.new.capacity ≡ cache.old.capacity }
{
    cache_law();
    'passports: for i in 0..screened.count() {
        let x5u = screened.passport(i).x5u();
        gather_text(alloc, chains, x5u, cache, texts)?;
    }
    Ok(())
}

/// The same of one text.
fn gather_text(
    alloc: Global,
    chains: &ChainMap,
    x5u: &[u8],
    cache: &mut Cache,
    texts: &mut Texts,
) -> Result<(), AllocError>
    ensures texts { OnOk result (texts.new ≡ once texts.old (needed chains.now cache.old.entries (x5u.now ∷ []))) }
    ensures held { cache.new ≡ record cache.old { entries = touched x5u.now cache.old.entries } }
    ensures same { (x : List ℕ) → chain_of x cache.new.entries ≡ chain_of x cache.old.entries }
    ensures capacity { cache.new.capacity ≡ cache.old.capacity }
{
    cache_law();
    if cache.touch(x5u) {
        return Ok(());
    }
    match chains.file(x5u) {
        Some(_) => texts.add(alloc, x5u),
        None => Ok(()),
    }
}
