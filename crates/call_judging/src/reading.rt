//! Reading the chains of a call.
ghost use Rattle.stir_outside.specs.Stays.{ProviderStays, ShelfStays};
ghost use Rattle.std.specs.Prelude.{◌≡◌, ◌≤◌, ℕ, List, length, true, IfOk, OnOk, Option, Some};
ghost use Rattle.std.specs.List.{list_any};
ghost use Rattle.cert_store.specs.ChainMap.{listed};
ghost use Rattle.stir_outside.specs.Files.{CountsGoOn, Files};
ghost use Rattle.call_judging.specs.Fetched.{IsFetched, is_unread_file};
ghost use Rattle.call_judging.specs.Causes.{HasCauseIf};
ghost use Rattle.call_judging.specs.Chains.{AreRightWhere, IsRightWhere, is_unasked, is_unread, state_of};

use crate::chains::{CallChains, ChainStatus};
use crate::fetching::{Fetched, fetch, fetch_file, judge_file};
use cert_store::World;
use std::alloc::{AllocError, Global};
use stir_outside::{Provider, Shelf};
use verify_rules::{Screened, right_law};

/// Reads and judges the chain of each PASSporT of a call, in the order in which the call went, in place of those that
/// there were.
pub fn read_chains<S: Shelf, P: Provider>(
    alloc: Global,
    world: &World,
    shelf: &mut S,
    provider: &mut P,
    screened: &Screened,
    chains: &mut CallChains,
) -> Result<(), AllocError>
    ensures counted { OnOk result (length chains.new ≡ length screened.now.readings) }
    ensures right { OnOk result
        (AreRightWhere (S.files shelf.old) world.now (P.says provider.old) screened.now.readings chains.new) }

    // A chain isn't known, or has a question that failed, only if a fault was counted.
    ensures unread { OnOk result
        (HasCauseIf (list_any is_unread chains.new) (S.counts shelf.old).faults (S.counts shelf.new).faults) }
    ensures unasked { OnOk result
        (HasCauseIf (list_any is_unasked chains.new) (P.faults provider.old) (P.faults provider.new)) }

    ensures shelf { ShelfStays S.Shelf shelf.old shelf.new }
    ensures provider { ProviderStays P.Provider provider.old provider.new }
{
    right_law();
    chains.clear();
    'passports: for i in 0..screened.count() {
        let x5u = screened.passport(i).x5u();
        let chain = chain_of(alloc, world, shelf, provider, x5u)?;
        chains.push(chain)?;
    }
    Ok(())
}

/// What is known of the chain of this x5u (RFC 7515, section 4.1.5).
fn chain_of<S: Shelf, P: Provider>(
    alloc: Global,
    world: &World,
    shelf: &mut S,
    provider: &mut P,
    x5u: &[u8],
) -> Result<ChainStatus, AllocError>
    ensures right { IfOk result
        (λ chain. IsRightWhere (S.files shelf.old) world.now (P.says provider.old) x5u.now (state_of chain)) }
    ensures unread { IfOk result
        (λ chain. HasCauseIf (is_unread (state_of chain)) (S.counts shelf.old).faults (S.counts shelf.new).faults) }
    ensures unasked { IfOk result
        (λ chain. HasCauseIf (is_unasked (state_of chain)) (P.faults provider.old) (P.faults provider.new)) }
    ensures shelf { ShelfStays S.Shelf shelf.old shelf.new }
    ensures provider { ProviderStays P.Provider provider.old provider.new }
{
    let file = fetch(alloc, world, shelf, x5u)?;
    judge_fetched(alloc, world, provider, &file)
}

/// What is known of the chain in the file of this name, which the chain map lists. `AllocError` is the only error.
pub fn chain_in<S: Shelf, P: Provider>(
    alloc: Global,
    world: &World,
    shelf: &mut S,
    provider: &mut P,
    name: &str,
) -> Result<ChainStatus, AllocError>
    ensures right { (x5u : List ℕ) → listed world.now.chains x5u ≡ Some name.now
        → IfOk result (λ chain. IsRightWhere (S.files shelf.old) world.now (P.says provider.old) x5u (state_of chain)) }
    ensures unread { IfOk result
        (λ chain. HasCauseIf (is_unread (state_of chain)) (S.counts shelf.old).faults (S.counts shelf.new).faults) }
    ensures unasked { IfOk result (λ chain. HasCauseIf (is_unasked (state_of chain)) (P.faults provider.old) (P.faults provider.new)) }
    ensures shelf { ShelfStays S.Shelf shelf.old shelf.new }
    ensures provider { ProviderStays P.Provider provider.old provider.new }
{
    let file = fetch_file(alloc, world, shelf, name)?;
    judge_fetched(alloc, world, provider, &file)
}

/// What is known of the chain in a file that was read.
fn judge_fetched<P: Provider>(
    alloc: Global,
    world: &World,
    provider: &mut P,
    file: &Fetched,
) -> Result<ChainStatus, AllocError>
    ensures right { (told : Option Files) (x5u : List ℕ) → IsFetched told world.now x5u file.now
        → IfOk result (λ chain. IsRightWhere told world.now (P.says provider.old) x5u (state_of chain)) }
    ensures unread { IfOk result (λ chain. is_unread (state_of chain) ≡ is_unread_file file.now) }
    ensures unasked { IfOk result
        (λ chain. HasCauseIf (is_unasked (state_of chain)) (P.faults provider.old) (P.faults provider.new)) }
    ensures provider { ProviderStays P.Provider provider.old provider.new }
{
    let judged = judge_file(alloc, world, file, provider)?;
    Ok(file.status(judged))
}
