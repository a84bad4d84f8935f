//! Reading the chains of a call, with the lines of the questions that are asked for each.
ghost use Rattle.stir_outside.specs.Stays.{ShelfStays};
ghost use Rattle.std.specs.Prelude.{◌≡◌, ◌≤◌, ℕ, [], List, false, length, true, IfOk, IfErr, OnErr, OnOk, string_bytes};
ghost use Rattle.std.specs.List.{list_any};
ghost use Rattle.call_judging.specs.AlwaysYes.{always_yes};
ghost use Rattle.call_judging.specs.CallQuestions.{chain_questions, chains_questions};
ghost use Rattle.single_calls.specs.Reading.{AreAsked, IsNamed, Stopped, StopsFor, lines};
ghost use Rattle.single_calls.specs.Written.{Writes};
ghost use Rattle.stir_outside.specs.Files.{CountsGoOn};
ghost use Rattle.call_judging.specs.Chains.{IsRightWhere, is_unread, state_of};

use crate::asking::ask_chain;
use crate::written::Written;
use call_judging::{AlwaysYes, CallChains, ChainStatus, chain_in, chains_law};
use cert_store::World;
use std::alloc::Global;
use stir_outside::Shelf;
use verify_rules::{Screened, right_law};

/// What stops the reading of a call's chains.
#[derive(Drop)]
pub(crate) enum ChainError {
    /// The file of this name couldn't be read.
    Unread { name: String },
    /// Memory ran out.
    Memory,
}

/// Reads and judges the chain of each PASSporT of a call, in the order in which the call went, and writes the lines of
/// its questions before the next one is read. It stops at a file that can't be read.
pub(crate) fn ask_chains<S: Shelf>(
    alloc: Global,
    world: &World,
    shelf: &mut S,
    provider: &mut AlwaysYes,
    screened: &Screened,
    chains: &mut CallChains,
    written: &mut Written,
    text: &mut String,
) -> Result<(), ChainError>
    requires none { chains.old ≡ [] }
    ensures counted { OnOk result (length chains.new ≡ length screened.now.readings) }
    ensures asked { OnOk result (AreAsked (S.files shelf.old) world.now screened.now.readings
        (lines written.old (string_bytes text.old)) (lines written.new (string_bytes text.new)) chains.new) }
    ensures stopped { IfErr result
        (Stopped (S.files shelf.old) world.now screened.now.readings (lines written.old (string_bytes text.old))
        (lines written.new (string_bytes text.new)) (S.counts shelf.old).faults (S.counts shelf.new).faults) }
    ensures shelf { ShelfStays S.Shelf shelf.old shelf.new }
{
    chains_law();
    'passports: for i in 0..screened.count() {
        let x5u = screened.passport(i).x5u();
        let chain = match known_chain(alloc, world, shelf, provider, x5u) {
            Ok(chain) => chain,
            Err(stop) => return Err(stop),
        };
        match ask_chain(alloc, &chain, written, text) {
            Ok(()) => {}
            Err(_) => return Err(ChainError::Memory),
        }
        match chains.push(chain) {
            Ok(()) => {}
            Err(_) => return Err(ChainError::Memory),
        }
    }
    Ok(())
}

/// What is known of the chain of this x5u (RFC 7515, section 4.1.5).
fn known_chain<S: Shelf>(
    alloc: Global,
    world: &World,
    shelf: &mut S,
    provider: &mut AlwaysYes,
    x5u: &[u8],
) -> Result<ChainStatus, ChainError>
    ensures right { IfOk result
        (λ chain. IsRightWhere (S.files shelf.old) world.now always_yes x5u.now (state_of chain)) }
    ensures known { IfOk result (λ chain. is_unread (state_of chain) ≡ false) }
    ensures stopped { IfErr result
        (StopsFor world.now x5u.now (S.counts shelf.old).faults (S.counts shelf.new).faults) }
    ensures shelf { ShelfStays S.Shelf shelf.old shelf.new }
{
    right_law();
    let Some(name) = world.chains.file(x5u) else {
        return Ok(ChainStatus::Missing);
    };
    match chain_in(alloc, world, shelf, provider, name) {
        Ok(chain) => unless_unread(alloc, chain, name),
        Err(_) => Err(ChainError::Memory),
    }
}

/// The chain, unless the file of this name couldn't be read.
fn unless_unread(alloc: Global, chain: ChainStatus, name: &str) -> Result<ChainStatus, ChainError>
    ensures same { IfOk result (λ known. known ≡ chain) }
    ensures known { IfOk result (λ known. is_unread (state_of known) ≡ false) }
    ensures unread { OnErr result (is_unread (state_of chain) ≡ true) }
    ensures named { IfErr result (IsNamed name.now) }
{
    if is_unread(&chain) {
        return Err(stop_at(alloc, name));
    }
    Ok(chain)
}

/// Whether a file couldn't be read.
fn is_unread(chain: &ChainStatus) -> bool
    ensures { result ≡ is_unread (state_of chain.now) }
{
    match chain {
        ChainStatus::Judged(_) => false,
        ChainStatus::Missing => false,
        ChainStatus::TooLong => false,
        ChainStatus::Unread => true,
    }
}

/// The stop at the file of this name.
fn stop_at(alloc: Global, name: &str) -> ChainError
    ensures { IsNamed name.now result }
{
    match String::from_str(alloc, name) {
        Ok(name) => ChainError::Unread { name },
        Err(_) => ChainError::Memory,
    }
}
