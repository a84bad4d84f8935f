//! The chain of an x5u: its file read from the shelf, and judged.
ghost use Rattle.std.specs.Prelude.{◌≡◌, ◌≤◌, ◌+◌, ℕ, List, Some, IfOk};
ghost use Rattle.cert_store.specs.ChainMap.{listed};
ghost use Rattle.stir_outside.specs.Files.{tries};
ghost use Rattle.stir_outside.specs.Stays.{ProviderStays, ShelfStays};
ghost use Rattle.call_judging.specs.Causes.{HasCauseIf};
ghost use Rattle.call_judging.specs.Chains.{state_of};
ghost use Rattle.call_judging.specs.Fetched.{IsChainOf, IsContent, IsFetched, IsJudgedFile, bytes_in, certificates_in};
ghost use Rattle.call_judging.specs.Fetched.{chain_size, file_state, has_failed, is_read_file, is_unread_file};
ghost use Rattle.call_judging.specs.Fetched.{read_count};

use crate::chains::ChainStatus;
use cert_store::{Judged, World, judge_chain};
use std::alloc::{AllocError, Global};
use stir_outside::{Provider, Shelf, ShelfFault};
use verify_rules::right_law;
use x509_profile::MOST_CHAIN_BYTES;

/// What the shelf gave for the chain of an x5u (RFC 7515, section 4.1.5).
#[derive(Drop)]
pub enum Fetched {
    /// The bytes of the file that is listed for it.
    Bytes(Vec<u8>),
    /// There is no chain: no file is listed, or the listed file isn't there.
    Missing,
    /// The file has more bytes than a chain may have.
    TooLong,
    /// The file couldn't be read.
    Unread,
}

impl Fetched {
    /// What is known of the chain, by what was judged of its bytes.
    pub fn status(&self, judged: Option<Judged>) -> ChainStatus
        ensures { state_of result ≡ file_state self.now judged }
    {
        match self {
            Fetched::Bytes(_) => match judged {
                Some(judged) => ChainStatus::Judged(judged),
                None => ChainStatus::Missing,
            },
            Fetched::Missing => ChainStatus::Missing,
            Fetched::TooLong => ChainStatus::TooLong,
            Fetched::Unread => ChainStatus::Unread,
        }
    }
}

/// Reads the file that the chain map lists for this x5u. `AllocError` is the only error.
pub fn fetch<S: Shelf>(
    alloc: Global,
    world: &World,
    shelf: &mut S,
    x5u: &[u8],
) -> Result<Fetched, AllocError>
    ensures fetched { IfOk result (IsFetched (S.files shelf.old) world.now x5u.now) }
    ensures content { IfOk result (λ file. IsContent (S.files shelf.old) world.now x5u.now (bytes_in file)) }
    ensures unread { IfOk result
        (λ file. HasCauseIf (is_unread_file file) (S.counts shelf.old).faults (S.counts shelf.new).faults) }
    ensures read { IfOk result (λ file. (S.counts shelf.new).reads ≤ (S.counts shelf.old).reads + read_count file) }
    ensures rose { IfOk result
        (λ file. HasCauseIf (is_read_file file) (S.counts shelf.old).reads (S.counts shelf.new).reads) }
    ensures reads { (S.counts shelf.new).reads ≤ (S.counts shelf.old).reads + 1 }
    ensures tries { tries (S.counts shelf.new) ≤ tries (S.counts shelf.old) + 1 }
    ensures shelf { ShelfStays S.Shelf shelf.old shelf.new }
{
    right_law();
    match world.chains.file(x5u) {
        Some(name) => fetch_file(alloc, world, shelf, name),
        None => Ok(Fetched::Missing),
    }
}

/// Reads the file of this name, which the chain map lists. `AllocError` is the only error.
pub fn fetch_file<S: Shelf>(
    alloc: Global,
    world: &World,
    shelf: &mut S,
    name: &str,
) -> Result<Fetched, AllocError>
    ensures fetched { (x5u : List ℕ) → listed world.now.chains x5u ≡ Some name.now
        → IfOk result (IsFetched (S.files shelf.old) world.now x5u) }
    ensures content { (x5u : List ℕ) → listed world.now.chains x5u ≡ Some name.now
        → IfOk result (λ file. IsContent (S.files shelf.old) world.now x5u (bytes_in file)) }
    ensures unread { IfOk result
        (λ file. HasCauseIf (is_unread_file file) (S.counts shelf.old).faults (S.counts shelf.new).faults) }
    ensures read { IfOk result (λ file. (S.counts shelf.new).reads ≤ (S.counts shelf.old).reads + read_count file) }
    ensures rose { IfOk result
        (λ file. HasCauseIf (is_read_file file) (S.counts shelf.old).reads (S.counts shelf.new).reads) }
    ensures reads { (S.counts shelf.new).reads ≤ (S.counts shelf.old).reads + 1 }
    ensures tries { tries (S.counts shelf.new) ≤ tries (S.counts shelf.old) + 1 }
    ensures shelf { ShelfStays S.Shelf shelf.old shelf.new }
{
    right_law();
    match shelf.read(alloc, name, MOST_CHAIN_BYTES) {
        Ok(bytes) => Ok(Fetched::Bytes(bytes)),
        Err(fault) => match fault {
            ShelfFault::Missing => Ok(Fetched::Missing),
            ShelfFault::Long => Ok(Fetched::TooLong),
            ShelfFault::Failed => Ok(Fetched::Unread),
            ShelfFault::Memory => Err(AllocError),
        },
    }
}

/// Judges the chain in a file that was read, if there are bytes of it. `AllocError` is the only error. The provider is
/// asked at most for each certificate of the chain, also if memory runs out.
pub fn judge_file<P: Provider>(
    alloc: Global,
    world: &World,
    file: &Fetched,
    provider: &mut P,
) -> Result<Option<Judged>, AllocError>
    ensures judged { IfOk result (IsJudgedFile world.now (P.says provider.old) file.now) }
    ensures asked { IfOk result (λ chain. P.asks provider.new ≤ P.asks provider.old + certificates_in chain) }
    ensures most { P.asks provider.new ≤ P.asks provider.old + chain_size (bytes_in file.now) }
    ensures failed { IfOk result
        (λ chain. HasCauseIf (has_failed chain) (P.faults provider.old) (P.faults provider.new)) }
    ensures asks { P.asks provider.old ≤ P.asks provider.new }
    ensures provider { ProviderStays P.Provider provider.old provider.new }
{
    match file {
        Fetched::Bytes(bytes) => judge_bytes(alloc, world, bytes.as_slice(), provider),
        Fetched::Missing => Ok(None),
        Fetched::TooLong => Ok(None),
        Fetched::Unread => Ok(None),
    }
}

/// Judges the chain that these bytes are.
fn judge_bytes<P: Provider>(
    alloc: Global,
    world: &World,
    bytes: &[u8],
    provider: &mut P,
) -> Result<Option<Judged>, AllocError>
    ensures judged { IfOk result (IsChainOf world.now (P.says provider.old) bytes.now) }
    ensures asked { IfOk result (λ chain. P.asks provider.new ≤ P.asks provider.old + certificates_in chain) }
    ensures most { P.asks provider.new ≤ P.asks provider.old + chain_size (Some bytes.now) }
    ensures failed { IfOk result
        (λ chain. HasCauseIf (has_failed chain) (P.faults provider.old) (P.faults provider.new)) }
    ensures asks { P.asks provider.old ≤ P.asks provider.new }
    ensures provider { ProviderStays P.Provider provider.old provider.new }
{
    let judged = judge_chain(alloc, bytes, &world.anchors, &world.table, provider)?;
    Ok(Some(judged))
}
