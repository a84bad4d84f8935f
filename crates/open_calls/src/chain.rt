//! A chain of certificates that is judged once.
ghost use Rattle.std.specs.Prelude.{◌≡◌, ◌≤◌, ◌-◌, List, [], ℕ, IfOk, length, map, true};
ghost use Rattle.std.specs.List.{slice_get};
ghost use Rattle.std.specs.Option.{option_copied};
ghost use Rattle.cert_store.specs.Questions.{seen};
ghost use Rattle.verify_rules.specs.States.{seen as state_seen};
ghost use Rattle.call_judging.specs.Chains.{state_of};
ghost use Rattle.call_judging.specs.CallQuestions.{chain_questions};
ghost use Rattle.open_calls.specs.Worlds.{WorldView};
ghost use Rattle.open_calls.specs.OpenChains.{IsChainOf, certificates_of, chain_asked, is_known, state_by};
ghost use Rattle.open_calls.specs.OpenChains.{with_confirmed};

use crate::confirmed::Confirmed;
use crate::world::OpenWorld;
use call_judging::{ChainStatus, chain_questions};
use cert_store::{Question, judge_chain};
use std::alloc::{AllocError, Global};
use std::marker::Model;
use stir_outside::Provider;
use verify_rules::ChainState;
use x509_profile::{Certificate, MOST_CHAIN_BYTES};

/// A chain of certificates, judged under a world by what was confirmed of its signatures. In contracts it is its bytes
/// and what is known of it.
#[derive(Drop)]
pub struct OpenChain {
    bytes: Vec<u8>,
    status: ChainStatus,
}

impl Model for OpenChain {
    ghost use Rattle.std.specs.Prelude.{◌≡◌, true};
    ghost use Rattle.call_judging.specs.Chains.{state_of};
    ghost use Rattle.open_calls.specs.OpenChains.{ChainView, is_known};

    ghost Value = { ChainView };

    ghost view = { λ c. record { bytes = c.bytes.items; state = state_of c.status } };

    ghost invariant = { λ c. is_known (state_of c.status) ≡ true };
}

impl OpenChain {
    /// The chain of these bytes, judged under a world. None of its questions is confirmed. `AllocError` is the only
    /// error.
    #[tactic(auto, using(crate::proofs::ChainLaws::opened))]
    pub fn open(alloc: Global, world: &OpenWorld, bytes: &[u8]) -> Result<OpenChain, AllocError>
        ensures { IfOk result (IsChainOf world.now bytes.now []) }
    {
        let mut provider = Confirmed::new(&[], &[], None);
        let chain = OpenChain::judged(alloc, world, bytes, &mut provider)?;
        Ok(chain)
    }

    /// What its verifier is to confirm of it, from the leaf's signature on: at most six questions, and none if rule 11,
    /// 12 or 14 is broken. `AllocError` is the only error.
    #[tactic(auto, using(crate::proofs::ChainLaws::few, crate::proofs::ChainLaws::asked_of))]
    pub fn questions(&self, alloc: Global) -> Result<Vec<Question<'_>>, AllocError>
        ensures exact { IfOk result (λ asked. map seen asked.items ≡ chain_questions self.now.state) }
        ensures few { IfOk result (λ asked. length asked.items ≤ 6) }

        // They depend on no answer: of a chain that was opened under a world they are those of its bytes.
        ensures same { (world : WorldView) (bytes good : List ℕ) → IsChainOf world bytes good self.now
            → chain_questions self.now.state ≡ chain_asked world bytes }
    {
        let _few = self.length();
        let asked = chain_questions(alloc, self.state())?;
        Ok(asked)
    }

    /// The same chain, judged anew under a world with these of its questions confirmed: there is a byte for each, which
    /// is 0 if it wasn't. A question without a byte wasn't. `AllocError` is the only error.
    #[tactic(auto, using(crate::proofs::ChainLaws::confirmed_of))]
    pub fn confirm(
        &self,
        alloc: Global,
        world: &OpenWorld,
        good: &[u8],
    ) -> Result<OpenChain, AllocError>
        ensures exact { IfOk result (λ chain. chain ≡ with_confirmed world.now self.now good.now) }

        // Of a chain that was opened under this world it is the chain with these confirmed, and with those alone.
        ensures opened { (bytes before : List ℕ) → IsChainOf world.now bytes before self.now
            → IfOk result (IsChainOf world.now bytes good.now) }
    {
        let questions = self.questions(alloc)?;
        let mut provider = Confirmed::new(questions.as_slice(), good, None);
        let chain = OpenChain::judged(alloc, world, &self.bytes, &mut provider)?;
        Ok(chain)
    }

    /// The chain of these bytes, by a provider that never fails.
    fn judged<P: Provider>(
        alloc: Global,
        world: &OpenWorld,
        bytes: &[u8],
        provider: &mut P,
    ) -> Result<OpenChain, AllocError>
        requires never_fails { (p : P) → P.faults p ≡ 0 }
        ensures { IfOk result (λ chain.
            chain ≡ record { bytes = bytes.now; state = state_by world.now (P.says provider.old) bytes.now }) }
    {
        let status = judged_bytes(alloc, world, bytes, provider)?;
        Ok(OpenChain {
            bytes: Vec::from_slice(alloc, bytes)?,
            status,
        })
    }

    /// What is known of it, as the rules take it.
    pub fn state(&self) -> ChainState<'_>
        ensures exact { state_seen result ≡ self.now.state }
        ensures known { is_known self.now.state ≡ true }
    {
        self.status.state()
    }

    /// Its bytes.
    pub fn bytes(&self) -> &[u8]
        ensures { result.now ≡ self.now.bytes }
    {
        &self.bytes
    }

    /// How many certificates it has, at most six; 0 if it is too long or rule 11 is broken.
    pub fn length(&self) -> u8
        ensures exact { result ≡ length (certificates_of self.now.state) }
        ensures few { result ≤ 6 }
    {
        match &self.status {
            ChainStatus::Judged(judged) => judged.length(),
            ChainStatus::Missing => 0,
            ChainStatus::TooLong => 0,
            ChainStatus::Unread => 0,
        }
    }

    /// The leaf, which is certificate 1, if it has any certificate.
    pub fn leaf(&self) -> Option<&Certificate>
        ensures { option_copied result ≡ slice_get (certificates_of self.now.state) 0 }
    {
        match &self.status {
            ChainStatus::Judged(judged) => judged.leaf(),
            ChainStatus::Missing => None,
            ChainStatus::TooLong => None,
            ChainStatus::Unread => None,
        }
    }
}

/// What is known of a chain of these bytes, by a provider that never fails. `AllocError` is the only error.
fn judged_bytes<P: Provider>(
    alloc: Global,
    world: &OpenWorld,
    bytes: &[u8],
    provider: &mut P,
) -> Result<ChainStatus, AllocError>
    requires never_fails { (p : P) → P.faults p ≡ 0 }
    ensures exact { IfOk result (λ status. state_of status ≡ state_by world.now (P.says provider.old) bytes.now) }
    ensures known { IfOk result (λ status. is_known (state_of status) ≡ true) }
{
    if bytes.len() > MOST_CHAIN_BYTES {
        return Ok(ChainStatus::TooLong);
    }
    let judged = judge_chain(alloc, bytes, world.anchors(), world.table(), provider)?;
    Ok(ChainStatus::Judged(judged))
}
