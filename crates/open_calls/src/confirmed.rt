//! A provider of signatures that confirms what was confirmed beforehand.
ghost use Rattle.std.specs.Prelude.{◌≡◌, ℕ, true, List, map};
ghost use Rattle.std.specs.List.{slice_get};
ghost use Rattle.cert_store.specs.Questions.{seen};
ghost use Rattle.cert_store.specs.Rules.{QuestionView, question};
ghost use Rattle.open_calls.specs.Confirmed.{IsConfirmed, confirmed, is_this, is_yes, says_by, was_confirmed};

use cert_store::Question;
use std::marker::Model;
use stir_outside::{Failed, Provider};

/// A provider of signatures that says yes to those questions that were confirmed and to nothing else, and has one
/// signature for whatever it is asked to sign, or none. It never fails. A contract sees what was confirmed, that
/// signature, and how often it was asked.
#[derive(Drop)]
pub(crate) struct Confirmed<'a> {
    questions: &'a [Question<'a>],
    good: &'a [u8],
    made: Option<[u8; 64]>,
    asks: u64,
}

impl<'a> Model for Confirmed<'a> {
    ghost use Rattle.std.specs.Prelude.{map};
    ghost use Rattle.cert_store.specs.Questions.{seen};
    ghost use Rattle.open_calls.specs.Confirmed.{ConfirmedView, confirmed};

    ghost Value = { ConfirmedView };

    ghost view = { λ p.
        record { good = confirmed (map seen p.questions.now) p.good.now; made = p.made; asks = p.asks } };
}

impl<'a> Confirmed<'a> {
    /// Of these questions those are confirmed whose byte isn't 0. One without a byte isn't. This signature is made, or
    /// none.
    pub(crate) fn new(
        questions: &'a [Question<'a>],
        good: &'a [u8],
        made: Option<[u8; 64]>,
    ) -> Confirmed<'a>
        ensures exact { result ≡ record { good = confirmed (map seen questions.now) good.now; made = made; asks = 0 } }

        // It says yes to a question exactly if that was confirmed: it stands at a place, and the byte of that place
        // isn't 0.
        ensures yes { (asked : QuestionView) → IsConfirmed (map seen questions.now) good.now asked
            → says_by result.good asked.key asked.digest asked.signature ≡ true }
        ensures alone { (key digest signature : List ℕ) → says_by result.good key digest signature ≡ true
            → IsConfirmed (map seen questions.now) good.now (question key digest signature) }
    {
        Confirmed {
            questions,
            good,
            made,
            asks: 0,
        }
    }
}

impl<'a> Provider for Confirmed<'a> {
    ghost says = { λ p. says_by p.good };

    ghost signs = { λ p _ _. p.made };

    ghost asks = { λ p. p.asks };

    ghost faults = { λ _. 0 };

    ghost sign_faults = { λ _. 0 };

    fn confirm(
        &mut self,
        key: &[u8; 65],
        digest: &[u8; 32],
        signature: &[u8; 64],
    ) -> Result<bool, Failed> {
        self.asks = self.asks.saturating_add(1);
        Ok(says(self.questions, self.good, key, digest, signature))
    }

    fn sign(&mut self, _name: &[u8], _digest: &[u8; 32]) -> Result<Option<[u8; 64]>, Failed> {
        self.asks = self.asks.saturating_add(1);
        Ok(self.made)
    }
}

/// Whether one of the questions is this one and was confirmed.
#[tactic(auto, using(crate::proofs::ConfirmedSteps::none_yet, crate::proofs::ConfirmedSteps::goes_on, crate::proofs::ConfirmedSteps::is_here, crate::proofs::ConfirmedSteps::is_absent))]
fn says(
    questions: &[Question<'_>],
    good: &[u8],
    key: &[u8; 65],
    digest: &[u8; 32],
    signature: &[u8; 64],
) -> bool
    ensures { result ≡ says_by (confirmed (map seen questions.now) good.now) key.now digest.now signature.now }
{
    'questions: for i in 0..questions.len() {
        if was_confirmed(questions, good, i, key, digest, signature) {
            return true;
        }
    }
    false
}

/// Whether the question at an index is this one and was confirmed.
fn was_confirmed(
    questions: &[Question<'_>],
    good: &[u8],
    i: usize,
    key: &[u8; 65],
    digest: &[u8; 32],
    signature: &[u8; 64],
) -> bool
    ensures { result ≡ was_confirmed questions.now good.now i key.now digest.now signature.now }
{
    match questions.get(i) {
        Some(question) => is_yes(good, i) && is_this(question, key, digest, signature),
        None => false,
    }
}

/// Whether the byte at an index is there and isn't 0.
fn is_yes(good: &[u8], i: usize) -> bool
    ensures { result ≡ is_yes (slice_get good.now i) }
{
    match good.get(i) {
        Some(byte) => *byte != 0,
        None => false,
    }
}

/// Whether a question is this one.
fn is_this(question: &Question<'_>, key: &[u8; 65], digest: &[u8; 32], signature: &[u8; 64]) -> bool
    ensures { result ≡ is_this key.now digest.now signature.now (seen question.now) }
{
    key == question.key && digest == question.digest && signature == question.signature
}
