//! A provider over an answers file that never fails.
ghost use Rattle.std.specs.Prelude.{◌≡◌, ◌≤◌, Ok, IfOk};
ghost use Rattle.stir_outside.specs.Count.{HasCause, one_more};
ghost use Rattle.stir_outside.specs.Held.{held_says, held_signs};

use crate::answers::held::Answers;
use crate::provider::Provider;
use crate::source::Failed;
use std::marker::Model;

/// A provider that answers as an answers file does and never fails. Its count of faults is the constant 0, so that
/// generic code over it knows that each question is answered.
#[derive(Drop)]
pub struct SteadyProvider<'a> {
    answers: &'a Answers,
    asks: u64,
}

impl<'a> Model for SteadyProvider<'a> {
    ghost use Rattle.stir_outside.specs.Provided.{SteadyState};

    ghost Value = { SteadyState };

    ghost view = { λ p. record { held = p.answers.now; asks = p.asks } };
}

impl<'a> SteadyProvider<'a> {
    /// A provider of these answers.
    pub(crate) fn new(answers: &'a Answers) -> SteadyProvider<'a>
        ensures { result ≡ record { held = answers.now; asks = 0 } }
    {
        SteadyProvider { answers, asks: 0 }
    }

    /// How many calls were made.
    pub fn asks(&self) -> u64
        ensures { result ≡ self.now.asks }
    {
        self.asks
    }
}

impl<'a> Provider for SteadyProvider<'a> {
    ghost says = { λ p. held_says p.held };

    ghost signs = { λ p. held_signs p.held };

    ghost asks = { λ p. p.asks };

    ghost faults = { λ _. 0 };

    ghost sign_faults = { λ _. 0 };

    fn confirm(
        &mut self,
        key: &[u8; 65],
        digest: &[u8; 32],
        signature: &[u8; 64],
    ) -> Result<bool, Failed>
        ensures same_says { held_says self.new.held ≡ held_says self.old.held }
        ensures same_signs { held_signs self.new.held ≡ held_signs self.old.held }
        ensures asks { self.new.asks ≡ one_more self.old.asks }
        ensures asks_stay { self.old.asks ≤ self.new.asks }
        ensures cause { HasCause 0 0 result }
        ensures answer { IfOk result (λ good. good ≡ held_says self.old.held key.now digest.now signature.now) }

        // It answers each call.
        ensures steady { result ≡ Ok (held_says self.old.held key.now digest.now signature.now) }
    {
        self.asks = self.asks.saturating_add(1);
        Ok(self.answers.says(key, digest, signature))
    }

    fn sign(&mut self, name: &[u8], digest: &[u8; 32]) -> Result<Option<[u8; 64]>, Failed>
        ensures same_says { held_says self.new.held ≡ held_says self.old.held }
        ensures same_signs { held_signs self.new.held ≡ held_signs self.old.held }
        ensures asks { self.new.asks ≡ one_more self.old.asks }
        ensures asks_stay { self.old.asks ≤ self.new.asks }
        ensures cause { HasCause 0 0 result }
        ensures answer { IfOk result (λ made. made ≡ held_signs self.old.held name.now digest.now) }

        // It answers each call.
        ensures steady { result ≡ Ok (held_signs self.old.held name.now digest.now) }
    {
        self.asks = self.asks.saturating_add(1);
        Ok(self.answers.signs(name, digest))
    }
}
