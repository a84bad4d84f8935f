//! A provider over an answers file.
ghost use Rattle.std.specs.Prelude.{◌≡◌, ◌≤◌, IfOk, OnErr, is_err};
ghost use Rattle.stir_outside.specs.Count.{HasCause, faults_after, one_more};
ghost use Rattle.stir_outside.specs.Held.{held_says, held_signs};
ghost use Rattle.stir_outside.specs.Memory.{is_failing};

use crate::answers::held::Answers;
use crate::provider::Provider;
use crate::source::Failed;
use std::marker::Model;

/// A provider that answers as an answers file does, and fails at chosen calls.
#[derive(Drop)]
pub struct AnswerProvider<'a> {
    answers: &'a Answers,
    failing: Vec<u64>,
    asks: u64,
    faults: u64,
    sign_faults: u64,
}

impl<'a> Model for AnswerProvider<'a> {
    ghost use Rattle.stir_outside.specs.Provided.{ProviderState};

    ghost Value = { ProviderState };

    ghost view = { λ p. record {
      held = p.answers.now;
      failing = p.failing.items;
      asks = p.asks;
      faults = p.faults;
      sign_faults = p.sign_faults;
    } };
}

impl<'a> AnswerProvider<'a> {
    ghost use Rattle.stir_outside.specs.Provided.{Asked};

    /// A provider of these answers whose listed calls fail.
    pub(crate) fn new(answers: &'a Answers, failing: Vec<u64>) -> AnswerProvider<'a>
        ensures { result
            ≡ record { held = answers.now; failing = failing.items; asks = 0; faults = 0; sign_faults = 0 } }
    {
        AnswerProvider {
            answers,
            failing,
            asks: 0,
            faults: 0,
            sign_faults: 0,
        }
    }

    /// How many calls were made.
    pub fn asks(&self) -> u64
        ensures { result ≡ self.now.asks }
    {
        self.asks
    }

    /// How many calls failed.
    pub fn faults(&self) -> u64
        ensures { result ≡ self.now.faults }
    {
        self.faults
    }

    /// Counts a call; it fails if it is listed.
    fn ask(&mut self) -> Result<(), Failed>
        ensures asked { Asked self.old self.new result }
        ensures signs_nothing { self.new.sign_faults ≡ self.old.sign_faults }
    {
        self.asks = self.asks.saturating_add(1);
        if self.failing.contains(&self.asks) {
            self.faults = self.faults.saturating_add(1);
            return Err(Failed);
        }
        Ok(())
    }
}

impl<'a> Provider for AnswerProvider<'a> {
    ghost use Rattle.std.specs.Prelude.{[]};

    ghost says = { λ p. held_says p.held };

    ghost signs = { λ p. held_signs p.held };

    ghost asks = { λ p. p.asks };

    ghost faults = { λ p. p.faults };

    ghost sign_faults = { λ p. p.sign_faults };

    fn confirm(
        &mut self,
        key: &[u8; 65],
        digest: &[u8; 32],
        signature: &[u8; 64],
    ) -> Result<bool, Failed>
        ensures same_says { held_says self.new.held ≡ held_says self.old.held }
        ensures same_signs { held_signs self.new.held ≡ held_signs self.old.held }
        ensures asks { self.new.asks ≡ one_more self.old.asks }
        ensures asks_stay { self.old.asks ≤ self.new.asks }
        ensures cause { HasCause self.old.faults self.new.faults result }
        ensures signs_nothing { self.new.sign_faults ≡ self.old.sign_faults }
        ensures answer { IfOk result (λ good. good ≡ held_says self.old.held key.now digest.now signature.now) }

        // Exactly the listed calls fail; so if none is listed, `faults` stays as it was.
        ensures fails { is_err result ≡ is_failing self.old.asks self.old.failing }
        ensures faults { self.new.faults ≡ faults_after self.old.faults result }
        ensures failing { self.new.failing ≡ self.old.failing }
        ensures steady { self.old.failing ≡ [] → self.new.faults ≡ self.old.faults }
    {
        self.ask()?;
        Ok(self.answers.says(key, digest, signature))
    }

    fn sign(&mut self, name: &[u8], digest: &[u8; 32]) -> Result<Option<[u8; 64]>, Failed>
        ensures same_says { held_says self.new.held ≡ held_says self.old.held }
        ensures same_signs { held_signs self.new.held ≡ held_signs self.old.held }
        ensures asks { self.new.asks ≡ one_more self.old.asks }
        ensures asks_stay { self.old.asks ≤ self.new.asks }
        ensures cause { HasCause self.old.faults self.new.faults result }
        ensures sign_cause { HasCause self.old.sign_faults self.new.sign_faults result }
        ensures answer { IfOk result (λ made. made ≡ held_signs self.old.held name.now digest.now) }

        // As with `confirm`.
        ensures fails { is_err result ≡ is_failing self.old.asks self.old.failing }
        ensures faults { self.new.faults ≡ faults_after self.old.faults result }
        ensures sign_faults { self.new.sign_faults ≡ faults_after self.old.sign_faults result }
        ensures failing { self.new.failing ≡ self.old.failing }
        ensures steady { self.old.failing ≡ [] → self.new.faults ≡ self.old.faults }
    {
        if let Err(failed) = self.ask() {
            self.sign_faults = self.sign_faults.saturating_add(1);
            return Err(failed);
        }
        Ok(self.answers.signs(name, digest))
    }
}
