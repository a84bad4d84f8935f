//! A provider to which each signature is good.
ghost use Rattle.std.specs.Prelude.{◌≡◌, ◌≤◌, IfOk, None, Ok, true};
ghost use Rattle.call_judging.specs.AlwaysYes.{always_yes};
ghost use Rattle.stir_outside.specs.Count.{HasCause, one_more};

use std::marker::Model;
use stir_outside::{Failed, Provider};

/// A provider of signatures to which each one is good, that makes none and never fails. It counts what it is asked, and
/// a contract sees that count.
#[derive(Drop)]
pub struct AlwaysYes {
    asks: u64,
}

impl Model for AlwaysYes {
    ghost use Rattle.std.specs.Prelude.{ℕ};

    ghost Value = { ℕ };

    ghost view = { λ p. p.asks };
}

impl AlwaysYes {
    /// A provider that was asked nothing.
    pub fn new() -> AlwaysYes
        ensures { result ≡ 0 }
    {
        AlwaysYes { asks: 0 }
    }

    /// How often it was asked.
    pub fn asks(&self) -> u64
        ensures { result ≡ self.now }
    {
        self.asks
    }
}

impl Provider for AlwaysYes {
    ghost says = { λ _. always_yes };

    ghost signs = { λ _ _ _. None };

    ghost asks = { λ p. p };

    ghost faults = { λ _. 0 };

    ghost sign_faults = { λ _. 0 };

    fn confirm(
        &mut self,
        _key: &[u8; 65],
        _digest: &[u8; 32],
        _signature: &[u8; 64],
    ) -> Result<bool, Failed> {
        self.asks = self.asks.saturating_add(1);
        Ok(true)
    }

    fn sign(&mut self, _name: &[u8], _digest: &[u8; 32]) -> Result<Option<[u8; 64]>, Failed> {
        self.asks = self.asks.saturating_add(1);
        Ok(None)
    }
}
