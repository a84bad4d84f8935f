//! A provider that fails on command, and that of an answers file which never fails.

use stir_outside::{Answers, Failed, Provider};

const DIGEST: [u8; 32] = [0x0C; 32];

const SIGNATURE: [u8; 64] = [0xF1; 64];

/// The point in its uncompressed form whose other bytes are all this one.
fn key(byte: u8) -> [u8; 65] {
    let mut key = [byte; 65];
    key[0] = 4;
    key
}

/// A provider that confirms everything and signs nothing, while it isn't broken.
#[derive(Drop)]
struct Breakable {
    is_broken: bool,
    asks: u64,
    faults: u64,
    faults_at_signing: u64,
}

impl Provider for Breakable {
    ghost use Rattle.std.specs.Prelude.{true, None};

    ghost says = { λ _ _ _ _. true };

    ghost signs = { λ _ _ _. None };

    ghost asks = { λ p. p.asks };

    ghost faults = { λ p. p.faults };

    ghost sign_faults = { λ p. p.faults_at_signing };

    fn confirm(
        &mut self,
        _key: &[u8; 65],
        _digest: &[u8; 32],
        _signature: &[u8; 64],
    ) -> Result<bool, Failed> {
        self.asks = self.asks.saturating_add(1);
        if self.is_broken {
            self.faults = self.faults.saturating_add(1);
            return Err(Failed);
        }
        Ok(true)
    }

    fn sign(&mut self, _name: &[u8], _digest: &[u8; 32]) -> Result<Option<[u8; 64]>, Failed> {
        self.asks = self.asks.saturating_add(1);
        if self.is_broken {
            self.faults = self.faults.saturating_add(1);
            self.faults_at_signing = self.faults_at_signing.saturating_add(1);
            return Err(Failed);
        }
        Ok(None)
    }
}

/// Which of three calls, a question, an order and a question again, are answered.
fn answered<P: Provider + Send>(provider: &mut P) -> [bool; 3] {
    let first = provider.confirm(&key(0xAB), &DIGEST, &SIGNATURE).is_ok();
    let second = provider.sign(b"a", &DIGEST).is_ok();
    let third = provider.confirm(&key(0xAC), &DIGEST, &SIGNATURE).is_ok();
    [first, second, third]
}

#[test]
fn a_provider_can_fail_on_command(rt: HostRuntime) {
    let mut provider = Breakable {
        is_broken: false,
        asks: 0,
        faults: 0,
        faults_at_signing: 0,
    };
    assert!(rt; answered(&mut provider) == [true, true, true] && provider.faults == 0);
    provider.is_broken = true;
    assert!(rt; answered(&mut provider) == [false, false, false] && provider.faults == 3);
    assert!(rt; provider.asks == 6);
}

#[test]
fn a_steady_provider_answers_every_call(rt: HostRuntime) {
    let answers = Answers::read(rt.alloc(), b"").ok().expect(&rt, "answers");
    let mut provider = answers.steady();
    assert!(rt; answered(&mut provider) == [true, true, true]);
    assert!(rt; provider.confirm(&key(0xAB), &DIGEST, &SIGNATURE) == Ok(false));
    assert!(rt; provider.sign(b"a", &DIGEST) == Ok(None));
    assert!(rt; provider.asks() == 5);
}
