ghost use Rattle.std.specs.Prelude.{◌≡◌, ℕ, ◌≤◌, Bool, List, Option, IfOk};
ghost use Rattle.stir_outside.specs.Count.{HasCause, one_more};

use crate::source::Failed;

/// What confirms and makes the signatures: ES256, that is ECDSA on P-256 with SHA-256 (RFC 7518, section 3.4).
///
/// `says` tells of a key, a digest and a signature whether the signature is good, and `signs` what the key of a name
/// makes of a digest; no call changes them. `asks` counts the calls, `faults` the failed ones, and `sign_faults` those
/// of them that were to sign; each in 64 bits.
pub trait Provider {
    ghost says: { Self → List ℕ → List ℕ → List ℕ → Bool };

    ghost signs: { Self → List ℕ → List ℕ → Option (List ℕ) };

    ghost asks: { Self → ℕ };

    ghost faults: { Self → ℕ };

    ghost sign_faults: { Self → ℕ };

    /// Whether `signature`, r then s in 32 bytes each, is one of `key` over `digest`. The key is a point in its
    /// uncompressed form (SEC 1, section 2.3.3). `Failed` comes only if `faults` rose.
    fn confirm(
        &mut self,
        key: &[u8; 65],
        digest: &[u8; 32],
        signature: &[u8; 64],
    ) -> Result<bool, Failed>
        ensures same_says { says self.new ≡ says self.old }
        ensures same_signs { signs self.new ≡ signs self.old }
        ensures asks { asks self.new ≡ one_more (asks self.old) }
        ensures asks_stay { asks self.old ≤ asks self.new }
        ensures cause { HasCause (faults self.old) (faults self.new) result }
        ensures signs_nothing { sign_faults self.new ≡ sign_faults self.old }
        ensures answer { IfOk result (λ good. good ≡ says self.old key.now digest.now signature.now) };

    /// The signature over `digest` by the key that has this name, r then s in 32 bytes each; None if the provider has
    /// none. `Failed` comes only if `faults` and `sign_faults` rose.
    fn sign(&mut self, name: &[u8], digest: &[u8; 32]) -> Result<Option<[u8; 64]>, Failed>
        ensures same_says { says self.new ≡ says self.old }
        ensures same_signs { signs self.new ≡ signs self.old }
        ensures asks { asks self.new ≡ one_more (asks self.old) }
        ensures asks_stay { asks self.old ≤ asks self.new }
        ensures cause { HasCause (faults self.old) (faults self.new) result }
        ensures sign_cause { HasCause (sign_faults self.old) (sign_faults self.new) result }
        ensures answer { IfOk result (λ made. made ≡ signs self.old name.now digest.now) };
}
