//! Laws: a function here does nothing, and its clauses are the law.
ghost use Rattle.std.specs.Prelude.{◌<◌, List, length, ℕ};
ghost use Rattle.std.specs.List.{slice_get};
ghost use Rattle.cert_store.specs.Judged.{judged_of};
ghost use Rattle.cert_store.specs.Rules.{Says};
ghost use Rattle.delegation.specs.Coverage.{Table};
ghost use Rattle.der_reader.specs.Elem.{AllBytes};
ghost use Rattle.x509_profile.specs.View.{CertView};
ghost use Rattle.open_calls.specs.Key.{HasLeaf, LeafIs};

use cert_store::judged_law;
use x509_profile::chain_law;

/// The first certificate of a judged chain is the first of those that its bytes are, one after another; and if it has
/// none, the bytes are no certificates. More bytes than a chain may have are none.
#[tactic(auto, using(crate::proofs::KeyLaws::judged_leaf))]
pub fn leaf_law()
    ensures judged { (anchors : List CertView) (table : Table) (says : Says) (bytes : List ℕ) → AllBytes bytes
        → LeafIs bytes (slice_get (judged_of anchors table says bytes).certificates 0) }
    ensures long { (bytes : List ℕ) (leaf : CertView) → 49152 < length bytes → HasLeaf bytes leaf → ⊥ }
{
    chain_law();
    judged_law();
}
