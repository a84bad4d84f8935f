//! Rule 15: signatures that the provider says are good.
ghost use Rattle.std.specs.Prelude.{◌≡◌, ◌+◌, ◌≤◌, ℕ, length};
ghost use Rattle.cert_store.specs.Asking.{Answers, FailedAt, FailedWithCause, RoseBy, questions};

use crate::judged::Asked;
use crate::path::Key;
use stir_outside::{Failed, Provider};
use x509_profile::Certificate;

/// Asks the provider for the signature of each certificate of a path that isn't an anchor, once and under its issuer's
/// key. It goes from the leaf on up to the first that isn't answered Yes.
#[tactic(auto, using(crate::proofs::AskSteps::passed_over, crate::proofs::AskSteps::confirmed, crate::proofs::AskSteps::refused, crate::proofs::AskSteps::left_open, crate::proofs::AskSteps::was_asked, crate::proofs::AskSteps::counted_over, crate::proofs::AskSteps::counted, crate::proofs::AskSteps::rose_none))]
pub(crate) fn ask<P: Provider>(
    chain: &[Certificate],
    keys: &[Option<Key>],
    provider: &mut P,
) -> Asked
    requires few { length chain.now ≤ 6 }
    requires keyed { length keys.now ≡ length chain.now }
    ensures answers { Answers (P.says provider.old) chain.now keys.now result }
    ensures question { FailedAt keys.now result }
    ensures cause { FailedWithCause (P.faults provider.old) (P.faults provider.new) result }
    ensures asks { RoseBy (questions keys.now result) (P.asks provider.old) (P.asks provider.new) }
    ensures asks_most { P.asks provider.new ≤ P.asks provider.old + length chain.now }
    ensures same_says { P.says provider.new ≡ P.says provider.old }
    ensures same_signs { P.signs provider.new ≡ P.signs provider.old }
{
    'certificates: for (index, certificate) in chain.iter().enumerate() {
        let Some(key) = &keys[index] else {
            continue;
        };
        let part = index as u8 + 1;
        match provider.confirm(key, certificate.digest(), certificate.signature()) {
            Ok(true) => {}
            Ok(false) => return Asked::No { part },
            Err(Failed) => return Asked::Failed { part },
        }
    }
    Asked::Yes
}
