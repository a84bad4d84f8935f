//! Rule 19: what the certificates of a chain demand of the claims of a PASSporT.
ghost use Rattle.std.specs.Prelude.{◌≡◌, Some};
ghost use Rattle.std.specs.Option.{option_copied};
ghost use Rattle.passport_json.specs.Signed.{payload_in};
ghost use Rattle.serde_json.specs.View.{view};
ghost use Rattle.verify_rules.specs.Unmet.{first_unmet, is_met};

use crate::signed_token::SignedToken;
use cert_store::Judged;
use claim_constraints::Constraints;
use serde_json::Value;

/// The number of the first certificate of a chain whose constraints the payload of the PASSporT doesn't meet; the
/// leaf's is 1 (after RFC 8226, section 8; this project's own rule).
#[tactic(auto, using(crate::proofs::UnmetSteps::unmet_more, crate::proofs::UnmetSteps::unmet_here, crate::proofs::UnmetSteps::unmet_done))]
pub(crate) fn first_unmet(judged: &Judged, signed: &SignedToken) -> Option<u8>
    ensures { result ≡ first_unmet (payload_in signed.now) 1 judged.now.certificates }
{
    let payload = signed.payload();
    'certificates: for index in 0..judged.length() {
        let number = index + 1;
        if !is_met(judged.constraints(number), payload) {
            return Some(number);
        }
    }
    None
}

/// Whether the payload meets the constraints, if there are any.
fn is_met(constraints: Option<&Constraints>, payload: &Value) -> bool
    ensures { result ≡ is_met (option_copied constraints.entry) (Some (view payload.now)) }
{
    match constraints {
        Some(constraints) => constraints.meets(payload),
        None => true,
    }
}
