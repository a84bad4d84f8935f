//! The forms that texts, and claims with their values, have to have.
ghost use Rattle.std.specs.Prelude.{◌≡◌};
ghost use Rattle.std.specs.List.{list_all};
ghost use Rattle.claim_constraints.specs.Constraints.{is_permit};
ghost use Rattle.claim_constraints.specs.Form.{passes};
ghost use Rattle.claim_constraints.specs.declared.form.Form.TheVariants.{Value};

use crate::form::Form;
use crate::permit::{Permit, Permits};
use crate::texts::Texts;

/// Whether all of these texts are of this form.
#[tactic(auto, using(crate::proofs::PlaceLaws::fails_at, crate::proofs::PlaceLaws::all_next))]
pub(crate) fn are_of(texts: &Texts, form: Form) -> bool
    ensures { result ≡ list_all (passes form) texts.now }
{
    for index in 0..texts.count() {
        if !form.passes(texts.text(index)) {
            return false;
        }
    }
    true
}

/// Whether all of these are claims with values.
#[tactic(auto, using(crate::proofs::PlaceLaws::fails_at, crate::proofs::PlaceLaws::all_next))]
pub(crate) fn are_permits(permits: &Permits) -> bool
    ensures { result ≡ list_all is_permit permits.now }
{
    for index in 0..permits.count() {
        if !is_permit(&permits.permit(index)) {
            return false;
        }
    }
    true
}

/// Whether it is a name with a value or more.
fn is_permit(permit: &Permit<'_>) -> bool
    ensures { result ≡ is_permit permit.now }
{
    Form::Name.passes(permit.claim()) && (permit.value_count() > 0 && are_values(permit))
}

/// Whether all values of a claim are values.
#[tactic(auto, using(crate::proofs::PlaceLaws::fails_at, crate::proofs::PlaceLaws::all_next))]
fn are_values(permit: &Permit<'_>) -> bool
    ensures { result ≡ list_all (passes Value) permit.now.values }
{
    for index in 0..permit.value_count() {
        if !Form::Value.passes(permit.value(index)) {
            return false;
        }
    }
    true
}
