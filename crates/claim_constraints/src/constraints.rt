//! Constraints on claims.
ghost use Rattle.std.specs.Prelude.{◌≡◌, ◌↔◌, ◌≤◌, ◌<◌, IfOk, IfSome, IsSome, IsTrue, Ok, Err, Some, ℕ, List, length};
ghost use Rattle.std.specs.Prelude.{option_map};
ghost use Rattle.std.specs.List.{slice_get};
ghost use Rattle.der_reader.specs.Elem.{AllBytes};
ghost use Rattle.der_reader.specs.declared.part.Fault.{Fault};
ghost use Rattle.serde_json.specs.View.{view};
ghost use Rattle.claim_constraints.specs.Constraints.{ConstraintsView, IsConstraints, PermitView, permits_of, texts_of};
ghost use Rattle.claim_constraints.specs.Constraints.{values_at};
ghost use Rattle.claim_constraints.specs.ConstraintsText.{ConstraintsText, constraints_text};
ghost use Rattle.claim_constraints.specs.Fault.{Gives};
ghost use Rattle.claim_constraints.specs.Meets.{Meets, meets};
ghost use Rattle.claim_constraints.specs.Read.{read_constraints};
ghost use Rattle.claim_constraints.specs.Refused.{IsRefused, Refused};

use crate::fault::ConstraintFault;
use crate::form::Form;
use crate::meeting::{all_permitted, all_stand};
use crate::permit::Permits;
use crate::reading::read_constraints;
use crate::rules::{are_of, are_permits};
use crate::sizes::constraints_size;
use crate::texts::Texts;
use crate::writing::write_constraints;
use serde_json::Value;
use std::alloc::{AllocError, Global};
use std::marker::Model;

/// Constraints on the claims of PASSporTs: which claims must be there, and which values some may have.
///
/// A contract sees the lists of both.
#[derive(Drop)]
pub struct Constraints {
    must: Texts,
    permits: Permits,
}

impl Model for Constraints {
    ghost use Rattle.claim_constraints.specs.Constraints.{ConstraintsView, IsConstraints};

    ghost Value = { ConstraintsView };

    ghost view = { λ c. record { must = c.must; permits = c.permits } };

    ghost invariant = { λ c. IsConstraints (record { must = c.must; permits = c.permits }) };
}

impl Constraints {
    /// The constraints that the bytes are, in DER.
    ///
    /// They are one SEQUENCE of two parts and nothing after it, and at least one of the parts is there. `A0` has a
    /// SEQUENCE of IA5Strings in it, the names of the claims that must be there. `A1` has a SEQUENCE of entries in it.
    /// Each entry is a SEQUENCE of an IA5String, a claim's name, and a SEQUENCE of UTF8Strings, its values. A name is 1
    /// to 64 bytes from 0x21 to 0x7E. Faults are found in byte order, and the first is the answer: `ConstraintFault`
    /// says which there are, and where each is.
    #[tactic(auto, using(crate::proofs::WholeLaws::answer_found, crate::proofs::WholeLaws::answer_only, crate::proofs::WholeLaws::one_text, crate::proofs::WholeLaws::answer_refused, crate::proofs::WholeLaws::answer_is_refused))]
    pub fn read(alloc: Global, bytes: &[u8]) -> Result<Constraints, ConstraintFault>
        // The constraints, or the first fault.
        ensures exact { Gives (λ c. c) result (read_constraints bytes.now) }

        // An answer is those whose text the bytes are, and those whose text they are are the answer.
        ensures found { IfOk result (λ c. ConstraintsText bytes.now c) }
        ensures only { (c : ConstraintsView) → ConstraintsText bytes.now c → Gives (λ c. c) result (Ok c) }

        // Bytes are the text of one at most.
        ensures unique { (a b : ConstraintsView) → ConstraintsText bytes.now a → ConstraintsText bytes.now b → a ≡ b }

        // Each other answer is the first fault of the bytes, and their first fault is the answer.
        ensures refused { (fault : Fault) → Refused bytes.now fault → Gives (λ c. c) result (Err fault) }
        ensures only_refused { IsRefused bytes.now result }
    {
        read_exactly(alloc, bytes)
    }

    /// The constraints by which these claims must be there, and these may have their values alone: each of `permits` is
    /// a claim's name with its values. None if both lists are empty, a list of values is, or a name or value is outside
    /// its form.
    pub fn build(must: Vec<Vec<u8>>, permits: Vec<(Vec<u8>, Vec<Vec<u8>>)>) -> Option<Constraints>
        ensures exact { IfSome result
            (λ c. c ≡ record { must = texts_of must.items; permits = permits_of permits.items }) }
        ensures rules { IsSome result
            ↔ IsConstraints (record { must = texts_of must.items; permits = permits_of permits.items }) }
    {
        Constraints::of(Texts::of(must), Permits::of(permits))
    }

    /// The same, of names and of claims with values.
    fn of(must: Texts, permits: Permits) -> Option<Constraints>
        ensures exact { IfSome result (λ c. c ≡ record { must = must; permits = permits }) }
        ensures rules { IsSome result ↔ IsConstraints (record { must = must; permits = permits }) }
    {
        if (must.count() == 0 && permits.count() == 0)
            || !are_of(&must, Form::Name)
            || !are_permits(&permits)
        {
            return None;
        }
        Some(Constraints { must, permits })
    }

    /// How many claims must be there.
    pub fn must_count(&self) -> usize
        ensures { result ≡ length self.now.must }
    {
        self.must.count()
    }

    /// The name of the claim at this index of those that must be there.
    pub fn must(&self, index: usize) -> &[u8]
        requires { index < length self.now.must }
        ensures { slice_get self.now.must index ≡ Some result.now }
    {
        self.must.text(index)
    }

    /// How many claims have permitted values.
    pub fn permit_count(&self) -> usize
        ensures { result ≡ length self.now.permits }
    {
        self.permits.count()
    }

    /// The name of the claim at this index of those with permitted values.
    pub fn claim(&self, index: usize) -> &[u8]
        requires { index < length self.now.permits }
        ensures { option_map (λ (permit : PermitView). permit.claim) (slice_get self.now.permits index)
            ≡ Some result.now }
    {
        self.permits.permit(index).claim()
    }

    /// How many values are permitted to the claim at this index.
    pub fn value_count(&self, index: usize) -> usize
        requires { index < length self.now.permits }
        ensures { result ≡ length (values_at self.now index) }
    {
        self.permits.permit(index).value_count()
    }

    /// The value at the second index of those that are permitted to the claim at the first.
    pub fn value(&self, claim: usize, index: usize) -> &[u8]
        requires claim { claim < length self.now.permits }
        requires value { index < length (values_at self.now claim) }
        ensures { slice_get (values_at self.now claim) index ≡ Some result.now }
    {
        self.permits.permit(claim).value(index)
    }

    /// Whether the text of the constraints is at most 65,535 bytes, so that it can be written.
    pub fn is_writable(&self) -> bool
        ensures { IsTrue result ↔ (length (constraints_text self.now) ≤ 65535) }
    {
        constraints_size(&self.must, &self.permits) <= 65_535
    }

    /// The one DER text of the constraints, which is at most 65,535 bytes. `Memory` comes if there is no memory for it.
    #[tactic(auto, using(crate::proofs::WholeLaws::read_again, crate::proofs::WholeLaws::written_text, crate::proofs::WholeLaws::only_text), unfolding(crate::specs::ConstraintsText::constraints_text))]
    pub fn write(&self) -> Result<Vec<u8>, AllocError>
        requires size { length (constraints_text self.now) ≤ 65535 }

        // The text, and reading it gives these constraints.
        ensures text { IfOk result (λ text. ConstraintsText text.items self.now) }
        ensures reads_back { IfOk result (λ text. read_constraints text.items ≡ Ok self.now) }

        // Bytes that are the text of these constraints are what it writes.
        ensures only { IfOk result (λ text. (bytes : List ℕ) → ConstraintsText bytes self.now → text.items ≡ bytes) }
    {
        write_constraints(self.permits.alloc(), &self.must, &self.permits)
    }

    /// Whether a payload meets the constraints: each claim that must be there is a member of it, and each claim with
    /// permitted values that is a member is a JSON text equal byte for byte to one of them.
    #[tactic(auto, using(crate::proofs::MeetLaws::answer_meets))]
    pub fn meets(&self, payload: &Value) -> bool
        ensures exact { result ≡ meets self.now (view payload.now) }
        ensures rules { IsTrue result ↔ Meets self.now (view payload.now) }
    {
        self.meets_exactly(payload)
    }

    /// The same, by its test.
    #[tactic(auto, unfolding(crate::specs::Meets::meets))]
    fn meets_exactly(&self, payload: &Value) -> bool
        ensures { result ≡ meets self.now (view payload.now) }
    {
        all_stand(&self.must, payload) && all_permitted(&self.permits, payload)
    }
}

/// The constraints that the bytes are, or their first fault.
#[tactic(auto, using(crate::proofs::WholeLaws::read_is))]
fn read_exactly(alloc: Global, bytes: &[u8]) -> Result<Constraints, ConstraintFault>
    ensures exact { Gives (λ c. c) result (read_constraints bytes.now) }
    ensures bytes { AllBytes bytes.now }
{
    let (must, permits) = read_constraints(alloc, bytes)?;
    Ok(Constraints { must, permits })
}
