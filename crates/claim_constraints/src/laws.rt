//! Laws: a function here does nothing, and its clauses are the law.
ghost use Rattle.std.specs.Prelude.{◌≡◌, ◌↔◌, ℕ, List, Ok, Err, true};
ghost use Rattle.der_reader.specs.Elem.{AllBytes};
ghost use Rattle.der_reader.specs.declared.part.Fault.{Fault};
ghost use Rattle.serde_json.specs.Data.{Data};
ghost use Rattle.claim_constraints.specs.Constraints.{ConstraintsView};
ghost use Rattle.claim_constraints.specs.ConstraintsText.{ConstraintsText};
ghost use Rattle.claim_constraints.specs.Meets.{Meets, meets};
ghost use Rattle.claim_constraints.specs.Read.{read_constraints};
ghost use Rattle.claim_constraints.specs.Refused.{Refused};

/// Constraints are read from bytes exactly if these are the text of them, and a fault exactly if it is their first. The
/// test of a payload passes exactly if it meets them.
#[tactic(auto, using(crate::proofs::MeetLaws::meets_law))]
pub fn constraints_law()
    ensures again { (bytes : List ℕ) (c : ConstraintsView) → ConstraintsText bytes c → read_constraints bytes ≡ Ok c }
    ensures found { (bytes : List ℕ) (c : ConstraintsView) → AllBytes bytes → read_constraints bytes ≡ Ok c
        → ConstraintsText bytes c }
    ensures refused { (bytes : List ℕ) (fault : Fault) → AllBytes bytes
        → (read_constraints bytes ≡ Err fault) ↔ Refused bytes fault }
    ensures meets { (c : ConstraintsView) (payload : Data) → (meets c payload ≡ true) ↔ Meets c payload }
{}
