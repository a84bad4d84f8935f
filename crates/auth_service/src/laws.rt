//! Laws: a function here does nothing, and its clauses are the law.
ghost use Rattle.std.specs.Prelude.{ℕ, ◌≡◌, ◌∷◌, [], List, Option, None};
ghost use Rattle.verify_rules.specs.Call.{call_of, in_call_order};
ghost use Rattle.verify_rules.specs.Rules.{HoldAll, Holds, early_rules, first};
ghost use Rattle.verify_rules.specs.World.{World, asking_rule};
ghost use Rattle.verify_rules.specs.declared.settings.Settings.{Settings};
ghost use Rattle.auth_service.specs.Added.{AddedLaws};
ghost use Rattle.auth_service.specs.Order.{HolderView, order_of};
ghost use Rattle.auth_service.specs.Outcome.{IsSigned};
ghost use Rattle.auth_service.specs.Rules.{IsConfirmed, IsFirstHop, judged_of};
ghost use Rattle.auth_service.specs.declared.order.SignOrder.{SignOrder};

use sip_message::{added_field_law, head_law};

/// What [`sign`](crate::sign) writes into a message that had no Identity field breaks none of the rules of the call at
/// a hop that numbers as the signer did, while the PASSporT is fresh. The one PASSporT that is judged there is that
/// which was signed. If its signature is good under its leaf's key, rule 16 holds too.
pub fn signed_rules_law()
    ensures early { (bytes : List ℕ) (order : SignOrder) (holder : Option HolderView)
        (signs : List ℕ → List ℕ → Option (List ℕ)) (out : List ℕ) (settings : Settings) (moment : ℕ)
        → (s : IsSigned bytes (order_of order) holder signs out) → IsFirstHop s.message (order_of order) settings moment
        → HoldAll early_rules (call_of settings moment out) }
    ensures first { (bytes : List ℕ) (order : SignOrder) (holder : Option HolderView)
        (signs : List ℕ → List ℕ → Option (List ℕ)) (out : List ℕ) (settings : Settings) (moment : ℕ)
        → (s : IsSigned bytes (order_of order) holder signs out) → IsFirstHop s.message (order_of order) settings moment
        → first early_rules (call_of settings moment out) ≡ None }
    ensures judged { (bytes : List ℕ) (order : SignOrder) (holder : Option HolderView)
        (signs : List ℕ → List ℕ → Option (List ℕ)) (out : List ℕ) (settings : Settings) (moment : ℕ)
        → (s : IsSigned bytes (order_of order) holder signs out) → IsFirstHop s.message (order_of order) settings moment
        → in_call_order (call_of settings moment out) ≡ judged_of (order_of order) s.orig s.dest s.token.token ∷ [] }
    ensures asking { (bytes : List ℕ) (order : SignOrder) (holder : Option HolderView)
        (signs : List ℕ → List ℕ → Option (List ℕ)) (out : List ℕ) (settings : Settings) (moment : ℕ) (world : World)
        → (s : IsSigned bytes (order_of order) holder signs out) → IsFirstHop s.message (order_of order) settings moment
        → IsConfirmed world (judged_of (order_of order) s.orig s.dest s.token.token)
        → Holds (asking_rule world) (call_of settings moment out) }
{
    head_law();
    added_laws();
}

/// What is asked of a message with one more field, in one record.
pub(crate) fn added_laws()
    ensures { AddedLaws }
{
    added_field_law();
}
