//! A law on what is diverted: the function does nothing, and its clauses are the law.
ghost use Rattle.std.specs.Prelude.{◌≡◌, ℕ, ◌++◌, ◌∷◌, [], List, length, take, Option, Ok};
ghost use Rattle.verify_rules.specs.Call.{call_of, facts, in_message, turn_of};
ghost use Rattle.verify_rules.specs.Rules.{HoldAll, early_rules};
ghost use Rattle.verify_rules.specs.declared.settings.Settings.{Settings};
ghost use Rattle.auth_service.specs.Diverted.{IsDivertible, judged_last};
ghost use Rattle.auth_service.specs.Order.{HolderView, divert_order_of};
ghost use Rattle.auth_service.specs.Outcome.{IsSigned};
ghost use Rattle.auth_service.specs.Signed.{claims_by};
ghost use Rattle.auth_service.specs.declared.order.DivertOrder.{DivertOrder};

use crate::laws::added_laws;
use passport_claims::one_link_more_law;
use sip_message::head_law;

/// If a call breaks none of rules 1 to 7, what [`divert`](crate::divert) writes into it breaks none of rules 1 to 8 at
/// a hop that numbers as the order did. This asks that the call's links led it to the number that was called before,
/// and that it hasn't been at the one to which it goes on. At that hop the PASSporT that was signed is judged after
/// those that were judged before, and its link comes after theirs in the order of the call.
pub fn diverted_rules_law()
    ensures rules { (bytes : List ℕ) (order : DivertOrder) (holder : Option HolderView)
        (signs : List ℕ → List ℕ → Option (List ℕ)) (out : List ℕ) (settings : Settings) (moment later : ℕ)
        → (s : IsSigned bytes (divert_order_of order) holder signs out)
        → IsDivertible (call_of settings moment bytes) order.local (claims_by (divert_order_of order) s.orig s.dest)
        → HoldAll (take 8 early_rules) (call_of settings later out) }
    ensures judged { (bytes : List ℕ) (order : DivertOrder) (holder : Option HolderView)
        (signs : List ℕ → List ℕ → Option (List ℕ)) (out : List ℕ) (settings : Settings) (moment later : ℕ)
        → (s : IsSigned bytes (divert_order_of order) holder signs out) → settings.local ≡ order.local
        → in_message (call_of settings later out) ≡ in_message (call_of settings moment bytes)
        ++ judged_last s.message (claims_by (divert_order_of order) s.orig s.dest) s.token.token ∷ [] }
    ensures turn { (bytes : List ℕ) (order : DivertOrder) (holder : Option HolderView)
        (signs : List ℕ → List ℕ → Option (List ℕ)) (out : List ℕ) (settings : Settings) (moment later : ℕ)
        → (s : IsSigned bytes (divert_order_of order) holder signs out) → (h : IsDivertible
        (call_of settings moment bytes) order.local (claims_by (divert_order_of order) s.orig s.dest))
        → turn_of (facts (call_of settings later out)) (in_message (call_of settings later out))
        ≡ Ok (h.turn ++ length (in_message (call_of settings moment bytes)) ∷ []) }
{
    head_law();
    added_laws();
    one_link_more_law();
}
