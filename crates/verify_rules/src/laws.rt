//! Laws: a function here does nothing, and its clauses are the law.
ghost use Rattle.std.specs.List.{slice_get};
ghost use Rattle.std.specs.Option.{option_map, option_or};
ghost use Rattle.std.specs.Prelude.{◌≡◌, ◌↔◌, ◌≤◌, ◌++◌, ◌∷◌, [], ℕ, List, length, IsTrue, Some, None, Ok, Err};
ghost use Rattle.stir_outside.specs.Files.{IsLonger, file};
ghost use Rattle.tn_auth_list.specs.declared.entries.Entry.{Entry};
ghost use Rattle.delegation.specs.Coverage.{Table};
ghost use Rattle.cert_store.specs.ChainMap.{listed};
ghost use Rattle.cert_store.specs.Judged.{JudgedAs, JudgedView, judged_of};
ghost use Rattle.cert_store.specs.Rules.{Says};
ghost use Rattle.passport_claims.specs.declared.kind.Kind.{Kind};
ghost use Rattle.sip_message.specs.Head.{Head};
ghost use Rattle.sip_message.specs.Message.{MessageView};
ghost use Rattle.verify_rules.specs.AllWords.{SaysRules};
ghost use Rattle.verify_rules.specs.Call.{Call, Reading, call_of, facts, in_call_order};
ghost use Rattle.verify_rules.specs.Code.{HasCode, code_of};
ghost use Rattle.verify_rules.specs.LastSecond.{IsLastSecond};
ghost use Rattle.verify_rules.specs.Late.{covers_kind};
ghost use Rattle.verify_rules.specs.LatePlaces.{SpeaksOfLatePlace};
ghost use Rattle.verify_rules.specs.LateWords.{CoversKind, SaysLateWords};
ghost use Rattle.verify_rules.specs.Numbers.{IsCalledOf, IsCallingOf};
ghost use Rattle.verify_rules.specs.Rules.{HoldAll, Rule, each, early_rules, first};
ghost use Rattle.verify_rules.specs.SameWorld.{SayTheSame};
ghost use Rattle.verify_rules.specs.Screened.{IsScreenedBy, ScreenedView, digest_in, last_of, last_of_call, ticket_of};
ghost use Rattle.verify_rules.specs.Signed.{IsKnownAgain};
ghost use Rattle.verify_rules.specs.States.{State, have, long, no_chain, unread};
ghost use Rattle.verify_rules.specs.World.{AreRight, First, HoldsBytes, IsJudgedBy, IsRight, VerdictOf, World};
ghost use Rattle.verify_rules.specs.World.{certificate_rules, forged, signature_rules, truths, with_says};
ghost use Rattle.verify_rules.specs.declared.refusal.Refusal.{Refusal};
ghost use Rattle.verify_rules.specs.declared.refusal.ScreenFault.TheVariants.{Refused};
ghost use Rattle.verify_rules.specs.declared.settings.Settings.{Settings};
ghost use Rattle.verify_rules.specs.Verdict.{IsVerdict};
ghost use Rattle.verify_rules.specs.declared.verdict.Verdict.{Verdict};
ghost use Rattle.verify_rules.specs.declared.verdict.Verdict.TheVariants as verdicts;

use cert_store::judged_law;
use claim_constraints::constraints_law;
use delegation::{covers_law, within_law};
use identity_header::field_law;
use passport_claims::{claims_law, order_law, signed_claims_law};
use passport_json::{token_found_law, token_law};
use sip_message::head_law;
use x509_profile::chain_law;

/// What the rules of the call make of a call, in every world. If they refuse it, so does the first broken rule of all;
/// else it is judged on by the codes and signatures of the world. Its ticket is the digest of its last PASSporT, and it
/// is fresh up to this one's iat plus `past`.
pub fn screened_law()
    ensures refused { (world : World) (call : Call) (refused : Refusal)
        → IsScreenedBy early_rules call (Err (Refused refused)) → First world call ≡ Some refused }
    ensures judged { (world : World) (call : Call) (table : Table) (says : Says) (moment : ℕ) (screened : ScreenedView)
        → IsScreenedBy early_rules call (Ok screened) → moment ≡ call.moment → table ≡ world.table → says ≡ world.says
        → IsJudgedBy world call table says moment screened.readings }
    ensures ticket { (call : Call) (screened : ScreenedView) → IsScreenedBy early_rules call (Ok screened)
        → option_map digest_in (last_of screened.readings) ≡ ticket_of call }
    ensures last { (call : Call) (screened : ScreenedView) → IsScreenedBy early_rules call (Ok screened)
        → screened.last ≡ last_of_call call }
{}

/// What the first broken rule of all says of the rules of the chains in their own words, and what it says of a call
/// that may be set aside. The files of the world hold bytes, and the call breaks none of the rules before.
pub fn late_words_law()
    ensures { (world : World) (call : Call) (verdict : Verdict) → HoldsBytes world → first early_rules call ≡ None
        → VerdictOf world call verdict → SaysLateWords world call verdict }
{
    judged_law();
    chain_law();
    covers_law();
    constraints_law();
}

/// What the first broken rule of all says of where it is broken, if it is one of the rules of the chains; and what
/// holds before the place at which a call may be set aside. The files of the world hold bytes.
pub(crate) fn late_places_law()
    ensures { (world : World) (call : Call) (verdict : Verdict) → HoldsBytes world → first early_rules call ≡ None
        → VerdictOf world call verdict → SpeaksOfLatePlace world call verdict }
{
    judged_law();
    chain_law();
    covers_law();
    constraints_law();
}

/// The first broken of some rules and others after them is the first broken of the former or, if none of these is
/// broken, of the latter. If all hold, there is none.
pub fn first_law()
    ensures none { (rules : List Rule) (call : Call) → HoldAll rules call → first rules call ≡ None }
    ensures append { (xs ys : List Rule) (call : Call)
        → first (xs ++ ys) call ≡ option_or (first xs call) (first ys call) }
{}

/// The test of what an authority list must cover decides it in the words of rule 17.
pub fn covers_kind_law()
    ensures { (table : Table) (entries : List Entry) (orig : List ℕ) (kind : Kind)
        → IsTrue (covers_kind table entries orig kind) ↔ CoversKind table entries orig kind }
{
    covers_law();
}

/// What a chain map, a shelf and the rules on a chain tell of the chain of an x5u is right.
pub fn right_law()
    ensures judged { (world : World) (x5u name bytes : List ℕ) (judged : JudgedView)
        → listed world.chains x5u ≡ Some name → file name world.files ≡ Some bytes → length bytes ≤ 49152
        → JudgedAs (judged_of world.anchors world.table world.says bytes) judged → IsRight world x5u (have judged) }
    ensures unlisted { (world : World) (x5u : List ℕ) → listed world.chains x5u ≡ None → IsRight world x5u no_chain }
    ensures missing { (world : World) (x5u name : List ℕ) → listed world.chains x5u ≡ Some name
        → file name world.files ≡ None → IsRight world x5u no_chain }
    ensures too_long { (world : World) (x5u name : List ℕ) → listed world.chains x5u ≡ Some name
        → IsLonger 49152 (file name world.files) → IsRight world x5u long }
    ensures failed { (world : World) (x5u name : List ℕ) → listed world.chains x5u ≡ Some name
        → IsRight world x5u unread }

    // Of several PASSporTs: one more, and each by itself.
    ensures more { (world : World) (readings : List Reading) (states : List State) (one : Reading) (state : State)
        → AreRight world readings states → IsRight world one.passport.x5u state
        → AreRight world (readings ++ one ∷ []) (states ++ state ∷ []) }
    ensures each { (world : World) (readings : List Reading) (states : List State) → length states ≡ length readings
        → ((at : ℕ) (one : Reading) (state : State) → slice_get readings at ≡ Some one
        → slice_get states at ≡ Some state → IsRight world one.passport.x5u state) → AreRight world readings states }
{}

/// A call that breaks none of the rules of the call has a last PASSporT, and is known again by what was signed as it.
pub fn signed_law()
    ensures { (call : Call) → first early_rules call ≡ None → IsKnownAgain call }
{
    field_law();
    token_law();
    token_found_law();
    claims_law();
    signed_claims_law();
}

/// What a verdict over a world says of each rule but the one on replay in its own words, and of where the one is broken
/// that refuses the call. The files of the world hold bytes.
pub fn words_law()
    ensures { (world : World) (settings : Settings) (moment : ℕ) (bytes : List ℕ) (verdict : Verdict) → HoldsBytes world
        → VerdictOf world (call_of settings moment bytes) verdict
        → SaysRules world bytes (call_of settings moment bytes) verdict }
{
    head_law();
    field_law();
    token_law();
    token_found_law();
    claims_law();
    order_law();
    late_words_law();
    late_places_law();
}

/// Rules 10 to 14 depend on no provider of signatures. The rules from 15 on say the same by two of them, if both make
/// the same of each chain of the call and of the signatures of its PASSporTs.
pub fn provider_law()
    ensures certificates { (world : World) (other : Says) (call : Call)
        → first (certificate_rules (with_says world other)) call ≡ first (certificate_rules world) call }
    ensures signatures { (world : World) (other : Says) (call : Call)
        → truths (with_says world other) (in_call_order call) ≡ truths world (in_call_order call)
        → each (forged (with_says world other)) (in_call_order call) ≡ each (forged world) (in_call_order call)
        → first (signature_rules (with_says world other)) call ≡ first (signature_rules world) call }
{}

/// A refusal by one of rules 10 to 15 comes before the PASSporTs' own signatures are asked for (RFC 8224, section 6.2):
/// it is the same whatever a provider says of them.
pub fn unasked_law()
    ensures { (says other : Says) (table : Table) (moment : ℕ) (readings : List Reading) (states : List State)
        (refused : Refusal) → refused.rule ≤ 15
        → IsVerdict says table moment readings states 0 0 (verdicts.Refused refused)
        → IsVerdict other table moment readings states 0 0 (verdicts.Refused refused) }
{}

/// Two PASSporTs of a call that are read from one Identity field are one and the same.
pub fn one_field_law()
    ensures { (call : Call) (at other : ℕ) (one second : Reading) → slice_get (in_call_order call) at ≡ Some one
        → slice_get (in_call_order call) other ≡ Some second → one.mark.field ≡ second.mark.field → one ≡ second }
{}
/// Each rule from 1 to 19, of which 18 is the one on replay, has the response code of its row (RFC 3261, section
/// 21.4.1; RFC 8224, section 6.2.2).
pub fn code_law()
    ensures { (rule : ℕ) → HasCode rule (code_of rule) }
{}

/// A call that breaks none of the rules of the call is fresh up to the `iat` of its last PASSporT plus `past`.
pub fn last_second_law()
    ensures { (call : Call) → first early_rules call ≡ None → IsLastSecond call (last_of_call call) }
{
    signed_law();
}

/// The calling number of rule 7 and the called number of rule 8, of a call whose bytes are the head of a message.
pub fn numbers_law()
    ensures calling { (settings : Settings) (moment : ℕ) (bytes : List ℕ) (message : MessageView) → Head bytes message
        → IsCallingOf message settings.local (facts (call_of settings moment bytes)).calling }
    ensures called { (settings : Settings) (moment : ℕ) (bytes : List ℕ) (message : MessageView) → Head bytes message
        → IsCalledOf message settings.local (facts (call_of settings moment bytes)) }
{
    head_law();
}

/// In worlds in which the same is said of each thing, as two readings of the same files give them, each call breaks the
/// same rule first at the same place, or none.
pub fn same_world_law()
    ensures { (world other : World) → SayTheSame world other → (call : Call) → First world call ≡ First other call }
{
    covers_law();
    within_law();
}
