//! Laws: a function here does nothing, and its clauses are the law.
ghost use Rattle.std.specs.Fmt.{decimal};
ghost use Rattle.std.specs.List.{list_any, slice_get};
ghost use Rattle.std.specs.Option.{option_map};
ghost use Rattle.std.specs.Prelude.{◌≡◌, ◌↔◌, ◌<◌, ◌≤◌, ◌+◌, ◌++◌, ◌∷◌, codes, [], ℕ, false, List, length, take};
ghost use Rattle.std.specs.Prelude.{Option, Some, None};
ghost use Rattle.cert_store.specs.Questions.{AgreeOn};
ghost use Rattle.cert_store.specs.Rules.{QuestionView, Says};
ghost use Rattle.cert_store.specs.declared.world.World.{World as Materials};
ghost use Rattle.passport_claims.specs.Passport.{ClaimsView};
ghost use Rattle.stir_outside.specs.Files.{Files};
ghost use Rattle.verify_rules.specs.Call.{Call, Reading, in_call_order, passport_in};
ghost use Rattle.verify_rules.specs.Causes.{IsCaused};
ghost use Rattle.verify_rules.specs.LastSecond.{IsLastSecond};
ghost use Rattle.verify_rules.specs.Rules.{early_rules, first};
ghost use Rattle.verify_rules.specs.States.{State};
ghost use Rattle.verify_rules.specs.World.{AreRight, First, MayBeUnasked, MayBeUnread, VerdictOf, World};
ghost use Rattle.verify_rules.specs.World.{certificate_rules, late_rules, truths, with_says};
ghost use Rattle.verify_rules.specs.declared.refusal.Place.{Place};
ghost use Rattle.verify_rules.specs.declared.refusal.Refusal.{Refusal};
ghost use Rattle.verify_rules.specs.declared.verdict.Verdict.{Verdict};
ghost use Rattle.call_judging.specs.AskedFor.{IsAmong, IsAskedFor};
ghost use Rattle.call_judging.specs.CallQuestions.{call_questions, chains_questions, questions_over};
ghost use Rattle.call_judging.specs.Chains.{AreRightWhere, IsRightWhere, is_unread};
ghost use Rattle.call_judging.specs.Explain.{Explain, broken_line, broken_text, explain_rules, explained, met_text};
ghost use Rattle.call_judging.specs.Explain.{ok_line, unread_line};
ghost use Rattle.call_judging.specs.Fetched.{chain_size};
ghost use Rattle.call_judging.specs.Judging.{last_second};
ghost use Rattle.call_judging.specs.PlaceText.{place_text};
ghost use Rattle.call_judging.specs.RuleNumbers.{numbers_before, numbers_of};
ghost use Rattle.call_judging.specs.ToldApart.{AreToldAlike, FindingFits, IsBrokenLine, line_of};
ghost use Rattle.call_judging.specs.Verdicts.{asks_own};
ghost use Rattle.call_judging.specs.declared.finding.Finding.{Finding};
ghost use Rattle.call_judging.specs.declared.finding.Finding.TheVariants.{Unasked, Unread};
ghost use Rattle.call_judging.specs.declared.rule_numbers.TheConstants.{RULES, FIRST_ON_FILES, FIRST_ON_SIGNATURES};

use cert_store::questions_law;
use verify_rules::{code_law, last_second_law, provider_law, right_law};

/// A chain that a file holds has at most six certificates.
pub fn chain_size_law()
    ensures { (bytes : Option (List ℕ)) → chain_size bytes ≤ 6 }
{}

/// What is known of the chains of a call's PASSporTs, one after another, is right: of none yet, and of one PASSporT
/// more if it is right of the chain of that one's x5u (RFC 7515, section 4.1.5).
pub fn chains_law()
    ensures none { (told : Option Files) (materials : Materials) (says : Says)
        → AreRightWhere told materials says [] [] }
    ensures next { (told told_now : Option Files) (materials : Materials) (says says_now : Says)
        (readings : List Reading) (states : List State) (i : ℕ) (passport : ClaimsView) (x5u : List ℕ) (state : State)
        → told_now ≡ told → says_now ≡ says → AreRightWhere told materials says (take i readings) states
        → i < length readings → option_map passport_in (slice_get readings i) ≡ Some passport → x5u ≡ passport.x5u
        → IsRightWhere told_now materials says_now x5u state
        → AreRightWhere told materials says (take (i + 1) readings) (states ++ state ∷ []) }
{
    right_law();
}

/// A call that breaks none of the rules of the call is known again up to the `iat` of its last PASSporT plus `past`.
pub fn fresh_law()
    ensures { (call : Call) → first early_rules call ≡ None → IsLastSecond call (last_second call) }
{
    last_second_law();
}

/// The list of numbers is that of the rules by which a call is judged. Those before the first that looks at a file are
/// the rules on the call itself, and those before the first that asks for a signature are these and the ones on
/// certificates.
pub fn rule_numbers_law()
    ensures all { (world : World) → numbers_of (early_rules ++ late_rules world) ≡ RULES }
    ensures on_files { numbers_before FIRST_ON_FILES ≡ numbers_of early_rules }
    ensures on_signatures { (world : World)
        → numbers_before FIRST_ON_SIGNATURES ≡ numbers_of (early_rules ++ certificate_rules world) }
{}

/// What is explained of a call by the first rule that it breaks: the lines of the rules before it and its own, and
/// those of all rules if it breaks none.
pub fn explain_law()
    ensures met { (world : World) (number : ℕ) (call : Call) → First world call ≡ None
        → Explain world number call ≡ met_text number }
    ensures broken { (world : World) (number : ℕ) (call : Call) (refused : Refusal) → First world call ≡ Some refused
        → Explain world number call ≡ broken_text number refused }
    // Before an unread file come the lines of the rules of the call; and if a signature is left open, those of rules 1
    // to 14 come alone.
    ensures unread { (world : World) (number : ℕ) (call : Call) (bad : Place) → MayBeUnread world call bad
        → explained number (Unread bad) ≡ explain_rules number early_rules call ++ unread_line number bad }
    ensures unasked { (world : World) (number : ℕ) (call : Call) (bad : Place) → MayBeUnasked world call bad
        → explained number (Unasked bad) ≡ explain_rules number (early_rules ++ certificate_rules world) call }
{}

/// The lines that explain a call have these words, and can be read back: texts are the same only if the number of the
/// call is, and what is told of what is found.
pub fn lines_law()
    ensures met { (number rule : ℕ) → ok_line number rule ≡ line_of (decimal number ∷ decimal rule ∷ codes "ok" ∷ []) }
    ensures broken { (number : ℕ) (refused : Refusal) → IsBrokenLine number refused (broken_line number refused) }
    ensures unread { (number : ℕ) (bad : Place)
        → unread_line number bad ≡ line_of (decimal number ∷ codes "10" ∷ codes "unread" ∷ place_text bad ∷ []) }
    ensures same_text { (m n : ℕ) (a b : Finding) → m < 4294967296 → n < 4294967296 → FindingFits a → FindingFits b
        → explained m a ≡ explained n b → (m ≡ n) × AreToldAlike a b }
{
    code_law();
}

/// Which questions are asked for a call: exactly those that a PASSporT of it asks, and none if the rules of the call
/// refuse it. Over chains that are right and of which all is known they are those of the chains, and by the verdict
/// those of the PASSporTs.
pub fn call_questions_law()
    ensures asked { (world : World) (call : Call) (asked : QuestionView)
        → IsAmong asked (call_questions world call) ↔ IsAskedFor world call asked }
    ensures refused { (world : World) (call : Call) (refused : Refusal) → first early_rules call ≡ Some refused
        → call_questions world call ≡ [] }
    ensures chains { (world : World) (readings : List Reading) (states : List State) → AreRight world readings states
        → list_any is_unread states ≡ false → chains_questions states ≡ chains_questions (truths world readings) }
    ensures whole { (world : World) (call : Call) (readings : List Reading) (states : List State)
        (faults faults_now : ℕ) (verdict : Verdict) → first early_rules call ≡ None → readings ≡ in_call_order call
        → AreRight world readings states → list_any is_unread states ≡ false → VerdictOf world call verdict
        → IsCaused readings states faults faults_now verdict
        → questions_over (asks_own verdict) readings states ≡ call_questions world call }
{}

/// What is asked for a call depends on no provider. If two providers agree on all of it, the call breaks the same rule
/// first by both, or none.
pub fn call_agreement_law()
    ensures same { (world : World) (other : Says) (call : Call)
        → call_questions (with_says world other) call ≡ call_questions world call }
    ensures alike { (world : World) (other : Says) (call : Call) → AgreeOn world.says other (call_questions world call)
        → First (with_says world other) call ≡ First world call }
{
    questions_law();
    provider_law();
}
