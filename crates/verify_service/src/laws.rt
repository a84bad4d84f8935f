//! Laws: a function here does nothing, and its clauses are the law.
ghost use Rattle.std.specs.List.{slice_get};
ghost use Rattle.std.specs.Option.{option_map};
ghost use Rattle.std.specs.Prelude.{◌≡◌, ◌<◌, ◌≤◌, ◌+◌, ◌*◌, ◌++◌, ◌∷◌, [], ℕ, suc, true, List, filter, is_some};
ghost use Rattle.std.specs.Prelude.{length, take, Option, Some, None, Result};
ghost use Rattle.call_log.specs.Entry.{Entry};
ghost use Rattle.cert_store.specs.Rules.{Says};
ghost use Rattle.passport_claims.specs.Passport.{ClaimsView};
ghost use Rattle.stir_outside.specs.Files.{Files};
ghost use Rattle.verify_rules.specs.Call.{Call, Reading, call_of, passport_in};
ghost use Rattle.verify_rules.specs.LastSecond.{IsLastSecond};
ghost use Rattle.verify_rules.specs.Rules.{early_rules, first};
ghost use Rattle.verify_rules.specs.Screened.{IsScreenedBy, ScreenedView};
ghost use Rattle.verify_rules.specs.States.{State};
ghost use Rattle.verify_rules.specs.declared.refusal.ScreenFault.{ScreenFault};
ghost use Rattle.verify_rules.specs.declared.settings.Settings.{Settings};
ghost use Rattle.call_judging.specs.Chains.{AreRightWhere, IsRightWhere};
ghost use Rattle.call_judging.specs.Judging.{last_second};
ghost use Rattle.verify_service.specs.Judging.{EachPair, call_in};
ghost use Rattle.verify_service.specs.Report.{report, report_text};
ghost use Rattle.verify_service.specs.ReportLine.{AllFit, Fits, IsLine};
ghost use Rattle.verify_service.specs.declared.outcome.Outcome.{Outcome};
ghost use Rattle.cert_store.specs.Files.{Files as ChainFiles};
ghost use Rattle.cert_store.specs.Holding.{Chains, Holding};
ghost use Rattle.cert_store.specs.declared.world.World.{World as Materials};
ghost use Rattle.verify_service.specs.Causes.{joined};
ghost use Rattle.verify_service.specs.Kept.{Kept, StoresChain};
ghost use Rattle.cert_store.specs.Using.{IsOnce, has, names};
ghost use Rattle.verify_service.specs.Needed.{BeginsWith, all_named, named, needed, once, round_texts};
ghost use Rattle.verify_service.specs.RightChains.{AreRightHeld, IsThere, IsThereUnless, held_count};
ghost use Rattle.verify_service.specs.Contents.{Contents, chain_sizes};
ghost use Rattle.verify_service.specs.Runs.{JudgedSaysFirst, LegalNamesOne, LegalPassOnce, RoundsRise, RunsAreLegal};
ghost use Rattle.verify_service.specs.Runs.{StatesHandOn};
ghost use Rattle.verify_service.specs.Screening.{IsReady};
ghost use Rattle.verify_service.specs.declared.screening.ReadyCall.{ReadyCall};

use call_judging::chain_size_law;
use cert_store::{cache_law, use_law};
use replay_law::{legal_in_runs, passes_once, purged_alone, replay_names_one};
use verify_rules::{code_law, last_second_law, right_law};

/// A call of a log is judged as what its message and its moment are.
pub fn call_law()
    ensures same { (settings : Settings) (entry : Entry) (moment : ℕ) (message : List ℕ) → message ≡ entry.message
        → moment ≡ entry.moment → call_of settings moment message ≡ call_in settings entry }
    ensures screened { (settings : Settings) (entry : Entry) (moment : ℕ) (message : List ℕ)
        (result : Result ScreenedView ScreenFault) → message ≡ entry.message → moment ≡ entry.moment
        → IsScreenedBy early_rules (call_of settings moment message) result
        → IsScreenedBy early_rules (call_in settings entry) result }
    ensures same_moment { (settings : Settings) (entry : Entry) (moment : ℕ) → moment ≡ entry.moment
        → moment ≡ (call_in settings entry).moment }
{}

/// A line of the report has the words of its row, and the report can be read back. Lines are the same only if the
/// number of the call and what came of it are, and reports only if all that came of their calls is.
pub fn report_law()
    ensures line { (number : ℕ) (outcome : Outcome) → IsLine number outcome (report_text number outcome) }
    ensures same_line { (m n : ℕ) (a b : Outcome) → m < 4294967296 → n < 4294967296 → Fits a → Fits b
        → report_text m a ≡ report_text n b → (m ≡ n) × (a ≡ b) }
    ensures same_report { (number : ℕ) (xs ys : List Outcome) → number + length xs < 4294967296
        → number + length ys < 4294967296 → AllFit xs → AllFit ys → report number xs ≡ report number ys → xs ≡ ys }
{
    code_law();
}

/// Rounds of a service that is new, and of services that go on from its state, are legal together. Each outcome may be
/// given to its call; and of the calls of all rounds that pass with one ticket exactly one is valid, in the first round
/// that has such a call, and each other is a replay of it.
///
/// The rounds are those of [`Service::round`](crate::Service::round), answered or not, and the states those of
/// `Service::state` and `Service::restore`. Moments never fall, and all settings have one `past`. No two different
/// texts that were signed as last PASSporTs have one SHA-256.
pub fn rounds_law()
    ensures rise { RoundsRise }
    ensures handed { StatesHandOn }
    ensures legal { RunsAreLegal }

    // The same in other words: any other call that passes with the ticket of a valid one is a replay that names it, and
    // a replay names exactly one call of all, if their numbers rise. What is judged is refused by the first rule that
    // it breaks.
    ensures once { LegalPassOnce }
    ensures names { LegalNamesOne }
    ensures first { JudgedSaysFirst }
{
    legal_in_runs();
    passes_once();
    purged_alone();
    replay_names_one();
}

/// The chains in the files that a round reads have at most six certificates each.
pub fn six_law()
    ensures { (contents : Contents) → chain_sizes contents ≤ 6 * length (filter is_some contents) }
{
    chain_size_law();
}

/// The texts of a round: those that its calls name, in the order of the log, each once; and how many there are at most.
pub(crate) fn texts_law()
    ensures named { (settings : Settings) (entries : List Entry) (calls : List ReadyCall)
        → EachPair (IsReady settings) entries calls → all_named calls ≡ named settings entries }
    ensures once { (found texts : List (List ℕ)) → IsOnce found → IsOnce (once found texts) }

    // The texts of a round are those that are needed; and those of its first calls come first, whatever others name
    // after them.
    ensures these { (files : ChainFiles) (held : Chains) (texts : List (List ℕ)) (x5u : List ℕ)
        → has x5u (round_texts files held texts) ≡ has x5u (needed files held texts) }
    ensures first { (files : ChainFiles) (held : Chains) (texts others : List (List ℕ))
        → BeginsWith (round_texts files held texts) (round_texts files held (texts ++ others)) }

    ensures joined { (text : List ℕ) (texts : List (List ℕ)) → IsOnce texts → IsOnce (joined text texts) }

    // Those that are read are no more than those that are needed; and those that are held and those that are needed are
    // no more than all.
    ensures most { (found texts : List (List ℕ)) → length (once found texts) ≤ length found + length texts }
    ensures apart { (files : ChainFiles) (held : Chains) (texts : List (List ℕ))
        → held_count held texts + length (needed files held texts) ≤ length texts }
{}

/// One chain more is held or kept: if it is right, all stay right. It is there from then on, and so are those that
/// were, unless as many others were used as the cache may hold chains; and of those that are named and no more than
/// that, all are.
pub(crate) fn stored_law()
    ensures right { (told : Option Files) (materials : Materials) (says : Says) (x5u : List ℕ) (state : State)
        (held held_now : Holding) (kept kept_now : Kept) → StoresChain x5u state held held_now kept kept_now
        → IsRightWhere told materials says x5u state → AreRightHeld told materials says held.entries kept
        → AreRightHeld told materials says held_now.entries kept_now }
    ensures here { (used : List (List ℕ)) (x5u : List ℕ) (state : State) (held held_now : Holding)
        (kept kept_now : Kept) → StoresChain x5u state held held_now kept kept_now
        → IsThereUnless held.capacity used held_now.entries kept_now x5u }
    ensures others { (used : List (List ℕ)) (x5u other : List ℕ) (state : State) (held held_now : Holding)
        (kept kept_now : Kept) → IsOnce (names held.entries) → has x5u used ≡ true
        → StoresChain x5u state held held_now kept kept_now → IsThereUnless held.capacity used held.entries kept other
        → IsThereUnless held.capacity used held_now.entries kept_now other }
    ensures there { (files : ChainFiles) (capacity : ℕ) (used : List (List ℕ)) (x5u : List ℕ) (held : Chains)
        (kept : Kept) → has x5u used ≡ true → length used ≤ capacity → IsThereUnless capacity used held kept x5u
        → IsThere files held kept x5u }
{
    cache_law();
    use_law();
}
