//! Laws: a function here does nothing, and its clauses are the law.
ghost use Rattle.std.specs.Prelude.{◌≡◌, List};
ghost use Rattle.log_rounds.specs.AllValid.{AreValid, all_valid};
ghost use Rattle.log_rounds.specs.Day.{DayIsLegal, DayIsReport};
ghost use Rattle.log_rounds.specs.Days.{DaysAreLegal, DaysAreOne, DaysHandOn};
ghost use Rattle.log_rounds.specs.Handed.{OutputIsState};
ghost use Rattle.log_rounds.specs.Runs.{RunsLegal};
ghost use Rattle.log_run.specs.Ending.{report_status};
ghost use Rattle.verify_service.specs.declared.outcome.Outcome.{Outcome};

use replay_law::{day_after_day, first_is_legal, legal_in_runs, legal_is_first, one_by_first};
use verify_rules::{first_law, signed_law};

/// The status of a whole report is 0 exactly if each of its calls is valid, and else 1.
pub fn status_law()
    ensures zero { (outcomes : List Outcome) → AreValid outcomes → report_status (all_valid outcomes) ≡ 0 }
    ensures valid { (outcomes : List Outcome) → report_status (all_valid outcomes) ≡ 0 → AreValid outcomes }
    ensures one { (outcomes : List Outcome) → (AreValid outcomes → ⊥) → report_status (all_valid outcomes) ≡ 1 }
{}

/// A log may be judged call by call, in any order and on any number of machines. Afterwards, let each call that passes
/// and is the first of the log with its ticket be valid, and each later one a replay of it. Then the outcomes are legal
/// for every cut of the log into rounds; and if none is set aside, they are the outcomes of a run on one worker.
pub fn day_law()
    ensures legal { DayIsLegal }
    ensures report { DayIsReport }
{
    first_is_legal();
    legal_is_first();
    one_by_first();
}

/// A day may be judged so after others, over what is kept of their calls. If all days have one `past`, all of them
/// together are answered by the first call of each ticket, so their outcomes are legal for every cut into rounds. What
/// is kept is right if each day hands on to the next what was kept before it and what it won, but for entries that are
/// too old for the next day.
pub fn days_law()
    ensures one { DaysAreOne }
    ensures legal { DaysAreLegal }
    ensures handed { DaysHandOn }
{
    day_after_day();
    first_is_legal();
    first_law();
    signed_law();
}

/// Runs that hand their state on are legal together: of the calls of all runs that pass with one ticket one is valid,
/// and each other is a replay of it.
pub fn runs_law()
    ensures { RunsLegal }
{
    legal_in_runs();
}

/// The whole output of a run that hands its state on is a file that holds this state: none of the report's lines is the
/// first line of a state.
pub fn output_law()
    ensures { OutputIsState }
{}
