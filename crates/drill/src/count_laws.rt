//! Laws. A function here does nothing: its clause is the law.
ghost use Rattle.std.specs.Prelude.{◌≡◌, ◌≤◌, ◌++◌, length, List};
ghost use Rattle.call_log.specs.Entry.{Entry};
ghost use Rattle.drill.specs.Counts.{no_counts, summary_of, with_all};
ghost use Rattle.drill.specs.declared.counts.Counts.{Counts};
ghost use Rattle.drill.specs.Summary.{JudgedWhole, summary};
ghost use Rattle.drill.specs.Winners.{SameTickets, all_rows, valid_count};
ghost use Rattle.replay_law.specs.Log.{RowsLegal};
ghost use Rattle.replay_law.specs.Round.{Round};
ghost use Rattle.stir_outside.specs.Count.{last_count};
ghost use Rattle.verify_rules.specs.World.{World};
ghost use Rattle.verify_rules.specs.declared.settings.Settings.{Settings};
ghost use Rattle.verify_service.specs.declared.outcome.Outcome.{Outcome};

/// Of two legal logs whose calls pass with the same tickets, as many calls are valid.
pub fn winners_law()
    ensures { (rounds others : List Round) → RowsLegal rounds → RowsLegal others
        → SameTickets (all_rows rounds) (all_rows others)
        → valid_count (all_rows rounds) ≡ valid_count (all_rows others) }
{}

/// Calls that are judged twice in one world, with none set aside, have one summary: on however many workers, and
/// whatever the cut into rounds.
pub fn summary_law()
    ensures { (world : World) (settings : Settings) (calls : List Entry) (outcomes others : List Outcome)
        → JudgedWhole world settings calls outcomes → JudgedWhole world settings calls others
        → summary outcomes ≡ summary others }
{}

/// Of calls and those after them: their counts. And what is counted call by call of at most 2 to the 64th calls less
/// one is the summary.
pub fn count_law()
    ensures both { (counts : Counts) (xs ys : List Outcome)
        → with_all counts (xs ++ ys) ≡ with_all (with_all counts xs) ys }
    ensures calls { (outcomes : List Outcome) → length outcomes ≤ last_count
        → (with_all no_counts outcomes).calls ≡ length outcomes }
    ensures summary { (outcomes : List Outcome) → length outcomes ≤ last_count
        → summary_of (with_all no_counts outcomes) ≡ summary outcomes }
{}
