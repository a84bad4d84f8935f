//! The law of replay, apart from all code: of the calls that break no other rule and have one ticket exactly one
//! passes.
//!
//! That holds whatever the cut of the log into rounds, and whatever is purged between them. It is this project's own
//! rule.
//!
//! `specs/` says what a row, a settled round and legal rows are, in plain numbers: `Row`, `Round`, `Turn`, `Log`,
//! `Runs`, and `Law` for the laws themselves.
//! A function here does nothing: its clause is the law. Whoever needs the law calls the function, and then has the
//! clause.
//!
//! ```rust
//! legal_together();     // from here on: rounds that were settled one by one are legal together
//! one_by_one();         // from here on: calls that were answered in turn settle their round
//! ```
//!
//! - A round: [`one_turn_more`], [`one_by_one`], [`purged_alone`], [`same_is_one`].
//! - A log of rounds: [`one_round_more`], [`more_rounds`], [`legal_together`], [`first_of_all`], [`passes_once`],
//!   [`replay_names_one`], [`one_answer`].
//! - Runs that hand their past on: [`legal_in_runs`].
//! - A log that is answered by the first call of each ticket: [`first_is_legal`], [`legal_is_first`],
//!   [`one_by_first`], [`day_after_day`].
//!
//! What a ticket is, and that two different calls don't share one, isn't said here: the laws take it as a premise that
//! `log_rounds` and `stir_cmd` name.
//!
//! All of it is proved, and there is nothing to test: `docs/dev/PROVED.md`, "Rounds", has the laws.
#![tactic(auto)]

ghost use Rattle.replay_law.specs.Law.{LegalPassesOnce, LegalTogether, FirstOfAll, ReplayNamesOne, OneByOne};
ghost use Rattle.replay_law.specs.Law.{OneRoundMore, MoreRounds, PurgedAlone, OneTurnMore, SameIsOne, OneAnswer};
ghost use Rattle.replay_law.specs.ByFirst.{DayAfterDay, FirstIsLegal, LegalIsFirst, OneByFirst};
ghost use Rattle.replay_law.specs.Runs.{LegalInRuns};

/// Rounds that are settled one by one, from an empty past on, are legal together, if calls that pass are fresh,
/// moments don't fall and tickets are apart. So purging lets no ticket pass a second time.
pub fn legal_together()
    ensures { LegalTogether }
{}

/// Calls that are answered in turn settle their round, and the first of them that passes with a ticket is the valid
/// one.
pub fn one_by_one()
    ensures { OneByOne }
{}

/// If this is so in each round, the first call of the whole log that passes with a ticket is the valid one.
pub fn first_of_all()
    ensures { FirstOfAll }
{}

/// If a call is valid, any other call of the log that passes with its ticket is a replay that names it, and is in no
/// earlier round.
pub fn passes_once()
    ensures { LegalPassesOnce }
{}

/// If numbers rise, a replay names exactly one call of the log: the valid one of its ticket.
pub fn replay_names_one()
    ensures { ReplayNamesOne }
{}

/// One more round settled, as a loop over rounds goes on.
pub fn one_round_more()
    ensures { OneRoundMore }
{}

/// One more call answered, as a loop over the calls of a round goes on.
pub fn one_turn_more()
    ensures { OneTurnMore }
{}

/// More rounds after those that are settled, as those of a later run that was handed the past.
pub fn more_rounds()
    ensures { MoreRounds }
{}

/// A past that is only purged is that of a round without calls: if memory ran out for a round, and when a run
/// hands its past on.
pub fn purged_alone()
    ensures { PurgedAlone }
{}

/// If the same is kept for each ticket, the two pasts are one.
pub fn same_is_one()
    ensures { SameIsOne }
{}

/// If the same calls are answered twice, legally and the first with its ticket first, each has one answer.
pub fn one_answer()
    ensures { OneAnswer }
{}

/// Runs that hand their past on, the first from an empty one, are legal together, if calls that pass are fresh, moments
/// don't fall and tickets are apart. So handing on lets no ticket pass a second time.
pub fn legal_in_runs()
    ensures { LegalInRuns }
{}

/// Answers by the first call of each ticket, without rounds and without a past, are legal for every cut of the log into
/// rounds. So a log may be judged call by call in any order, on any number of machines, and its calls grouped by ticket
/// afterwards.
pub fn first_is_legal()
    ensures { FirstIsLegal }
{}

/// If the first call of a log that passes with a ticket is the valid one, as on one worker, its legal answers are the
/// answers by the first call of each ticket.
pub fn legal_is_first()
    ensures { LegalIsFirst }
{}

/// The same calls have one list of answers by the first call of each ticket, however the two came about.
pub fn one_by_first()
    ensures { OneByFirst }
{}

/// A day after others, answered by the first call of each ticket over what is kept of the earlier days, leaves all days
/// answered so, if calls that pass are fresh, none comes before the moment by which entries were dropped, and tickets
/// are apart.
pub fn day_after_day()
    ensures { DayAfterDay }
{}
