//! What a round's report says as a whole.
ghost use Rattle.std.specs.Prelude.{◌≡◌, ◌&&◌};
ghost use Rattle.log_rounds.specs.AllValid.{all_valid};
ghost use Rattle.log_rounds.specs.Batches.{first_number};

use call_log::Call;
use verify_service::Outcome;

/// The number of the first call, and 0 if there is none.
pub(crate) fn first_number(calls: &[Call]) -> u32
    ensures { result ≡ first_number calls.now }
{
    match calls {
        [] => 0,
        [first, ..] => first.number(),
    }
}

/// All calls are valid.
pub(crate) fn all_valid(outcomes: &[Outcome]) -> bool
    ensures { result ≡ all_valid outcomes.now }
{
    outcomes.iter().all(|outcome| outcome.is_valid())
}
