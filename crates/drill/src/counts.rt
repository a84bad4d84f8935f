//! The counts of a drill.
ghost use Rattle.std.specs.Prelude.{◌≡◌, ◌++◌, OnOk, IfOk};
ghost use Rattle.drill.specs.Counts.{more_if, no_counts, summary_of, with_all, with_one};
ghost use Rattle.drill.specs.Summary.{count_line, is_refused, is_replay};

use itoa::Buffer;
use std::alloc::{AllocError, Global};
use verify_rules::code;
use verify_service::Outcome;

/// How many calls there were, and what came of them. A count stays at its last value.
#[derive(Clone, Copy, Debug)]
pub(crate) struct Counts {
    calls: u64,
    valid: u64,
    replays: u64,
    refused_403: u64,
    refused_428: u64,
    refused_437: u64,
    refused_438: u64,
}

impl Counts {
    /// The counts of no call.
    pub(crate) fn new() -> Counts
        ensures { result ≡ no_counts }
    {
        Counts {
            calls: 0,
            valid: 0,
            replays: 0,
            refused_403: 0,
            refused_428: 0,
            refused_437: 0,
            refused_438: 0,
        }
    }

    /// How many calls were counted.
    pub(crate) fn calls(&self) -> u64
        ensures { result ≡ self.now.calls }
    {
        self.calls
    }

    /// Counts these calls.
    pub(crate) fn add(&mut self, outcomes: &[Outcome])
        ensures { self.new ≡ with_all self.old outcomes.now }
    {
        for outcome in outcomes {
            *self = self.with_one(outcome);
        }
    }

    /// The counts with one more call.
    fn with_one(self, outcome: &Outcome) -> Counts
        ensures { result ≡ with_one self outcome.now }
    {
        Counts {
            calls: self.calls.saturating_add(1),
            valid: more_if(outcome.is_valid(), self.valid),
            replays: more_if(is_replay(outcome), self.replays),
            refused_403: more_if(is_refused(403, outcome), self.refused_403),
            refused_428: more_if(is_refused(428, outcome), self.refused_428),
            refused_437: more_if(is_refused(437, outcome), self.refused_437),
            refused_438: more_if(is_refused(438, outcome), self.refused_438),
        }
    }

    /// The seven lines of the summary. `AllocError` is the only error.
    pub(crate) fn summary(&self, alloc: Global) -> Result<Vec<u8>, AllocError>
        ensures { IfOk result (λ text. text.items ≡ summary_of self.now) }
    {
        let mut text = Vec::new(alloc);
        put_line(&mut text, "calls", self.calls)?;
        put_line(&mut text, "valid", self.valid)?;
        put_line(&mut text, "replay", self.replays)?;
        put_line(&mut text, "refused 403", self.refused_403)?;
        put_line(&mut text, "refused 428", self.refused_428)?;
        put_line(&mut text, "refused 437", self.refused_437)?;
        put_line(&mut text, "refused 438", self.refused_438)?;
        Ok(text)
    }
}

/// One more, if this is so.
fn more_if(counts: bool, count: u64) -> u64
    ensures { result ≡ more_if counts count }
{
    if counts {
        count.saturating_add(1)
    } else {
        count
    }
}

/// The call is a replay.
fn is_replay(outcome: &Outcome) -> bool
    ensures { result ≡ is_replay outcome.now }
{
    match outcome {
        Outcome::Valid => false,
        Outcome::Refused(_) => false,
        Outcome::Replay { .. } => true,
        Outcome::Unread(_) => false,
        Outcome::Unasked(_) => false,
    }
}

/// The call is refused by a rule of this code.
fn is_refused(wanted: u16, outcome: &Outcome) -> bool
    ensures { result ≡ is_refused wanted outcome.now }
{
    match outcome {
        Outcome::Valid => false,
        Outcome::Refused(refusal) => code(refusal.rule) == wanted,
        Outcome::Replay { .. } => false,
        Outcome::Unread(_) => false,
        Outcome::Unasked(_) => false,
    }
}

/// Appends a line: a word, a space and a count.
#[tactic(auto, using(crate::proofs::LineLaws::line_spelled))]
fn put_line(text: &mut Vec<u8>, word: &str, count: u64) -> Result<(), AllocError>
    ensures { OnOk result (text.new.items ≡ text.old.items ++ count_line word.now count) }
{
    let mut buffer = Buffer::new();
    text.extend_from_slice(word.as_bytes())?;
    text.push(b' ')?;
    text.extend_from_slice(buffer.format(count).as_bytes())?;
    text.push(b'\n')?;
    Ok(())
}
