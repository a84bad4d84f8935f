//! Who judges the calls of a log.
ghost use Rattle.std.specs.Prelude.{◌≤◌};

use stir_outside::Answers;
use verify_service::Service;

/// A verification service whose provider of signatures is an answers file, which never fails.
#[derive(Drop)]
pub struct LogVerifier<'a> {
    /// What judges a round, and holds what stays of it.
    pub service: Service,
    /// The signatures that are good.
    pub answers: &'a Answers,
    /// How many workers judge the calls of a round: 1 to 8.
    pub workers: u64,
    ghost some: { 1 ≤ workers },
    ghost few: { workers ≤ 8 },
}
