//! Who judges calls.
ghost use Rattle.std.specs.Prelude.{◌≡◌};

use crate::outcome::Outcome;
use cert_store::Judged;
use replay_desk::Seat;
use std::alloc::Global;

/// Judges calls: with a provider of signatures, and a gate that it passes before each call.
///
/// What came of calls that it judged before has no part in what comes of the next.
#[derive(Drop)]
pub struct Worker<P, G> {
    pub provider: P,
    pub gate: G,
    /// The chains that it judged of its own texts of a round, in turn: nothing for one that wasn't read.
    pub(crate) judged: Vec<Option<Judged>>,
    /// Memory ran out when it judged them.
    pub(crate) out_of_memory: bool,
    /// Its seat while it judges the calls of a round.
    pub(crate) seat: Option<Seat>,
    /// What it answered to its calls of a round, each at the index of its call.
    pub(crate) outcomes: [Outcome; 256],
}

impl<P, G> Worker<P, G> {
    /// A worker with this provider and this gate. It takes no memory.
    pub fn new(alloc: Global, provider: P, gate: G) -> Worker<P, G>
        ensures provider { result.provider ≡ provider }
        ensures gate { result.gate ≡ gate }
    {
        Worker {
            provider,
            gate,
            judged: Vec::new(alloc),
            out_of_memory: false,
            seat: None,
            outcomes: [Outcome::Valid; 256],
        }
    }
}
