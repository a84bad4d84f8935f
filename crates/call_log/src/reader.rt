ghost use Rattle.std.specs.Prelude.{◌≡◌, ℕ, ◌≤◌, [], false, Err, Ok, IfSome, IfNone};
ghost use Rattle.stir_outside.specs.Count.{Rose};

use crate::ahead::Ahead;
use crate::call::Call;
use crate::entry::{Found, next_entry};
use crate::fault::LogFault;
use crate::progress::Progress;
use std::alloc::Global;
use std::marker::Model;
use stir_outside::Source;

/// A reader of a call log, which hands out its calls one by one.
#[derive(Drop)]
pub struct LogReader {
    alloc: Global,
    ahead: Ahead,
    passed: Progress,
    fault: Option<LogFault>,
}

impl Model for LogReader {
    ghost use Rattle.call_log.specs.Reads.{Bounded, LogState};

    ghost Value = { LogState };

    ghost view = { λ r. record { passed = r.passed; ahead = r.ahead.bytes; ended = r.ahead.ended; fault = r.fault } };

    ghost invariant = { λ r. Bounded r.passed };
}

impl LogReader {
    ghost use Rattle.call_log.specs.Entry.{most_entries};
    ghost use Rattle.call_log.specs.Log.{start};
    ghost use Rattle.call_log.specs.HandsOut.{HandsOutOf, NoLongerLog, OneLog};
    ghost use Rattle.call_log.specs.Reads.{LogState, Moves, Reads, left_to};
    ghost use Rattle.call_log.specs.Supply.{Draws, supply_of};

    /// A reader at the beginning of a log, whose first call has the number 1.
    pub fn new(alloc: Global) -> LogReader
        ensures { result ≡ record { passed = start 0 0; ahead = []; ended = false; fault = None } }
    {
        LogReader::after(alloc, 0, 0)
    }

    /// A reader at the beginning of a log that goes on from an earlier one: its calls are numbered from above `call`,
    /// and none comes before `moment`, in Unix seconds.
    pub fn after(alloc: Global, call: u32, moment: u64) -> LogReader
        requires { call ≤ 4000000000 }
        ensures { result ≡ record { passed = start call moment; ahead = []; ended = false; fault = None } }
    {
        LogReader {
            alloc,
            ahead: Ahead::new(),
            passed: Progress {
                number: call,
                moment,
                count: 0,
                place: 0,
            },
            fault: None,
        }
    }

    /// Reads the next call of the log; `None` if the log has ended.
    ///
    /// A place is the offset of the entry's first byte, counted from where the reader began. After a fault every call
    /// answers that fault. `Source` comes only if a read failed; what was taken of the source is what was needed.
    #[tactic(auto, using(crate::proofs::LogLaws::hands_out))]
    pub fn next<I: Source>(&mut self, source: &mut I) -> Result<Option<Call>, LogFault>
        // After a fault nothing is read and nothing changes.
        ensures again { IfSome self.old.fault
            (λ fault. (result ≡ Err fault) × (self.new ≡ self.old) × (source.new ≡ source.old)) }

        // What was taken, whether the source tells it or not; and if it does, what of all that is left.
        ensures reads { IfNone self.old.fault (Reads self.old.passed
            (left_to self.old (I.left source.old)) (left_to self.new (I.left source.new)) result) }
        ensures hands_out { IfNone self.old.fault (HandsOutOf self.old.passed
            (left_to self.old (I.left source.old)) (left_to self.new (I.left source.new)) result) }
        ensures moves { IfNone self.old.fault (Moves self.old.passed self.new result) }
        ensures bounded { self.new.passed.count ≤ most_entries }

        // How often the source was asked. It isn't asked after it said that it has ended. If its reads are whole, it is
        // asked for blocks of 65,536 bytes alone, but for two (`reads_law`).
        ensures draws { Draws (supply_of I.Source self.old.ended source.old)
            (supply_of I.Source self.new.ended source.new) }

        // The source failed in this call, or in that which first said so, and then no byte is ahead.
        ensures rose { IfNone self.old.fault (result ≡ Err LogFault.Source
            → Rose (I.faults source.old) (I.faults source.new)) }
        ensures drained { IfNone self.old.fault (result ≡ Err LogFault.Source
            → left_to self.new (I.left source.new) ≡ I.left source.new) }
        ensures never_falls { I.faults source.old ≤ I.faults source.new }

        // Bytes are one log, and no longer one.
        ensures one_log { OneLog }
        ensures no_longer { NoLongerLog }
    {
        self.next_exactly(source)
    }

    /// Reads the next call of the log.
    #[tactic(auto, using(crate::proofs::LogLaws::reads, crate::proofs::SupplyLaws::draws_none))]
    fn next_exactly<I: Source>(&mut self, source: &mut I) -> Result<Option<Call>, LogFault>
        ensures again { IfSome self.old.fault
            (λ fault. (result ≡ Err fault) × (self.new ≡ self.old) × (source.new ≡ source.old)) }
        ensures reads { IfNone self.old.fault (Reads self.old.passed
            (left_to self.old (I.left source.old)) (left_to self.new (I.left source.new)) result) }
        ensures moves { IfNone self.old.fault (Moves self.old.passed self.new result) }
        ensures bounded { self.new.passed.count ≤ most_entries }
        ensures draws { Draws (supply_of I.Source self.old.ended source.old)
            (supply_of I.Source self.new.ended source.new) }
        ensures drained { IfNone self.old.fault (result ≡ Err LogFault.Source
            → left_to self.new (I.left source.new) ≡ I.left source.new) }
        ensures rose { IfNone self.old.fault (result ≡ Err LogFault.Source
            → Rose (I.faults source.old) (I.faults source.new)) }
    {
        if let Some(fault) = self.fault {
            return Err(fault);
        }
        match next_entry(self.alloc, &mut self.ahead, source, self.passed) {
            Ok(Some(found)) => {
                let Found { call, size } = found;
                self.passed = self.passed.after(&call, size);
                Ok(Some(call))
            }
            Ok(None) => Ok(None),
            Err(fault) => {
                self.fault = Some(fault);
                Err(fault)
            }
        }
    }
}
