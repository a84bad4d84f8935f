ghost use Rattle.std.specs.Prelude.{◌≡◌, ◌+◌, ◌*◌, ◌<◌, ◌≤◌, length};
ghost use Rattle.call_log.specs.Entry.{entry_text, most_entries};
ghost use Rattle.call_log.specs.Log.{after};

use crate::call::Call;
use std::marker::Model;

/// How far a log was read: the number and the moment of the last entry, how many entries, and the offset of the byte
/// after them.
#[derive(Clone, Copy)]
pub(crate) struct Progress {
    pub(crate) number: u32,
    pub(crate) moment: u64,
    pub(crate) count: u32,
    pub(crate) place: u64,
}

impl Model for Progress {
    ghost use Rattle.call_log.specs.Log.{Passed};

    ghost Value = { Passed };

    ghost view = { λ p. record { number = p.number; moment = p.moment; count = p.count; place = p.place } };

    ghost inverse = { λ p. record { number = p.number; moment = p.moment; count = p.count; place = p.place } };
}

impl Progress {
    /// One more entry was read, of so many bytes.
    pub(crate) fn after(self, call: &Call, size: u64) -> Progress
        requires count { self.count < most_entries }
        requires place { self.place ≤ 131093 * self.count }
        requires short { size ≤ 131093 }
        requires size { size ≡ length (entry_text call.now) }
        ensures { result ≡ after self call.now }
    {
        Progress {
            number: call.number(),
            moment: call.moment(),
            count: self.count + 1,
            place: self.place + size,
        }
    }
}
