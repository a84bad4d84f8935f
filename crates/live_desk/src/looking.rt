//! How a ticket is looked for: level by level, by one load after the other, in the order of a claim.
ghost use Rattle.std.specs.Prelude.{◌≡◌, ◌<◌};
ghost use Rattle.live_desk.specs.Held.{Held};
ghost use Rattle.live_desk.specs.HeldSteps.{HeldExactly, Loaded, Looked};

use crate::desk::{Live, LiveSeat};
use crate::pieces::{code, cut};
use crate::steps::Load;

/// Where a look for a code at one level ends.
#[derive(Clone, Copy)]
pub enum Sight {
    /// The code was found.
    Found {
        /// The code's slot, counted from 0.
        slot: u64,
    },
    /// A word was 0.
    Blank,
    /// Each slot has another code.
    Missing,
}

impl Live {
    /// Whether a ticket is held. True comes exactly if its code was found at all levels; false exactly if a word of the
    /// search was 0 at its load, or each word of a level was found without the code. So it is true of a ticket that was
    /// won before.
    ///
    /// It takes no memory and waits for nobody, and it makes at most six times as many steps as a level has slots.
    pub fn held(&self, seat: &mut LiveSeat, ticket: &[u8; 32]) -> bool
        requires desk { seat.old.desk ≡ self.now }
        ensures { Held self.now.size ticket.now seat.old seat.new result }
    {
        // a field that is read, here and below, shows the proof what holds of the desk
        let _size = &self.size;
        let answer = self.held_exactly(seat, ticket);
        seat.settled();
        answer
    }

    /// Whether a ticket is held, by cases of what was found.
    fn held_exactly(&self, seat: &mut LiveSeat, ticket: &[u8; 32]) -> bool
        requires desk { seat.old.desk ≡ self.now }
        ensures { HeldExactly self.now.size ticket.now seat.old seat.new result }
    {
        let _size = &self.size;
        let parts = cut(ticket);
        let mut parent = 0;
        for level in 0..6u64 {
            let code = code(parent, parts[level as usize]);
            match self.look(seat, level, code) {
                Sight::Found { slot } => parent = slot,
                Sight::Blank => return false,
                Sight::Missing => return false,
            }
        }
        true
    }

    /// Looks for a code at one level, counted from 0, from the slot that the code names on.
    fn look(&self, seat: &mut LiveSeat, level: u64, code: u64) -> Sight
        requires desk { seat.old.desk ≡ self.now }
        requires level { level < 6 }
        ensures { Looked self.now.size level code seat.old seat.new result }
    {
        let size = u64::from(self.size);
        for tries in 0..size {
            let slot = (code % size + tries) % size;
            let found = self.load(seat, level, slot);
            if found == 0 {
                return Sight::Blank;
            }
            if found == code {
                return Sight::Found { slot };
            }
        }
        Sight::Missing
    }

    /// Loads the word of a slot.
    fn load(&self, seat: &mut LiveSeat, level: u64, slot: u64) -> u64
        requires desk { seat.old.desk ≡ self.now }
        requires level { level < 6 }
        requires slot { slot < self.now.size }
        ensures { Loaded level slot seat.old seat.new result }
    {
        let place = (level * u64::from(self.size) + slot) as usize;
        self.table.shared.load::<Load>(&mut seat.token, place)
    }
}
