//! How a ticket is claimed: level by level, by one exchange after the other.
ghost use Rattle.std.specs.Prelude.{◌≡◌, ◌<◌, IfOk, IfErr};
ghost use Rattle.live_desk.specs.Claimed.{Claimed};
ghost use Rattle.live_desk.specs.ClaimSteps.{Begins, ClaimedExactly, Descended, Descends, Exchanged, Ready, Searched};
ghost use Rattle.live_desk.specs.Ticket.{pieces};

use crate::claim::LiveClaim;
use crate::desk::{Live, LiveSeat};
use crate::pieces::{LEVELS, code, cut};
use crate::steps::Exchange;

/// Where the search for a code at one level of a claim ends.
#[derive(Clone, Copy)]
pub enum Place {
    /// The claim set a word that was 0.
    Set {
        /// The word's slot, counted from 0.
        slot: u64,
    },
    /// The claim found the code.
    Found {
        /// The code's slot, counted from 0.
        slot: u64,
    },
    /// Each slot has another code.
    Full,
}

impl Live {
    /// Claims a ticket. `Won` comes exactly if this claim set the ticket's word at level 6. `Lost` comes exactly if it
    /// found the ticket's code there. `Full` comes exactly if it found each word of the level that it names nonzero and
    /// different from the ticket's code. What it sets is for its own ticket and, if it is `Full`, is at levels before
    /// the full one.
    ///
    /// It takes no memory and waits for nobody, and it makes at most six times as many steps as a level has slots. Of
    /// several claims of a ticket any may win.
    pub fn claim(&self, seat: &mut LiveSeat, ticket: &[u8; 32]) -> LiveClaim
        requires desk { seat.old.desk ≡ self.now }
        ensures { Claimed self.now.size ticket.now seat.old seat.new result }
    {
        // a field that is read, here and below, shows the proof what holds of the desk
        let _size = &self.size;
        let answer = self.claim_exactly(seat, ticket);
        seat.settled();
        answer
    }

    /// Claims a ticket, by cases of what was set and found.
    fn claim_exactly(&self, seat: &mut LiveSeat, ticket: &[u8; 32]) -> LiveClaim
        requires desk { seat.old.desk ≡ self.now }
        ensures { ClaimedExactly self.now.size ticket.now seat.old seat.new result }
    {
        let _size = &self.size;
        let parts = cut(ticket);
        let parent = match self.descend(seat, ticket, &parts) {
            Ok(parent) => parent,
            Err(level) => {
                return LiveClaim::Full {
                    level: level as u8 + 1,
                };
            }
        };
        let code = code(parent, parts[5]);
        match self.settle(seat, ticket, 5, code) {
            Place::Set { slot: _ } => LiveClaim::Won,
            Place::Found { slot: _ } => LiveClaim::Lost,
            Place::Full => LiveClaim::Full { level: 6 },
        }
    }

    /// Sets or finds the ticket's codes at all levels but the last: the ticket's slot at the last of these, or, as an
    /// error, the full level, counted from 0.
    fn descend(
        &self,
        seat: &mut LiveSeat,
        ticket: &[u8; 32],
        parts: &[u64; LEVELS],
    ) -> Result<u64, u64>
        requires desk { seat.old.desk ≡ self.now }
        requires parts { parts.now ≡ pieces ticket.now }
        ensures ok { IfOk result (λ parent. Descends self.now.size ticket.now 5 parent seat.old seat.new) }
        ensures full { IfErr result
            (λ level. (level < 5) × Descended self.now.size ticket.now seat.old seat.new level) }
    {
        let _size = &self.size;
        let mut parent = 0;
        for level in 0..5u64 {
            let code = code(parent, parts[level as usize]);
            match self.settle(seat, ticket, level, code) {
                Place::Set { slot } => parent = slot,
                Place::Found { slot } => parent = slot,
                Place::Full => return Err(level),
            }
        }
        Ok(parent)
    }

    /// Searches one level, counted from 0, for a ticket's code, from the slot that the code names on, and sets the
    /// first word that is 0.
    fn settle(&self, seat: &mut LiveSeat, ticket: &[u8; 32], level: u64, code: u64) -> Place
        requires desk { seat.old.desk ≡ self.now }
        requires level { level < 6 }
        requires begins { Begins ticket.now level code seat.old }
        ensures { Searched self.now.size level code ticket.now seat.old seat.new result }
    {
        let size = u64::from(self.size);
        for tries in 0..size {
            let slot = (code % size + tries) % size;
            let found = self.exchange(seat, ticket, level, slot, code);
            if found == 0 {
                return Place::Set { slot };
            }
            if found == code {
                return Place::Found { slot };
            }
        }
        Place::Full
    }

    /// Exchanges the word of a slot for a ticket's code if it is 0, and says what was found there.
    fn exchange(
        &self,
        seat: &mut LiveSeat,
        ticket: &[u8; 32],
        level: u64,
        slot: u64,
        code: u64,
    ) -> u64
        requires desk { seat.old.desk ≡ self.now }
        requires level { level < 6 }
        requires slot { slot < self.now.size }
        requires ready { Ready self.now.size ticket.now level slot code seat.old }
        ensures { Exchanged level slot code ticket.now seat.old seat.new result }
    {
        let place = (level * u64::from(self.size) + slot) as usize;
        self.table
            .shared
            .compare_exchange_with::<Exchange>(&mut seat.token, place, 0, code, ticket)
    }
}
