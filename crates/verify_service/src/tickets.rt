//! The classes of a round's tickets.
ghost use Rattle.std.specs.Prelude.{◌≡◌, ◌+◌, ◌<◌, ◌≤◌, ◌∷◌, [], length, is_some, unwrap_or, true, IfOk, OnOk, Some};
ghost use Rattle.std.specs.List.{slice_get};
ghost use Rattle.verify_service.specs.Classes.{AreGivenClasses, tickets_in};
ghost use Rattle.verify_service.specs.Needed.{once};
ghost use Rattle.verify_service.specs.Ready.{is_passed, ticket_in};

use crate::screening::{ReadyCall, Screening};
use indexmap::IndexSet;
use replay_desk::TicketKey;
use std::alloc::{AllocError, Global};
use std::marker::Model;

/// Tickets, each once, in the order in which they were added. In contracts they are the list of these.
#[derive(Drop)]
struct Tickets {
    tickets: IndexSet<TicketKey>,
}

impl Model for Tickets {
    ghost use Rattle.std.specs.Prelude.{ℕ, List};

    ghost Value = { List (List ℕ) };

    ghost view = { λ t. t.tickets.keys };
}

impl Tickets {
    /// None yet, with room for so many. `AllocError` is the only error.
    fn with_capacity(alloc: Global, count: usize) -> Result<Tickets, AllocError>
        ensures { IfOk result (λ tickets. tickets ≡ []) }
    {
        let tickets = IndexSet::with_capacity(alloc, count)?;
        Ok(Tickets { tickets })
    }

    /// How many there are.
    fn count(&self) -> usize
        ensures { result ≡ length self.now }
    {
        self.tickets.len()
    }

    /// The index of this ticket, which is added after the others unless it is one of them. `AllocError` is the only
    /// error.
    fn index_of(&mut self, ticket: &[u8; 32]) -> Result<usize, AllocError>
        ensures tickets { OnOk result (self.new ≡ once self.old (ticket.now ∷ [])) }
        ensures stands { IfOk result (λ index. slice_get self.new index ≡ Some ticket.now) }
        ensures within { IfOk result (λ index. index < length self.new) }
        ensures few { OnOk result (length self.new ≤ length self.old + 1) }
    {
        let (index, _) = self.tickets.insert_full(TicketKey::new(ticket))?;
        Ok(index)
    }
}

/// Gives each call that the rules of the call don't refuse the class of its ticket, and says how many classes there
/// are. `AllocError` is the only error.
pub(crate) fn class_calls(alloc: Global, calls: &mut [ReadyCall]) -> Result<u32, AllocError>
    requires few { length calls.old ≤ 256 }
    ensures counted { length calls.new ≡ length calls.old }
    ensures classes { IfOk result (λ count. AreGivenClasses count calls.old calls.new) }
{
    let mut tickets = Tickets::with_capacity(alloc, calls.len())?;
    'calls: for at in 0..calls.len() {
        let class = class_of(&mut tickets, &calls[at].screening)?;
        calls[at].class = class;
    }
    Ok(tickets.count() as u32)
}

/// The class of the ticket of a call that was screened so, if the rules of the call don't refuse it. `AllocError` is
/// the only error.
fn class_of(tickets: &mut Tickets, screening: &Screening) -> Result<Option<u32>, AllocError>
    requires few { length tickets.old < 256 }
    ensures some { IfOk result (λ class. is_some class ≡ is_passed screening.now) }
    ensures tickets { OnOk result (tickets.new ≡ once tickets.old (tickets_in screening.now)) }
    ensures stands { IfOk result (λ class. is_passed screening.now ≡ true
        → slice_get tickets.new (unwrap_or class 0) ≡ Some (ticket_in screening.now)) }
{
    match screening {
        Screening::Open => Ok(None),
        Screening::Refused(_) => Ok(None),
        Screening::Passed(screened) => {
            let index = tickets.index_of(screened.ticket())?;
            Ok(Some(index as u32))
        }
    }
}
