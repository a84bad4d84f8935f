//! Laws of the rule, for callers. These functions do nothing when they run.
ghost use Rattle.live_desk.specs.Rule.{OneSlotAReading, OneSlotAWord, SearchGoesRound};
ghost use Rattle.live_desk.specs.Ticket.{PiecesAreTheTicket};
ghost use Rattle.live_desk.specs.Laws.{WonOnce};

/// The six pieces of a ticket, one after the other, are the ticket.
pub fn pieces_are_the_ticket()
    ensures { PiecesAreTheTicket }
{}

/// The search for a code begins at the slot that the code names, and goes round.
pub fn search_goes_round()
    ensures { SearchGoesRound }
{}

/// Two slots of one level never hold the same nonzero word.
pub fn word_stands_once()
    ensures { OneSlotAWord }
{}

/// Two slots of one level with nonzero words never stand for the same pieces.
pub fn reading_stands_once()
    ensures { OneSlotAReading }
{}

/// A ticket is at most once among the won ones of all seats together.
pub fn ticket_is_won_once()
    ensures { WonOnce }
{}
