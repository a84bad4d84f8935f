//! A text of tickets, read line by line.
ghost use Rattle.std.specs.Prelude.{◌≡◌, ◌<◌, ℕ, List, length, [], IfOk, IfErr, Ok, Err};
ghost use Rattle.lists.specs.Given.{Gives};
ghost use Rattle.once_run.specs.Reading.{ticket_of, tickets_in};
ghost use Rattle.once_run.specs.Seen.{IfLine, fault_line};
ghost use Rattle.once_run.specs.TicketText.{IsBadLine, TicketText};

use crate::fault::TicketsFault;
use std::alloc::{AllocError, Global};
use text_grammar::Lines;

/// The most tickets of a text.
const MOST_TICKETS: usize = 1_000_000;

/// How many bytes a line with a ticket has at least, with its LF.
const LINE_BYTES: usize = 65;

/// Reads a text of tickets: a line for each, of 64 hex digits of either case, at most 1,000,000 of them. A line ends at
/// LF, one CR before that is dropped, and the last may lack its LF. Empty lines and lines that begin with `;` are
/// passed over, and counted.
///
/// The fault names the first line that has no ticket, or one more than a text may have.
pub(crate) fn read_tickets(alloc: Global, text: &[u8]) -> Result<Vec<[u8; 32]>, TicketsFault>
    requires { length text.now < 4294967295 }
    // What is read is what the text has, and a fault names its bad line.
    ensures found { IfOk result (λ tickets. TicketText text.now tickets.items) }
    ensures fault { IfErr result (λ fault. IfLine fault (IsBadLine text.now)) }
    // Tickets that the text has are read, and a bad line that it has is the fault, unless memory ran out.
    ensures only { (tickets : List (List ℕ)) → TicketText text.now tickets
        → Gives fault_line (λ read. read.items) result (Ok tickets) }
    ensures bad { (number : ℕ) → IsBadLine text.now number → Gives fault_line (λ read. read.items) result (Err number) }
{
    read_exactly(alloc, text)
}

/// The same, of one exit.
#[tactic(auto, unfolding(crate::specs::Reading::tickets_in), using(crate::proofs::LineSteps::one_more, crate::proofs::LineSteps::no_ticket, crate::proofs::LineSteps::one_too_many, crate::proofs::LineSteps::all_read))]
fn read_exactly(alloc: Global, text: &[u8]) -> Result<Vec<[u8; 32]>, TicketsFault>
    requires { length text.now < 4294967295 }
    ensures { Gives fault_line (λ tickets. tickets.items) result (tickets_in text.now) }
{
    let mut tickets = with_room(alloc, text)?;
    let mut lines = Lines::new(text);
    while let Some(line) = lines.next() {
        let Some(ticket) = ticket_of(line.text) else {
            return Err(TicketsFault::Line { line: line.number });
        };
        if MOST_TICKETS <= tickets.len() {
            return Err(TicketsFault::Line { line: line.number });
        }
        if tickets.push(ticket).is_err() {
            return Err(TicketsFault::Memory);
        }
    }
    Ok(tickets)
}

/// No ticket, and room for as many as a text of this length can have, so that it is taken once.
fn with_room(alloc: Global, text: &[u8]) -> Result<Vec<[u8; 32]>, AllocError>
    ensures { IfOk result (λ tickets. tickets.items ≡ []) }
{
    let most = (text.len() / LINE_BYTES + 1).min(MOST_TICKETS);
    Vec::with_capacity(alloc, most)
}

/// The ticket on a line.
#[tactic(auto, unfolding(crate::specs::Reading::ticket_of))]
fn ticket_of(line: &[u8]) -> Option<[u8; 32]>
    ensures { result ≡ ticket_of line.now }
{
    let mut ticket = [0; 32];
    match hex::decode_to_slice(line, &mut ticket) {
        Ok(()) => Some(ticket),
        Err(_) => None,
    }
}
