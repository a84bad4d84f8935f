//! A text of tickets, read, claimed and reported.
ghost use Rattle.std.specs.Prelude.{◌≤◌, ◌<◌, length};
ghost use Rattle.once_run.specs.Ran.{OnceRan};

use crate::claiming::claim_tickets;
use crate::fault::TicketsFault;
use crate::lines::{all_won, claim_lines};
use crate::reading::read_tickets;
use crate::report::Report;
use std::alloc::Global;
use std::thread::Threads;

/// Reads a text of tickets, and claims them by so many workers, 1 to 8, on a desk with so many slots a level, 1 to
/// 1,048,576. Says in a line for each what came of it. The text has at most 4,294,967,294 bytes.
///
/// The fault names the first line of the text that has no ticket, or one more than the 1,000,000 that it may have; else
/// it is out of memory.
pub fn run_once<R: Threads + Sync>(
    rt: &R,
    alloc: Global,
    size: u32,
    workers: u64,
    input: &[u8],
) -> Result<Report, TicketsFault>
    requires input { length input.now < 4294967295 }
    requires some_slots { 1 ≤ size }
    requires most_slots { size ≤ 1048576 }
    requires some_workers { 1 ≤ workers }
    requires most_workers { workers ≤ 8 }
    ensures { OnceRan size input.now result }
{
    let tickets = read_tickets(alloc, input)?;
    let claims = claim_tickets(rt, alloc, size, workers, &tickets)?;
    let text = claim_lines(alloc, &claims)?;
    Ok(Report {
        text,
        all_won: all_won(&claims),
    })
}
