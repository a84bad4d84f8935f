//! A text of tickets, read, claimed on one live desk by many workers, and a line for each of them (this project's own
//! rule). A ticket's line is 64 hex digits of either case.
//!
//! ```text
//! text   --read_tickets-->   tickets   --claim_tickets, on a Live desk-->   a claim each   --lines-->   Report
//! ```
//!
//! - [`run_once`] does all of it for a text in memory, and gives a [`Report`]: the lines, and whether each ticket was
//!   won.
//! - A [`TicketsFault`] names the first line of the text that has no ticket, or one more than the 1,000,000 that it may
//!   have.
//! - `claim_tickets` is the middle alone. Worker w of W has the tickets w, w + W, and so on; the workers run side by
//!   side and wait for nobody.
//!
//! ```rust
//! let report = run_once(&rt, alloc, 4, 2, text)?;           // a desk of 4 slots a level, two workers
//! let well = report.all_won();
//! ```
//!
//! A ticket is not looked at beyond its digits: what it is the digest of is nobody's question here. How much of an
//! input is taken is decided in `stir_cmd`. Which of two claims of one ticket wins is nobody's promise, nor are
//! progress and time. Nothing is kept from one run to the next.
//!
//! Proved: exactly the texts of the grammar are read, and a fault names the first bad line (`specs/TicketText`); each
//! ticket has its line, at most one line of a ticket is `won`, a lost ticket was won, and a full level is held by other
//! tickets (`specs/Claims`); how it is written (`specs/Lines`); what the whole answers (`specs/Ran`). [`room_law`] says
//! when no line is full.
//!
//! Cases: `tests/cli/once.rows`.
#![tactic(auto)]

mod claiming;
mod fault;
mod gathering;
mod laws;
mod lines;
mod reading;
mod report;
mod run;
mod seating;
mod worker;

pub use fault::TicketsFault;
pub use laws::room_law;
pub use report::Report;
pub use run::run_once;
