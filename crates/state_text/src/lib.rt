//! What one run can hand on to the next, as a text: the window by which it judged, its last call, and which calls
//! passed on which tickets.
//!
//! The format is this project's own. A state file is empty, or it has any lines other than `past 1`, then the text of a
//! state, then anything. So the whole output of a run can be one.
//!
//! - [`State::read`] takes a state file, and a [`StateFault`] names the first bad line.
//! - [`State::new`] makes a state of its parts, and [`State::write`] gives its text.
//! - [`first_line`] cuts off the first line of a text, with its LF.
//! - [`Kept`] is what is kept of a ticket: the call that passed, and the last second at which its PASSporT is fresh.
//!
//! ```rust
//! let state = State::read(alloc, text, 60)?;
//! let text = state.write()?;                                // reading that gives the same state
//! ```
//!
//! Nothing is judged here. The past that a service asks is `replay_desk`'s, which gives its entries as a list
//! ([`State::kept`] has the same form).
//!
//! Proved: exactly the state files are read, each for the state that it holds, and any other text is refused with its
//! first bad line. `specs/StateText` has the text and the files, `specs/BadLine` the line that a fault names, and
//! `specs/Reading` a reader of lists, which the code follows. `docs/dev/PROVED.md` has the clauses.
//!
//! Cases: section `state` of `crates/vectors/stdin`, which `crates/vectors/generators/states.py` prints.
#![tactic(auto)]

mod entries;
mod fault;
mod kept;
mod lines;
mod reading;
mod rows;
mod state;
mod writing;

pub use fault::StateFault;
pub use kept::Kept;
pub use lines::first_line;
pub use state::State;
/// Memory ran out.
pub use std::alloc::AllocError as Memory;
