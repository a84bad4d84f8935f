//! The call log: a text of calls one after another, and a reader that hands them out one by one from a source (this
//! project's own format).
//!
//! An entry is `@MOMENT LENGTH`, one LF, and LENGTH bytes of a message. MOMENT is the second at which the call came, in
//! Unix time. Moments never fall.
//!
//! ```text
//! a source of bytes, cut anyhow
//!    | LogReader::next
//!    v
//! Call { number, moment, message }  ..  None at the end  ..  or a LogFault, with the offset of its entry
//! ```
//!
//! ```rust
//! let mut reader = LogReader::new(alloc);
//! while let Some(call) = reader.next(&mut source)? {
//!     // call.number(), call.moment(), call.message()
//! }
//! ```
//!
//! The reader takes the source in blocks of 65,536 bytes and holds one message at a time, so a log may be longer than
//! the memory. It doesn't look into the messages: that is `sip_message`. `log_run` has the loop of the commands over
//! it. `tools/stir-log` makes logs of captures. [`LogReader::after`] goes on from the number and the moment of an
//! earlier log's last call.
//!
//! Proved of [`LogReader::next`]: however the source cuts the bytes, a call is the next entry of the one log that they
//! are, and exactly its bytes were taken. A fault is the first one, and is known at the last byte taken and at none
//! before ([`one_log`], [`reads_law`]; `docs/dev/PROVED.md`, "A log").
//!
//! Cases: section `log` of `crates/vectors/stdin`; whole runs in `crates/vectors/stdin` and `tests/cli/verify.rows`.
#![tactic(auto)]

mod ahead;
mod call;
mod digits;
mod entry;
mod fault;
mod laws;
mod message;
mod progress;
mod reader;

pub use call::Call;
pub use fault::LogFault;
pub use laws::{one_log, reads_law};
pub use reader::LogReader;
pub use std::alloc::AllocError as Memory;
