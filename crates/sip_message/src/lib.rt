//! The head of a SIP message (RFC 3261, section 7): its start line and its header fields, and what they say of
//! telephone numbers.
//!
//! # The way through
//!
//! [`Message::read`] takes the bytes of a message of at most [`MOST_BYTES`]. What it gives is a view into them, and is
//! asked:
//!
//! - [`Message::is_invite`];
//! - the numbers: [`Message::from_number`], [`Message::to_number`], [`Message::target_number`] (the request URI),
//!   [`Message::asserted_number`] (RFC 3325) and [`Message::calling_number`], which is the asserted one or else From's;
//! - [`Message::date`], in Unix seconds;
//! - the Identity header fields, as values: [`Message::identity_count`] and [`Message::identity`];
//! - any header field by its name: [`Message::field_value`].
//!
//! [`with_field`] goes the other way: it puts one more header field into the bytes of a message, if [`is_addable`] and
//! [`is_field_value`] allow it. A [`MessageText`] keeps the bytes beside the message, for one that is asked and then
//! given a field. [`with_target`] puts another request URI into the bytes, if [`is_target`] allows it; [`uri_number`]
//! gives that URI's number.
//!
//! ```rust
//! let message = Message::read(alloc, bytes)?;               // MessageFault::Form has the kind of the fault and its offset
//! let calling = message.calling_number(&local);             // None if the message gives none
//! let signed = with_field(alloc, bytes, b"Identity", value)?;
//! ```
//!
//! # What it isn't
//!
//! No parser of whole SIP: bodies aren't read, header fields other than those above are only split off, and a URI is
//! taken apart as far as its number. An Identity value is read by `identity_header`.
//!
//! # What is proved
//!
//! A message is read just if the bytes are one, the first fault and its offset are said both ways, and each number is
//! the one that the grammar of addresses and URIs gives. A field that was put in is read back as the last, and with
//! another request URI all else is read as before. `docs/dev/PROVED.md`, "Messages and PASSporTs", has the clauses, and
//! [`head_law`], [`added_field_law`] and [`target_law`] are the laws for the crates above.
//!
//! # Cases
//!
//! Section `messages` of `crates/vectors/stdin`, and `signing.with_field` there; `tests/cli/retarget.rows` for another
//! request URI.
#![tactic(auto)]

mod added;
mod address;
mod alphabet;
mod fault;
mod field;
mod field_line;
mod head;
mod known;
mod laws;
mod lines;
mod message;
mod name;
mod start_line;
mod target;
mod text;
mod value;

pub use added::{is_addable, is_field_value, with_field};
pub use address::uri_number;
pub use alphabet::is_target;
pub use fault::{FormFault, MessageFault};
pub use laws::{added_field_law, compact_law, head_law, target_law};
pub use message::{MOST_BYTES, Message};
pub use target::with_target;
pub use text::MessageText;
