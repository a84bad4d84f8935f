//! A PASSporT token as an Identity header field has it (RFC 8225; RFC 7515, section 7.1): three texts in base64url with
//! dots between them.
//!
//! # The way through
//!
//! - [`Token::read`] takes the text of a token and a [`View`], which is what the message gives: its Date, its numbers,
//!   `info` and `ppt`. In the compact form (RFC 8225, section 7) the first two texts are left out, and are built again
//!   from the view.
//! - The [`Token`] has the header and the payload as JSON values, the 64 bytes of the signature, and the text that was
//!   signed ([`Token::signing`]).
//! - [`deterministic`] writes a JSON value in its one form (RFC 8225, section 9), if [`is_writable`]. [`signing_input`]
//!   joins header and payload, and [`ticket`] is the SHA-256 of that: 32 bytes by which a call is known again.
//!
//! ```rust
//! let token = Token::read(alloc, field.token(), &view)?;    // TokenFault says which check refused
//! let digest = ticket(token.signing());
//! ```
//!
//! # What it isn't
//!
//! What the claims mean isn't asked here, but in `passport_claims`. Whether the signature is genuine is asked of a
//! provider, far above (`verify_rules`). Reading JSON and base64url is the work of the kit's `serde_json` and `base64`.
//!
//! # What is proved
//!
//! A token is read just if the text is that token for its call, and at most one fits. Each of the five refusals is said
//! in the words of the serialization, both ways. The deterministic text is one and reads back. `docs/dev/PROVED.md`,
//! "Messages and PASSporTs", has the clauses.
//!
//! # Cases
//!
//! Section `tokens` of `crates/vectors/stdin`.
#![tactic(auto)]

mod compact;
mod fault;
mod laws;
mod parts;
mod read;
mod signing;
mod token;
mod view;
mod writing;

pub use fault::TokenFault;
pub use laws::{
    base64_law, compact_text_law, full_text_law, signed_law, token_bytes_law, token_found_law,
    token_law,
};
pub use signing::{signing_input, ticket};
pub use std::alloc::AllocError as Memory;
pub use token::Token;
pub use view::View;
pub use writing::{deterministic, is_writable};
