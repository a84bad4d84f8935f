//! Texts of a few bytes that lie in the value itself, so that one is copied and takes no memory.
//!
//! A [`ShortText`] of size `N` holds up to `N` bytes, and at most 255. Telephone numbers (`tn_values`) and service
//! provider codes (`tn_auth_list`) are such texts. Which bytes a text may have is for these crates to test: here any
//! bytes are taken, and a longer text is a call that the contract forbids.
//!
//! ```rust
//! let text: ShortText<15> = ShortText::new(b"12155551212");
//! assert_eq!(text.bytes(), b"12155551212");
//! ```
//!
//! Proved: a text is the list of its bytes, and equality, order and hash are those of this list (`docs/dev/PROVED.md`).
//!
//! Cases: those of the two crates above, sections `numbers` and `authority` of `crates/vectors/stdin`.
#![tactic(auto)]

mod text;

pub use text::ShortText;
