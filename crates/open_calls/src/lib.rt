//! What C opens and works with: a world that is read once, chains that are judged once, a call that is read once and
//! judged over them, and messages that are signed or sent on by a chain that is open.
//!
//! # The way through
//!
//! ```text
//! settings, anchors, code table --OpenWorld::read-->  OpenWorld    what every call goes by
//! the bytes of a chain ----------OpenChain::open-->   OpenChain    judged once; its questions; and, once they are confirmed, all that is known of it
//! a message and its moment ------OpenCall::open-->    OpenCall     read once and screened by the rules of the call: its x5us, what its PASSporTs say
//!    | questions                                                   the signatures of its PASSporTs, under the leaves' keys
//!    v judge, over OpenChains                                      Found: no rule is broken, or the first that is
//! a Key, an Order, a message ----to_sign-->           a digest     to be signed by the host, or Unsigned: why there is none
//!    v signed, by the signature                                    the message with its Identity field (RFC 8224, section 4.1)
//! a Retargeting ----------------to_retarget-->       a digest     to be signed by the host, or Unmoved: why there is none
//!    v retargeted, by the signature                                the message that goes on (RFC 8946, section 4; RFC 3261, section 16.6)
//! ```
//!
//! - The host says which chain is whose: [`OpenChains`] has one for each PASSporT, or none, in the order in which the
//!   call went.
//! - A chain and a call have questions for signatures. The host has them verified, and tells by a byte for each which
//!   are confirmed.
//! - [`Found`] is what comes of a call, and explains itself in lines.
//! - A [`Key`] is by what is signed: the first certificate of the signer's chain, the code table and the local
//!   numbering under which it was opened. An [`Order`] is what is to be signed: where a call comes from, or that it
//!   goes to another number than before.
//! - A [`Target`] says where an open call goes on, by which first certificate of the signer's chain, and when. A
//!   [`Retargeting`] is a call with its chains, what was confirmed, and its target.
//!
//! ```rust
//! let world = OpenWorld::read(alloc, &setting, anchors, table)?;
//! let chain = OpenChain::open(alloc, &world, bytes)?.confirm(alloc, &world, good)?;
//! let call = OpenCall::open(alloc, &world, moment, message)?;
//! let mut chains = OpenChains::new(alloc);
//! chains.push(Some(&chain))?;
//! let asked = call.questions(alloc, &world, &chains)?;      // if all of them are confirmed, asked.found comes of the call
//! let found = call.judge(alloc, &world, &chains, good)?;
//! match to_sign(alloc, &key, &order, message) {
//!     Unsigned::Digest(digest) => .., // the host's key signs the digest
//!     other => ..,
//! }
//! let message = signed(alloc, &key, &order, message, &signature)?;
//! let message = retargeted(alloc, &retargeting, &signature)?;
//! ```
//!
//! # What it isn't
//!
//! No rule is decided here: `cert_store` judges chains, `verify_rules` calls, `auth_service` what is signed, and
//! `retarget` what goes on. No file is read, no key is held, no signature is made or verified, no thread is started,
//! and no ticket is remembered. Of a signer's chain nothing but its first certificate is asked: no path, no date and no
//! signature of it.
//!
//! # What is proved
//!
//! A world is the one that the bytes are, or the first input that is none is named. What is known of a chain is what
//! the rules say of its bytes under its world, by what was confirmed. The verdict is what the rules say over exactly
//! these chains and answers; and it is the first rule that is broken in each world that leads to these chains and whose
//! provider says what the host said. Nothing is left open.
//!
//! The digest is that of the PASSporT which the order asks for; or the fault is told, with its cause in the message,
//! the order and the holder. The message that comes out is read back as the one that was signed. Of a call that goes on
//! the digest, each fault and the message are what `retarget` promises by a provider that confirms what the host
//! confirmed, and has the signature that was handed in or none. `docs/dev/PROVED.md` has the clauses.
//!
//! # Cases
//!
//! `tests/service`, through the library for C.
#![tactic(auto)]

mod call;
mod chain;
mod chains;
mod claims;
mod confirmed;
mod found;
mod gateway;
mod judging;
mod key;
mod laws;
mod lines;
mod order;
mod readers;
mod retargeting;
mod signing;
mod target;
mod unmoved;
mod unsigned;
mod wanted;
mod world;

pub use call::OpenCall;
pub use chain::OpenChain;
pub use chains::OpenChains;
pub use found::Found;
pub use gateway::{retargeted, to_retarget};
pub use judging::Asked;
pub use key::Key;
pub use laws::leaf_law;
pub use order::Order;
pub use retargeting::Retargeting;
pub use signing::{signed, to_sign};
pub use target::Target;
pub use unmoved::Unmoved;
pub use unsigned::{Unread, Unsigned};
pub use world::{OpenWorld, WorldFault, WorldSetting};
