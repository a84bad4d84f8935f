//! The words of a command line: a command, and options with values of their types (this project's own rule).
//!
//! - [`Order::of`] takes the words after the program's name. An [`Order`] has a variant for each command, with the
//!   values that it takes: [`Verifying`], [`Judging`], [`Asking`], [`Signing`], [`Diverting`], [`Retargeting`] and
//!   their kin.
//! - Which options a command takes is in one table. Each option is a word `--name=value`, or a word `--name` and a next
//!   word that is the value. No other list of words is accepted: a [`WordsFault`] says so, and nothing more.
//! - [`Settings`] and [`HolderFiles`] are parts that several commands share.
//!
//! ```rust
//! match Order::of(alloc, words) {
//!     Ok(Order::Verify(verifying)) => ..,
//!     Ok(order) => ..,
//!     Err(WordsFault::Refused) => ..,                       // the program ends with status 2
//!     Err(WordsFault::Memory) => ..,
//! }
//! ```
//!
//! The options are read by `clap`. There is no `--help`: the script `stir` at the repository's root says why words are
//! refused, and `docs/COMMANDS.md` and `man/stir.1` have the commands. The named files are read by `stir_files`.
//!
//! Proved: exactly the lists of words are accepted that the definition accepts, with exactly its values (`specs/Order`,
//! `specs/Values`, `specs/Options`, `specs/Table`). `docs/dev/PROVED.md`, "The program", has the clauses.
//!
//! Cases: section `words` of `crates/vectors/stdin`, which `crates/vectors/generators/words.py` prints;
//! `tests/cli/words.rows`.
#![tactic(auto)]

mod claiming;
mod clap_options;
mod commands;
mod drilling;
mod fault;
mod options;
mod order;
mod retargeting;
mod settings;
mod signing;
mod values;
mod verifying;

pub use claiming::Claiming;
pub use drilling::Drilling;
pub use fault::WordsFault;
pub use order::{Asking, Judging, Order};
pub use retargeting::Retargeting;
pub use settings::Settings;
pub use signing::{Diverting, HolderFiles, Signer, Signing};
pub use verifying::Verifying;
