//! The named files that the program reads before its input: each from the shelf, within its limit, and tried by its
//! grammar before the next is read.
//!
//! - [`read_files`] reads a list of [`InputFile`]s in its order, and gives [`Inputs`].
//! - [`read_materials`] reads the four files of `verify` so: the chain map, the trust anchors, the code table and the
//!   answers.
//! - [`read_going`] reads them and then a state file, for a log that goes on from the state of an earlier run.
//! - [`read_world`] reads the first three, for `ask`.
//! - [`read_retargeting`] reads those of `retarget`: these four and the certificate of a holder.
//! - [`read_signing`] reads those of `sign` and `divert`: the answers, and the certificate of a holder and the code
//!   table, if these are named.
//! - If one can't be had they answer a [`FileError`], which has the name, the [`FileFault`], and the line and the
//!   status with which the program ends.
//!
//! ```rust
//! match read_materials(alloc, &mut shelf, &judging) {
//!     Ok(materials) => ..,
//!     Err(error) => end_with(&mut sink, &error.line(alloc)?, error.status()),
//! }
//! ```
//!
//! The formats aren't read here: they are those of `cert_store`, `delegation`, `tn_auth_list`, `x509_profile`,
//! `state_text` and `stir_outside`. The files of
//! chains are read later, as calls name them (`verify_service`).
//!
//! Proved: the files are given as their readers say, or the fault is that of the first file that has one, with its
//! cause in the shelf's own counts; nothing else was read. `docs/dev/PROVED.md`, "The program", has the clauses, and
//! `docs/FORMATS.md` the lines.
//!
//! Cases: section `files` of `crates/vectors/stdin`, `tests/cli/files.rows`, and files of the longest in
//! `crates/stir_tests`.
#![tactic(auto)]

mod anchors;
mod answers;
mod chains;
mod fault;
mod going;
mod input_file;
mod inputs;
mod laws;
mod leaf;
mod materials;
mod retargeting;
mod shelf;
mod signing;
mod state;
mod state_file;
mod stop;
mod table;
mod world;

pub use fault::FileFault;
pub use going::{GoingMaterials, read_going};
pub use input_file::InputFile;
pub use inputs::{Inputs, read_files};
pub use laws::rows_law;
pub use materials::{Materials, read_materials};
pub use retargeting::{RetargetingMaterials, read_retargeting};
pub use signing::{HolderMaterials, SigningMaterials, read_signing};
pub use state_file::StateFile;
pub use stop::FileError;
pub use world::read_world;
/// Memory ran out.
pub use std::alloc::AllocError as Memory;
