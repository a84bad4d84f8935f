//! Calls of a table on certificates and what is read with them: the cases of the crates up to `cert_store`.
//!
//! A module for each subject, each with one `answer`: [`authority`] (`tn_auth_list`), [`certificates`]
//! (`x509_profile`), [`paths`] (`delegation`), [`chains`] and [`cache`] (`cert_store`). [`judged`], [`list_of`],
//! [`map_of`], [`table_of`] and [`anchors_of`] read values for `vector_calls` too.
//!
//! The lines are the sections of these names in `crates/vectors/stdin`; `crates/vectors/generators/certificates.py`
//! prints the certificates in them.
#![tactic(auto)]

pub mod authority;
pub mod cache;
pub mod certificates;
pub mod chains;
mod judging;
pub mod paths;

pub use judging::{anchors_of, judged, list_of, map_of, table_of};
