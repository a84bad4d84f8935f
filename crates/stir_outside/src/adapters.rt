//! The trusted edge: the traits over real files and streams. They tell nothing of content.

pub mod files;
pub mod stdin;
pub mod stdout;
