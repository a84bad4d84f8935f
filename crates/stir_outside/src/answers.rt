//! Signatures that were confirmed and made beforehand, as an answers file has them, and a provider over them.

pub mod held;
mod hex_word;
pub mod key_name;
pub mod provider;
pub mod reader;
pub mod rows;
pub mod steady;
pub mod stretch;
