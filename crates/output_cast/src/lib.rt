//! The recorded output itself as an asciicast, version 2, for players that emulate a terminal of today.
//!
//! Bytes become characters over the cuts of chunks. No terminal is played, and no memory is taken.
#![tactic(auto)]

mod cast_file;
mod events;
mod json;
pub mod laws;

pub use cast_file::cast;
