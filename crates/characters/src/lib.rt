//! Characters: UTF-8 over the cuts of chunks, and how many columns a character takes in a terminal.
#![tactic(auto)]

mod columns;
pub mod laws;
mod utf8;

pub use columns::width;
pub use utf8::{Begun, Decoder, Reading, begins, character_at};
