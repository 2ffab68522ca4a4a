//! What a terminal is to those that play it: it is reset, fed and packed, and tells what it shows and sends.
#![tactic(auto)]

pub mod laws;
mod plays;
mod reports;

pub use plays::Plays;
pub use reports::{OutOfMemory, Reports};
