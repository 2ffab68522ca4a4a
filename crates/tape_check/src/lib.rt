//! What a recording says of itself, and what the terminal that plays it can't show of it. No screen is played.
#![tactic(auto)]

mod check;
mod header;
pub mod laws;
mod notes;
mod played;
mod quiet;
mod scan;
mod tally;
mod trailer;
mod unplayed;
mod words;

pub use check::{CheckFault, put_parts, write_check};
pub use header::{told_profile, told_size};
pub use played::PlayedAs;
pub use trailer::is_usual;
