//! The words of a command line, and the job that they ask for.
#![tactic(auto)]

mod job;
pub mod laws;
mod player;
mod words;

pub use job::Job;
pub use player::{Measure, Player, Print, Source, is_size};
pub use words::{USUAL_EVERY, VERSION, Words, WordsFault, read_words};
