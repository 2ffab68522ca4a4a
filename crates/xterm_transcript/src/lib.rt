//! The session as text on a terminal of today: which rows leave its screen at the top, and the rows that stand.
#![tactic(auto)]

mod home;
pub mod laws;
mod leaving;
mod rows;
mod transcriber;
mod transcribes;

pub use transcriber::Transcriber;
