//! The session as text, on any terminal: the rows that left the screen at its top, and those that stand.
#![tactic(auto)]

mod home;
pub mod laws;
mod print;
mod rows;
mod transcribes;

pub use home::{After, Place, place_of};
pub use print::transcript;
pub use rows::Rows;
pub use transcribes::Transcribes;
