//! Tells where a text came to stand in a recording and where it went, byte by byte, on any terminal that plays and shows
//! rows of characters.
#![tactic(auto)]

mod again;
mod ahead;
mod behind;
mod chunk;
mod each_byte;
mod finder;
mod finding;
mod foretold;
pub mod laws;
mod lines;
mod room;
mod sides;

pub use finder::Finder;
pub use finding::find;
pub use foretold::{Foretold, LETTERS, LetterRun, Region, Written};
