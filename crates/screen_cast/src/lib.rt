//! Writes a recording as an asciicast, which players of terminal recordings take.
#![tactic(auto)]

mod cast_file;
mod drawn;
mod events;
mod json;
mod runs;
mod shown;
mod texts;
mod visitor;

pub use cast_file::cast;
