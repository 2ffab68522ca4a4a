//! A terminal of today: what bytes do to its two sheets, modes, rendition and character sets, and what it answers.
//!
//! ECMA-48 and Unicode are the model, and xterm's "Control Sequences" where these leave something open. A terminal has a
//! size, told when it is made, and takes its memory then; later only the list of its reports grows.
#![tactic(auto)]

mod below;
mod console;
mod controls;
mod escapes;
pub mod laws;
mod measure;
mod modes;
pub mod played;
mod playing;
mod private_modes;
mod puts;
mod reading;
mod renditions;
mod replies;
mod saved;
mod sequences;
mod sets;
mod spelled;
mod terminal;

pub use measure::Size;
pub use modes::Modes;
pub use plays::{OutOfMemory, Reports};
pub use saved::Saved;
pub use sets::{CharacterSet, Sets, Slot};
pub use terminal::{Letter, MovedLines, PackedTerminal, Terminal, letter_at, styling_at};
