//! A VT100 terminal: what bytes do to its screen, modes and character sets, and what it answers.
//!
//! EK-VT100-UG chapter 3 is the model, VT52 mode included; a second profile adds the VT102's editing functions. A terminal
//! takes no memory; only the list of its reports grows, and only where a reply is sent past its end, and a terminal that is
//! packed to be kept for later takes what its cells need.
#![tactic(auto)]

mod console;
mod controls;
mod escapes;
pub mod laws;
mod modes;
mod performer;
pub mod played;
mod playing;
mod private_modes;
mod profile;
mod replies;
mod saved;
mod sequences;
mod sets;
mod terminal;
mod vt52;

pub use modes::Modes;
pub use performer::Performer;
pub use plays::{OutOfMemory, Reports};
pub use profile::Profile;
pub use saved::Saved;
pub use sets::{CharacterSet, Sets, Slot};
pub use terminal::{PackedTerminal, Terminal};
