//! Sessions over recordings: edits and their log, request lines, and seeks to any moment.
#![tactic(auto)]

mod editing;
mod edits;
mod hex_text;
pub mod laws;
mod replay;
mod requests;
mod session;
mod written_log;

pub use edits::{Edit, EditFault};
pub use hex_text::put_hex;
pub use requests::{LineFault, Request, read_line};
pub use session::{LEAST_EVERY, MOST_EVERY, Refused, Session, View};
pub use vt_term::OutOfMemory;
pub use written_log::write_log;
