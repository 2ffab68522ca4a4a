//! Walks over the chunks of a recording, on any terminal that plays.
#![tactic(auto)]

mod change_line;
pub mod laws;
mod stop;
mod walk;

pub use change_line::{LineNumber, put_change};
pub use stop::WalkFault;
pub use walk::{Visitor, visit_all_chunks, visit_chunks};
