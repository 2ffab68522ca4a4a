//! Writes what a terminal is, as a text that makes of any terminal one that is the same.
#![tactic(auto)]

mod closing;
pub mod laws;
mod opening;
mod state_print;
mod vt_state;

pub use state_print::state;
pub use vt_state::VtState;
