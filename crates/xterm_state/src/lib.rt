//! Writes what a terminal of today is, as a text that makes of any terminal of its size one that is the same.
#![tactic(auto)]

mod cells;
mod closing;
pub mod laws;
mod opening;
mod state_print;
mod today_state;

pub use state_print::state;
pub use today_state::TodayState;
