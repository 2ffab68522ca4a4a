//! Cuts and excerpts of a recording that don't show: in the place of what goes stands the state of the terminal, as a text.
#![tactic(auto)]

mod cutting;
pub mod laws;
mod making;
mod states;

pub use cutting::{cut, excerpt};
pub use states::StateText;
