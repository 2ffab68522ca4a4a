//! The page of a terminal of today: a recording's screens as entries, which a browser folds.
#![tactic(auto)]

mod caught;
mod distinct;
mod entry_printer;
mod kept;
pub mod laws;
mod moved;
mod page_file;
mod rows;
mod same;

pub use page_file::page;
