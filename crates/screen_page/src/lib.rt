//! The page: a recording's screens as entries, which a browser folds.
#![tactic(auto)]

mod entry_printer;
pub mod laws;
mod numbered;
mod numbers;
mod page_file;
mod player;
mod rows;
mod title;

pub use numbers::put_comma_number;
pub use page_file::{page, put_front, put_tail};
