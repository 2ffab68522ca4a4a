//! The escaped print of a terminal of today: a text that draws again what it shows.
#![tactic(auto)]

mod escaped_print;
pub mod laws;
mod renditions;

pub use escaped_print::{escaped, put_line, put_place};
pub use renditions::{put_number, put_rendition, put_where, same_rendition};
