//! Draws what a terminal of today shows as one SVG file.
#![tactic(auto)]

mod attributes;
mod colour_table;
mod colours;
mod cursor;
mod dots;
mod grounds;
mod letters;
mod picture_file;
mod rows;
mod strokes;
mod texts;

pub use colour_table::{Rgb, palette};
pub use colours::{Paint, ground_paint, ink_paint};
pub use picture_file::picture;
