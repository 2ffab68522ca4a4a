//! Draws what a terminal shows as one SVG file.
#![tactic(auto)]

mod cursor;
mod frames;
mod grounds;
mod letters;
mod picture_file;
mod strokes;
mod texts;

pub use picture_file::picture;
