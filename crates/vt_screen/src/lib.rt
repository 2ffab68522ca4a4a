//! The screen of a terminal: cells told by line and column, a cursor, margins, tabs and line sizes.
//!
//! Fixed arrays: nothing here takes memory, and nothing is refused, but for a screen that is packed to be kept for later.
#![tactic(auto)]

mod cell;
mod grid;
pub mod laws;
pub mod limits;
mod rendition;
mod screen;
mod touched;

pub use cell::{Cell, Row, Size, margin_of};
pub use rendition::Rendition;
pub use screen::{PackedScreen, Screen};
