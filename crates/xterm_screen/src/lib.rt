//! The screen of a terminal of today: two sheets of any size, a cursor, a pending wrap, margins and tab stops.
//!
//! Memory is taken where a screen is made, and nowhere else.
#![tactic(auto)]

pub mod laws;
mod screen;

pub use screen::{PackedScreen, Screen};
