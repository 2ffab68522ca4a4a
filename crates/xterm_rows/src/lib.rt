//! What a row of a terminal of today shows: its cells without the spaces at their end, its runs, and what is drawn.
#![tactic(auto)]

mod cells;
mod outline_table;
mod outlines;
mod renditions;
mod runs;

pub use cells::{cell_behind, inked, owner, trimmed};
pub use outlines::{is_braille, outline};
pub use renditions::{attribute_number, colour_number};
pub use runs::{Kind, Run, begins, is_letter, is_letter_like, kind_numbers, run_at};
