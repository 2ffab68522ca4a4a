//! What a row of a screen shows: its cells, the characters of their glyphs, its text and its runs.
#![tactic(auto)]

mod cells;
mod glyphs;
mod kept;
pub mod laws;
mod outlines;
mod plain;
mod runs;
mod same;
mod texts;

pub use cells::{cells_to_margin, inked, printed_row, trimmed};
pub use glyphs::character;
pub use kept::{Compared, KeptRows, ROWS};
pub use outlines::outline;
pub use plain::{are_plain, glyphs_of, glyphs_of_run};
pub use runs::{CELLS, Kind, Run, cells_of, run_at, runs_of};
pub use same::{same_by_front, same_first, same_row};
pub use texts::{push_bytes, push_bytes_where, push_number};
