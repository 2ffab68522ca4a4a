//! Prints what a terminal of today shows as text, and goes to a moment of its recording.
#![tactic(auto)]

mod change_lines;
mod erased;
mod find_lines;
mod find_rows;
mod kept;
pub mod laws;
mod moved;
mod pieces;
mod plain_print;
mod rows;
mod runs;
mod same;
mod seeking;
mod within;

pub use change_lines::changes;
pub use chunk_walk::WalkFault;
pub use find_lines::find;
pub use plain_print::plain;
pub use rows::put_cell;
pub use same::same_row;
pub use seeking::{open, seek, seek_count};
