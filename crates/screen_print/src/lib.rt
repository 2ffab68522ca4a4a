//! Prints what a terminal shows as text.
#![tactic(auto)]

mod alike;
mod by_line;
mod change_lines;
mod chunk_bytes;
mod each_byte;
mod escaped_print;
mod find_lines;
mod free;
mod fresh;
mod key;
pub mod laws;
mod lost;
mod moved;
mod plain_print;
mod quiet;
mod seen;
mod silent;
mod skim;
mod standing;
mod start;
mod still;
mod stood;
mod walk;

pub use change_lines::changes;
pub use each_byte::find;
pub use escaped_print::{
    LINE_BYTES, byte_for, escaped, push_place, push_rendition, put_lines, slot_for,
};
pub use plain_print::plain;
pub use still::Still;
pub use walk::{ChangesFault, ChunkPrinter, put_all_chunks, put_chunks};
