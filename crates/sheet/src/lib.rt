//! Sheets of cells of any size: rows of narrow and wide characters in colour, behind an order of rows.
#![tactic(auto)]

mod cell;
mod edit;
pub mod limits;
mod pen;
mod rendition;
mod row;
mod sheet;
mod slot;

pub use cell::{Cell, Kind, put_letters};
pub use edit::Edit;
pub use pen::{Paper, Pen};
pub use rendition::{Colour, Rendition};
pub use sheet::{PackedSheet, Sheet};
