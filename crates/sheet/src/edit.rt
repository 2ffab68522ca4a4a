//! What may be done to a row, as a value.

use crate::pen::{Paper, Pen};

/// A change of one row.
#[derive(Clone, Copy, Debug)]
pub enum Edit {
    /// From a column to another, blank in a colour.
    Erase(u16, u16, Paper),
    /// A character of width 1 at a column.
    Narrow(u16, char, Pen),
    /// A character of width 2 at a column.
    Wide(u16, char, Pen),
    /// A character of width 0 joins the one that lies at a column.
    Mark(u16, char),
    /// So many blank cells come in at a column.
    Insert(u16, u16, Paper),
    /// So many cells are taken out at a column.
    Delete(u16, u16, Paper),
}
