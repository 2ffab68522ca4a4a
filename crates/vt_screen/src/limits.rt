//! The measures of a screen.

/// Lines of a screen.
pub const LINES: u8 = 24;

/// Columns of a wide screen, and cells of every row.
pub const WIDE_COLUMNS: u8 = 132;

/// Columns of a screen that isn't wide.
pub const NARROW_COLUMNS: u8 = 80;

/// The greatest number of a glyph.
pub const LAST_GLYPH: u8 = 126;
