//! The measures of a sheet.

/// The fewest columns.
pub const LEAST_COLUMNS: u16 = 2;

/// The most columns.
pub const MOST_COLUMNS: u16 = 1000;

/// The most lines.
pub const MOST_LINES: u16 = 500;
