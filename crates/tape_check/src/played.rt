//! As what a recording is played.

use vt_term::Profile;

/// The terminal that plays a recording.
#[derive(Clone, Copy, Debug, PartialEq, Eq)]
pub enum PlayedAs {
    /// A VT100 or a VT102, of 80 columns and 24 lines.
    Vt(Profile),
    /// A terminal of today, of so many columns and lines.
    Today { columns: u16, lines: u16 },
}
