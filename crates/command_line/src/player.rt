//! Where a recording stands, and which terminal is asked for, and of which size.

ghost use Rattle.std.specs.Prelude.{◌≡◌};
ghost use Rattle.command_line.specs.Measures.{is_size};

use vt_term::Profile;

/// Columns and lines, as they are asked for or told.
#[derive(Clone, Copy, Debug, PartialEq, Eq)]
pub struct Measure {
    pub columns: u64,
    pub lines: u64,
}

/// Where a recording stands.
#[derive(Clone, Copy, Debug, PartialEq, Eq)]
pub enum Source {
    /// In a typescript and its timing file.
    Pair,
    /// In one file, of another form.
    Recording,
}

/// Which terminal plays a recording.
#[derive(Clone, Copy, Debug, PartialEq, Eq)]
pub enum Player {
    /// A VT100 or a VT102.
    Vt(Profile),
    /// A terminal of today, of the size that is asked for, if one is, and else of the one that the header tells.
    Today(Option<Measure>),
    /// The one that the header's TERM tells: a VT102, a VT100 (for a VT52 too), and for any other, and for none, a terminal
    /// of today, of that size.
    Auto(Option<Measure>),
}

/// How a screen is printed.
#[derive(Clone, Copy, Debug, PartialEq, Eq)]
pub enum Print {
    /// As plain text.
    Plain(Player),
    /// As a text that draws it again on a reset terminal of the same kind and size.
    Escaped(Player),
    /// As a text that makes any terminal of the same kind and size what it was.
    State(Player),
}

/// Whether a measure is within the limits of a screen.
pub fn is_size(measure: Measure) -> bool
    ensures { result ≡ is_size measure }
{
    let columns = measure.columns >= 2 && measure.columns <= 1000;
    let lines = measure.lines >= 1 && measure.lines <= 500;
    columns && lines
}
