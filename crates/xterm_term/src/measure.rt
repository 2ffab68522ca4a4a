//! The size of a screen.
ghost use Rattle.std.specs.Prelude.{◌≡◌, ◌≤◌, IsSome, IfSome, ◌↔◌};
ghost use Rattle.xterm_term.specs.Size.{IsSize};

use sheet::limits::{LEAST_COLUMNS, MOST_COLUMNS, MOST_LINES};

/// How many columns and lines a screen has: 2 to 1,000, and 1 to 500.
#[derive(Clone, Copy, Debug)]
pub struct Size {
    pub columns: u16,
    pub lines: u16,
    ghost sound: { IsSize columns lines },
}

impl Size {
    /// A size within the limits.
    pub fn new(columns: u16, lines: u16) -> Option<Self>
        ensures told { IsSome result ↔ IsSize columns lines }
        ensures columns { IfSome result (λ size. size.columns ≡ columns) }
        ensures lines { IfSome result (λ size. size.lines ≡ lines) }
    {
        if columns < LEAST_COLUMNS || columns > MOST_COLUMNS || lines < 1 || lines > MOST_LINES {
            return None;
        }
        Some(Size { columns, lines })
    }
}
