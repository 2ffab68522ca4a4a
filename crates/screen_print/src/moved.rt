//! Rows that stand on another screen some lines further up or down.

ghost use Rattle.std.specs.Prelude.{◌≡◌, ◌+◌, ◌≤◌, ℕ, true};
ghost use Rattle.screen_print.specs.Moved.{AreAnyLines, IsRise, TellsCame, TellsWent};
ghost use Rattle.vt_screen.specs.Cells.{row_at};

use crate::alike::BLOCK;
use crate::by_line::FEW;
use crate::still::Still;
use screen_rows::laws::same_rows_are_equal;
use screen_rows::{same_first, same_row};
use vt_screen::limits::LINES;

/// Lines of a screen, from one up to and without another, whose rows stand on another screen so many lines further down or
/// up.
#[derive(Clone, Copy)]
pub(crate) struct Moved {
    pub(crate) from: u8,
    pub(crate) end: u8,
    pub(crate) down: u8,
    pub(crate) up: u8,
}

/// So many lines further down the first so many rows of a screen stood on an earlier one.
#[derive(Clone, Copy)]
pub(crate) struct Rise {
    far: u8,
    count: u8,
}

impl Moved {
    /// No lines.
    pub(crate) fn none() -> Self
        ensures lines { AreAnyLines result }
        ensures none { result.end ≡ 1 }
    {
        Moved {
            from: 1,
            end: 1,
            down: 0,
            up: 0,
        }
    }
}

impl Rise {
    /// How rows moved up between two screens that differ in these lines.
    pub(crate) fn of(earlier: &Still, later: &Still, lines: &[u8]) -> Self
        ensures rise { IsRise result earlier.now later.now }
        ensures room { result.far + result.count ≤ LINES }
    {
        let far = first_far(earlier, later, lines);
        let count = count_moved(earlier, later, far);
        Rise { far, count }
    }

    /// The rows of the earlier screen that stand on the later one.
    pub(crate) fn went(self) -> Moved
        requires { self.far + self.count ≤ LINES }
        ensures { TellsWent self result }
    {
        Moved {
            from: self.far + 1,
            end: self.far + self.count + 1,
            down: 0,
            up: self.far,
        }
    }

    /// Those of the later screen.
    pub(crate) fn came(self) -> Moved
        requires { self.far + self.count ≤ LINES }
        ensures { TellsCame self result }
    {
        Moved {
            from: 1,
            end: self.count + 1,
            down: self.far,
            up: 0,
        }
    }
}

/// How far below the first line its row stood, as its first cells tell, where rows moved at all: else as far as no line is.
fn first_far(earlier: &Still, later: &Still, lines: &[u8]) -> u8
    ensures { result ≤ LINES }
{
    if lines.len() <= FEW {
        return LINES;
    }
    for far in 1..LINES {
        if same_first::<BLOCK>(&later.row(1).cells, &earlier.row(far + 1).cells) {
            return far;
        }
    }
    LINES
}

/// How many rows, from the first one on, stood so many lines further down.
fn count_moved(earlier: &Still, later: &Still, far: u8) -> u8
    requires { far ≤ LINES }
    ensures room { far + result ≤ LINES }
    ensures rows { (line : ℕ) → 1 ≤ line → line ≤ result
        → row_at later.now.rows line ≡ row_at earlier.now.rows (line + far) }
{
    for line in 1..LINES + 1 - far {
        if !is_same(later, line, earlier, line + far) {
            return line - 1;
        }
    }
    LINES - far
}

/// Whether a line of a screen has the row of a line of another one.
pub(crate) fn is_same(one: &Still, line: u8, other: &Still, there: u8) -> bool
    requires low { 1 ≤ line }
    requires high { line ≤ LINES }
    requires there_low { 1 ≤ there }
    requires there_high { there ≤ LINES }
    ensures { result ≡ true → row_at one.now.rows line ≡ row_at other.now.rows there }
{
    same_rows_are_equal();
    let narrow = !(one.is_wide() || other.is_wide());
    same_row(one.row(line), other.row(there), narrow)
}
