//! When two rows are the same.

ghost use Rattle.std.specs.Prelude.{◌≡◌, ◌≤◌, length, take, true, false};
ghost use Rattle.std.specs.Cmp.Lexicographic.{pointwise};
ghost use Rattle.vt_screen.specs.Picture.{SoundRow};
ghost use Rattle.screen_rows.specs.SameRows.{same_cell, same_row};

use vt_screen::limits::{NARROW_COLUMNS, WIDE_COLUMNS};
use vt_screen::{Cell, Row};

const NARROW: usize = NARROW_COLUMNS as usize;

const WIDE: usize = WIDE_COLUMNS as usize;

/// How many cells tell most rows apart.
const FIRST_CELLS: usize = 16;

/// Whether two rows have the same size and the same cells. Rows of narrow screens are blank right of
/// column 80, and aren't compared there.
pub fn same_row(one: &Row, other: &Row, narrow: bool) -> bool
    requires { narrow ≡ true → SoundRow false one.now × SoundRow false other.now }
    ensures { result ≡ same_row one.now other.now }
{
    one.size == other.size && same_cells(one, other, narrow)
}

/// The same of rows most of which differ: their first cells are compared first.
pub fn same_by_front(one: &Row, other: &Row, narrow: bool) -> bool
    requires { narrow ≡ true → SoundRow false one.now × SoundRow false other.now }
    ensures { result ≡ same_row one.now other.now }
{
    same_first::<FIRST_CELLS>(&one.cells, &other.cells) && same_row(one, other, narrow)
}

/// Whether two rows have the same cells.
fn same_cells(one: &Row, other: &Row, narrow: bool) -> bool
    requires { narrow ≡ true → SoundRow false one.now × SoundRow false other.now }
    ensures { result ≡ pointwise same_cell one.now.cells other.now.cells }
{
    if narrow {
        return same_first::<NARROW>(&one.cells, &other.cells);
    }
    same_first::<WIDE>(&one.cells, &other.cells)
}

/// Whether the first N cells are the same. Each is compared, whatever those before it came to, so that
/// many are compared at once.
pub fn same_first<const N: usize>(one: &[Cell; WIDE], other: &[Cell; WIDE]) -> bool
    requires { N ≤ WIDE }
    ensures same { result ≡ pointwise same_cell (take N one.now) (take N other.now) }
    ensures whole { length one.now ≡ WIDE }
    ensures other_whole { length other.now ≡ WIDE }
{
    let mut same = true;
    for at in 0..N {
        same &= one[at].number() == other[at].number();
    }
    same
}
