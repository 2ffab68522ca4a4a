//! A number of a row that most others don't share.

ghost use Rattle.std.specs.Prelude.{◌≡◌};
ghost use Rattle.sheet.specs.Grid.{IsUsed};
ghost use Rattle.xterm_page.specs.Same.{row_number};

use sheet::Cell;

/// The number of no cells, to which blank ones add nothing.
const NOTHING: u64 = 3_316_033_757_095_235_816;

/// A number of a row that most others don't share, where behind so many cells all are blank.
pub(crate) fn row_number(cells: &[Cell], used: usize) -> u64
    requires { IsUsed cells.now used }
    ensures { result ≡ row_number cells.now }
{
    let mut number = NOTHING;
    let mut left = used;
    while left > 0 {
        left -= 1;
        number = cells[left].mixed(number);
    }
    number
}
