//! The cells of the cursor's line, by column.

ghost use Rattle.std.specs.Prelude.{◌≡◌};
ghost use Rattle.sheet.specs.Cells.{cell_at};
ghost use Rattle.sheet.specs.Edits.{character_column};
ghost use Rattle.sheet.specs.Grid.{row_at};
ghost use Rattle.xterm_state.specs.StateText.{begin_of, cell_of};

use sheet::Cell;
use xterm_rows::cell_behind;
use xterm_screen::Screen;

/// Where the character begins that lies at a column of the cursor's line.
pub(crate) fn begin_of(screen: &Screen, column: u16) -> u16
    ensures { result ≡ begin_of screen.now.picture column }
{
    character_column(column, cursor_row(screen))
}

/// The cell of that character.
pub(crate) fn cell_of(screen: &Screen, column: u16) -> Cell
    ensures { result ≡ cell_of screen.now.picture column }
{
    let row = cursor_row(screen);
    cell_at(row, character_column(column, row))
}

/// The cells of the cursor's line.
fn cursor_row(screen: &Screen) -> &[Cell]
    ensures { let p = screen.now.picture in result.now ≡ row_at p.rows p.line }
{
    let (line, _) = screen.cursor();
    screen.row(line)
}

/// Where the character of a row begins that lies at a column.
fn character_column(column: u16, row: &[Cell]) -> u16
    ensures { result ≡ character_column column row.now }
{
    if cell_at(row, column).is_covered() {
        column.saturating_sub(1)
    } else {
        column
    }
}

/// The cell of a row at a column; outside the row stands a blank one.
fn cell_at(row: &[Cell], column: u16) -> Cell
    ensures { result ≡ cell_at row.now column }
{
    if column == 0 {
        Cell::empty()
    } else {
        cell_behind(row, usize::from(column) - 1)
    }
}
