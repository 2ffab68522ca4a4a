//! The cells of a row: without the spaces at their end, without the blank ones, and by their places.

ghost use Rattle.std.specs.Prelude.{◌≡◌, ◌+◌, ◌≤◌, length};
ghost use Rattle.std.specs.List.{suffix_len};
ghost use Rattle.xterm_rows.specs.Ink.{inked, is_blank};
ghost use Rattle.xterm_rows.specs.RowText.{is_space, trimmed};
ghost use Rattle.xterm_rows.specs.Runs.{cell_behind, owner};

use crate::renditions::is_plain;
use sheet::Cell;

/// The cells without the spaces at their end, whatever rendition those have.
pub fn trimmed(cells: &[Cell]) -> &[Cell]
    ensures { result.now ≡ trimmed cells.now }
{
    let mut len = cells.len();
    while len > 0 && is_space(cells[len - 1]) {
        len -= 1;
    }
    &cells[..len]
}

/// Whether a cell is a space alone, whatever its rendition.
#[tactic(auto, unfolding(crate::specs::RowText::is_space))]
fn is_space(cell: Cell) -> bool
    ensures { result ≡ is_space cell }
{
    !cell.is_covered() && cell.character() == ' ' && cell.mark_count() == 0
}

/// The cells to the last one that isn't a space alone without rendition.
#[tactic(auto, unfolding(crate::specs::Ink::inked))]
pub fn inked(cells: &[Cell]) -> &[Cell]
    ensures inked { result.now ≡ inked cells.now }
    ensures few { length result.now ≤ length cells.now }
{
    let mut len = cells.len();
    while len > 0 && is_blank(cells[len - 1]) {
        len -= 1;
    }
    &cells[..len]
}

/// Whether a cell is a space alone without rendition. Most tell it by their numbers.
#[tactic(auto, using(crate::proofs::LetterLemmas::blank_is))]
fn is_blank(cell: Cell) -> bool
    ensures { result ≡ is_blank cell }
{
    cell.is_blank() || (is_space(cell) && is_plain(cell.rendition()))
}

/// The cell behind so many others; a blank one behind the last.
pub fn cell_behind(cells: &[Cell], before: usize) -> Cell
    ensures { result ≡ cell_behind cells.now before }
{
    if before < cells.len() {
        cells[before]
    } else {
        Cell::empty()
    }
}

/// The cell whose character stands at a place, counted from 0: of a right half the one at its left.
#[tactic(auto, unfolding(crate::specs::Runs::owner))]
pub fn owner(cells: &[Cell], at: usize) -> Cell
    ensures { result ≡ owner cells.now at }
{
    let cell = cell_behind(cells, at);
    if cell.is_covered() {
        cell_behind(cells, at.saturating_sub(1))
    } else {
        cell
    }
}
