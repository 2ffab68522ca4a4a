//! The cells of a row: to its right margin, without the spaces at their end, without the blank ones; and its text.

ghost use Rattle.std.specs.Prelude.{◌≡◌, ℕ, ◌+◌, ◌<◌, ◌≤◌, length, slice_index_or, take, true};
ghost use Rattle.std.specs.List.{suffix_len};
ghost use Rattle.vt_screen.specs.Cells.{blank};
ghost use Rattle.vt_screen.specs.Picture.{margin_of};
ghost use Rattle.screen_rows.specs.Ink.{inked, is_blank};
ghost use Rattle.screen_rows.specs.RowText.{characters, is_space, printed_line, row_text, trimmed};

use crate::glyphs::character;
use arrayvec::ArrayString;
use vt_screen::limits::WIDE_COLUMNS;
use vt_screen::{Cell, Row, margin_of};

/// How many bytes a printed line has at most: three for each of 132 glyphs, and LF.
const LINE_BYTES: usize = 397;

/// How many cells are looked at together.
pub(crate) const BLOCK: usize = 16;

/// The number of a blank cell.
const BLANK: u16 = 32;

/// A row as it is printed, and LF.
pub fn printed_row(wide: bool, row: &Row) -> ArrayString<LINE_BYTES>
    requires { length row.now.cells ≡ WIDE_COLUMNS }
    ensures { result.bytes ≡ printed_line wide row.now }
{
    let cells = cells_to_margin(wide, row);
    let mut text = ArrayString::new();
    for cell in trimmed(cells) {
        text.push(character(cell.glyph));
    }
    text.push('\n');
    text
}

/// The cells of a row from column 1 to its right margin.
pub fn cells_to_margin(wide: bool, row: &Row) -> &[Cell]
    requires { length row.now.cells ≡ WIDE_COLUMNS }
    ensures cells { result.now ≡ take (margin_of wide row.now.size) row.now.cells }
    ensures few { length result.now ≤ WIDE_COLUMNS }
    ensures text { characters result.now ≡ row_text wide row.now }
    ensures some { 40 ≤ length result.now }
{
    &row.cells[..margin_of(wide, row.size) as usize]
}

/// The cells without the spaces at their end, whatever rendition those have.
pub fn trimmed(cells: &[Cell]) -> &[Cell]
    ensures { result.now ≡ trimmed cells.now }
{
    let mut len = without_blocks(cells);
    while len > 0 && is_space(cells[len - 1]) {
        len -= 1;
    }
    &cells[..len]
}

/// Whether a cell is printed as a space, whatever its rendition.
fn is_space(cell: Cell) -> bool
    ensures { result ≡ is_space cell }
{
    matches!(cell.glyph, 0 | 32)
}

/// The cells to the last one that isn't blank, that is, a space without rendition.
pub fn inked(cells: &[Cell]) -> &[Cell]
    ensures { result.now ≡ inked cells.now }
{
    &cells[..inked_len(cells)]
}

/// How many of the cells are left without the blank ones at their end.
fn inked_len(cells: &[Cell]) -> usize
    ensures { result + suffix_len is_blank cells.now ≡ length cells.now }
{
    let mut len = without_blocks(cells);
    while len > 0 && is_blank(cells[len - 1]) {
        len -= 1;
    }
    len
}

/// How many are left without the blocks of blank ones at their end.
fn without_blocks(cells: &[Cell]) -> usize
    ensures within { result ≤ length cells.now }
    ensures passed { result + suffix_len is_blank cells.now
        ≡ length cells.now + suffix_len is_blank (take result cells.now) }
    ensures spaces { result + suffix_len is_space cells.now
        ≡ length cells.now + suffix_len is_space (take result cells.now) }
{
    let mut len = cells.len();
    while len >= BLOCK && are_blank(cells, len - BLOCK) {
        len -= BLOCK;
    }
    len
}

/// Whether the cells of the block that begins here are blank. Each is looked at, so that many are at once.
fn are_blank(cells: &[Cell], from: usize) -> bool
    requires { from + BLOCK ≤ length cells.now }
    ensures { result ≡ true → (k : ℕ) → from ≤ k → k < from + BLOCK
        → is_blank (slice_index_or cells.now k blank) ≡ true }
{
    let mut blank = true;
    for at in from..from + BLOCK {
        blank &= cells[at].number() == BLANK;
    }
    blank
}

/// Whether a cell is a space without rendition.
fn is_blank(cell: Cell) -> bool
    ensures { result ≡ is_blank cell }
{
    cell == Cell::blank()
}
