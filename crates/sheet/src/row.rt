//! Rows: what is done in one, with the halves of wide characters mended.

ghost use Rattle.std.specs.Prelude.{◌≡◌, ◌+◌, ◌-◌, ◌<◌, ◌≤◌, IsTrue, false, length, true, ℕ};
ghost use Rattle.sheet.specs.Cells.{cell_at, is_covered, is_wide};
ghost use Rattle.sheet.specs.Grid.{IsUsed};
ghost use Rattle.sheet.specs.Halves.{Whole, border_mended, parted};
ghost use Rattle.sheet.specs.Packed.{unpacked};
ghost use Rattle.sheet.specs.Edits.{character_column, deleted, erased, filled, inserted, mark_added};
ghost use Rattle.sheet.specs.Edits.{put, run_put};

use crate::cell::Cell;
use crate::pen::{Paper, Pen};

/// Whether a wide character begins at a column; none does outside the row.
fn wide_at(cells: &[Cell], column: usize) -> bool
    ensures value { result ≡ is_wide (cell_at cells.now column) }
    ensures low { IsTrue result → 1 ≤ column }
    ensures high { IsTrue result → column ≤ length cells.now }
{
    if column > 0 && column <= cells.len() {
        cells[column - 1].is_wide()
    } else {
        false
    }
}

/// Whether the right half of a wide character stands at a column.
fn covered_at(cells: &[Cell], column: usize) -> bool
    ensures value { result ≡ is_covered (cell_at cells.now column) }
    ensures low { IsTrue result → 1 ≤ column }
    ensures high { IsTrue result → column ≤ length cells.now }
{
    if column > 0 && column <= cells.len() {
        cells[column - 1].is_covered()
    } else {
        false
    }
}

/// The column of the character that lies at a column.
fn character_at(cells: &[Cell], column: usize) -> usize
    requires whole { Whole cells.now }
    requires low { 1 ≤ column }
    requires high { column ≤ length cells.now }
    ensures value { result ≡ character_column column cells.now }
    ensures low { 1 ≤ result }
    ensures high { result ≤ length cells.now }
{
    if covered_at(cells, column) {
        column - 1
    } else {
        column
    }
}

/// Blanks the character that lies on both sides of a column's left border.
pub(crate) fn part(cells: &mut [Cell], border: usize, paper: Paper)
    requires whole { Whole cells.old }
    requires low { 1 ≤ border }
    ensures { cells.new ≡ parted border paper cells.old }
{
    if covered_at(cells, border) {
        cells[border - 2] = Cell::blank(paper);
        cells[border - 1] = Cell::blank(paper);
    }
}

/// Blanks the halves on both sides of a column's left border.
pub(crate) fn mend(cells: &mut [Cell], border: usize, paper: Paper)
    requires low { 1 ≤ border }
    ensures { cells.new ≡ border_mended border paper cells.old }
{
    let left = wide_at(cells, border - 1);
    let right = covered_at(cells, border);
    if left != right {
        if left {
            cells[border - 2] = Cell::blank(paper);
        } else {
            cells[border - 1] = Cell::blank(paper);
        }
    }
}

/// The same where a wide character was written over from its right half on.
fn mend_before(cells: &mut [Cell], border: usize, paper: Paper)
    requires low { 1 ≤ border }
    requires open { is_covered (cell_at cells.old border) ≡ false }
    ensures { cells.new ≡ border_mended border paper cells.old }
{
    if wide_at(cells, border - 1) {
        cells[border - 2] = Cell::blank(paper);
    }
}

/// The same where one was written over up to its left half.
fn mend_behind(cells: &mut [Cell], border: usize, paper: Paper)
    requires low { 1 ≤ border }
    requires narrow { is_wide (cell_at cells.old (border - 1)) ≡ false }
    ensures { cells.new ≡ border_mended border paper cells.old }
{
    if covered_at(cells, border) {
        cells[border - 1] = Cell::blank(paper);
    }
}

/// Makes the cells from one column to another all the same.
pub(crate) fn fill(cells: &mut [Cell], from: usize, to: usize, cell: Cell)
    requires low { 1 ≤ from }
    requires apart { from ≤ to + 1 }
    requires high { to ≤ length cells.old }
    ensures { cells.new ≡ filled from to cell cells.old }
{
    for i in from - 1..to {
        cells[i] = cell;
    }
}

/// How many cells a row has up to the last one that isn't blank.
pub(crate) fn used(cells: &[Cell]) -> usize
    ensures { IsUsed cells.now result }
{
    let mut used = 0;
    for i in 0..cells.len() {
        if !cells[i].is_blank() {
            used = i + 1;
        }
    }
    used
}

/// Becomes the other row, where behind `used` cells both are blank.
pub(crate) fn copy_used(cells: &mut [Cell], others: &[Cell], used: usize)
    requires length { length others.now ≡ length cells.old }
    requires within { used ≤ length cells.old }
    requires same { (column : ℕ) → used < column → cell_at cells.old column ≡ cell_at others.now column }
    ensures { cells.new ≡ others.now }
{
    cells[..used].copy_from_slice(&others[..used]);
}

/// Puts these cells first, and blank ones behind them, where behind `used` cells all are blank.
pub(crate) fn restore(cells: &mut [Cell], kept: &[Cell], used: usize)
    requires short { length kept.now ≤ length cells.old }
    requires used { IsUsed cells.old used }
    ensures { cells.new ≡ unpacked (length cells.old) kept.now }
{
    cells[..kept.len()].copy_from_slice(kept);
    let end = used.max(kept.len());
    fill(cells, kept.len() + 1, end, Cell::empty());
}

/// Blanks the cells from one column to another.
pub(crate) fn erase(cells: &mut [Cell], from: usize, to: usize, paper: Paper)
    requires whole { Whole cells.old }
    requires low { 1 ≤ from }
    requires apart { from ≤ to }
    requires high { to ≤ length cells.old }
    ensures { cells.new ≡ erased from to paper cells.old }
{
    fill(cells, from, to, Cell::blank(paper));
    mend(cells, from, paper);
    mend(cells, to + 1, paper);
}

/// Puts a character of one column.
pub(crate) fn put_narrow(cells: &mut [Cell], column: usize, character: char, rendition: Pen)
    requires whole { Whole cells.old }
    requires low { 1 ≤ column }
    requires high { column ≤ length cells.old }
    ensures { cells.new ≡ put column character false rendition cells.old }
{
    cells[column - 1] = Cell::lettered(character, false, rendition);
    let paper = rendition.paper();
    mend_before(cells, column, paper);
    mend_behind(cells, column + 1, paper);
}

/// Puts a character of two columns.
pub(crate) fn put_wide(cells: &mut [Cell], column: usize, character: char, rendition: Pen)
    requires whole { Whole cells.old }
    requires low { 1 ≤ column }
    requires high { column + 1 ≤ length cells.old }
    ensures { cells.new ≡ put column character true rendition cells.old }
{
    cells[column - 1] = Cell::lettered(character, true, rendition);
    cells[column] = Cell::covering(rendition);
    let paper = rendition.paper();
    mend(cells, column, paper);
    mend(cells, column + 2, paper);
}

/// Puts characters of ASCII, one after another.
pub(crate) fn put_run(cells: &mut [Cell], column: usize, characters: &[u8], rendition: Pen)
    requires whole { Whole cells.old }
    requires low { 1 ≤ column }
    requires high { column + length characters.now ≤ length cells.old + 1 }
    ensures { cells.new ≡ run_put column characters.now rendition cells.old }
{
    if characters.is_empty() {
        return;
    }
    for (i, character) in characters.iter().enumerate() {
        cells[column - 1 + i] = Cell::lettered(char::from(*character), false, rendition);
    }
    let paper = rendition.paper();
    mend_before(cells, column, paper);
    mend_behind(cells, column + characters.len(), paper);
}

/// Puts characters of one column, one after another.
pub(crate) fn put_letters(cells: &mut [Cell], column: usize, letters: &[char], rendition: Pen)
    requires whole { Whole cells.old }
    requires low { 1 ≤ column }
    requires high { column + length letters.now ≤ length cells.old + 1 }
    ensures { cells.new ≡ run_put column letters.now rendition cells.old }
{
    if letters.is_empty() {
        return;
    }
    for (i, letter) in letters.iter().enumerate() {
        cells[column - 1 + i] = Cell::lettered(*letter, false, rendition);
    }
    let paper = rendition.paper();
    mend_before(cells, column, paper);
    mend_behind(cells, column + letters.len(), paper);
}

/// Adds a mark to the character that lies at a column.
pub(crate) fn add_mark(cells: &mut [Cell], column: usize, mark: char)
    requires whole { Whole cells.old }
    requires low { 1 ≤ column }
    requires high { column ≤ length cells.old }
    ensures { cells.new ≡ mark_added column mark cells.old }
{
    let at = character_at(cells, column);
    cells[at - 1] = cells[at - 1].with_mark(mark);
}

/// Makes room for `n` blank cells at a column; the row's last ones are lost.
pub(crate) fn insert(cells: &mut [Cell], n: usize, from: usize, paper: Paper)
    requires whole { Whole cells.old }
    requires low { 1 ≤ from }
    requires room { from + n ≤ length cells.old + 1 }
    requires bound { length cells.old ≤ 1000 }
    ensures { cells.new ≡ inserted n from paper cells.old }
{
    let columns = cells.len();
    cells.copy_within(from - 1..columns - n, from - 1 + n);
    fill(cells, from, from + n - 1, Cell::blank(paper));
    mend(cells, from, paper);
    mend(cells, from + n, paper);
    mend(cells, columns + 1, paper);
}

/// Takes out `n` cells from a column on; blank ones come in at the end.
pub(crate) fn delete(cells: &mut [Cell], n: usize, from: usize, paper: Paper)
    requires whole { Whole cells.old }
    requires low { 1 ≤ from }
    requires room { from + n ≤ length cells.old + 1 }
    requires bound { length cells.old ≤ 1000 }
    ensures { cells.new ≡ deleted n from paper cells.old }
{
    let columns = cells.len();
    part(cells, from, paper);
    part(cells, from + n, paper);
    cells.copy_within(from + n - 1..columns, from - 1);
    fill(cells, columns + 1 - n, columns, Cell::blank(paper));
}
