//! The rows of the sheet that is shown, as a text is looked for in them.

ghost use Rattle.std.specs.Prelude.{◌≡◌, ◌+◌, ◌-◌, ◌≤◌, ◌<◌, ◌++◌, ◌∷◌, [], List, ℕ, false, true, if◌then◌else◌, length, map, slice_index_or, take, IfOk, OnOk};
ghost use Rattle.std.specs.List.{flat_map};
ghost use Rattle.sheet.specs.Cells.{Cell, blank};
ghost use Rattle.sheet.specs.Grid.{IsUsed, is_touched, row_at};
ghost use Rattle.standings.specs.Spans.{Stays};
ghost use Rattle.xterm_screen.specs.Picture.{Tells};
ghost use Rattle.xterm_rows.specs.RowText.{characters, is_space};
ghost use Rattle.xterm_print.specs.Pieces.{BlankFrom, IsPlain};
ghost use Rattle.xterm_print.specs.FindRows.{columns_from, ends_in_space, heeds_next, leaves_last, row_read, rows_read};

use arrayvec::ArrayVec;
use sheet::limits::MOST_COLUMNS;
use sheet::{Cell, Colour, put_letters};
use standings::{Row, Span};
use std::alloc::{AllocError, Global};
use xterm_rows::cell_behind;
use xterm_screen::Screen;

// The rows of screens of up to so many columns are read at once.
const AT_ONCE: usize = 160;

// Cells are held by so many, each with at most two marks ..
const HELD_CELLS: usize = 64;

// .. and so with up to so many characters.
const HELD: usize = 192;

/// The rows of the sheet that is shown.
#[tactic(auto, unfolding(crate::specs::FindRows::rows_read))]
pub fn rows_read(alloc: Global, screen: &Screen) -> Result<Vec<Row>, AllocError>
    ensures { IfOk result (λ rows. rows.items
        ≡ rows_read screen.now.picture.lines screen.now.picture.rows) }
{
    let _cursor = screen.cursor();
    let mut rows = Vec::new(alloc);
    for line in 1..screen.lines() + 1 {
        rows.push(row_read(
            alloc,
            screen.row(line),
            screen.used(line),
            next_row(screen, line),
        )?)?;
    }
    Ok(rows)
}

/// Rows of before become those of the sheet that is shown. Only those on which touched lines bear are read; it says
/// which. Mostly no line was touched, which is seen at once.
#[inline(always)]
pub fn read_touched(rows: &mut Vec<Row>, screen: &Screen) -> Result<Span, AllocError>
    ensures rows { (before : List (List Cell)) → Tells before screen.now
        → length before ≡ screen.now.picture.lines
        → rows.old.items ≡ rows_read screen.now.picture.lines before
        → OnOk result (rows.new.items ≡ rows_read screen.now.picture.lines screen.now.picture.rows) }
    ensures others { IfOk result (λ span. Stays span rows.old.items rows.new.items) }
{
    let _cursor = screen.cursor();
    if !screen.any_touched() {
        return Ok(Span::none());
    }
    read_lines(rows, screen)
}

/// The same of each line.
#[inline(never)]
fn read_lines(rows: &mut Vec<Row>, screen: &Screen) -> Result<Span, AllocError>
    ensures rows { (before : List (List Cell)) → Tells before screen.now
        → length before ≡ screen.now.picture.lines
        → rows.old.items ≡ rows_read screen.now.picture.lines before
        → OnOk result (rows.new.items ≡ rows_read screen.now.picture.lines screen.now.picture.rows) }
    ensures others { IfOk result (λ span. Stays span rows.old.items rows.new.items) }
{
    let _cursor = screen.cursor();
    let mut span = Span::none();
    if rows.len() != screen.lines() as usize {
        return Ok(span);
    }
    let mut line = next_unlike(screen, 1);
    while line <= screen.lines() {
        let row = &mut rows[line as usize - 1];
        read_again(
            row,
            screen.row(line),
            screen.used(line),
            next_row(screen, line),
        )?;
        span = span.widened(line as usize - 1);
        line = next_unlike(screen, line + 1);
    }
    Ok(span)
}

/// The first line from one on whose row may be read otherwise than before, since it was touched, or the next one was and
/// bears on it; one behind the last where there is none. The row above the one asked for was read already.
fn next_unlike(screen: &Screen, line: u16) -> u16
    requires low { 1 ≤ line }
    requires high { line ≤ screen.now.picture.lines + 1 }
    ensures low { line ≤ result }
    ensures high { result ≤ screen.now.picture.lines + 1 }
    ensures between { (before : List (List Cell)) → Tells before screen.now
        → length before ≡ screen.now.picture.lines → (k : ℕ) → line ≤ k → k < result
        → row_read (row_at before k) (row_at before (k + 1))
        ≡ row_read (row_at screen.now.picture.rows k) (row_at screen.now.picture.rows (k + 1)) }
{
    let _cursor = screen.cursor();
    let touched = next_touched(screen, line);
    if line < touched && touched <= screen.lines() && heeds_next(screen.row(touched - 1)) {
        return touched - 1;
    }
    touched
}

/// The first line from one on that was touched; one behind the last where none was. Where many were it mostly is that line
/// itself: so it is looked at before the others, which are looked at in blocks.
#[inline]
fn next_touched(screen: &Screen, line: u16) -> u16
    requires low { 1 ≤ line }
    requires high { line ≤ screen.now.picture.lines + 1 }
    ensures low { line ≤ result }
    ensures high { result ≤ screen.now.picture.lines + 1 }
    ensures between { (k : ℕ) → line ≤ k → k < result → is_touched screen.now.origins k ≡ false }
    ensures touched { result ≤ screen.now.picture.lines → is_touched screen.now.origins result ≡ true }
{
    if line <= screen.lines() && screen.is_touched(line) {
        return line;
    }
    screen.next_touched(line)
}

/// Whether how a row is read depends on the next one.
pub(crate) fn heeds_next(cells: &[Cell]) -> bool
    ensures { result ≡ heeds_next cells.now }
{
    ends_in_space(cells) && !is_space(cell_behind(cells, cells.len().saturating_sub(2)))
}

/// The cells of the row below a line; none below the last.
fn next_row(screen: &Screen, line: u16) -> &[Cell]
    ensures { result.now ≡ row_at screen.now.picture.rows (line + 1) }
{
    let _cursor = screen.cursor();
    if line < screen.lines() {
        screen.row(line + 1)
    } else {
        &[]
    }
}

/// A row, by its cells, of which so many may be in use, and by those of the row below it.
fn row_read(alloc: Global, cells: &[Cell], used: usize, next: &[Cell]) -> Result<Row, AllocError>
    requires some { 1 ≤ length cells.now }
    requires few { length cells.now ≤ MOST_COLUMNS }
    requires used { IsUsed cells.now used }
    ensures { IfOk result (λ row. row ≡ row_read cells.now next.now) }
{
    let mut row = Row::with_room(alloc, cells.len(), false)?;
    read_again(&mut row, cells, used, next)?;
    Ok(row)
}

/// Becomes a row, by its cells, of which so many may be in use, and by those of the row below it.
#[tactic(auto, unfolding(crate::specs::FindRows::row_read))]
fn read_again(row: &mut Row, cells: &[Cell], used: usize, next: &[Cell]) -> Result<(), AllocError>
    requires some { 1 ≤ length cells.now }
    requires few { length cells.now ≤ MOST_COLUMNS }
    requires used { IsUsed cells.now used }
    ensures { OnOk result (row.new ≡ row_read cells.now next.now) }
{
    let ends = ends_in_space(cells);
    let leaves = leaves_last(cells, next, ends);
    let kept = kept_cells(cells, leaves);
    read_kept(row, kept, used.min(kept.len()), !ends || leaves)?;
    Ok(())
}

/// Becomes a row of these cells. Behind so many all are blank.
fn read_kept(row: &mut Row, cells: &[Cell], used: usize, runs_on: bool) -> Result<(), AllocError>
    requires few { length cells.now ≤ MOST_COLUMNS }
    requires within { used ≤ length cells.now }
    requires tail { BlankFrom cells.now used }
    ensures { OnOk result (row.new ≡ record {
      characters = flat_map characters cells.now;
      columns = columns_from 1 cells.now;
      runs_on = runs_on;
    }) }
{
    if spell(row, cells, used, runs_on)? {
        return Ok(());
    }
    let in_use = &cells[..used];
    let plain = if cells.len() > AT_ONCE {
        write_over(row, in_use)
    } else {
        0
    };
    row.cut(plain, runs_on);
    push_cells(row, in_use, plain)?;
    push_blanks(row, cells, used)
}

/// Becomes a row of cells that are characters of one column without marks, if all are; says whether it did. Behind so many
/// all are blank. Most rows are read so.
fn spell(row: &mut Row, cells: &[Cell], used: usize, runs_on: bool) -> Result<bool, AllocError>
    requires within { used ≤ length cells.now }
    requires tail { BlankFrom cells.now used }
    ensures { IfOk result (λ done. done ≡ true → row.new ≡ record {
      characters = flat_map characters cells.now;
      columns = columns_from 1 cells.now;
      runs_on = runs_on;
    }) }
{
    let count = cells.len();
    // Where wide characters stood others often follow, and to look for one costs less than to put all in vain.
    if count > AT_ONCE || (count > row.count() && !are_plain(&cells[..used])) {
        return Ok(false);
    }
    let mut letters = [' '; AT_ONCE];
    let letters = &mut letters[..count];
    if !put_used(cells, used, letters) {
        return Ok(false);
    }
    row.respell(letters, runs_on)?;
    Ok(true)
}

/// Writes the characters of the first cells, each one character and without marks, over those of a row, as far as it has so
/// many; says of how many. So rows of many columns are read again.
fn write_over(row: &mut Row, cells: &[Cell]) -> usize
    requires few { length cells.now ≤ MOST_COLUMNS }
    ensures within { result ≤ length cells.now }
    ensures characters { take result row.new.characters ≡ flat_map characters (take result cells.now) }
    ensures columns { take result row.new.columns ≡ columns_from 1 (take result cells.now) }
{
    let end = row.count().min(cells.len());
    let mut at = 0;
    while at < end && is_alone(cells[at]) {
        row.set(at, cells[at].character(), at as u16 + 1);
        at += 1;
    }
    at
}

/// Whether a cell holds a character without marks.
#[tactic(auto, unfolding(xterm_rows::specs::RowText::characters))]
fn is_alone(cell: Cell) -> bool
    ensures { result ≡ true → characters cell ≡ cell.character ∷ [] }
{
    !cell.is_covered() && cell.mark_count() == 0
}

/// Whether each cell is one of one column without marks.
fn are_plain(cells: &[Cell]) -> bool {
    cells.iter().all(|cell| cell.is_plain())
}

/// Puts the characters of cells, of which all are blank behind so many, into a list of spaces, and says whether each cell is
/// one of one column without marks.
fn put_used(cells: &[Cell], used: usize, letters: &mut [char]) -> bool
    requires within { used ≤ length cells.now }
    requires tail { BlankFrom cells.now used }
    requires count { length letters.old ≡ length cells.now }
    requires spaces { (k : ℕ) → k < length letters.old → slice_index_or letters.old k 0 ≡ 32 }
    ensures letters { letters.new ≡ map (λ (cell : Cell). cell.character) cells.now }
    ensures plain { result ≡ true → (k : ℕ) → k < length cells.now
        → IsPlain (slice_index_or cells.now k (blank Colour.Default)) }
{
    put_letters(&cells[..used], &mut letters[..used])
}

/// The cells without the last one, where that is left out.
fn kept_cells(cells: &[Cell], leaves: bool) -> &[Cell]
    requires some { 1 ≤ length cells.now }
    ensures kept { result.now ≡ (if leaves then take (length cells.now - 1) cells.now else cells.now) }
    ensures few { length result.now ≤ length cells.now }
{
    if leaves {
        &cells[..cells.len() - 1]
    } else {
        cells
    }
}

/// Whether the last cell is a space alone.
fn ends_in_space(cells: &[Cell]) -> bool
    ensures { result ≡ ends_in_space cells.now }
{
    is_space(cell_behind(cells, cells.len().saturating_sub(1)))
}

/// Whether the last cell is left out, since the next row's first character may not have fit; it is told whether that cell is
/// a space alone.
#[tactic(auto, unfolding(crate::specs::FindRows::leaves_last))]
fn leaves_last(cells: &[Cell], next: &[Cell], ends: bool) -> bool
    requires { ends ≡ ends_in_space cells.now }
    ensures { result ≡ leaves_last cells.now next.now }
{
    ends && !is_space(cell_behind(cells, cells.len().saturating_sub(2)))
        && cell_behind(next, 0).is_wide()
}

/// Whether a cell is a space alone, whatever its rendition.
#[tactic(auto, unfolding(xterm_rows::specs::RowText::is_space))]
fn is_space(cell: Cell) -> bool
    ensures { result ≡ is_space cell }
{
    !cell.is_covered() && cell.character() == ' ' && cell.mark_count() == 0
}

/// Puts the characters of cells behind those of the first so many.
fn push_cells(row: &mut Row, cells: &[Cell], from: usize) -> Result<(), AllocError>
    requires few { length cells.now ≤ MOST_COLUMNS }
    requires within { from ≤ length cells.now }
    requires characters { row.old.characters ≡ flat_map characters (take from cells.now) }
    requires columns { row.old.columns ≡ columns_from 1 (take from cells.now) }
    ensures characters { OnOk result (row.new.characters ≡ flat_map characters cells.now) }
    ensures columns { OnOk result (row.new.columns ≡ columns_from 1 cells.now) }
    ensures runs_on { OnOk result (row.new.runs_on ≡ row.old.runs_on) }
{
    let mut at = from;
    while at < cells.len() {
        at += push_some(row, &cells[at..], at as u16 + 1)?;
    }
    Ok(())
}

/// Puts the characters of some of the first cells, which begin in this column, at the end of a row; says of how many.
fn push_some(row: &mut Row, cells: &[Cell], column: u16) -> Result<usize, AllocError>
    requires some { 1 ≤ length cells.now }
    requires few { column + length cells.now ≤ u16.MAX }
    ensures some { IfOk result (λ count. 1 ≤ count) }
    ensures few { IfOk result (λ count. count ≤ length cells.now) }
    ensures characters { IfOk result (λ count.
        row.new.characters ≡ row.old.characters ++ flat_map characters (take count cells.now)) }
    ensures columns { IfOk result (λ count.
        row.new.columns ≡ row.old.columns ++ columns_from column (take count cells.now)) }
    ensures runs_on { IfOk result (λ _. row.new.runs_on ≡ row.old.runs_on) }
{
    let count = cells.len().min(HELD_CELLS);
    let mut letters = ArrayVec::new();
    let mut columns = ArrayVec::new();
    hold_cells(&cells[..count], column, &mut letters, &mut columns);
    row.push_run(letters.as_slice(), columns.as_slice())?;
    Ok(count)
}

/// Holds the characters of cells, which begin in this column, and the columns in which they stand.
fn hold_cells(
    cells: &[Cell],
    column: u16,
    letters: &mut ArrayVec<char, HELD>,
    columns: &mut ArrayVec<u16, HELD>,
)
    requires few { length cells.now ≤ HELD_CELLS }
    requires column { column + length cells.now ≤ u16.MAX }
    requires letters { letters.old.items ≡ [] }
    requires columns { columns.old.items ≡ [] }
    ensures letters { letters.new.items ≡ flat_map characters cells.now }
    ensures columns { columns.new.items ≡ columns_from column cells.now }
{
    for at in 0..cells.len() {
        hold_cell(cells[at], column + at as u16, letters, columns);
    }
}

/// Holds the characters of a cell, its character and its marks, or nothing of a right half, and for each its column.
#[tactic(auto, unfolding(xterm_rows::specs::RowText::characters))]
fn hold_cell(
    cell: Cell,
    column: u16,
    letters: &mut ArrayVec<char, HELD>,
    columns: &mut ArrayVec<u16, HELD>,
)
    requires letters { length letters.old.items + 3 ≤ HELD }
    requires columns { length columns.old.items + 3 ≤ HELD }
    ensures letters { letters.new.items ≡ letters.old.items ++ characters cell }
    ensures columns { columns.new.items ≡ columns.old.items ++ map (λ _. column) (characters cell) }
    ensures few_letters { length letters.new.items ≤ length letters.old.items + 3 }
    ensures few_columns { length columns.new.items ≤ length columns.old.items + 3 }
{
    if cell.is_covered() {
        return;
    }
    letters.push(cell.character());
    columns.push(column);
    for n in 0..cell.mark_count() {
        letters.push(cell.mark(n));
        columns.push(column);
    }
}

/// Puts spaces behind the characters of the first so many cells: behind these all are blank.
fn push_blanks(row: &mut Row, cells: &[Cell], used: usize) -> Result<(), AllocError>
    requires few { length cells.now ≤ MOST_COLUMNS }
    requires within { used ≤ length cells.now }
    requires tail { BlankFrom cells.now used }
    requires characters { row.old.characters ≡ flat_map characters (take used cells.now) }
    requires columns { row.old.columns ≡ columns_from 1 (take used cells.now) }
    ensures characters { OnOk result (row.new.characters ≡ flat_map characters cells.now) }
    ensures columns { OnOk result (row.new.columns ≡ columns_from 1 cells.now) }
    ensures runs_on { OnOk result (row.new.runs_on ≡ row.old.runs_on) }
{
    row.push_many(' ', cells.len() - used, used as u16 + 1)?;
    Ok(())
}
