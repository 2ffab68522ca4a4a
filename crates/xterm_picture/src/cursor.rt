//! The cursor of a picture.

ghost use Rattle.std.specs.Prelude.{◌≡◌, ◌≤◌};
ghost use Rattle.sheet.specs.Grid.{row_at};
ghost use Rattle.tape_core.specs.Devices.{Gave};
ghost use Rattle.xterm_picture.specs.Cursor.{
  cell_mark,
  cells_before,
  cursor_text,
  inner_ring,
  is_double,
  mark_text,
  outer_ring,
  rings_text,
};
ghost use Rattle.xterm_picture.specs.Attributes.{text_where};

use crate::attributes::put_back;
use crate::rows::put_opening;
use crate::texts::put_number;
use sheet::Cell;
use sheet::limits::{MOST_COLUMNS, MOST_LINES};
use std::io::Write;
use tape_core::Watched;
use tape_core::laws::gives_join;
use xterm_rows::cell_behind;
use xterm_screen::Screen;

/// Writes the cursor's line, which is empty where the cursor is hidden.
pub(crate) fn put_cursor<W: Write>(
    screen: &Screen,
    reversed: bool,
    shown: bool,
    writer: &mut Watched<W>,
)
    ensures { Gave W.contents writer.old writer.new (cursor_text reversed shown screen.now.picture.rows
        screen.now.picture.line screen.now.picture.column) }
{
    let (line, column) = screen.cursor();
    let _lines = screen.lines();
    let _columns = screen.columns();
    put_line(screen, line, column, reversed, shown, writer);
}

/// Writes the line of a cursor at this line and column.
fn put_line<W: Write>(
    screen: &Screen,
    line: u16,
    column: u16,
    reversed: bool,
    shown: bool,
    writer: &mut Watched<W>,
)
    requires line_low { 1 ≤ line }
    requires line_high { line ≤ screen.now.picture.lines }
    requires few { line ≤ MOST_LINES }
    requires low { 1 ≤ column }
    requires high { column ≤ MOST_COLUMNS }
    ensures { Gave W.contents writer.old writer.new
        (cursor_text reversed shown screen.now.picture.rows line column) }
{
    gives_join::<W>();
    put_opening(line, writer);
    put_shown(screen, line, column, reversed, shown, writer);
    writer.give(b"</g>\n");
}

/// Writes the cursor at this line and column, or nothing.
fn put_shown<W: Write>(
    screen: &Screen,
    line: u16,
    column: u16,
    reversed: bool,
    shown: bool,
    writer: &mut Watched<W>,
)
    requires line_low { 1 ≤ line }
    requires line_high { line ≤ screen.now.picture.lines }
    requires low { 1 ≤ column }
    requires high { column ≤ MOST_COLUMNS }
    ensures { Gave W.contents writer.old writer.new (text_where shown
        (mark_text reversed (row_at screen.now.picture.rows line) column)) }
{
    put_mark_where(shown, screen.row(line), column, reversed, writer);
}

/// Writes the cursor at a column of a row, or nothing.
fn put_mark_where<W: Write>(
    shown: bool,
    row: &[Cell],
    column: u16,
    reversed: bool,
    writer: &mut Watched<W>,
)
    requires low { 1 ≤ column }
    requires high { column ≤ MOST_COLUMNS }
    ensures { Gave W.contents writer.old writer.new
        (text_where shown (mark_text reversed row.now column)) }
{
    gives_join::<W>();
    if shown {
        put_mark(
            cell_behind(row, usize::from(column) - 1),
            column,
            reversed,
            writer,
        );
    }
}

/// Writes the cursor at a column where this cell stands.
#[tactic(auto, unfolding(crate::specs::Cursor::cell_mark))]
fn put_mark<W: Write>(cell: Cell, column: u16, reversed: bool, writer: &mut Watched<W>)
    requires low { 1 ≤ column }
    requires high { column ≤ MOST_COLUMNS }
    ensures { Gave W.contents writer.old writer.new (cell_mark reversed cell column) }
{
    put_rings(
        cells_before(cell, column),
        is_double(cell),
        reversed,
        writer,
    );
}

/// How many cells stand before the cursor at a column where this cell stands.
#[tactic(auto, unfolding(crate::specs::Cursor::cells_before))]
fn cells_before(cell: Cell, column: u16) -> usize
    requires low { 1 ≤ column }
    requires high { column ≤ MOST_COLUMNS }
    ensures value { result ≡ cells_before cell column }
    ensures high { result ≤ MOST_COLUMNS }
{
    if cell.is_covered() {
        usize::from(column).saturating_sub(2)
    } else {
        usize::from(column) - 1
    }
}

/// Whether the cursor stands round two columns.
#[tactic(auto, unfolding(crate::specs::Cursor::is_double))]
fn is_double(cell: Cell) -> bool
    ensures { result ≡ is_double cell }
{
    cell.is_covered() || cell.is_wide()
}

/// Writes the two rings of the cursor behind so many cells.
fn put_rings<W: Write>(before: usize, wide: bool, reversed: bool, writer: &mut Watched<W>)
    requires { before ≤ MOST_COLUMNS }
    ensures { Gave W.contents writer.old writer.new (rings_text reversed before wide) }
{
    gives_join::<W>();
    writer.give(b"<path class=\"");
    put_back(reversed, writer);
    writer.give(b"\" d=\"M");
    put_number(10 * before, writer);
    put_outer(wide, writer);
    writer.give(b"\"/><path d=\"M");
    put_number(10 * before + 1, writer);
    put_inner(wide, writer);
    writer.give(b"\"/>");
}

/// Writes the ring of the ground.
fn put_outer<W: Write>(wide: bool, writer: &mut Watched<W>)
    ensures { Gave W.contents writer.old writer.new (outer_ring wide) }
{
    if wide {
        writer.give(b" 0h20v20h-20zm1 1v18h18v-18z");
    } else {
        writer.give(b" 0h10v20h-10zm1 1v18h8v-18z");
    }
}

/// Writes the ring of ink.
fn put_inner<W: Write>(wide: bool, writer: &mut Watched<W>)
    ensures { Gave W.contents writer.old writer.new (inner_ring wide) }
{
    if wide {
        writer.give(b" 1h18v18h-18zm1 1v16h16v-16z");
    } else {
        writer.give(b" 1h8v18h-8zm1 1v16h6v-16z");
    }
}
