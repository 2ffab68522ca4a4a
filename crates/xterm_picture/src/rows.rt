//! The rows of a picture, each where it stands.

ghost use Rattle.std.specs.Prelude.{◌≡◌, ◌≤◌, decimal, length};
ghost use Rattle.tape_core.specs.Devices.{Gave};
ghost use Rattle.xterm_picture.specs.Cursor.{opened};
ghost use Rattle.xterm_picture.specs.Grounds.{down};
ghost use Rattle.sheet.specs.Grid.{row_at};
ghost use Rattle.xterm_rows.specs.Ink.{inked};
ghost use Rattle.xterm_picture.specs.Framed.{cells_text, row_text, rows_text};

use crate::grounds::down;
use crate::letters::put_letters;
use crate::strokes::put_strokes;
use crate::texts::put_number;
use sheet::Cell;
use sheet::limits::{MOST_COLUMNS, MOST_LINES};
use std::io::Write;
use tape_core::Watched;
use tape_core::laws::gives_join;
use xterm_rows::inked;
use xterm_screen::Screen;

/// Writes the rows.
#[tactic(auto, unfolding(crate::specs::Framed::rows_text))]
pub(crate) fn put_rows<W: Write>(screen: &Screen, reversed: bool, writer: &mut Watched<W>)
    ensures { Gave W.contents writer.old writer.new (rows_text reversed screen.now.picture.rows) }
{
    gives_join::<W>();
    let _cursor = screen.cursor();
    for line in 1..screen.lines() + 1 {
        put_row(screen, line, reversed, writer);
    }
}

/// Writes a row in its frame.
fn put_row<W: Write>(screen: &Screen, line: u16, reversed: bool, writer: &mut Watched<W>)
    requires low { 1 ≤ line }
    requires high { line ≤ screen.now.picture.lines }
    requires few { line ≤ MOST_LINES }
    ensures { Gave W.contents writer.old writer.new
        (row_text reversed screen.now.picture.rows line) }
{
    gives_join::<W>();
    put_opening(line, writer);
    put_inked(screen, line, reversed, writer);
    writer.give(b"</g>\n");
}

/// Writes the letters and the strokes of a row.
fn put_inked<W: Write>(screen: &Screen, line: u16, reversed: bool, writer: &mut Watched<W>)
    requires low { 1 ≤ line }
    requires high { line ≤ screen.now.picture.lines }
    ensures { Gave W.contents writer.old writer.new
        (cells_text reversed (inked (row_at screen.now.picture.rows line))) }
{
    let _columns = screen.columns();
    put_cells(inked(screen.row(line)), reversed, writer);
}

/// Writes the letters and the strokes of cells.
#[tactic(auto, unfolding(crate::specs::Framed::cells_text))]
fn put_cells<W: Write>(cells: &[Cell], reversed: bool, writer: &mut Watched<W>)
    requires { length cells.now ≤ MOST_COLUMNS }
    ensures { Gave W.contents writer.old writer.new (cells_text reversed cells.now) }
{
    gives_join::<W>();
    put_letters(cells, reversed, writer);
    put_strokes(cells, reversed, writer);
}

/// Writes what opens the frame of a line.
pub(crate) fn put_opening<W: Write>(line: u16, writer: &mut Watched<W>)
    requires low { 1 ≤ line }
    requires high { line ≤ MOST_LINES }
    ensures { Gave W.contents writer.old writer.new (opened line) }
{
    gives_join::<W>();
    writer.give(b"<g transform=\"translate(0 ");
    put_down(line, writer);
    writer.give(b")\">");
}

/// Writes how many units down a line begins.
fn put_down<W: Write>(line: u16, writer: &mut Watched<W>)
    requires low { 1 ≤ line }
    requires high { line ≤ MOST_LINES }
    ensures { Gave W.contents writer.old writer.new (decimal (down line)) }
{
    put_number(down(line), writer);
}
