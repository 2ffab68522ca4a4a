//! The escaped print: what the sheet that is shown holds, as a text that draws it again on a reset terminal.

ghost use Rattle.std.specs.Prelude.{◌≡◌, ◌≤◌, OnOk, true, false};
ghost use Rattle.tape_core.specs.Devices.{Gave, Puts, has_failed, is_flushed};
ghost use Rattle.xterm_escaped.specs.EscapedText.{
  cell_text,
  cells_text,
  closing_text,
  escaped_text,
  line_text,
  lines_text,
  no_rendition,
  opening_text,
  placed_text,
  rendition_after,
  rendition_after_line,
  rendition_text,
};

use crate::renditions::{put_number, put_rendition, put_where, same_rendition};
use sheet::{Cell, Colour, Rendition};
use std::io::Write;
use tape_core::laws::gives_join;
use tape_core::{Fault, Watched};
use xterm_print::put_cell;
use xterm_rows::inked;
use xterm_screen::Screen;
use xterm_term::Terminal;

/// Writes a text that draws on a reset terminal of the same size the cells, the reversed flag and the cursor that this one
/// shows. It takes no memory, and ends without an LF. After a write fault a beginning of the text has gone out.
#[tactic(auto, unfolding(crate::specs::EscapedText::escaped_text))]
pub fn escaped<W: Write>(terminal: &Terminal, writer: &mut Watched<W>) -> Result<(), Fault>
    requires { has_failed writer.old ≡ false }
    ensures puts { Puts W.contents writer.old writer.new (escaped_text terminal.now.console) result }
    ensures flushed { OnOk result (is_flushed writer.new ≡ true) }
{
    gives_join::<W>();
    put_opening(terminal, writer);
    put_lines(terminal.screen(), writer);
    put_closing(terminal, writer);
    writer.settle()
}

/// Writes what stands before the lines.
fn put_opening<W: Write>(terminal: &Terminal, writer: &mut Watched<W>)
    ensures { Gave W.contents writer.old writer.new (opening_text terminal.now.console) }
{
    put_where(terminal.modes().reverse_screen, b"\x1b[?5h", writer);
}

/// Writes what stands behind them.
fn put_closing<W: Write>(terminal: &Terminal, writer: &mut Watched<W>)
    ensures { Gave W.contents writer.old writer.new (closing_text terminal.now.console) }
{
    gives_join::<W>();
    let (line, column) = terminal.screen().cursor();
    writer.give(b"\x1b[0m");
    put_where(!terminal.modes().cursor_shown, b"\x1b[?25l", writer);
    put_place(line, column, writer);
}

/// Writes CUP.
pub fn put_place<W: Write>(line: u16, column: u16, writer: &mut Watched<W>)
    ensures { Gave W.contents writer.old writer.new (placed_text line column) }
{
    gives_join::<W>();
    writer.give(b"\x1b[");
    put_number(line, writer);
    writer.give(b";");
    put_number(column, writer);
    writer.give(b"H");
}

/// Writes the lines.
fn put_lines<W: Write>(screen: &Screen, writer: &mut Watched<W>)
    ensures { Gave W.contents writer.old writer.new
        (lines_text no_rendition 1 screen.now.picture.rows) }
{
    gives_join::<W>();
    let _cursor = screen.cursor();
    let mut last = Rendition::plain_on(Colour::Default);
    for line in 1..screen.lines() + 1 {
        last = put_line(line, screen.row(line), last, writer);
    }
}

/// Writes a line where this rendition is in force, and returns the one that is then.
#[tactic(auto, unfolding(crate::specs::EscapedText::line_text, crate::specs::EscapedText::rendition_after_line))]
pub fn put_line<W: Write>(
    line: u16,
    row: &[Cell],
    last: Rendition,
    writer: &mut Watched<W>,
) -> Rendition
    ensures text { Gave W.contents writer.old writer.new (line_text last line row.now) }
    ensures after { result ≡ rendition_after_line last row.now }
{
    gives_join::<W>();
    let cells = inked(row);
    if cells.is_empty() {
        return last;
    }
    put_place(line, 1, writer);
    put_cells(cells, last, writer)
}

/// Writes cells in turn where this rendition is in force, and returns the one that is then.
fn put_cells<W: Write>(cells: &[Cell], first: Rendition, writer: &mut Watched<W>) -> Rendition
    ensures text { Gave W.contents writer.old writer.new (cells_text first cells.now) }
    ensures after { result ≡ rendition_after first cells.now }
{
    gives_join::<W>();
    let mut last = first;
    for cell in cells {
        put_drawn(*cell, last, writer);
        last = cell.rendition();
    }
    last
}

/// Writes a cell where this rendition is in force.
fn put_drawn<W: Write>(cell: Cell, last: Rendition, writer: &mut Watched<W>)
    ensures { Gave W.contents writer.old writer.new (cell_text last cell) }
{
    gives_join::<W>();
    put_change(last, cell.rendition(), writer);
    put_cell(cell, writer);
}

/// Writes what sets a rendition where it isn't the one in force.
fn put_change<W: Write>(last: Rendition, next: Rendition, writer: &mut Watched<W>)
    ensures { Gave W.contents writer.old writer.new (rendition_text last next) }
{
    gives_join::<W>();
    if !same_rendition(last, next) {
        put_rendition(next, writer);
    }
}
