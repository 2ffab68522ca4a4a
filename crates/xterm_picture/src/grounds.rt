//! The grounds of a screen.

ghost use Rattle.std.specs.Prelude.{◌≡◌, ◌≤◌, ◌<◌, length};
ghost use Rattle.tape_core.specs.Devices.{Gave};
ghost use Rattle.xterm_rows.specs.Groups.{group_end};
ghost use Rattle.xterm_picture.specs.Grounds.{
  begins_ground,
  by_line,
  cell_grounds,
  down,
  ground_at,
  grounds_text,
  patch_text,
  row_grounds,
  square_text,
};

use crate::attributes::put_fill;
use crate::colours::{Paint, ground_paint, same_paint};
use crate::texts::put_number;
use sheet::Cell;
use sheet::limits::{MOST_COLUMNS, MOST_LINES};
use std::io::Write;
use tape_core::Watched;
use tape_core::laws::gives_join;
use xterm_rows::{inked, owner};
use xterm_screen::Screen;

/// Writes the grounds of all rows.
pub(crate) fn put_grounds<W: Write>(screen: &Screen, writer: &mut Watched<W>)
    ensures { Gave W.contents writer.old writer.new (grounds_text screen.now.picture.rows) }
{
    gives_join::<W>();
    writer.give(b"<g>");
    put_lines(screen, writer);
    writer.give(b"</g>\n");
}

/// Writes the grounds of the rows in turn.
fn put_lines<W: Write>(screen: &Screen, writer: &mut Watched<W>)
    ensures { Gave W.contents writer.old writer.new
        (by_line (row_grounds screen.now.picture.rows) (length screen.now.picture.rows)) }
{
    gives_join::<W>();
    let _cursor = screen.cursor();
    for line in 1..screen.lines() + 1 {
        put_row(screen, line, writer);
    }
}

/// Writes the grounds of a row.
#[tactic(auto, unfolding(crate::specs::Grounds::row_grounds))]
fn put_row<W: Write>(screen: &Screen, line: u16, writer: &mut Watched<W>)
    requires low { 1 ≤ line }
    requires high { line ≤ screen.now.picture.lines }
    requires few { line ≤ MOST_LINES }
    ensures { Gave W.contents writer.old writer.new
        (row_grounds screen.now.picture.rows line) }
{
    let _columns = screen.columns();
    put_cells(inked(screen.row(line)), line, writer);
}

/// Writes the grounds of cells.
#[tactic(auto, unfolding(crate::specs::Grounds::cell_grounds))]
fn put_cells<W: Write>(cells: &[Cell], line: u16, writer: &mut Watched<W>)
    requires low { 1 ≤ line }
    requires high { line ≤ MOST_LINES }
    requires few { length cells.now ≤ MOST_COLUMNS }
    ensures { Gave W.contents writer.old writer.new (cell_grounds cells.now line) }
{
    gives_join::<W>();
    let top = down(line);
    let mut at = 0;
    while at < cells.len() {
        let end = ground_end(cells, at);
        put_patch(ground_at(cells, at), top, at, end - at, writer);
        at = end;
    }
}

/// Where the group ends that begins at a place.
fn ground_end(cells: &[Cell], at: usize) -> usize
    requires { at < length cells.now }
    ensures end { result ≡ group_end (begins_ground cells.now) at (length cells.now) }
    ensures some { at < result }
    ensures within { result ≤ length cells.now }
{
    let mut end = at + 1;
    while end < cells.len() && !begins_ground(cells, end) {
        end += 1;
    }
    end
}

/// Whether a group begins at a place.
#[tactic(auto, unfolding(crate::specs::Grounds::begins_ground))]
fn begins_ground(cells: &[Cell], at: usize) -> bool
    ensures { result ≡ begins_ground cells.now at }
{
    at == 0 || !same_paint(ground_at(cells, at.saturating_sub(1)), ground_at(cells, at))
}

/// The ground of the character at a place.
#[tactic(auto, unfolding(crate::specs::Grounds::ground_at))]
fn ground_at(cells: &[Cell], at: usize) -> Paint
    ensures { result ≡ ground_at cells.now at }
{
    ground_paint(owner(cells, at).rendition())
}

/// Writes a ground of so many cells behind so many others, unless it is the screen's.
#[tactic(auto, unfolding(crate::specs::Grounds::patch_text))]
fn put_patch<W: Write>(
    paint: Paint,
    top: usize,
    before: usize,
    many: usize,
    writer: &mut Watched<W>,
)
    requires left { before ≤ MOST_COLUMNS }
    requires few { many ≤ MOST_COLUMNS }
    ensures { Gave W.contents writer.old writer.new (patch_text paint top before many) }
{
    gives_join::<W>();
    if !same_paint(paint, Paint::Back) {
        put_square(paint, top, before, many, writer);
    }
}

/// Writes the path of so many cells behind so many others.
fn put_square<W: Write>(
    paint: Paint,
    top: usize,
    before: usize,
    many: usize,
    writer: &mut Watched<W>,
)
    requires left { before ≤ MOST_COLUMNS }
    requires few { many ≤ MOST_COLUMNS }
    ensures { Gave W.contents writer.old writer.new (square_text paint top before many) }
{
    gives_join::<W>();
    writer.give(b"<path");
    put_fill(paint, writer);
    writer.give(b" d=\"M");
    put_number(10 * before, writer);
    writer.give(b" ");
    put_number(top, writer);
    writer.give(b"h");
    put_number(10 * many, writer);
    writer.give(b"v20h-");
    put_number(10 * many, writer);
    writer.give(b"z\"/>");
}

/// How many units down a line begins.
pub(crate) fn down(line: u16) -> usize
    requires low { 1 ≤ line }
    requires high { line ≤ MOST_LINES }
    ensures { result ≡ down line }
{
    20 * (usize::from(line) - 1)
}
