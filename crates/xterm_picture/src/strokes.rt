//! The strokes of a row: outlines of characters that are drawn, and lines under and through cells.

ghost use Rattle.std.specs.Prelude.{◌≡◌, ◌≤◌, ◌<◌, length};
ghost use Rattle.std.specs.List.{flat_map};
ghost use Rattle.tape_core.specs.Devices.{Gave};
ghost use Rattle.xterm_picture.specs.Attributes.{text_where};
ghost use Rattle.xterm_picture.specs.Strokes.{
  drawn_text,
  is_stroked,
  line_text,
  lines_text,
  outline_text,
  outlines_text,
  path_text,
  shape_text,
  stroke_text,
  strokes_text,
};

use crate::attributes::put_stroke_attributes;
use crate::dots::put_dots;
use crate::texts::put_number;
use sheet::Cell;
use sheet::limits::MOST_COLUMNS;
use std::io::Write;
use tape_core::Watched;
use tape_core::laws::gives_join;
use xterm_rows::{Kind, Run, cell_behind, is_braille, outline, run_at};

/// Where patterns of Braille begin in Unicode.
const BRAILLE: usize = 0x2800;

/// Writes the strokes of cells.
#[tactic(auto, unfolding(crate::specs::Strokes::strokes_text))]
pub(crate) fn put_strokes<W: Write>(cells: &[Cell], reversed: bool, writer: &mut Watched<W>)
    requires { length cells.now ≤ MOST_COLUMNS }
    ensures { Gave W.contents writer.old writer.new (strokes_text reversed cells.now) }
{
    gives_join::<W>();
    let mut at = 0;
    while at < cells.len() {
        let run = run_at(cells, at);
        put_stroke(cells, run, reversed, writer);
        at = run.end;
    }
}

/// Writes the strokes of a run, where it has any.
#[tactic(auto, unfolding(crate::specs::Strokes::stroke_text))]
fn put_stroke<W: Write>(cells: &[Cell], run: Run, reversed: bool, writer: &mut Watched<W>)
    requires low { run.before ≤ run.end }
    requires few { run.end ≤ MOST_COLUMNS }
    ensures { Gave W.contents writer.old writer.new (stroke_text reversed cells.now run) }
{
    gives_join::<W>();
    if is_stroked(run.kind) {
        put_path(cells, run, reversed, writer);
    }
}

/// Writes the path of a run's strokes.
fn put_path<W: Write>(cells: &[Cell], run: Run, reversed: bool, writer: &mut Watched<W>)
    requires low { run.before ≤ run.end }
    requires few { run.end ≤ MOST_COLUMNS }
    ensures { Gave W.contents writer.old writer.new (path_text reversed cells.now run) }
{
    gives_join::<W>();
    writer.give(b"<path");
    put_stroke_attributes(run.kind.rendition, reversed, writer);
    writer.give(b" d=\"");
    put_lines(cells, run, writer);
    writer.give(b"\"/>");
}

/// Whether a run has strokes.
fn is_stroked(kind: Kind) -> bool
    ensures { result ≡ is_stroked kind }
{
    !kind.rendition.concealed
        && (kind.drawn || kind.rendition.underscore || kind.rendition.crossed_out)
}

/// Writes the outlines of a run and its lines.
fn put_lines<W: Write>(cells: &[Cell], run: Run, writer: &mut Watched<W>)
    requires low { run.before ≤ run.end }
    requires few { run.end ≤ MOST_COLUMNS }
    ensures { Gave W.contents writer.old writer.new (lines_text cells.now run) }
{
    gives_join::<W>();
    put_outlines_where(run.kind.drawn, cells, run, writer);
    put_line_where(run.kind.rendition.underscore, b"17", run, writer);
    put_line_where(run.kind.rendition.crossed_out, b"9", run, writer);
}

/// Writes the outlines of a run, or nothing.
fn put_outlines_where<W: Write>(holds: bool, cells: &[Cell], run: Run, writer: &mut Watched<W>)
    requires low { run.before ≤ run.end }
    requires few { run.end ≤ MOST_COLUMNS }
    ensures { Gave W.contents writer.old writer.new (text_where holds (outlines_text cells.now run)) }
{
    gives_join::<W>();
    if holds {
        put_outlines(cells, run, writer);
    }
}

/// Writes the outlines of a run.
#[tactic(auto, unfolding(crate::specs::Strokes::outlines_text))]
fn put_outlines<W: Write>(cells: &[Cell], run: Run, writer: &mut Watched<W>)
    requires low { run.before ≤ run.end }
    requires few { run.end ≤ MOST_COLUMNS }
    ensures { Gave W.contents writer.old writer.new (outlines_text cells.now run) }
{
    gives_join::<W>();
    for at in run.before..run.end {
        put_outline(cells, at, writer);
    }
}

/// Writes the outline of the character at a place; of a right half nothing.
#[tactic(auto, unfolding(crate::specs::Strokes::outline_text))]
fn put_outline<W: Write>(cells: &[Cell], at: usize, writer: &mut Watched<W>)
    requires { at ≤ MOST_COLUMNS }
    ensures { Gave W.contents writer.old writer.new (outline_text cells.now at) }
{
    gives_join::<W>();
    let cell = cell_behind(cells, at);
    if !cell.is_covered() {
        put_shape(cell, at, writer);
    }
}

/// Writes the outline of a character in its place.
fn put_shape<W: Write>(cell: Cell, at: usize, writer: &mut Watched<W>)
    requires { at ≤ MOST_COLUMNS }
    ensures { Gave W.contents writer.old writer.new (shape_text cell at) }
{
    gives_join::<W>();
    writer.give(b"M");
    put_number(10 * at, writer);
    writer.give(b" 0");
    put_drawn(cell, writer);
}

/// Writes the outline of a character.
#[tactic(auto, unfolding(crate::specs::Strokes::drawn_text))]
fn put_drawn<W: Write>(cell: Cell, writer: &mut Watched<W>)
    ensures { Gave W.contents writer.old writer.new (drawn_text cell.character) }
{
    let character = cell.character();
    if is_braille(character) {
        put_dots(character as usize - BRAILLE, writer);
    } else {
        writer.give(outline(character));
    }
}

/// Writes a line along a run, or nothing.
fn put_line_where<W: Write>(holds: bool, down: &[u8], run: Run, writer: &mut Watched<W>)
    requires low { run.before ≤ run.end }
    requires few { run.end ≤ MOST_COLUMNS }
    ensures { Gave W.contents writer.old writer.new (text_where holds (line_text down.now run)) }
{
    gives_join::<W>();
    if holds {
        put_line(down, run, writer);
    }
}

/// Writes a line along a run, so many units down.
fn put_line<W: Write>(down: &[u8], run: Run, writer: &mut Watched<W>)
    requires low { run.before ≤ run.end }
    requires few { run.end ≤ MOST_COLUMNS }
    ensures { Gave W.contents writer.old writer.new (line_text down.now run) }
{
    gives_join::<W>();
    let width = 10 * (run.end - run.before);
    writer.give(b"M");
    put_number(10 * run.before, writer);
    writer.give(b" ");
    writer.give(down);
    writer.give(b"h");
    put_number(width, writer);
    writer.give(b"v2h-");
    put_number(width, writer);
    writer.give(b"z");
}
