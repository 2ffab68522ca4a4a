//! Runs of a row, laid out as they stand in a string of JSON.

ghost use Rattle.std.specs.Prelude.{◌≡◌, ◌≤◌, ◌+◌, ◌*◌, ◌++◌, [], length};
ghost use Rattle.std.specs.List.{flat_map};
ghost use Rattle.screen_print.specs.EscapedText.{rendition_set_text};
ghost use Rattle.screen_rows.specs.Plain.{glyphs_of};
ghost use Rattle.screen_rows.specs.Runs.{IsRun, cells_of};
ghost use Rattle.screen_cast.specs.Drawn.{attributes_in, cell_text, is_either};
ghost use Rattle.screen_cast.specs.Json.{json};
ghost use Rattle.screen_cast.specs.Parts.{run_part, runs_part};

use crate::json::push_glyph;
use arrayvec::ArrayVec;
use screen_rows::{
    CELLS, Kind, Run, are_plain, cells_of, glyphs_of, glyphs_of_run, inked, push_bytes,
    push_bytes_where, run_at,
};
use vt_screen::limits::WIDE_COLUMNS;
use vt_screen::{Cell, Row, Size};

/// How many bytes the runs of a row take at most: for each of 132 cells 17 of SGR, three of a character, and a space.
pub(crate) const RUNS_BYTES: usize = 2772;

/// The runs of a row.
pub(crate) fn push_runs(text: &mut ArrayVec<u8, RUNS_BYTES>, reversed: bool, row: &Row)
    requires whole { length row.now.cells ≡ WIDE_COLUMNS }
    requires none { text.old.items ≡ [] }
    ensures { text.new.items ≡ runs_part reversed row.now }
{
    let glyphs = glyphs_of(row);
    let cells = inked(&row.cells);
    let mut before = 0;
    while before < cells.len() {
        let run = run_at(cells, before);
        push_run(text, reversed, row, &glyphs, run);
        before += usize::from(run.len);
    }
}

/// A run of a row, of which the glyphs are known: SGR, and its characters.
fn push_run(
    text: &mut ArrayVec<u8, RUNS_BYTES>,
    reversed: bool,
    row: &Row,
    glyphs: &[u8; CELLS],
    run: Run,
)
    requires whole { length row.now.cells ≡ WIDE_COLUMNS }
    requires glyphs { glyphs.now ≡ glyphs_of row.now.cells }
    requires run { IsRun run }
    requires room { length text.old.items + 21 * run.len ≤ RUNS_BYTES }
    ensures text { text.new.items ≡ text.old.items ++ run_part reversed row.now run }
    ensures short { length text.new.items ≤ length text.old.items + 21 * run.len }
{
    push_rendition(text, reversed, run.kind);
    push_text(text, row, glyphs, run);
}

/// SGR.
fn push_rendition(text: &mut ArrayVec<u8, RUNS_BYTES>, reversed: bool, kind: Kind)
    requires room { length text.old.items + 17 ≤ RUNS_BYTES }
    ensures text { text.new.items
        ≡ text.old.items ++ json (rendition_set_text (attributes_in reversed kind)) }
    ensures short { length text.new.items ≤ length text.old.items + 17 }
{
    push_bytes(text, b"\\u001b[0");
    push_bytes_where(text, kind.bold, b";1");
    push_bytes_where(text, kind.underscore, b";4");
    push_bytes_where(text, kind.blink, b";5");
    push_bytes_where(text, is_either(reversed, kind.reverse), b";7");
    text.push(b'm');
}

/// Whether one of two is so, and not both.
fn is_either(one: bool, other: bool) -> bool
    ensures { result ≡ is_either one other }
{
    one != other
}

/// The characters of a run: at once where each stands for itself.
fn push_text(text: &mut ArrayVec<u8, RUNS_BYTES>, row: &Row, glyphs: &[u8; CELLS], run: Run)
    requires whole { length row.now.cells ≡ WIDE_COLUMNS }
    requires glyphs { glyphs.now ≡ glyphs_of row.now.cells }
    requires run { IsRun run }
    requires room { length text.old.items + 4 * run.len ≤ RUNS_BYTES }
    ensures text { text.new.items ≡ text.old.items
        ++ json (flat_map (cell_text row.now.size) (cells_of row.now run)) }
    ensures short { length text.new.items ≤ length text.old.items + 4 * run.len }
{
    let bytes = glyphs_of_run(glyphs, run);
    if row.size.is_single() && are_plain(bytes) {
        push_bytes(text, bytes);
    } else {
        push_cells(text, row.size, cells_of(row, run));
    }
}

/// The characters of cells on a line of this size.
fn push_cells(text: &mut ArrayVec<u8, RUNS_BYTES>, size: Size, cells: &[Cell])
    requires room { length text.old.items + 4 * length cells.now ≤ RUNS_BYTES }
    ensures text { text.new.items
        ≡ text.old.items ++ json (flat_map (cell_text size) cells.now) }
    ensures short { length text.new.items ≤ length text.old.items + 4 * length cells.now }
{
    for cell in cells {
        push_cell(text, size, *cell);
    }
}

/// The character of a cell, and a space behind it on the double sizes.
fn push_cell(text: &mut ArrayVec<u8, RUNS_BYTES>, size: Size, cell: Cell)
    requires room { length text.old.items + 4 ≤ RUNS_BYTES }
    ensures text { text.new.items ≡ text.old.items ++ json (cell_text size cell) }
    ensures short { length text.new.items ≤ length text.old.items + 4 }
{
    push_glyph(text, cell.glyph);
    push_bytes_where(text, !size.is_single(), b" ");
}
