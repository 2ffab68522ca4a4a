//! The strokes of a row.

ghost use Rattle.std.specs.Prelude.{◌≡◌, ◌≤◌, ◌<◌, ◌++◌, ◌+◌, ◌*◌, All, length};
ghost use Rattle.std.specs.List.{flat_map};
ghost use Rattle.tape_core.specs.Devices.{Gave};
ghost use Rattle.screen_rows.specs.Runs.{IsRun};
ghost use Rattle.screen_picture.specs.Strokes.{
  is_stroked,
  outline_text,
  outlines_text,
  stroke_classes,
  stroke_text,
  strokes_text,
  underline_text,
};
ghost use Rattle.screen_rows.specs.Texts.{text_where};

use crate::letters::{back_of, class_text};
use arrayvec::ArrayVec;
use screen_rows::{Kind, Run, outline, push_bytes, push_number, runs_of};
use std::io::Write;
use tape_core::Watched;
use tape_core::laws::gives_join;
use vt_screen::Row;
use vt_screen::limits::WIDE_COLUMNS;

/// How many bytes the strokes of a row take at most: 60 for each cell, and 64 for a line under them.
const STROKES_BYTES: usize = 7984;

/// Writes the strokes of a row.
#[tactic(auto, unfolding(crate::specs::Strokes::strokes_text))]
pub(crate) fn put_strokes<W: Write>(row: &Row, reversed: bool, writer: &mut Watched<W>)
    requires { length row.now.cells ≡ WIDE_COLUMNS }
    ensures { Gave W.contents writer.old writer.new (strokes_text reversed row.now) }
{
    put_runs(row, runs_of(row).as_slice(), reversed, writer);
}

/// Writes the strokes of runs.
fn put_runs<W: Write>(row: &Row, runs: &[Run], reversed: bool, writer: &mut Watched<W>)
    requires whole { length row.now.cells ≡ WIDE_COLUMNS }
    requires runs { All IsRun runs.now }
    ensures { Gave W.contents writer.old writer.new
        (flat_map (stroke_text reversed row.now) runs.now) }
{
    gives_join::<W>();
    for run in runs {
        put_run(row, *run, reversed, writer);
    }
}

/// Writes the strokes of a run.
fn put_run<W: Write>(row: &Row, run: Run, reversed: bool, writer: &mut Watched<W>)
    requires whole { length row.now.cells ≡ WIDE_COLUMNS }
    requires run { IsRun run }
    ensures { Gave W.contents writer.old writer.new (stroke_text reversed row.now run) }
{
    gives_join::<W>();
    if !is_stroked(run.kind) {
        return;
    }
    let classes = class_text(stroke_classes(run.kind, reversed).as_slice());
    let lines = lines_of(row, run);
    writer.give_all(&[
        b"<path",
        classes.as_slice(),
        b" d=\"",
        lines.as_slice(),
        b"\"/>",
    ]);
}

/// Whether a run has strokes.
fn is_stroked(kind: Kind) -> bool
    ensures { result ≡ is_stroked kind }
{
    kind.drawn || kind.underscore
}

/// The classes of a run's strokes.
fn stroke_classes(kind: Kind, reversed: bool) -> ArrayVec<u8, 3>
    ensures classes { result.items ≡ stroke_classes reversed kind }
    ensures few { length result.items ≤ 3 }
{
    let mut classes = ArrayVec::new();
    if kind.blink {
        classes.push(b'k');
    }
    if kind.reverse {
        classes.push(back_of(reversed));
    }
    classes
}

/// The outlines of a run and the line under it.
fn lines_of(row: &Row, run: Run) -> ArrayVec<u8, STROKES_BYTES>
    requires whole { length row.now.cells ≡ WIDE_COLUMNS }
    requires run { IsRun run }
    ensures { result.items ≡ text_where run.kind.drawn (outlines_text row.now run)
        ++ text_where run.kind.underscore (underline_text run) }
{
    let mut text = ArrayVec::new();
    if run.kind.drawn {
        push_outlines(&mut text, row, run);
    }
    if run.kind.underscore {
        push_underline(&mut text, run);
    }
    text
}

/// Puts the outlines of a run behind a text.
fn push_outlines(text: &mut ArrayVec<u8, STROKES_BYTES>, row: &Row, run: Run)
    requires whole { length row.now.cells ≡ WIDE_COLUMNS }
    requires run { IsRun run }
    requires room { length text.old.items + 60 * run.len ≤ STROKES_BYTES }
    ensures text { text.new.items ≡ text.old.items ++ outlines_text row.now run }
    ensures short { length text.new.items ≤ length text.old.items + 60 * run.len }
{
    for before in run.before..run.before + run.len {
        push_outline(text, row, before);
    }
}

/// Puts the outline of a cell behind a text.
fn push_outline(text: &mut ArrayVec<u8, STROKES_BYTES>, row: &Row, before: u8)
    requires whole { length row.now.cells ≡ WIDE_COLUMNS }
    requires within { before < WIDE_COLUMNS }
    requires room { length text.old.items + 60 ≤ STROKES_BYTES }
    ensures text { text.new.items ≡ text.old.items ++ outline_text row.now before }
    ensures short { length text.new.items ≤ length text.old.items + 60 }
{
    text.push(b'M');
    push_number(text, 10 * u16::from(before));
    push_bytes(text, b" 0");
    push_bytes(text, outline(row.cells[before as usize].glyph));
}

/// Puts the line under a run behind a text.
fn push_underline(text: &mut ArrayVec<u8, STROKES_BYTES>, run: Run)
    requires run { IsRun run }
    requires room { length text.old.items + 64 ≤ STROKES_BYTES }
    ensures { text.new.items ≡ text.old.items ++ underline_text run }
{
    let width = 10 * u16::from(run.len);
    text.push(b'M');
    push_number(text, 10 * u16::from(run.before));
    push_bytes(text, b" 17h");
    push_number(text, width);
    push_bytes(text, b"v1h-");
    push_number(text, width);
    text.push(b'z');
}
