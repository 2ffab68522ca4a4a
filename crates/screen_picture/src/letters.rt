//! The letters of a row, and the classes that color them.

ghost use Rattle.std.specs.Prelude.{◌≡◌, ◌≤◌, ◌++◌, ◌+◌, ◌*◌, All, length};
ghost use Rattle.std.specs.List.{flat_map};
ghost use Rattle.tape_core.specs.Devices.{Gave};
ghost use Rattle.screen_picture.specs.Letters.{
  back_of,
  class_text,
  ink_of,
  letter_classes,
  letter_text,
  letters_text,
  places_text,
  span_text,
  spans_text,
};
ghost use Rattle.screen_rows.specs.Runs.{cells_of, IsRun};

use crate::texts::push_escaped;
use arrayvec::ArrayVec;
use screen_rows::{CELLS, Kind, Run, cells_of, character, push_bytes, push_number, runs_of};
use std::io::Write;
use tape_core::Watched;
use tape_core::laws::gives_join;
use vt_screen::limits::WIDE_COLUMNS;
use vt_screen::{Cell, Row};

/// How many bytes the places of a row's cells take at most: five digits and a space each.
const PLACES_BYTES: usize = 792;

/// How many bytes the characters of a row take at most in XML: 15 each.
pub(crate) const LETTERS_BYTES: usize = 1980;

/// How many classes a run has at most.
const CLASSES: usize = 3;

/// How many bytes the classes of a run take at most.
const CLASS_BYTES: usize = 16;

/// The class of what is ink on the screen: `i`, or `p` on a reversed one (ours).
pub(crate) fn ink_of(reversed: bool) -> u8
    ensures { result ≡ ink_of reversed }
{
    if reversed { b'p' } else { b'i' }
}

/// The class of the screen's ground: `p`, or `i` on a reversed one (ours).
pub(crate) fn back_of(reversed: bool) -> u8
    ensures { result ≡ back_of reversed }
{
    if reversed { b'i' } else { b'p' }
}

/// The attribute that tells classes.
pub(crate) fn class_text(classes: &[u8]) -> ArrayVec<u8, CLASS_BYTES>
    requires { length classes.now ≤ CLASSES }
    ensures { result.items ≡ class_text classes.now }
{
    let mut text = ArrayVec::new();
    if let [first, rest @ ..] = classes {
        push_bytes(&mut text, b" class=\"");
        text.push(*first);
        for letter in rest {
            text.push(b' ');
            text.push(*letter);
        }
        text.push(b'"');
    }
    text
}

/// Writes the letters of a row; nothing where it has no inked cell.
#[tactic(auto, unfolding(crate::specs::Letters::letters_text))]
pub(crate) fn put_letters<W: Write>(row: &Row, reversed: bool, writer: &mut Watched<W>)
    requires { length row.now.cells ≡ WIDE_COLUMNS }
    ensures { Gave W.contents writer.old writer.new (letters_text reversed row.now) }
{
    put_text(row, runs_of(row).as_slice(), reversed, writer);
}

/// Writes the letters of runs as one text; nothing where there is no run.
fn put_text<W: Write>(row: &Row, runs: &[Run], reversed: bool, writer: &mut Watched<W>)
    requires whole { length row.now.cells ≡ WIDE_COLUMNS }
    requires runs { All IsRun runs.now }
    ensures { Gave W.contents writer.old writer.new (spans_text reversed row.now runs.now) }
{
    gives_join::<W>();
    if runs.is_empty() {
        return;
    }
    writer.give(b"<text y=\"15\">");
    put_spans(row, runs, reversed, writer);
    writer.give(b"</text>");
}

/// Writes the letters of runs.
fn put_spans<W: Write>(row: &Row, runs: &[Run], reversed: bool, writer: &mut Watched<W>)
    requires whole { length row.now.cells ≡ WIDE_COLUMNS }
    requires runs { All IsRun runs.now }
    ensures { Gave W.contents writer.old writer.new
        (flat_map (span_text reversed row.now) runs.now) }
{
    gives_join::<W>();
    for run in runs {
        put_span(row, *run, reversed, writer);
    }
}

/// Writes the letters of a run.
fn put_span<W: Write>(row: &Row, run: Run, reversed: bool, writer: &mut Watched<W>)
    requires whole { length row.now.cells ≡ WIDE_COLUMNS }
    requires run { IsRun run }
    ensures { Gave W.contents writer.old writer.new (span_text reversed row.now run) }
{
    let classes = class_text(letter_classes(run.kind, reversed).as_slice());
    let places = places_text(run);
    let letters = letters_of(cells_of(row, run));
    writer.give_all(&[
        b"<tspan",
        classes.as_slice(),
        b" x=\"",
        places.as_slice(),
        b"\">",
        letters.as_slice(),
        b"</tspan>",
    ]);
}

/// The classes of a run's letters.
fn letter_classes(kind: Kind, reversed: bool) -> ArrayVec<u8, CLASSES>
    ensures classes { result.items ≡ letter_classes reversed kind }
    ensures few { length result.items ≤ CLASSES }
{
    let mut classes = ArrayVec::new();
    if kind.bold {
        classes.push(b'b');
    }
    if kind.blink {
        classes.push(b'k');
    }
    if kind.drawn {
        classes.push(b'n');
    } else if kind.reverse {
        classes.push(back_of(reversed));
    }
    classes
}

/// The places of a run's characters.
fn places_text(run: Run) -> ArrayVec<u8, PLACES_BYTES>
    requires { IsRun run }
    ensures { result.items ≡ places_text run }
{
    let mut text = ArrayVec::new();
    push_number(&mut text, 10 * u16::from(run.before));
    for before in run.before + 1..run.before + run.len {
        text.push(b' ');
        push_number(&mut text, 10 * u16::from(before));
    }
    text
}

/// The characters of cells.
pub(crate) fn letters_of(cells: &[Cell]) -> ArrayVec<u8, LETTERS_BYTES>
    requires { length cells.now ≤ CELLS }
    ensures { result.items ≡ flat_map letter_text cells.now }
{
    let mut text = ArrayVec::new();
    for cell in cells {
        push_letter(&mut text, *cell);
    }
    text
}

/// Puts the character of a cell behind a text.
fn push_letter(text: &mut ArrayVec<u8, LETTERS_BYTES>, cell: Cell)
    requires room { length text.old.items + 15 ≤ LETTERS_BYTES }
    ensures text { text.new.items ≡ text.old.items ++ letter_text cell }
    ensures short { length text.new.items ≤ length text.old.items + 15 }
{
    let mut bytes = [0; 4];
    push_escaped(
        text,
        character(cell.glyph).encode_utf8(&mut bytes).as_bytes(),
    );
}
