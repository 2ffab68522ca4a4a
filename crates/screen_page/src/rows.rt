//! What a line is after a chunk: what another line was before it, or a row.

ghost use Rattle.std.specs.Prelude.{◌≡◌, ◌≤◌, ◌<◌, [], ◌∷◌, ◌++◌, encode_utf8, length, true};
ghost use Rattle.std.specs.List.{flat_map};
ghost use Rattle.held.specs.Held.{Wrote};
ghost use Rattle.screen_rows.specs.Plain.{glyphs_of};
ghost use Rattle.screen_rows.specs.RowText.{printed};
ghost use Rattle.screen_rows.specs.KeptRows.{IsFrom};
ghost use Rattle.screen_rows.specs.SameRows.{size_number};
ghost use Rattle.screen_rows.specs.Runs.{IsRun, cells_of};
ghost use Rattle.screen_page.specs.Entries.{shown, shown_run};
ghost use Rattle.screen_page.specs.EntryText.{comma_number, row_text, run_text, string_byte};
ghost use Rattle.screen_page.specs.Parts.{line_text};

use crate::numbered::NumberedRows;
use crate::numbers::put_comma_number;
use arrayvec::ArrayVec;
use held::{HELD, put, put_byte, put_number};
use screen_rows::{
    CELLS, Run, are_plain, cells_of, character, glyphs_of, glyphs_of_run, inked, run_at,
};
use std::io::Write;
use tape_core::Watched;
use vt_screen::limits::{LINES, WIDE_COLUMNS};
use vt_screen::{Cell, Row, Screen, Size};

/// Writes what a line is that a chunk changes, of which the line is known that had its row in its slot, or 0.
pub(crate) fn put_line<W: Write>(
    before: &NumberedRows,
    screen: &Screen,
    line: u8,
    source: u8,
    held: &mut ArrayVec<u8, HELD>,
    writer: &mut Watched<W>,
)
    requires low { 1 ≤ line }
    requires high { line ≤ LINES }
    requires source { IsFrom before.now screen.now line source }
    ensures { Wrote W.contents writer.old held.old.items writer.new held.new.items
        (line_text before.now.rows screen.now.picture.rows line) }
{
    match before.line_of(screen, line, source) {
        Some(other) => put_moved(line, other, held, writer),
        None => put_changed(line, screen.row(line), held, writer),
    }
}

/// Writes a line, and the line that was its row. Most numbers have two digits.
fn put_moved<W: Write>(line: u8, other: u8, held: &mut ArrayVec<u8, HELD>, writer: &mut Watched<W>)
    ensures { Wrote W.contents writer.old held.old.items writer.new held.new.items
        (comma_number line ++ comma_number other) }
{
    if have_two_digits(line, other) {
        let (tens, ones) = (b'0' + line / 10, b'0' + line % 10);
        let (other_tens, other_ones) = (b'0' + other / 10, b'0' + other % 10);
        put(
            &[b',', tens, ones, b',', other_tens, other_ones],
            held,
            writer,
        );
    } else {
        put_comma_number(usize::from(line), held, writer);
        put_comma_number(usize::from(other), held, writer);
    }
}

/// Whether two numbers have two digits.
fn have_two_digits(one: u8, other: u8) -> bool
    ensures low { result ≡ true → 10 ≤ one }
    ensures high { result ≡ true → one < 100 }
    ensures other_low { result ≡ true → 10 ≤ other }
    ensures other_high { result ≡ true → other < 100 }
{
    10 <= one && one < 100 && 10 <= other && other < 100
}

/// Writes a line and its row.
fn put_changed<W: Write>(
    line: u8,
    row: &Row,
    held: &mut ArrayVec<u8, HELD>,
    writer: &mut Watched<W>,
)
    requires whole { length row.now.cells ≡ WIDE_COLUMNS }
    ensures { Wrote W.contents writer.old held.old.items writer.new held.new.items
        (comma_number line ++ 44 ∷ row_text (shown row.now)) }
{
    put_comma_number(usize::from(line), held, writer);
    put_row(row, held, writer);
}

/// Writes a row behind a comma.
fn put_row<W: Write>(row: &Row, held: &mut ArrayVec<u8, HELD>, writer: &mut Watched<W>)
    requires whole { length row.now.cells ≡ WIDE_COLUMNS }
    ensures { Wrote W.contents writer.old held.old.items writer.new held.new.items
        (44 ∷ row_text (shown row.now)) }
{
    put(b",[", held, writer);
    put_number(size_number(row.size), held, writer);
    put_runs(row, held, writer);
    put_byte(b']', held, writer);
}

/// A size as a number.
fn size_number(size: Size) -> usize
    ensures { result ≡ size_number size }
{
    match size {
        Size::Single => 0,
        Size::Double => 1,
        Size::Top => 2,
        Size::Bottom => 3,
    }
}

/// Writes the runs of a row.
fn put_runs<W: Write>(row: &Row, held: &mut ArrayVec<u8, HELD>, writer: &mut Watched<W>)
    requires whole { length row.now.cells ≡ WIDE_COLUMNS }
    ensures { Wrote W.contents writer.old held.old.items writer.new held.new.items
        (flat_map run_text (shown row.now).runs) }
{
    let glyphs = glyphs_of(row);
    let cells = inked(&row.cells);
    let mut before = 0;
    while before < cells.len() {
        let run = run_at(cells, before);
        put_run(row, &glyphs, run, held, writer);
        before += usize::from(run.len);
    }
}

/// Writes a run of a row, of which the glyphs are known.
fn put_run<W: Write>(
    row: &Row,
    glyphs: &[u8; CELLS],
    run: Run,
    held: &mut ArrayVec<u8, HELD>,
    writer: &mut Watched<W>,
)
    requires whole { length row.now.cells ≡ WIDE_COLUMNS }
    requires glyphs { glyphs.now ≡ glyphs_of row.now.cells }
    requires run { IsRun run }
    ensures { Wrote W.contents writer.old held.old.items writer.new held.new.items
        (run_text (shown_run row.now run)) }
{
    put_kind(run.kind.number(), held, writer);
    put_text(row, glyphs, run, held, writer);
    put_byte(b'"', held, writer);
}

/// Writes the number of a kind, and what stands between it and the characters of a run. Most have one digit.
fn put_kind<W: Write>(kind: u8, held: &mut ArrayVec<u8, HELD>, writer: &mut Watched<W>)
    ensures { Wrote W.contents writer.old held.old.items writer.new held.new.items
        (comma_number kind ++ 44 ∷ 34 ∷ []) }
{
    if kind < 10 {
        put(&[b',', b'0' + kind, b',', b'"'], held, writer);
    } else {
        put_comma_number(usize::from(kind), held, writer);
        put(b",\"", held, writer);
    }
}

/// Writes the characters of a run as they stand in a string: at once where each stands for itself.
fn put_text<W: Write>(
    row: &Row,
    glyphs: &[u8; CELLS],
    run: Run,
    held: &mut ArrayVec<u8, HELD>,
    writer: &mut Watched<W>,
)
    requires whole { length row.now.cells ≡ WIDE_COLUMNS }
    requires glyphs { glyphs.now ≡ glyphs_of row.now.cells }
    requires run { IsRun run }
    ensures { Wrote W.contents writer.old held.old.items writer.new held.new.items
        (flat_map string_byte (flat_map printed (cells_of row.now run))) }
{
    let bytes = glyphs_of_run(glyphs, run);
    if are_plain(bytes) {
        put(bytes, held, writer);
    } else {
        put_characters(cells_of(row, run), held, writer);
    }
}

/// Writes the characters of cells as they stand in a string.
fn put_characters<W: Write>(cells: &[Cell], held: &mut ArrayVec<u8, HELD>, writer: &mut Watched<W>)
    ensures { Wrote W.contents writer.old held.old.items writer.new held.new.items
        (flat_map string_byte (flat_map printed cells.now)) }
{
    for cell in cells {
        put_character(character(cell.glyph), held, writer);
    }
}

/// Writes a character as it stands in a string. Of those that take more than a byte none is escaped.
#[tactic(auto, using(crate::proofs::StringLemmas::wide_character, crate::proofs::StringLemmas::narrow_character))]
fn put_character<W: Write>(character: char, held: &mut ArrayVec<u8, HELD>, writer: &mut Watched<W>)
    ensures { Wrote W.contents writer.old held.old.items writer.new held.new.items
        (flat_map string_byte (encode_utf8 character)) }
{
    if character.is_ascii() {
        put_escaped(character as u8, held, writer);
    } else {
        put(character.encode_utf8(&mut [0; 4]).as_bytes(), held, writer);
    }
}

/// Writes a byte as it stands in a string.
fn put_escaped<W: Write>(byte: u8, held: &mut ArrayVec<u8, HELD>, writer: &mut Watched<W>)
    ensures { Wrote W.contents writer.old held.old.items writer.new held.new.items
        (string_byte byte) }
{
    match byte {
        b'"' => put(b"\\\"", held, writer),
        b'\\' => put(b"\\\\", held, writer),
        b'<' => put(b"\\u003c", held, writer),
        _ => put_byte(byte, held, writer),
    }
}
