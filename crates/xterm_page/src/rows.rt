//! What a line is after a chunk: what another line was before it, or a row.

ghost use Rattle.std.specs.Prelude.{◌≡◌, ℕ, ◌+◌, ◌-◌, ◌<◌, ◌≤◌, ◌∷◌, ◌++◌, IsTrue, drop, encode_utf8, false, length, take, true};
ghost use Rattle.std.specs.List.{flat_map};
ghost use Rattle.screen_page.specs.EntryText.{string_byte};
ghost use Rattle.sheet.specs.Grid.{IsUsed};
ghost use Rattle.xterm_rows.specs.Groups.{group_end};
ghost use Rattle.xterm_rows.specs.Letters.{AreLetters, IsLetter};
ghost use Rattle.xterm_rows.specs.RowText.{printed};
ghost use Rattle.xterm_rows.specs.Runs.{begins, cell_behind};
ghost use Rattle.xterm_page.specs.Entries.{cells_shown, change_by, shown, shown_at};
ghost use Rattle.xterm_page.specs.EntryText.{named_text, numbers_text, row_text, run_text};
ghost use Rattle.held.specs.Held.{Wrote};
ghost use Rattle.xterm_page.specs.Plain.{IsPlain, string_of};

use crate::moved::put_moved;
use arrayvec::ArrayVec;
use held::{HELD, put, put_byte};
use screen_page::put_comma_number;
use sheet::Cell;
use std::io::Write;
use tape_core::Watched;
use xterm_rows::{begins, inked, is_letter, is_letter_like, kind_numbers};

/// Writes what a line is that the chunk changes: the line that it was before, or its row.
pub(crate) fn put_changed<W: Write>(
    line: usize,
    was: Option<usize>,
    cells: &[Cell],
    used: usize,
    held: &mut ArrayVec<u8, HELD>,
    writer: &mut Watched<W>,
)
    requires { IsUsed cells.now used }
    ensures { Wrote W.contents writer.old held.old.items writer.new held.new.items
        (named_text (line, change_by was cells.now)) }
{
    match was {
        Some(other) => put_moved(line, other, held, writer),
        None => {
            put_comma_number(line, held, writer);
            put_row(cells, used, held, writer);
        }
    }
}

/// Writes a row behind a comma. Behind so many cells all are blank.
fn put_row<W: Write>(
    cells: &[Cell],
    used: usize,
    held: &mut ArrayVec<u8, HELD>,
    writer: &mut Watched<W>,
)
    requires { IsUsed cells.now used }
    ensures { Wrote W.contents writer.old held.old.items writer.new held.new.items
        (44 ∷ row_text (shown cells.now)) }
{
    put(b",[0", held, writer);
    put_runs(inked(&cells[..used]), held, writer);
    put_byte(b']', held, writer);
}

/// Writes the runs of cells.
fn put_runs<W: Write>(cells: &[Cell], held: &mut ArrayVec<u8, HELD>, writer: &mut Watched<W>)
    ensures { Wrote W.contents writer.old held.old.items writer.new held.new.items
        (flat_map run_text (cells_shown cells.now)) }
{
    let mut at = 0;
    while at < cells.len() {
        at = put_run(cells, at, held, writer);
    }
}

/// Writes the run that begins at a place, and tells where it ends.
fn put_run<W: Write>(
    cells: &[Cell],
    at: usize,
    held: &mut ArrayVec<u8, HELD>,
    writer: &mut Watched<W>,
) -> usize
    requires { at < length cells.now }
    ensures end { result ≡ group_end (begins cells.now) at (length cells.now) }
    ensures some { at < result }
    ensures within { result ≤ length cells.now }
    ensures wrote { Wrote W.contents writer.old held.old.items writer.new held.new.items
        (run_text (shown_at cells.now at)) }
{
    let (kind, ink, paper) = kind_numbers(cells[at]);
    put_numbers(kind as usize, ink as usize, paper as usize, held, writer);
    put_byte(b',', held, writer);
    put_byte(b'"', held, writer);
    let end = put_characters(cells, at, held, writer);
    put_byte(b'"', held, writer);
    end
}

/// Writes a kind, an ink and a paper without the noughts at their end, a comma before each.
fn put_numbers<W: Write>(
    kind: usize,
    ink: usize,
    paper: usize,
    held: &mut ArrayVec<u8, HELD>,
    writer: &mut Watched<W>,
)
    ensures { Wrote W.contents writer.old held.old.items writer.new held.new.items
        (numbers_text kind ink paper) }
{
    if paper != 0 {
        put_comma_number(kind, held, writer);
        put_comma_number(ink, held, writer);
        put_comma_number(paper, held, writer);
        return;
    }
    if ink != 0 {
        put_comma_number(kind, held, writer);
        put_comma_number(ink, held, writer);
        return;
    }
    if kind == 0 {
        return;
    }
    put_comma_number(kind, held, writer);
}

/// Writes the characters of the run that begins at a place as they stand in a string, and tells where it ends.
fn put_characters<W: Write>(
    cells: &[Cell],
    at: usize,
    held: &mut ArrayVec<u8, HELD>,
    writer: &mut Watched<W>,
) -> usize
    requires { at < length cells.now }
    ensures end { result ≡ group_end (begins cells.now) at (length cells.now) }
    ensures some { at < result }
    ensures within { result ≤ length cells.now }
    ensures wrote { Wrote W.contents writer.old held.old.items writer.new held.new.items
        (string_of (take (result - at) (drop at cells.now))) }
{
    let mut end = at + put_some(cells, at, held, writer);
    while end < cells.len() && !begins(cells, end) {
        end += put_some(cells, end, held, writer);
    }
    end
}

/// Writes the characters of some cells from a place on, among which no run begins, and tells how many.
fn put_some<W: Write>(
    cells: &[Cell],
    at: usize,
    held: &mut ArrayVec<u8, HELD>,
    writer: &mut Watched<W>,
) -> usize
    requires { at < length cells.now }
    ensures some { 1 ≤ result }
    ensures within { at + result ≤ length cells.now }
    ensures none { (k : ℕ) → at < k → k < at + result → begins cells.now k ≡ false }
    ensures wrote { Wrote W.contents writer.old held.old.items writer.new held.new.items
        (string_of (take result (drop at cells.now))) }
{
    let count = hold_letters(&cells[at..], held);
    if count > 0 {
        return count;
    }
    put_cell(cells[at], held, writer);
    1
}

/// Holds the characters of the first cells, as long as each is a plain letter of one rendition and there is room, and
/// tells how many.
fn hold_letters(cells: &[Cell], held: &mut ArrayVec<u8, HELD>) -> usize
    requires { 1 ≤ length cells.now }
    ensures text { held.new.items ≡ held.old.items ++ string_of (take result cells.now) }
    ensures few { result ≤ length cells.now }
    ensures letters { AreLetters (cell_behind cells.now 0).rendition cells.now 0 result }
{
    let letter = cells[0];
    if is_letter(letter) {
        hold_like(letter, cells, held)
    } else {
        0
    }
}

/// The same of those that are in the rendition of a letter.
fn hold_like(letter: Cell, cells: &[Cell], held: &mut ArrayVec<u8, HELD>) -> usize
    requires { IsLetter letter.rendition letter }
    ensures text { held.new.items ≡ held.old.items ++ string_of (take result cells.now) }
    ensures few { result ≤ length cells.now }
    ensures letters { AreLetters letter.rendition cells.now 0 result }
{
    let count = cells.len().min(held.remaining_capacity());
    for at in 0..count {
        let cell = cells[at];
        if !is_plain_like(letter, cell) {
            return at;
        }
        held.push(cell.ascii());
    }
    count
}

/// Whether a cell is a letter in the rendition of another one, and isn't escaped.
#[tactic(auto, using(crate::proofs::StringLemmas::plain_cell))]
fn is_plain_like(letter: Cell, cell: Cell) -> bool
    requires { IsLetter letter.rendition letter }
    ensures letter { IsTrue result → IsLetter letter.rendition cell }
    ensures plain { IsTrue result → IsPlain cell }
{
    if !is_letter_like(letter, cell) {
        return false;
    }
    let byte = cell.ascii();
    byte != b'"' && byte != b'\\' && byte != b'<'
}

/// Writes the character of a cell and its marks as they stand in a string; of a right half nothing.
fn put_cell<W: Write>(cell: Cell, held: &mut ArrayVec<u8, HELD>, writer: &mut Watched<W>)
    ensures { Wrote W.contents writer.old held.old.items writer.new held.new.items
        (flat_map string_byte (printed cell)) }
{
    if cell.is_covered() {
        return;
    }
    put_character(cell.character(), held, writer);
    for n in 0..cell.mark_count() {
        put_character(cell.mark(n), held, writer);
    }
}

/// Writes a character as it stands in a string. Of those that take more than a byte none is escaped.
#[tactic(auto, using(crate::proofs::StringLemmas::plain_character))]
fn put_character<W: Write>(character: char, held: &mut ArrayVec<u8, HELD>, writer: &mut Watched<W>)
    ensures { Wrote W.contents writer.old held.old.items writer.new held.new.items
        (flat_map string_byte (encode_utf8 character)) }
{
    match character {
        '"' => put(b"\\\"", held, writer),
        '\\' => put(b"\\\\", held, writer),
        '<' => put(b"\\u003c", held, writer),
        _ => put(character.encode_utf8(&mut [0; 4]).as_bytes(), held, writer),
    }
}
