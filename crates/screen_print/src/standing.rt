//! Where a text stands on a screen.

ghost use Rattle.std.specs.Prelude.{◌≡◌, ◌+◌, ◌-◌, ◌≤◌, ◌++◌, All, drop, length, ◌==◌};
ghost use Rattle.std.specs.List.{suffix_len};
ghost use Rattle.vt_screen.specs.Cells.{row_at};
ghost use Rattle.screen_print.specs.FindLines.{begins, ends_line, found_rows, line_text_from, places_in, row_texts, rows_reaching, standing};
ghost use Rattle.screen_rows.specs.RowText.{row_text, characters};
ghost use Rattle.screen_print.specs.Places.{IsPlace};
ghost use Rattle.screen_print.specs.Start.{IsStart};

use crate::quiet::{agrees, may_begin};
use crate::start::Start;
use crate::still::Still;
use arrayvec::ArrayVec;
use screen_rows::{cells_to_margin, character};
use vt_screen::limits::{LINES, WIDE_COLUMNS};
use vt_screen::{Cell, margin_of};

/// How many cells a row has.
const ROW: usize = WIDE_COLUMNS as usize;

/// How many cells a screen has.
pub(crate) const CELLS: usize = 3168;

/// A line and a column of the screen.
#[derive(Clone, Copy, Default, Debug, PartialEq, Eq)]
pub struct Place {
    pub line: u8,
    pub column: u8,
}

/// Where a text stands, in reading order.
pub(crate) fn standing(still: &Still, text: &[char]) -> ArrayVec<Place, CELLS>
    ensures places { result.items ≡ standing text.now still.now }
    ensures within { All (IsPlace still.now) result.items }
{
    still.sound();
    let start = Start::of(text);
    let mut places = ArrayVec::new();
    for line in 1..LINES + 1 {
        push_places(still, text, &start, line, &mut places);
    }
    places
}

/// Puts the places of one row behind others. Where the text surely begins nowhere in the row its line isn't
/// laid out.
fn push_places(
    still: &Still,
    text: &[char],
    start: &Start,
    line: u8,
    places: &mut ArrayVec<Place, CELLS>,
)
    requires start { IsStart text.now start.now }
    requires low { 1 ≤ line }
    requires high { line ≤ LINES }
    requires room { length places.old.items + 132 ≤ CELLS }
    requires before { All (IsPlace still.now) places.old.items }
    ensures places { places.new.items ≡ places.old.items
        ++ places_in text.now line (line_text_from (drop (line - 1) (row_texts still.now)))
        (length (row_text still.now.wide (row_at still.now.rows line))) }
    ensures short { length places.new.items ≤ length places.old.items + 132 }
    ensures after { All (IsPlace still.now) places.new.items }
{
    still.sound();
    if may_begin(start, still.is_wide(), still.row(line)) {
        push_begun(still, text, start, line, places);
    }
}

/// The same, column by column.
fn push_begun(
    still: &Still,
    text: &[char],
    start: &Start,
    line: u8,
    places: &mut ArrayVec<Place, CELLS>,
)
    requires start { IsStart text.now start.now }
    requires low { 1 ≤ line }
    requires high { line ≤ LINES }
    requires room { length places.old.items + 132 ≤ CELLS }
    requires before { All (IsPlace still.now) places.old.items }
    ensures places { places.new.items ≡ places.old.items
        ++ places_in text.now line (line_text_from (drop (line - 1) (row_texts still.now)))
        (length (row_text still.now.wide (row_at still.now.rows line))) }
    ensures short { length places.new.items ≤ length places.old.items + 132 }
    ensures after { All (IsPlace still.now) places.new.items }
{
    still.sound();
    let cells = cells_to_margin(still.is_wide(), still.row(line));
    let columns = columns_of(still, line);
    for column in 1..columns + 1 {
        if begins(still, text, start, line, cells, column) {
            places.push(Place { line, column });
        }
    }
}

/// Whether a text begins in a line at a column of its first row, which has these cells.
#[inline(always)]
pub(crate) fn begins(
    still: &Still,
    text: &[char],
    start: &Start,
    line: u8,
    cells: &[Cell],
    column: u8,
) -> bool
    requires start { IsStart text.now start.now }
    requires low { 1 ≤ line }
    requires high { line ≤ LINES }
    requires left { 1 ≤ column }
    requires right { column ≤ length cells.now }
    requires cells { characters cells.now ≡ row_text still.now.wide (row_at still.now.rows line) }
    ensures { result
        ≡ begins text.now (line_text_from (drop (line - 1) (row_texts still.now))) column }
{
    still.sound();
    if !start.may_begin_at(cells[column as usize - 1]) {
        return false;
    }
    begins_here(still, text, line, cells, column)
}

/// The same, where the first character may stand there.
#[inline(never)]
fn begins_here(still: &Still, text: &[char], line: u8, cells: &[Cell], column: u8) -> bool
    requires low { 1 ≤ line }
    requires high { line ≤ LINES }
    requires left { 1 ≤ column }
    requires right { column ≤ length cells.now }
    requires cells { characters cells.now ≡ row_text still.now.wide (row_at still.now.rows line) }
    ensures { result
        ≡ begins text.now (line_text_from (drop (line - 1) (row_texts still.now))) column }
{
    still.sound();
    let cells = &cells[column as usize - 1..];
    if !agrees(text, cells) {
        return false;
    }
    text.len() <= cells.len() || runs_on(still, text, line, column)
}

/// The same row by row, where the row ends before the text does.
#[cold]
fn runs_on(still: &Still, text: &[char], line: u8, column: u8) -> bool
    requires low { 1 ≤ line }
    requires high { line ≤ LINES }
    requires left { 1 ≤ column }
    requires right { column ≤ length (row_text still.now.wide (row_at still.now.rows line)) }
    ensures { result
        ≡ begins text.now (line_text_from (drop (line - 1) (row_texts still.now))) column }
{
    still.sound();
    let mut rest = text;
    let mut from = column as usize - 1;
    for at in line..LINES + 1 {
        let cells = cells_to_margin(still.is_wide(), still.row(at));
        let part = &cells[from..];
        if !agrees(rest, part) {
            return false;
        }
        if rest.len() <= part.len() {
            return true;
        }
        if ends_line(cells) {
            return false;
        }
        rest = &rest[part.len()..];
        from = 0;
    }
    false
}

/// The rows of a found text of so many characters, from its first character's to its last one's, without
/// the spaces at the end.
pub(crate) fn found_rows(still: &Still, place: Place, len: usize) -> ArrayVec<char, CELLS>
    requires { IsPlace still.now place }
    ensures { result.items ≡ found_rows len still.now place }
{
    let least = len as u128 + u128::from(place.column) - 1;
    let mut rows = rows_reaching(still, place.line, least);
    rows.truncate(trimmed_len(rows.as_slice()));
    rows
}

/// How many characters are left without the spaces at their end.
fn trimmed_len(chars: &[char]) -> usize
    ensures { result + suffix_len (λ c. c == 32) chars.now ≡ length chars.now }
{
    let mut len = chars.len();
    while len > 0 && chars[len - 1] == ' ' {
        len -= 1;
    }
    len
}

/// The rows from a line on that together have so many characters.
fn rows_reaching(still: &Still, line: u8, least: u128) -> ArrayVec<char, CELLS>
    requires low { 1 ≤ line }
    requires high { line ≤ LINES }
    ensures { result.items ≡ rows_reaching least (drop (line - 1) (row_texts still.now)) }
{
    still.sound();
    let mut text = ArrayVec::new();
    let mut least = least;
    for at in line..LINES + 1 {
        let row = row_text(still, at);
        push_chars(&mut text, row.as_slice());
        if least <= row.len() as u128 {
            return text;
        }
        least -= row.len() as u128;
    }
    text
}

/// Whether a row ends its line.
pub(crate) fn ends_line(row: &[Cell]) -> bool
    requires { 1 ≤ length row.now }
    ensures { result ≡ ends_line (characters row.now) }
{
    character(row[row.len() - 1].glyph) == ' '
}

fn push_chars(text: &mut ArrayVec<char, CELLS>, chars: &[char])
    requires { length text.old.items + length chars.now ≤ CELLS }
    ensures { text.new.items ≡ text.old.items ++ chars.now }
{
    let _ = text.try_extend_from_slice(chars);
}

/// The text of a row.
pub(crate) fn row_text(still: &Still, line: u8) -> ArrayVec<char, ROW>
    requires low { 1 ≤ line }
    requires high { line ≤ LINES }
    ensures text { result.items ≡ row_text still.now.wide (row_at still.now.rows line) }
    ensures some { 1 ≤ length result.items }
    ensures few { length result.items ≤ ROW }
{
    let mut text = ArrayVec::new();
    for cell in cells_to_margin(still.is_wide(), still.row(line)) {
        text.push(character(cell.glyph));
    }
    text
}

/// How many characters a row has as text.
fn columns_of(still: &Still, line: u8) -> u8
    requires low { 1 ≤ line }
    requires high { line ≤ LINES }
    ensures columns { result ≡ length (row_text still.now.wide (row_at still.now.rows line)) }
    ensures high { result ≤ WIDE_COLUMNS }
{
    margin_of(still.is_wide(), still.row(line).size)
}
