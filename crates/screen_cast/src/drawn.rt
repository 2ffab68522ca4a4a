//! Rows and the cursor, drawn for a player's terminal and written as they stand in a string of JSON.

ghost use Rattle.std.specs.Prelude.{◌≡◌, ◌<◌, ◌≤◌, ◌-◌, All, length, replicate, true};
ghost use Rattle.std.specs.List.{flat_map};
ghost use Rattle.held.specs.Held.{Wrote};
ghost use Rattle.vt_screen.specs.Attributes.{plain};
ghost use Rattle.screen_print.specs.EscapedText.{placed_text, rendition_set_text};
ghost use Rattle.screen_rows.specs.Ink.{inked};
ghost use Rattle.screen_rows.specs.Texts.{text_where};
ghost use Rattle.screen_print.specs.Stills.{still_of};
ghost use Rattle.screen_cast.specs.Drawn.{
  column_in,
  columns_taken,
  cursor_text,
  drawn_text,
  ground_text,
  line_text,
  row_opening,
  row_text,
  spaces_text,
};
ghost use Rattle.screen_cast.specs.Json.{json};
ghost use Rattle.screen_cast.specs.Parts.{line_part, row_rest};
ghost use Rattle.screen_cast.specs.Texts.{AreTexts};

use crate::texts::{RunsText, put_runs};
use arrayvec::ArrayVec;
use held::{HELD, put, put_byte, put_number};
use screen_rows::inked;
use std::io::Write;
use tape_core::Watched;
use vt_screen::limits::{LINES, WIDE_COLUMNS};
use vt_screen::{Row, Screen, Size};
use vt_term::Terminal;

/// How many bytes a row begins with where the number of its line has two digits.
const OPENING: usize = 30;

/// The spaces of a line without characters.
const SPACES: [u8; WIDE_COLUMNS as usize] = [b' '; WIDE_COLUMNS as usize];

/// Writes these lines of the screen of a terminal, and its cursor.
pub(crate) fn put_drawn<W: Write>(
    terminal: &Terminal,
    screen: &Screen,
    lines: &[u8],
    texts: &mut [RunsText],
    held: &mut ArrayVec<u8, HELD>,
    writer: &mut Watched<W>,
)
    requires shown { screen.now.picture ≡ terminal.now.console.picture }
    requires lines { All (λ line. (1 ≤ line) × (line ≤ LINES)) lines.now }
    requires texts { AreTexts terminal.now.console.modes.reverse_screen screen.now.order
        screen.now.picture.rows texts.old }
    ensures texts { AreTexts terminal.now.console.modes.reverse_screen screen.now.order
        screen.now.picture.rows texts.new }
    ensures wrote { Wrote W.contents writer.old held.old.items writer.new held.new.items
        (json (drawn_text (still_of terminal.now.console) lines.now)) }
{
    let reversed = terminal.modes().reverse_screen;
    put_lines(reversed, screen, lines, texts, held, writer);
    put_cursor(screen, held, writer);
}

/// Writes these lines.
fn put_lines<W: Write>(
    reversed: bool,
    screen: &Screen,
    lines: &[u8],
    texts: &mut [RunsText],
    held: &mut ArrayVec<u8, HELD>,
    writer: &mut Watched<W>,
)
    requires lines { All (λ line. (1 ≤ line) × (line ≤ LINES)) lines.now }
    requires texts { AreTexts reversed screen.now.order screen.now.picture.rows texts.old }
    ensures texts { AreTexts reversed screen.now.order screen.now.picture.rows texts.new }
    ensures wrote { Wrote W.contents writer.old held.old.items writer.new held.new.items
        (flat_map (line_part screen.now.picture reversed) lines.now) }
{
    for line in lines {
        put_line(reversed, screen, *line, texts, held, writer);
    }
}

/// Writes a line, part by part.
#[tactic(auto, unfolding(crate::specs::Parts::line_part, crate::specs::Parts::row_front, crate::specs::Parts::row_rest))]
fn put_line<W: Write>(
    reversed: bool,
    screen: &Screen,
    line: u8,
    texts: &mut [RunsText],
    held: &mut ArrayVec<u8, HELD>,
    writer: &mut Watched<W>,
)
    requires low { 1 ≤ line }
    requires high { line ≤ LINES }
    requires texts { AreTexts reversed screen.now.order screen.now.picture.rows texts.old }
    ensures texts { AreTexts reversed screen.now.order screen.now.picture.rows texts.new }
    ensures wrote { Wrote W.contents writer.old held.old.items writer.new held.new.items
        (line_part screen.now.picture reversed line) }
{
    let ground = Ground {
        width: screen.columns(),
        reversed,
    };
    put_opening(line, held, writer);
    put_runs(texts, screen, line, reversed, held, writer);
    put_rest(ground, screen.row(line), held, writer);
}

/// What rows stand on: a screen of so many columns, and whether it is reversed.
#[derive(Clone, Copy)]
struct Ground {
    width: u8,
    reversed: bool,
}

/// Writes what stands behind a row's last run.
#[tactic(auto, unfolding(crate::specs::Parts::row_rest))]
fn put_rest<W: Write>(
    ground: Ground,
    row: &Row,
    held: &mut ArrayVec<u8, HELD>,
    writer: &mut Watched<W>,
)
    requires width { ground.width ≤ WIDE_COLUMNS }
    requires whole { length row.now.cells ≡ WIDE_COLUMNS }
    ensures { Wrote W.contents writer.old held.old.items writer.new held.new.items
        (row_rest ground.width ground.reversed row.now) }
{
    put_ground(ground, row, held, writer);
    put_closing(held, writer);
}

/// Writes how a row ends: no rendition.
#[tactic(auto, unfolding(crate::specs::Json::json))]
fn put_closing<W: Write>(held: &mut ArrayVec<u8, HELD>, writer: &mut Watched<W>)
    ensures { Wrote W.contents writer.old held.old.items writer.new held.new.items
        (json (rendition_set_text plain)) }
{
    put(b"\\u001b[0m", held, writer);
}

/// Writes how a row begins. Most lines have a number of two digits.
fn put_opening<W: Write>(line: u8, held: &mut ArrayVec<u8, HELD>, writer: &mut Watched<W>)
    ensures { Wrote W.contents writer.old held.old.items writer.new held.new.items
        (json (row_opening line)) }
{
    if has_two_digits(line) {
        put(&opening_of(line), held, writer);
    } else {
        put(b"\\u001b[", held, writer);
        put_number(usize::from(line), held, writer);
        put(b";1H\\u001b[0m\\u001b[2K", held, writer);
    }
}

/// Whether a number has two digits.
fn has_two_digits(number: u8) -> bool
    ensures low { result ≡ true → 10 ≤ number }
    ensures high { result ≡ true → number < 100 }
{
    10 <= number && number < 100
}

/// How the row of a line begins whose number has two digits.
fn opening_of(line: u8) -> [u8; OPENING]
    requires low { 10 ≤ line }
    requires high { line < 100 }
    ensures { result ≡ json (row_opening line) }
{
    let mut opening = *b"\\u001b[00;1H\\u001b[0m\\u001b[2K";
    opening[7] = b'0' + line / 10;
    opening[8] = b'0' + line % 10;
    opening
}

/// Writes the ground right of a row's inked cells, where the screen is reversed.
#[tactic(auto, unfolding(crate::specs::Json::json))]
fn put_ground<W: Write>(
    ground: Ground,
    row: &Row,
    held: &mut ArrayVec<u8, HELD>,
    writer: &mut Watched<W>,
)
    requires width { ground.width ≤ WIDE_COLUMNS }
    requires whole { length row.now.cells ≡ WIDE_COLUMNS }
    ensures { Wrote W.contents writer.old held.old.items writer.new held.new.items
        (json (text_where ground.reversed (ground_text ground.width row.now))) }
{
    if !ground.reversed {
        return;
    }
    let taken = columns_taken(row.size, inked(&row.cells).len());
    put_spaces(
        usize::from(ground.width).saturating_sub(taken),
        held,
        writer,
    );
}

/// Writes so many columns of the ground of a reversed screen.
fn put_spaces<W: Write>(count: usize, held: &mut ArrayVec<u8, HELD>, writer: &mut Watched<W>)
    requires few { count ≤ WIDE_COLUMNS }
    ensures { Wrote W.contents writer.old held.old.items writer.new held.new.items
        (json (spaces_text count)) }
{
    put(b"\\u001b[0;7m", held, writer);
    put(spaces(count), held, writer);
}

/// So many spaces.
fn spaces(count: usize) -> &'static [u8]
    requires { count ≤ WIDE_COLUMNS }
    ensures { result.now ≡ replicate count 32 }
{
    &SPACES[..count]
}

/// How many columns so many cells of a row take.
fn columns_taken(size: Size, cells: usize) -> usize
    requires { cells ≤ WIDE_COLUMNS }
    ensures { result ≡ columns_taken size cells }
{
    if size.is_single() { cells } else { 2 * cells }
}

/// Writes the cursor.
fn put_cursor<W: Write>(screen: &Screen, held: &mut ArrayVec<u8, HELD>, writer: &mut Watched<W>)
    ensures { let p = screen.now.picture in Wrote W.contents writer.old held.old.items writer.new held.new.items
        (json (cursor_text p.rows p.line p.column)) }
{
    let (line, column) = screen.cursor();
    put_place(line, column_in(screen.row(line).size, column), held, writer);
}

/// Writes a place.
fn put_place<W: Write>(
    line: u8,
    column: u16,
    held: &mut ArrayVec<u8, HELD>,
    writer: &mut Watched<W>,
)
    ensures { Wrote W.contents writer.old held.old.items writer.new held.new.items
        (json (placed_text line column)) }
{
    put(b"\\u001b[", held, writer);
    put_number(usize::from(line), held, writer);
    put_byte(b';', held, writer);
    put_number(usize::from(column), held, writer);
    put_byte(b'H', held, writer);
}

/// The column that a column of a line of this size begins at.
fn column_in(size: Size, column: u8) -> u16
    requires { 1 ≤ column }
    ensures { result ≡ column_in size column }
{
    let column = u16::from(column);
    if size.is_single() {
        column
    } else {
        2 * column - 1
    }
}
