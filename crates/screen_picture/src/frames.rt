//! The rows of a picture, each where it stands.

ghost use Rattle.std.specs.Prelude.{◌≡◌, ◌≤◌, ◌++◌, ◌+◌, decimal, length};
ghost use Rattle.tape_core.specs.Devices.{Gave};
ghost use Rattle.screen_picture.specs.Framed.{frame_close, frame_open, row_text, rows_text};
ghost use Rattle.screen_picture.specs.Grounds.{down};
ghost use Rattle.screen_picture.specs.Letters.{letters_text};
ghost use Rattle.screen_picture.specs.Strokes.{strokes_text};

use crate::grounds::down;
use crate::letters::put_letters;
use crate::strokes::put_strokes;
use arrayvec::ArrayVec;
use screen_rows::{push_bytes, push_number};
use std::io::Write;
use tape_core::Watched;
use tape_core::laws::gives_join;
use vt_screen::limits::{LINES, WIDE_COLUMNS};
use vt_screen::{Row, Screen, Size};

/// How many bytes open a frame at most.
const FRAME_BYTES: usize = 70;

/// Writes the rows.
#[tactic(auto, unfolding(crate::specs::Framed::rows_text))]
pub(crate) fn put_rows<W: Write>(screen: &Screen, reversed: bool, writer: &mut Watched<W>)
    ensures { Gave W.contents writer.old writer.new
        (rows_text reversed screen.now.picture.rows) }
{
    gives_join::<W>();
    for line in 1..LINES + 1 {
        put_row(screen, line, reversed, writer);
    }
}

/// Writes a row in its frame.
fn put_row<W: Write>(screen: &Screen, line: u8, reversed: bool, writer: &mut Watched<W>)
    requires low { 1 ≤ line }
    requires high { line ≤ LINES }
    ensures { Gave W.contents writer.old writer.new
        (row_text reversed screen.now.picture.rows line) }
{
    gives_join::<W>();
    let row = screen.row(line);
    writer.give(frame_open(row.size, line).as_slice());
    put_drawn(row, reversed, writer);
    writer.give(frame_close(row.size));
}

/// Writes the letters and the strokes of a row.
fn put_drawn<W: Write>(row: &Row, reversed: bool, writer: &mut Watched<W>)
    requires { length row.now.cells ≡ WIDE_COLUMNS }
    ensures { Gave W.contents writer.old writer.new
        (letters_text reversed row.now ++ strokes_text reversed row.now) }
{
    gives_join::<W>();
    put_letters(row, reversed, writer);
    put_strokes(row, reversed, writer);
}

/// What opens the frame of a row.
pub(crate) fn frame_open(size: Size, line: u8) -> ArrayVec<u8, FRAME_BYTES>
    requires low { 1 ≤ line }
    requires high { line ≤ LINES }
    ensures { result.items ≡ frame_open size line }
{
    match size {
        Size::Single => placed(b"<g transform=\"translate(0 ", line, b")\">"),
        Size::Double => placed(b"<g transform=\"matrix(2 0 0 1 0 ", line, b")\">"),
        Size::Top => placed(
            b"<svg y=\"",
            line,
            b"\" width=\"1320\" height=\"20\" viewBox=\"0 0 660 10\">",
        ),
        Size::Bottom => placed(
            b"<svg y=\"",
            line,
            b"\" width=\"1320\" height=\"20\" viewBox=\"0 10 660 10\">",
        ),
    }
}

/// A line's place between two texts.
fn placed(before: &[u8], line: u8, behind: &[u8]) -> ArrayVec<u8, FRAME_BYTES>
    requires low { 1 ≤ line }
    requires high { line ≤ LINES }
    requires room { length before.now + 5 + length behind.now ≤ FRAME_BYTES }
    ensures { result.items ≡ before.now ++ decimal (down line) ++ behind.now }
{
    let mut text = ArrayVec::new();
    push_bytes(&mut text, before);
    push_number(&mut text, down(line));
    push_bytes(&mut text, behind);
    text
}

/// What closes the frame of a row, and its line of the file.
pub(crate) fn frame_close(size: Size) -> &'static [u8]
    ensures { result.now ≡ frame_close size }
{
    match size {
        Size::Single | Size::Double => b"</g>\n",
        Size::Top | Size::Bottom => b"</svg>\n",
    }
}
