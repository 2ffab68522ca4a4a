//! The cursor of a picture.

ghost use Rattle.std.specs.Prelude.{◌≡◌, ◌≤◌};
ghost use Rattle.tape_core.specs.Devices.{Gave};
ghost use Rattle.screen_picture.specs.Cursor.{cursor_text, rings_text};

use crate::frames::{frame_close, frame_open};
use crate::letters::back_of;
use arrayvec::ArrayVec;
use screen_rows::{push_bytes, push_number};
use std::io::Write;
use tape_core::Watched;
use vt_screen::Screen;
use vt_screen::limits::WIDE_COLUMNS;

/// How many bytes the cursor takes at most.
const RINGS_BYTES: usize = 120;

/// Writes the cursor.
#[tactic(auto, unfolding(crate::specs::Cursor::cursor_text))]
pub(crate) fn put_cursor<W: Write>(screen: &Screen, reversed: bool, writer: &mut Watched<W>)
    ensures { Gave W.contents writer.old writer.new (cursor_text reversed screen.now.picture.rows
        screen.now.picture.line screen.now.picture.column) }
{
    let (line, column) = screen.cursor();
    let size = screen.row(line).size;
    writer.give_all(&[
        frame_open(size, line).as_slice(),
        rings_text(reversed, column).as_slice(),
        frame_close(size),
    ]);
}

/// The two rings of the cursor at a column.
fn rings_text(reversed: bool, column: u8) -> ArrayVec<u8, RINGS_BYTES>
    requires low { 1 ≤ column }
    requires high { column ≤ WIDE_COLUMNS }
    ensures { result.items ≡ rings_text reversed column }
{
    let left = 10 * u16::from(column - 1);
    let mut text = ArrayVec::new();
    push_bytes(&mut text, b"<path class=\"");
    text.push(back_of(reversed));
    push_bytes(&mut text, b"\" d=\"M");
    push_number(&mut text, left);
    push_bytes(&mut text, b" 0h10v20h-10zm1 1v18h8v-18z\"/><path d=\"M");
    push_number(&mut text, left + 1);
    push_bytes(&mut text, b" 1h8v18h-8zm1 1v16h6v-16z\"/>");
    text
}
