//! How the lines of find are written.

ghost use Rattle.std.specs.Prelude.{
  ◌≡◌,
  ◌≢◌,
  ◌≤◌,
  ◌<◌,
  ◌+◌,
  ◌++◌,
  ◌∷◌,
  [],
  All,
  encode_utf8,
  length,
  nat_eq,
  true,
  false,
};
ghost use Rattle.std.specs.Cmp.Lexicographic.{pointwise};
ghost use Rattle.std.specs.List.{flat_map};
ghost use Rattle.tape_core.specs.Devices.{Gave};
ghost use Rattle.screen_print.specs.FindLines.{
  count_left,
  found_line,
  found_rows,
  heading,
  is_less,
  left_of,
  less_line,
  less_lines,
};
ghost use Rattle.screen_rows.specs.Glyphs.{character};
ghost use Rattle.screen_print.specs.Places.{IsPlace};
ghost use Rattle.screen_rows.specs.RowText.{characters};

use crate::standing::{Place, found_rows};
use crate::still::Still;
use itoa::Buffer;
use screen_rows::{cells_to_margin, character, printed_row};
use std::io::Write;
use tape_core::laws::gives_join;
use tape_core::{Watched, seconds_text};
use vt_screen::Cell;

/// A chunk's place, when it is due, and how long the text is that is looked for.
#[derive(Drop)]
pub(crate) struct Chunk {
    pub(crate) index: usize,
    pub(crate) due: u64,
    pub(crate) len: usize,
}

/// Writes a find line.
pub(crate) fn put_found<W: Write>(
    sign: u8,
    chunk: &Chunk,
    still: &Still,
    place: Place,
    writer: &mut Watched<W>,
)
    requires place { IsPlace still.now place }
    ensures { Gave W.contents writer.old writer.new
        (found_line sign chunk.now.index chunk.now.due chunk.now.len still.now place) }
{
    gives_join::<W>();
    put_heading(sign, chunk, place, writer);
    put_rows(still, place, chunk.len, writer);
}

/// Writes the rows of a found text of so many characters, and LF. Where it stands in one row that is the row
/// as it is printed.
fn put_rows<W: Write>(still: &Still, place: Place, len: usize, writer: &mut Watched<W>)
    requires place { IsPlace still.now place }
    ensures { Gave W.contents writer.old writer.new
        (flat_map encode_utf8 (found_rows len still.now place) ++ 10 ∷ []) }
{
    still.sound();
    let row = still.row(place.line);
    let columns = cells_to_margin(still.is_wide(), row).len();
    let least = len as u128 + u128::from(place.column) - 1;
    if least <= columns as u128 {
        let text = printed_row(still.is_wide(), row);
        writer.give(text.as_str().as_bytes());
    } else {
        put_joined_rows(still, place, len, writer);
    }
}

/// The same by joining the rows. Its variables are large, so it stands apart.
#[cold]
#[inline(never)]
fn put_joined_rows<W: Write>(still: &Still, place: Place, len: usize, writer: &mut Watched<W>)
    requires place { IsPlace still.now place }
    ensures { Gave W.contents writer.old writer.new
        (flat_map encode_utf8 (found_rows len still.now place) ++ 10 ∷ []) }
{
    gives_join::<W>();
    let rows = found_rows(still, place, len);
    put_chars(rows.as_slice(), writer);
    writer.give(b"\n");
}

/// Writes what stands before the rows: the sign, the chunk's place, when it is due, and the place.
fn put_heading<W: Write>(sign: u8, chunk: &Chunk, place: Place, writer: &mut Watched<W>)
    ensures { Gave W.contents writer.old writer.new
        (heading sign chunk.now.index chunk.now.due place) }
{
    let mut index = Buffer::new();
    let mut line = Buffer::new();
    let mut column = Buffer::new();
    writer.give_all(&[
        &[sign, b' '],
        index.format(chunk.index).as_bytes(),
        b" ",
        seconds_text(chunk.due).as_bytes(),
        b" ",
        line.format(place.line).as_bytes(),
        b" ",
        column.format(place.column).as_bytes(),
        b" ",
    ]);
}

/// Writes characters in UTF-8.
fn put_chars<W: Write>(chars: &[char], writer: &mut Watched<W>)
    ensures { Gave W.contents writer.old writer.new (flat_map encode_utf8 chars.now) }
{
    gives_join::<W>();
    for character in chars {
        put_char(*character, writer);
    }
}

/// Writes a character in UTF-8.
fn put_char<W: Write>(character: char, writer: &mut Watched<W>)
    ensures { Gave W.contents writer.old writer.new (encode_utf8 character) }
{
    let mut bytes = [0; 4];
    writer.give(character.encode_utf8(&mut bytes).as_bytes());
}
