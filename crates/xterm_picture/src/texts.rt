//! Characters as they stand in XML, and numbers.

ghost use Rattle.std.specs.Prelude.{◌≡◌, decimal, encode_utf8};
ghost use Rattle.std.specs.List.{flat_map};
ghost use Rattle.tape_core.specs.Devices.{Gave};
ghost use Rattle.xterm_picture.specs.Texts.{character_text, is_barred, letter_text};

use itoa::Buffer;
use sheet::Cell;
use std::io::Write;
use tape_core::Watched;
use tape_core::laws::gives_join;

/// Writes a number in decimal.
pub(crate) fn put_number<W: Write>(number: usize, writer: &mut Watched<W>)
    ensures { Gave W.contents writer.old writer.new (decimal number) }
{
    writer.give(Buffer::new().format(number).as_bytes());
}

/// Writes the characters of cells as they stand in XML.
pub(crate) fn put_letters_of<W: Write>(cells: &[Cell], writer: &mut Watched<W>)
    ensures { Gave W.contents writer.old writer.new (flat_map letter_text cells.now) }
{
    gives_join::<W>();
    for cell in cells {
        put_letter(*cell, writer);
    }
}

/// Writes the character of a cell and its marks as they stand in XML; of a right half nothing.
fn put_letter<W: Write>(cell: Cell, writer: &mut Watched<W>)
    ensures { Gave W.contents writer.old writer.new (letter_text cell) }
{
    gives_join::<W>();
    if cell.is_covered() {
        return;
    }
    put_character(cell.character(), writer);
    for n in 0..cell.mark_count() {
        put_character(cell.mark(n), writer);
    }
}

/// Writes a character as it stands in XML.
#[tactic(auto, unfolding(crate::specs::Texts::character_text))]
fn put_character<W: Write>(character: char, writer: &mut Watched<W>)
    ensures { Gave W.contents writer.old writer.new (character_text character) }
{
    match character {
        '&' => writer.give(b"&amp;"),
        '<' => writer.give(b"&lt;"),
        '>' => writer.give(b"&gt;"),
        _ => put_plain(
            if is_barred(character) {
                '\u{fffd}'
            } else {
                character
            },
            writer,
        ),
    }
}

/// Whether no XML may have a character.
fn is_barred(character: char) -> bool
    ensures { result ≡ is_barred character }
{
    character == '\u{fffe}' || character == '\u{ffff}'
}

/// Writes a character as it is.
fn put_plain<W: Write>(character: char, writer: &mut Watched<W>)
    ensures { Gave W.contents writer.old writer.new (encode_utf8 character) }
{
    writer.give(character.encode_utf8(&mut [0; 4]).as_bytes());
}
