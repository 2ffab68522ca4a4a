//! The title of a page.

ghost use Rattle.std.specs.Prelude.{◌++◌};
ghost use Rattle.tape_core.specs.Devices.{Gave};
ghost use Rattle.screen_page.specs.Title.{title_character, title_text};

use std::io::Write;
use tape_core::Watched;
use tape_core::laws::gives_join;

/// Writes a title as it stands in HTML.
pub(crate) fn put_title<W: Write>(title: &[char], writer: &mut Watched<W>)
    ensures { Gave W.contents writer.old writer.new (title_text title.now) }
{
    gives_join::<W>();
    for character in title {
        put_character(*character, writer);
    }
}

/// Writes a character of a title.
fn put_character<W: Write>(character: char, writer: &mut Watched<W>)
    ensures { Gave W.contents writer.old writer.new (title_character character) }
{
    match character {
        '&' => writer.give(b"&amp;"),
        '<' => writer.give(b"&lt;"),
        '>' => writer.give(b"&gt;"),
        _ if character.is_control() => writer.give(b"?"),
        _ => writer.give(character.encode_utf8(&mut [0; 4]).as_bytes()),
    }
}
