//! Characters as they stand in a string of JSON.

ghost use Rattle.std.specs.Prelude.{◌≡◌, ◌≤◌, ◌+◌, ◌++◌, encode_utf8, length};
ghost use Rattle.screen_rows.specs.Glyphs.{character};
ghost use Rattle.screen_cast.specs.Json.{json};

use crate::runs::RUNS_BYTES;
use arrayvec::ArrayVec;
use screen_rows::{character, push_bytes};

/// The character of a glyph. Only two are escaped, and none is a control character.
pub(crate) fn push_glyph(text: &mut ArrayVec<u8, RUNS_BYTES>, glyph: u8)
    requires room { length text.old.items + 3 ≤ RUNS_BYTES }
    ensures text { text.new.items ≡ text.old.items ++ json (encode_utf8 (character glyph)) }
    ensures short { length text.new.items ≤ length text.old.items + 3 }
{
    match glyph {
        b'"' => push_bytes(text, b"\\\""),
        b'\\' => push_bytes(text, b"\\\\"),
        b' '..=b'~' => text.push(glyph),
        _ => push_bytes(text, character(glyph).encode_utf8(&mut [0; 4]).as_bytes()),
    }
}
