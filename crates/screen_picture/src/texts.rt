//! Texts that are put together in an array.

ghost use Rattle.std.specs.Prelude.{◌≡◌, ◌≤◌, ◌++◌, ◌+◌, ◌*◌, decimal, length};
ghost use Rattle.screen_picture.specs.Letters.{escaped, escaped_byte};

use arrayvec::ArrayVec;
use screen_rows::push_bytes;

/// Puts bytes behind a text as they stand in XML.
pub(crate) fn push_escaped<const N: usize>(text: &mut ArrayVec<u8, N>, bytes: &[u8])
    requires room { length text.old.items + 5 * length bytes.now ≤ N }
    ensures text { text.new.items ≡ text.old.items ++ escaped bytes.now }
    ensures short { length text.new.items ≤ length text.old.items + 5 * length bytes.now }
{
    for byte in bytes {
        push_escaped_byte(text, *byte);
    }
}

/// Puts a byte behind a text as it stands in XML.
fn push_escaped_byte<const N: usize>(text: &mut ArrayVec<u8, N>, byte: u8)
    requires room { length text.old.items + 5 ≤ N }
    ensures text { text.new.items ≡ text.old.items ++ escaped_byte byte }
    ensures short { length text.new.items ≤ length text.old.items + 5 }
{
    match byte {
        b'&' => push_bytes(text, b"&amp;"),
        b'<' => push_bytes(text, b"&lt;"),
        b'>' => push_bytes(text, b"&gt;"),
        _ => text.push(byte),
    }
}
