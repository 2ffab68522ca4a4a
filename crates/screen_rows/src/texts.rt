//! Texts that are put together in an array.

ghost use Rattle.std.specs.Prelude.{◌≡◌, ◌≤◌, ◌++◌, ◌+◌, decimal, length};
ghost use Rattle.screen_rows.specs.Texts.{text_where};

use arrayvec::ArrayVec;
use itoa::Buffer;

/// Puts bytes behind a text.
pub fn push_bytes<const N: usize>(text: &mut ArrayVec<u8, N>, bytes: &[u8])
    requires { length text.old.items + length bytes.now ≤ N }
    ensures { text.new.items ≡ text.old.items ++ bytes.now }
{
    let _ = text.try_extend_from_slice(bytes);
}

/// Puts bytes behind a text, or none.
pub fn push_bytes_where<const N: usize>(text: &mut ArrayVec<u8, N>, holds: bool, bytes: &[u8])
    requires { length text.old.items + length bytes.now ≤ N }
    ensures { text.new.items ≡ text.old.items ++ text_where holds bytes.now }
{
    if holds {
        push_bytes(text, bytes);
    }
}

/// Puts a number in decimal behind a text.
pub fn push_number<const N: usize>(text: &mut ArrayVec<u8, N>, number: u16)
    requires room { length text.old.items + 5 ≤ N }
    ensures text { text.new.items ≡ text.old.items ++ decimal number }
    ensures short { length text.new.items ≤ length text.old.items + 5 }
{
    push_bytes(text, Buffer::new().format(number).as_bytes());
}
