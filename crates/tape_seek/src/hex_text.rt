//! Bytes as hexadecimal text.
ghost use Rattle.std.specs.Prelude.{◌≡◌, ◌≤◌, ◌*◌, false, length};
ghost use Rattle.hex.specs.Hex.{encode_lower};
ghost use Rattle.tape_core.specs.Devices.{Gave, Puts, has_failed};

use std::io::Write;
use tape_core::laws::gives_join;
use tape_core::{Fault, Watched};

/// How many bytes are turned into digits at once.
const PIECE: usize = 512;

/// Writes bytes in lower-case hexadecimal, and doesn't flush. Takes no memory. After a write fault a beginning of
/// the text has gone out.
pub fn put_hex<W: Write>(bytes: &[u8], writer: &mut Watched<W>) -> Result<(), Fault>
    requires { has_failed writer.old ≡ false }
    ensures { Puts W.contents writer.old writer.new (encode_lower bytes.now) result }
{
    give_hex(bytes, writer);
    writer.ask()
}

/// Writes bytes in lower-case hexadecimal, and doesn't flush. Takes no memory.
pub(crate) fn give_hex<W: Write>(bytes: &[u8], writer: &mut Watched<W>)
    ensures { Gave W.contents writer.old writer.new (encode_lower bytes.now) }
{
    gives_join::<W>();
    for piece in bytes.chunks(PIECE) {
        put_piece(piece, writer);
    }
}

/// Writes a piece of at most `PIECE` bytes in lower-case hexadecimal.
fn put_piece<W: Write>(piece: &[u8], writer: &mut Watched<W>)
    requires { length piece.now ≤ PIECE }
    ensures { Gave W.contents writer.old writer.new (encode_lower piece.now) }
{
    let mut digits = [0u8; 2 * PIECE];
    let digits = &mut digits[..2 * piece.len()];
    let Ok(()) = hex::encode_to_slice(piece, digits) else {
        unreachable!();
    };
    writer.give(digits);
}
