//! Bytes that are held back, so that many go out at once.
#![tactic(auto)]

ghost use Rattle.std.specs.Prelude.{◌≡◌, [], ◌∷◌, decimal};
ghost use Rattle.tape_core.specs.Devices.{Gave};
ghost use Rattle.held.specs.Held.{Wrote};

use arrayvec::ArrayVec;
use itoa::Buffer;
use std::io::Write;
use tape_core::Watched;
use tape_core::laws::gives_join;

/// How many bytes are held at most.
pub const HELD: usize = 1024;

/// Writes bytes behind those that are held.
#[inline]
pub fn put<W: Write>(bytes: &[u8], held: &mut ArrayVec<u8, HELD>, writer: &mut Watched<W>)
    ensures { Wrote W.contents writer.old held.old.items writer.new held.new.items bytes.now }
{
    if held.try_extend_from_slice(bytes).is_err() {
        put_out(bytes, held, writer);
    }
}

/// Writes a byte.
#[inline]
pub fn put_byte<W: Write>(byte: u8, held: &mut ArrayVec<u8, HELD>, writer: &mut Watched<W>)
    ensures { Wrote W.contents writer.old held.old.items writer.new held.new.items
        (byte ∷ []) }
{
    if held.try_push(byte).is_err() {
        put_out(&[byte], held, writer);
    }
}

/// Gives the writer what is held, and then bytes for which there was no room.
#[cold]
#[inline(never)]
fn put_out<W: Write>(bytes: &[u8], held: &mut ArrayVec<u8, HELD>, writer: &mut Watched<W>)
    ensures { Wrote W.contents writer.old held.old.items writer.new held.new.items bytes.now }
{
    gives_join::<W>();
    let_out(held, writer);
    writer.give(bytes);
}

/// Gives the writer what is held.
pub fn let_out<W: Write>(held: &mut ArrayVec<u8, HELD>, writer: &mut Watched<W>)
    ensures gave { Gave W.contents writer.old writer.new held.old.items }
    ensures none { held.new.items ≡ [] }
{
    writer.give(held.as_slice());
    held.clear();
}

/// Writes a number. Most have one or two digits.
#[inline]
#[tactic(auto, using(std::proofs::lemmas::Fmt::decimal_digit, itoa::proofs::Decimal::decimal_two))]
pub fn put_number<W: Write>(number: usize, held: &mut ArrayVec<u8, HELD>, writer: &mut Watched<W>)
    ensures { Wrote W.contents writer.old held.old.items writer.new held.new.items
        (decimal number) }
{
    if number < 10 {
        put_byte(b'0' + number as u8, held, writer);
    } else if number < 100 {
        let number = number as u8;
        put(&[b'0' + number / 10, b'0' + number % 10], held, writer);
    } else {
        put(Buffer::new().format(number).as_bytes(), held, writer);
    }
}
