//! Numbers as an entry tells them.

ghost use Rattle.std.specs.Prelude.{◌≡◌};
ghost use Rattle.screen_page.specs.EntryText.{comma_number};
ghost use Rattle.held.specs.Held.{Wrote};

use arrayvec::ArrayVec;
use held::{HELD, put, put_byte, put_number};
use std::io::Write;
use tape_core::Watched;

/// Writes a comma and a number. Most have at most three digits.
#[tactic(auto, using(std::proofs::lemmas::Fmt::decimal_digit, itoa::proofs::Decimal::decimal_two, crate::proofs::DecimalLemmas::decimal_three))]
pub fn put_comma_number<W: Write>(
    number: usize,
    held: &mut ArrayVec<u8, HELD>,
    writer: &mut Watched<W>,
)
    ensures { Wrote W.contents writer.old held.old.items writer.new held.new.items
        (comma_number number) }
{
    if number < 10 {
        put(&[b',', b'0' + number as u8], held, writer);
    } else if number < 100 {
        let number = number as u8;
        put(
            &[b',', b'0' + number / 10, b'0' + number % 10],
            held,
            writer,
        );
    } else if number < 1000 {
        let (first, rest) = ((number / 100) as u8, (number % 100) as u8);
        let digits = [b',', b'0' + first, b'0' + rest / 10, b'0' + rest % 10];
        put(&digits, held, writer);
    } else {
        put_byte(b',', held, writer);
        put_number(number, held, writer);
    }
}
