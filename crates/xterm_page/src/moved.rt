//! Lines that were other lines before a chunk.

ghost use Rattle.std.specs.Prelude.{◌≡◌, ◌<◌, ◌≤◌, ◌++◌, length, true};
ghost use Rattle.screen_page.specs.EntryText.{comma_number};
ghost use Rattle.held.specs.Held.{Wrote};
ghost use Rattle.xterm_page.specs.Parts.{come_text};

use crate::kept::Block;
use arrayvec::ArrayVec;
use held::{HELD, put};
use screen_page::put_comma_number;
use std::io::Write;
use tape_core::Watched;

/// Writes lines that came up together, and for each the line that was its row. Most come up by one.
pub(crate) fn put_block<W: Write>(
    block: Block,
    held: &mut ArrayVec<u8, HELD>,
    writer: &mut Watched<W>,
)
    requires low { 1 ≤ block.from }
    requires apart { block.from ≤ block.end }
    ensures { Wrote W.contents writer.old held.old.items writer.new held.new.items
        (come_text block.from block.end block.shift) }
{
    let Block { from, end, shift } = block;
    if shift == 1 && end <= 99 {
        put(with_next(from, end), held, writer);
        return;
    }
    put_come(from, end, shift, held, writer);
}

/// The lines from one to before another, each with the one behind it.
fn with_next(from: u16, end: u16) -> &'static [u8]
    requires low { 1 ≤ from }
    requires apart { from ≤ end }
    requires high { end ≤ 99 }
    ensures { result.now ≡ come_text from end 1 }
{
    &all_with_next()[place_of(from)..place_of(end)]
}

/// The lines from 1 to 98.
fn all_with_next() -> &'static [u8]
    ensures { result.now ≡ come_text 1 99 1 }
{
    b",1,2,2,3,3,4,4,5,5,6,6,7,7,8,8,9,9,10,10,11,11,12,12,13,13,14,14,15,15,16,16,17,17,18,18,19,19,20\
        ,20,21,21,22,22,23,23,24,24,25,25,26,26,27,27,28,28,29,29,30,30,31,31,32,32,33,33,34,34,35,35,36\
        ,36,37,37,38,38,39,39,40,40,41,41,42,42,43,43,44,44,45,45,46,46,47,47,48,48,49,49,50,50,51,51,52\
        ,52,53,53,54,54,55,55,56,56,57,57,58,58,59,59,60,60,61,61,62,62,63,63,64,64,65,65,66,66,67,67,68\
        ,68,69,69,70,70,71,71,72,72,73,73,74,74,75,75,76,76,77,77,78,78,79,79,80,80,81,81,82,82,83,83,84\
        ,84,85,85,86,86,87,87,88,88,89,89,90,90,91,91,92,92,93,93,94,94,95,95,96,96,97,97,98,98,99"
}

/// How many bytes stand before a line there.
fn place_of(line: u16) -> usize
    requires low { 1 ≤ line }
    requires high { line ≤ 99 }
    ensures { result ≡ length (come_text 1 line 1) }
{
    let line = line as usize;
    if line < 10 {
        4 * line - 4
    } else {
        6 * line - 23
    }
}

/// Writes the lines from one to before another, which came up by so many, and for each the line that was its row.
fn put_come<W: Write>(
    from: u16,
    end: u16,
    shift: u16,
    held: &mut ArrayVec<u8, HELD>,
    writer: &mut Watched<W>,
)
    requires { from ≤ end }
    ensures { Wrote W.contents writer.old held.old.items writer.new held.new.items
        (come_text from end shift) }
{
    for line in from..end {
        let line = line as usize;
        put_moved(line, line + shift as usize, held, writer);
    }
}

/// Writes a line, and the line that was its row. Most numbers have two digits.
pub(crate) fn put_moved<W: Write>(
    line: usize,
    other: usize,
    held: &mut ArrayVec<u8, HELD>,
    writer: &mut Watched<W>,
)
    ensures { Wrote W.contents writer.old held.old.items writer.new held.new.items
        (comma_number line ++ comma_number other) }
{
    if have_two_digits(line, other) {
        let (line, other) = (line as u8, other as u8);
        let (tens, ones) = (b'0' + line / 10, b'0' + line % 10);
        let (other_tens, other_ones) = (b'0' + other / 10, b'0' + other % 10);
        put(
            &[b',', tens, ones, b',', other_tens, other_ones],
            held,
            writer,
        );
    } else {
        put_comma_number(line, held, writer);
        put_comma_number(other, held, writer);
    }
}

/// Whether two numbers have two digits.
fn have_two_digits(one: usize, other: usize) -> bool
    ensures low { result ≡ true → 10 ≤ one }
    ensures high { result ≡ true → one < 100 }
    ensures other_low { result ≡ true → 10 ≤ other }
    ensures other_high { result ≡ true → other < 100 }
{
    10 <= one && one < 100 && 10 <= other && other < 100
}
