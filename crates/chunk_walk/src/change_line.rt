//! The line that tells which lines of a screen a chunk changes, on whichever terminal.

ghost use Rattle.std.specs.Prelude.{◌≡◌, ◌+◌, ◌-◌, ◌<◌, ◌≤◌, ◌++◌, ◌∷◌, drop, length, take, true};
ghost use Rattle.std.specs.Fmt.{decimal};
ghost use Rattle.std.specs.List.{flat_map};
ghost use Rattle.tape_core.specs.Devices.{Gave};
ghost use Rattle.tape_core.specs.Written.{seconds_form};
ghost use Rattle.chunk_walk.specs.ChangeLine.{change_line, spaced_number};
ghost use Rattle.chunk_walk.specs.Runs.{run_text};
ghost use Rattle.held.specs.Held.{Wrote};

use arrayvec::ArrayVec;
use held::{HELD, let_out, put, put_byte};
use itoa::{Buffer, Integer, write_digits};
use std::io::Write;
use tape_core::laws::gives_join;
use tape_core::{Watched, seconds_text};

/// How many numbers are put together at a time.
const TOGETHER: usize = 8;

/// How many numbers are compared at a time.
const BLOCK: usize = 16;

/// How many bytes these take at most, each of five digits.
const ROOM: usize = 48;

/// The numbers from 0 to 99, a space before each.
static SMALL: [u8; 290] =
    *b" 0 1 2 3 4 5 6 7 8 9 10 11 12 13 14 15 16 17 18 19 20 21 22 23 24 25 26 27 28 29 \
      30 31 32 33 34 35 36 37 38 39 40 41 42 43 44 45 46 47 48 49 50 51 52 53 54 55 56 57 58 59 60 61 62 63 64 \
      65 66 67 68 69 70 71 72 73 74 75 76 77 78 79 80 81 82 83 84 85 86 87 88 89 90 91 92 93 94 95 96 97 98 99";

/// The number of a line, of at most five digits.
pub trait LineNumber: Integer {
    /// The number.
    fn number(self) -> u64
        ensures text { Self.text self ≡ decimal result }
        ensures small { result ≤ u16.MAX };
}

impl LineNumber for u8 {
    fn number(self) -> u64 {
        u64::from(self)
    }
}

impl LineNumber for u16 {
    fn number(self) -> u64 {
        u64::from(self)
    }
}

/// Writes the line of a chunk by the numbers of the lines that it changes, or nothing where it changes none.
pub fn put_change<N: LineNumber, W: Write>(
    index: usize,
    due: u64,
    lines: &[N],
    writer: &mut Watched<W>,
)
    ensures { Gave W.contents writer.old writer.new (change_line N.text index due lines.now) }
{
    gives_join::<W>();
    if lines.is_empty() {
        return;
    }
    let mut held = ArrayVec::new();
    put_place(index, due, &mut held, writer);
    put_numbers(lines, &mut held, writer);
    put_byte(b'\n', &mut held, writer);
    let_out(&mut held, writer);
}

/// Writes a chunk's place and when it is due.
fn put_place<W: Write>(
    index: usize,
    due: u64,
    held: &mut ArrayVec<u8, HELD>,
    writer: &mut Watched<W>,
)
    ensures { Wrote W.contents writer.old held.old.items writer.new held.new.items
        (decimal index ++ 32 ∷ seconds_form due) }
{
    put(Buffer::new().format(index).as_bytes(), held, writer);
    put_byte(b' ', held, writer);
    put(seconds_text(due).as_bytes(), held, writer);
}

/// Writes numbers, a space before each.
fn put_numbers<N: LineNumber, W: Write>(
    numbers: &[N],
    held: &mut ArrayVec<u8, HELD>,
    writer: &mut Watched<W>,
)
    ensures { Wrote W.contents writer.old held.old.items writer.new held.new.items
        (flat_map (spaced_number N.text) numbers.now) }
{
    let mut at = 0;
    while at < numbers.len() {
        at += put_first(&numbers[at..], held, writer);
    }
}

/// Writes the first of the numbers, a space before each, and tells how many. Those that follow each other by one, as the
/// lines of a screen that scrolls do, are a part of one text.
fn put_first<N: LineNumber, W: Write>(
    numbers: &[N],
    held: &mut ArrayVec<u8, HELD>,
    writer: &mut Watched<W>,
) -> usize
    requires { 0 < length numbers.now }
    ensures some { 0 < result }
    ensures within { result ≤ length numbers.now }
    ensures wrote { Wrote W.contents writer.old held.old.items writer.new held.new.items
        (flat_map (spaced_number N.text) (take result numbers.now)) }
{
    let first = numbers[0].number();
    let run = run_of(numbers, first);
    if run >= TOGETHER {
        put(small_text(first as usize, run), held, writer);
        return run;
    }
    let count = TOGETHER.min(numbers.len());
    put_some(&numbers[..count], held, writer);
    count
}

/// How many of the first numbers follow each other by one, from this one on, and are none above 99.
fn run_of<N: LineNumber>(numbers: &[N], first: u64) -> usize
    ensures within { result ≤ length numbers.now }
    ensures small { 0 < result → first + result ≤ 100 }
    ensures run { flat_map (spaced_number N.text) (take result numbers.now) ≡ run_text first result }
{
    if first >= 100 {
        return 0;
    }
    let most = numbers.len().min(100 - first as usize);
    let mut count = run_blocks(numbers, first as u16, most);
    while count < most && numbers[count].number() == first + count as u64 {
        count += 1;
    }
    count
}

/// How many of so many first numbers follow each other by one, from this one on, by whole blocks.
#[inline(always)]
fn run_blocks<N: LineNumber>(numbers: &[N], first: u16, most: usize) -> usize
    requires within { most ≤ length numbers.now }
    requires small { first + most ≤ 100 }
    ensures within { result ≤ most }
    ensures run { flat_map (spaced_number N.text) (take result numbers.now) ≡ run_text first result }
{
    let mut count = 0;
    while most - count >= BLOCK && is_run(&numbers[count..count + BLOCK], first + count as u16) {
        count += BLOCK;
    }
    count
}

/// Whether numbers follow each other by one, from this one on. It looks at all of them with no way out, since that is done
/// many at a time.
#[inline(always)]
fn is_run<N: LineNumber>(numbers: &[N], first: u16) -> bool
    requires { first + length numbers.now ≤ 100 }
    ensures { result ≡ true → flat_map (spaced_number N.text) numbers.now ≡ run_text first (length numbers.now) }
{
    let mut broken = false;
    for i in 0..numbers.len() {
        broken |= numbers[i].number() as u16 != first + i as u16;
    }
    !broken
}

/// The text of so many numbers from one on, a space before each, none above 99.
fn small_text(first: usize, count: usize) -> &'static [u8]
    requires { first + count ≤ 100 }
    ensures { result.now ≡ run_text first count }
{
    part(&SMALL, small_place(first), small_place(first + count))
}

/// The part of a text from one place to another.
fn part(text: &[u8], from: usize, to: usize) -> &[u8]
    requires apart { from ≤ to }
    requires within { to ≤ length text.now }
    ensures { result.now ≡ take (to - from) (drop from text.now) }
{
    &text[from..to]
}

/// Where a number begins in the text of all that aren't above 99.
fn small_place(number: usize) -> usize
    requires { number ≤ 100 }
    ensures { result ≡ length (run_text 0 number) }
{
    if number < 10 {
        2 * number
    } else {
        3 * number - 10
    }
}

/// Writes some numbers, a space before each, which are put together from the last digit on.
fn put_some<N: LineNumber, W: Write>(
    numbers: &[N],
    held: &mut ArrayVec<u8, HELD>,
    writer: &mut Watched<W>,
)
    requires { length numbers.now ≤ TOGETHER }
    ensures { Wrote W.contents writer.old held.old.items writer.new held.new.items
        (flat_map (spaced_number N.text) numbers.now) }
{
    let mut text = [0; ROOM];
    let start = write_numbers(numbers, &mut text);
    put(&text[start..], held, writer);
}

/// Writes some numbers, a space before each, so that they end with the text, and returns where they start.
fn write_numbers<N: LineNumber>(numbers: &[N], text: &mut [u8; ROOM]) -> usize
    requires { length numbers.now ≤ TOGETHER }
    ensures within { result ≤ ROOM }
    ensures written { drop result text.new ≡ flat_map (spaced_number N.text) numbers.now }
{
    let mut start = ROOM;
    let mut left = numbers.len();
    while left > 0 {
        left -= 1;
        start = write_digits(numbers[left].number(), text, start) - 1;
        text[start] = b' ';
    }
    start
}
