//! Letters that are shown a line's part at once, told by hand on a screen of 6 columns and 2 lines.

use crate::told::{reset_as, write_cursor, write_lines};
use sheet::{Colour, Paper, Pen};
use std::alloc::Global;
use std::process::Abort;
use std::test::Fail;
use xterm_screen::Screen;

// How letters are shown: with autowrap, without it, or with it and inserted.
#[derive(Clone, Copy, Debug, PartialEq, Eq)]
enum Mode {
    Wraps,
    Stays,
    Inserts,
}

// What is fed before, the letters, how many of them are shown, and what is left.
type Row = (&'static str, &'static [char], usize, &'static str);

const WRAPPING: &[Row] = &[
    ("", &['é', 'x'], 2, "1:éx at 1 3"),
    // A half of a wide character that is written over leaves the other one blank.
    ("日a\x1b[1;1H", &['é'], 1, "1:é a at 1 2"),
    ("日a\x1b[1;2H", &['é'], 1, "1: éa at 1 3"),
    ("日本a\x1b[1;2H", &['é', 'ü'], 2, "1: éü a at 1 4"),
    ("日本a\x1b[1;1H", &['é', 'ü'], 2, "1:éü本a at 1 3"),
    ("abc日\x1b[1;4H", &['é'], 1, "1:abcé at 1 5"),
    // Up to the last column, and no more.
    ("abc", &['é', 'ü'], 2, "1:abcéü at 1 6"),
    ("abcd", &['é', 'ü'], 2, "1:abcdéü at 1 6 wrap"),
    ("abcd", &['é', 'ü', 'ö'], 2, "1:abcdéü at 1 6 wrap"),
    ("\x1b[6G", &['é', 'ü'], 1, "1:     é at 1 6 wrap"),
    // A pending wrap comes first, and scrolls at the bottom line.
    ("abcdef", &['é', 'ü'], 2, "1:abcdef 2:éü at 2 3"),
    ("ab\r\ncdefgh", &['é', 'ü'], 2, "1:cdefgh 2:éü at 2 3"),
    (
        "ab\r\ncdefgh",
        &['é', 'ü', 'ö', 'ß', 'ç', 'ñ', 'å'],
        6,
        "1:cdefgh 2:éüößçñ at 2 6 wrap",
    ),
];

const STAYING: &[Row] = &[
    ("abc", &['é', 'ü'], 2, "1:abcéü at 1 6"),
    ("abcd", &['é', 'ü'], 2, "1:abcdéü at 1 6"),
    ("abcd", &['é', 'ü', 'ö'], 2, "1:abcdéü at 1 6"),
    ("\x1b[6G", &['é', 'ü'], 1, "1:     é at 1 6"),
];

// One alone.
const INSERTING: &[Row] = &[
    ("abcd\x1b[1;2H", &['é', 'ü'], 1, "1:aébcd at 1 3"),
    ("abcdef\x1b[1;2H", &['é'], 1, "1:aébcde at 1 3"),
    ("abcdef", &['é', 'ü'], 1, "1:abcdef 2:é at 2 2"),
];

// What is cut, and what scrolls in, is blank on the ground of the letters.
const ON_BLUE: &[Row] = &[
    ("日a\x1b[1;2H", &['é'], 1, "1:[g4] é[]a at 1 3"),
    ("日a\x1b[1;1H", &['é'], 1, "1:[g4]é []a at 1 2"),
    (
        "ab\r\ncdefgh",
        &['é', 'ü'],
        2,
        "1:cdefgh 2:[g4]éü     at 2 3",
    ),
];

// A screen as bytes leave it.
fn screen_behind(alloc: Global, bytes: &[u8]) -> Result<Screen, Fail> {
    let mut left = reset_as(alloc, (6, 2))?;
    left.feed(&[bytes])?;
    let fed = left.terminal.screen();
    let mut screen = Screen::new(alloc, 6, 2)?;
    if screen.columns() != fed.columns() || screen.lines() != fed.lines() {
        return Err(Fail::new("another size"));
    }
    screen.copy_from(fed);
    Ok(screen)
}

fn assert_shows(
    rt: &(impl Abort + AllocGlobal),
    row: Row,
    pen: Pen,
    mode: Mode,
) -> Result<(), Fail> {
    let (start, letters, count, want) = row;
    let mut screen = screen_behind(rt.alloc(), start.as_bytes())?;
    if letters.is_empty() {
        return Err(Fail::new("no letters"));
    }
    let shown = screen.show_letters(letters, pen, mode != Mode::Stays, mode == Mode::Inserts);
    let mut text = String::new(rt.alloc());
    write_lines(&mut text, &screen)?;
    write_cursor(&mut text, &screen)?;
    let what = start.as_bytes();
    assert_eq!(rt; text.as_str(), want, "behind {}", what.escape_ascii());
    assert!(rt;
        shown == count,
        "{shown} of {count} behind {}",
        what.escape_ascii()
    );
    Ok(())
}

fn all_show(
    rt: &(impl Abort + AllocGlobal),
    rows: &[Row],
    pen: Pen,
    mode: Mode,
) -> Result<(), Fail> {
    for row in rows {
        assert_shows(rt, *row, pen, mode)?;
    }
    Ok(())
}

#[test]
fn letters_wrap(rt: HostRuntime) -> Result<(), Fail> {
    all_show(&rt, WRAPPING, Pen::plain(), Mode::Wraps)
}

#[test]
fn or_stay(rt: HostRuntime) -> Result<(), Fail> {
    all_show(&rt, STAYING, Pen::plain(), Mode::Stays)
}

#[test]
fn or_are_inserted(rt: HostRuntime) -> Result<(), Fail> {
    all_show(&rt, INSERTING, Pen::plain(), Mode::Inserts)
}

#[test]
fn grounds_are_kept(rt: HostRuntime) -> Result<(), Fail> {
    let blue = Pen::plain_on(Paper::of(Colour::Palette(4)));
    all_show(&rt, ON_BLUE, blue, Mode::Wraps)
}
