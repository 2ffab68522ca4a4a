//! Lines and cells that are inserted and deleted.
ghost use Rattle.std.specs.Prelude.{◌≤◌};

use super::{lettered, marked, see, type_text};
use std::test::Fail;
use vt_screen::{Cell, Rendition, Screen, Size};

fn with_lines_inserted(line: u8, count: u16) -> Screen
    requires { 1 ≤ line }
{
    let mut screen = lettered(u16::from(line), 7);
    screen.insert_lines(count);
    screen
}

fn with_lines_deleted(line: u8, count: u16) -> Screen
    requires { 1 ≤ line }
{
    let mut screen = lettered(u16::from(line), 7);
    screen.delete_lines(count);
    screen
}

/// A line, how many lines, and what is shown where so many are inserted there, and deleted.
const EDITED_LINES: &[(u8, u16, &str, &str)] = &[
    (
        2,
        1,
        "1:a 3:b 4:d at 2 1 margins 2 3",
        "1:a 2:c 4:d at 2 1 margins 2 3",
    ),
    (
        2,
        2,
        "1:a 4:d at 2 1 margins 2 3",
        "1:a 4:d at 2 1 margins 2 3",
    ),
    (
        2,
        5,
        "1:a 4:d at 2 1 margins 2 3",
        "1:a 4:d at 2 1 margins 2 3",
    ),
    (
        3,
        1,
        "1:a 2:b 4:d at 3 1 margins 2 3",
        "1:a 2:b 4:d at 3 1 margins 2 3",
    ),
    (
        3,
        9999,
        "1:a 2:b 4:d at 3 1 margins 2 3",
        "1:a 2:b 4:d at 3 1 margins 2 3",
    ),
];

#[test]
fn inserts_and_deletes_lines(rt: HostRuntime) -> Result<(), Fail> {
    for (line, count, inserted, deleted) in EDITED_LINES {
        let line = (*line).max(1);
        see(&rt, &with_lines_inserted(line, *count), inserted)?;
        see(&rt, &with_lines_deleted(line, *count), deleted)?;
    }
    Ok(())
}

/// Lines inserted and deleted at a line with the wrap pending.
fn edited_outside(line: u8) -> Screen
    requires { 1 ≤ line }
{
    let mut screen = lettered(u16::from(line), 80);
    type_text(&mut screen, b"x");
    screen.insert_lines(1);
    screen.delete_lines(1);
    screen
}

/// A line outside the margins, and what is shown: the letters, the cursor and the wrap stay.
const OUTSIDE: &[(u8, &str)] = &[
    (1, "1:a {78}x 2:b 3:c 4:d at 1 80 wrap margins 2 3"),
    (4, "1:a 2:b 3:c 4:d {78}x at 4 80 wrap margins 2 3"),
    (24, "1:a 2:b 3:c 4:d 24: {79}x at 24 80 wrap margins 2 3"),
];

#[test]
fn leaves_lines_outside_the_margins(rt: HostRuntime) -> Result<(), Fail> {
    for (line, want) in OUTSIDE {
        see(&rt, &edited_outside((*line).max(1)), want)?;
    }
    Ok(())
}

#[test]
fn clears_the_wrap_inside_the_margins(rt: HostRuntime) -> Result<(), Fail> {
    let mut screen = lettered(2, 80);
    type_text(&mut screen, b"x");
    screen.insert_lines(1);
    see(&rt, &screen, "1:a 3:b {78}x 4:d at 2 1 margins 2 3")?;
    screen.place(3, 80, false);
    type_text(&mut screen, b"x");
    screen.delete_lines(1);
    see(&rt, &screen, "1:a 4:d at 3 1 margins 2 3")
}

/// The places of lines 2 to 6.
fn places(screen: &Screen) -> [u8; 5] {
    [
        screen.place_of(2),
        screen.place_of(3),
        screen.place_of(4),
        screen.place_of(5),
        screen.place_of(6),
    ]
}

#[test]
fn turns_the_names_of_lines(rt: HostRuntime) {
    let mut screen = Screen::reset();
    let _ = screen.set_margins(2, 5, false);
    screen.place(3, 1, false);
    screen.insert_lines(2);
    assert_eq!(rt; places(&screen), [1, 3, 4, 2, 5]);
    screen.delete_lines(1);
    assert_eq!(rt; places(&screen), [1, 4, 2, 3, 5]);
}

#[test]
fn sizes_travel_with_inserted_lines(rt: HostRuntime) -> Result<(), Fail> {
    let mut screen = Screen::reset();
    type_text(&mut screen, b"ab");
    screen.set_size(Size::Double);
    screen.insert_lines(1);
    see(&rt, &screen, "2(Double):ab at 1 1")?;
    screen.delete_lines(1);
    see(&rt, &screen, "1(Double):ab at 1 1")?;
    screen.delete_lines(1);
    see(&rt, &screen, "at 1 1")
}

#[test]
fn deletes_cells(rt: HostRuntime) -> Result<(), Fail> {
    let mut screen = Screen::reset();
    type_text(&mut screen, b"abcdef");
    screen.place(1, 2, false);
    screen.delete_cells(2);
    see(&rt, &screen, "1:adef at 1 2")?;
    screen.delete_cells(9999);
    see(&rt, &screen, "1:a at 1 2")
}

/// A bold cell.
fn bold(glyph: u8) -> Cell {
    let rendition = Rendition::new(true, false, false, false);
    Cell { glyph, rendition }
}

/// The rendition goes with its cell, and the cell that comes in has none.
#[test]
fn deletes_cells_with_their_renditions(rt: HostRuntime) {
    let mut screen = Screen::reset();
    type_text(&mut screen, b"a");
    screen.show(b'b', bold(b'b').rendition, true);
    screen.place(1, 80, false);
    screen.show(b'z', bold(b'z').rendition, false);
    screen.place(1, 1, false);
    screen.delete_cells(1);
    let cells = (screen.cell(1, 1), screen.cell(1, 79), screen.cell(1, 80));
    assert_eq!(rt; cells, (bold(b'b'), bold(b'z'), Cell::blank()));
}

#[test]
fn deletes_a_cell_and_keeps_the_wrap(rt: HostRuntime) -> Result<(), Fail> {
    let mut screen = Screen::reset();
    type_text(&mut screen, &[b'A'; 80]);
    screen.delete_cells(1);
    see(&rt, &screen, "1:A{79} at 1 80 wrap")
}

#[test]
fn shows_inserting(rt: HostRuntime) -> Result<(), Fail> {
    let mut screen = Screen::reset();
    type_text(&mut screen, b"abc");
    screen.place(1, 2, false);
    screen.show_inserting(b'X', Rendition::plain(), true);
    screen.show_inserting(b'Y', Rendition::plain(), true);
    screen.show(b'Z', Rendition::plain(), true);
    see(&rt, &screen, "1:aXYZc at 1 5")
}

/// The cell at the margin is lost.
#[test]
fn shows_inserting_in_a_full_line(rt: HostRuntime) -> Result<(), Fail> {
    let mut screen = Screen::reset();
    type_text(&mut screen, &[b'A'; 79]);
    type_text(&mut screen, b"B");
    screen.place(1, 1, false);
    screen.show_inserting(b'C', bold(b'C').rendition, true);
    see(&rt, &screen, "1:[B]C[]A{79} at 1 2")?;
    screen.place(1, 1, false);
    screen.show_inserting(b'D', Rendition::plain(), true);
    see(&rt, &screen, "1:D[B]C[]A{78} at 1 2")
}

#[test]
fn inserts_at_the_margin_and_after_the_wrap(rt: HostRuntime) -> Result<(), Fail> {
    let mut screen = Screen::reset();
    screen.place(2, 1, false);
    type_text(&mut screen, b"xy");
    screen.place(1, 1, false);
    type_text(&mut screen, &[b'A'; 79]);
    screen.show_inserting(b'B', Rendition::plain(), false);
    see(&rt, &screen, "1:A{79}B 2:xy at 1 80")?;
    screen.show_inserting(b'C', Rendition::plain(), true);
    see(&rt, &screen, "1:A{79}C 2:xy at 1 80 wrap")?;
    screen.show_inserting(b'D', Rendition::plain(), true);
    see(&rt, &screen, "1:A{79}C 2:Dxy at 2 2")
}

#[test]
fn deletes_in_a_wide_line(rt: HostRuntime) -> Result<(), Fail> {
    let mut screen = marked(2, 41);
    screen.delete_cells(1);
    see(&rt, &screen, "2: {64}xx {64}x wide at 2 41")
}

#[test]
fn inserts_in_a_wide_line(rt: HostRuntime) -> Result<(), Fail> {
    let mut screen = marked(2, 41);
    screen.show_inserting(b'y', Rendition::plain(), true);
    see(&rt, &screen, "2: {40}yx {24}xx wide at 2 42")
}

/// The margin of the double line is 66.
#[test]
fn edits_a_wide_double_line(rt: HostRuntime) -> Result<(), Fail> {
    let mut screen = marked(2, 41);
    screen.set_size(Size::Top);
    screen.show_inserting(b'y', Rendition::plain(), true);
    see(&rt, &screen, "2(Top): {40}yx wide at 2 42")?;
    screen.place(2, 1, false);
    screen.delete_cells(41);
    see(&rt, &screen, "2(Top):x wide at 2 1")?;
    screen.insert_lines(1);
    assert_eq!(rt; screen.right_margin(2), 132);
    see(&rt, &screen, "3(Top):x wide at 2 1")
}
