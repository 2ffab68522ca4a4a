//! Line sizes, 132 columns, and the pattern of letters E.
ghost use Rattle.std.specs.Prelude.{◌≤◌};

use super::{marked, see, type_text};
use std::process::Abort;
use std::test::Fail;
use vt_screen::{Rendition, Screen, Size};

#[test]
fn halves_a_line(rt: HostRuntime) -> Result<(), Fail> {
    let mut screen = Screen::reset();
    type_text(&mut screen, &[b'A'; 50]);
    screen.set_size(Size::Double);
    assert_eq!(rt; screen.right_margin(1), 40);
    see(&rt, &screen, "1(Double):A{40} at 1 40")?;
    screen.set_size(Size::Single);
    assert_eq!(rt; screen.right_margin(1), 80);
    see(&rt, &screen, "1:A{40} at 1 40")
}

#[test]
fn widens(rt: HostRuntime) -> Result<(), Fail> {
    let mut screen = Screen::reset();
    type_text(&mut screen, b"ab");
    let _ = screen.set_margins(3, 7, false);
    screen.set_columns(true, true);
    see(&rt, &screen, "wide at 1 1")
}

#[test]
fn wraps_a_wide_line(rt: HostRuntime) -> Result<(), Fail> {
    let mut screen = Screen::reset();
    screen.set_columns(true, true);
    screen.place(1, 132, false);
    type_text(&mut screen, b"AB");
    screen.set_size(Size::Double);
    assert_eq!(rt; screen.right_margin(2), 66);
    see(&rt, &screen, "1: {131}A 2(Double):B wide at 2 2")
}

#[test]
fn aligns_132_columns(rt: HostRuntime) -> Result<(), Fail> {
    let mut screen = marked(3, 67);
    screen.set_size(Size::Double);
    screen.align();
    for line in 1..25 {
        assert_eq!(rt; screen.right_margin(line), 132, "line {line}");
    }
    see(&rt, &screen, "1-24:E{132} wide at 3 66")
}

/// A double size, and what is shown of a marked line 2 of it: its marks in the left half alone.
const HALVED: &[(Size, &str)] = &[
    (Size::Double, "2(Double): {40}x {24}x wide at 2 66"),
    (Size::Top, "2(Top): {40}x {24}x wide at 2 66"),
    (Size::Bottom, "2(Bottom): {40}x {24}x wide at 2 66"),
];

// Between double sizes and back nothing is cut, and nothing comes back.
fn halves(
    rt: &(impl Abort + AllocGlobal),
    screen: &mut Screen,
    size: Size,
    want: &str,
) -> Result<(), Fail> {
    screen.set_size(size);
    assert_eq!(rt; screen.right_margin(2), 66);
    see(rt, screen, want)?;
    screen.set_size(Size::Top);
    see(rt, screen, "2(Top): {40}x {24}x wide at 2 66")?;
    screen.set_size(Size::Single);
    assert_eq!(rt; screen.right_margin(2), 132);
    see(rt, screen, "2: {40}x {24}x wide at 2 66")
}

#[test]
fn halves_a_wide_line(rt: HostRuntime) -> Result<(), Fail> {
    for (size, want) in HALVED {
        halves(&rt, &mut marked(2, 132), *size, want)?;
    }
    Ok(())
}

#[test]
fn keeps_the_cursor_in_the_left_half(rt: HostRuntime) {
    let mut screen = marked(2, 41);
    screen.set_size(Size::Double);
    assert_eq!(rt; screen.cursor(), (2, 41));
}

#[test]
fn the_narrow_half_is_40(rt: HostRuntime) -> Result<(), Fail> {
    let mut screen = Screen::reset();
    screen.place(1, 40, false);
    type_text(&mut screen, b"xx");
    screen.set_size(Size::Double);
    see(&rt, &screen, "1(Double): {39}x at 1 40")
}

/// A wide screen whose line 5 is marked, and a part of the line erased from a column.
fn erased_line(part: u8, col: u8) -> Screen
    requires part { part ≤ 2 }
    requires col { 1 ≤ col }
{
    let mut screen = marked(5, col);
    screen.erase_line(part);
    screen
}

/// A part, the column it is erased from, and what is left.
const LINE_PARTS: &[(u8, u8, &str)] = &[
    (0, 67, "5: {40}x {24}x wide at 5 67"),
    (0, 132, "5: {40}x {24}xx wide at 5 132"),
    (0, 68, "5: {40}x {24}xx wide at 5 68"),
    (1, 66, "5: {66}x {64}x wide at 5 66"),
    (1, 131, "5: {131}x wide at 5 131"),
    (1, 132, "wide at 5 132"),
    (2, 66, "wide at 5 66"),
];

#[test]
fn erases_in_a_wide_line(rt: HostRuntime) -> Result<(), Fail> {
    for (part, col, want) in LINE_PARTS {
        see(&rt, &erased_line((*part).min(2), (*col).max(1)), want)?;
    }
    Ok(())
}

/// A wide screen with letters at the ends of lines 4 and 6 and marks between them, and a part erased from column 67.
fn erased_display(part: u8) -> Screen
    requires part { part ≤ 2 }
{
    let mut screen = marked(5, 1);
    screen.place(4, 132, false);
    screen.show(b'a', Rendition::plain(), false);
    screen.place(6, 132, false);
    screen.show(b'b', Rendition::plain(), false);
    screen.place(5, 67, false);
    screen.erase_display(part);
    screen
}

/// A part, and what is left.
const DISPLAY_PARTS: &[(u8, &str)] = &[
    (0, "4: {131}a 5: {40}x {24}x wide at 5 67"),
    (1, "5: {131}x 6: {131}b wide at 5 67"),
    (2, "wide at 5 67"),
];

#[test]
fn erases_in_a_wide_display(rt: HostRuntime) -> Result<(), Fail> {
    for (part, want) in DISPLAY_PARTS {
        see(&rt, &erased_display((*part).min(2)), want)?;
    }
    Ok(())
}

/// A double line ends at 66: from its start to there it is erased completely.
#[test]
fn erases_a_wide_double_line(rt: HostRuntime) -> Result<(), Fail> {
    let mut screen = marked(5, 1);
    screen.set_size(Size::Double);
    screen.place(5, 65, false);
    screen.erase_display(1);
    see(&rt, &screen, "5(Double): {65}x wide at 5 65")?;
    screen.place(5, 66, false);
    screen.erase_display(1);
    assert_eq!(rt; screen.right_margin(5), 132);
    see(&rt, &screen, "wide at 5 66")
}

#[test]
fn aligns(rt: HostRuntime) -> Result<(), Fail> {
    let mut screen = Screen::reset();
    screen.place(3, 3, false);
    screen.set_size(Size::Top);
    screen.align();
    see(&rt, &screen, "1-24:E{80} at 3 3")
}
