//! Lines that scroll, and what travels with them.
use super::{lettered, next_line, see, type_text};
use std::test::Fail;
use vt_screen::{Screen, Size};

#[test]
fn scrolls_at_the_last_line(rt: HostRuntime) -> Result<(), Fail> {
    let mut screen = Screen::reset();
    screen.place(24, 1, false);
    type_text(&mut screen, b"x");
    next_line(&mut screen);
    see(&rt, &screen, "23:x at 24 1")
}

#[test]
fn stays_outside_the_region(rt: HostRuntime) -> Result<(), Fail> {
    let mut screen = Screen::reset();
    let _ = screen.set_margins(2, 3, false);
    screen.reverse_index();
    type_text(&mut screen, b"x");
    see(&rt, &screen, "1:x at 1 2 margins 2 3")?;
    screen.place(24, 1, false);
    screen.index();
    see(&rt, &screen, "1:x at 24 1 margins 2 3")
}

#[test]
fn wraps_at_line_24_outside_the_region(rt: HostRuntime) -> Result<(), Fail> {
    let mut screen = Screen::reset();
    let _ = screen.set_margins(2, 3, false);
    screen.place(24, 80, false);
    type_text(&mut screen, b"xy");
    see(&rt, &screen, "24:y {78}x at 24 2 margins 2 3")
}

#[test]
fn turns_the_names_in_the_region(rt: HostRuntime) -> Result<(), Fail> {
    let mut screen = lettered(3, 1);
    screen.index();
    let places = [
        screen.place_of(1),
        screen.place_of(2),
        screen.place_of(3),
        screen.place_of(4),
    ];
    assert_eq!(rt; places, [0, 2, 1, 3]);
    see(&rt, &screen, "1:a 2:c 4:d at 3 1 margins 2 3")
}

#[test]
fn lines_have_the_cells_of_their_places(rt: HostRuntime) {
    let mut screen = lettered(3, 1);
    screen.index();
    for line in 1..5 {
        let cell = screen.place_cell(screen.place_of(line), 1);
        assert_eq!(rt; cell, screen.cell(line, 1), "line {line}");
    }
}

#[test]
fn turns_them_back(rt: HostRuntime) -> Result<(), Fail> {
    let mut screen = lettered(3, 1);
    screen.index();
    screen.place(2, 1, false);
    screen.reverse_index();
    assert_eq!(rt; (screen.place_of(2), screen.place_of(3)), (1, 2));
    see(&rt, &screen, "1:a 3:c 4:d at 2 1 margins 2 3")
}

#[test]
fn scrolls_a_thousand_times(rt: HostRuntime) -> Result<(), Fail> {
    let mut screen = Screen::reset();
    screen.align();
    let _ = screen.set_margins(2, 3, false);
    screen.place(3, 1, false);
    for _ in 0..1000 {
        screen.index();
    }
    see(&rt, &screen, "1:E{80} 4-24:E{80} at 3 1 margins 2 3")?;
    screen.place(2, 1, false);
    for _ in 0..1000 {
        screen.reverse_index();
    }
    see(&rt, &screen, "1:E{80} 4-24:E{80} at 2 1 margins 2 3")
}

#[test]
fn sizes_travel_with_lines(rt: HostRuntime) -> Result<(), Fail> {
    let mut screen = Screen::reset();
    screen.place(24, 1, false);
    screen.set_size(Size::Bottom);
    screen.index();
    see(&rt, &screen, "23(Bottom): at 24 1")?;
    screen.home(false);
    screen.reverse_index();
    see(&rt, &screen, "24(Bottom): at 1 1")
}
