//! Tab stops.
use super::{see, type_text};
use std::test::Fail;
use vt_screen::{Screen, Size};

/// Tabs, and tells the cursor.
fn tabbed(screen: &mut Screen) -> (u8, u8) {
    screen.tab_forward();
    screen.cursor()
}

#[test]
fn tabs_to_stops(rt: HostRuntime) -> Result<(), Fail> {
    let mut screen = Screen::reset();
    assert_eq!(rt; tabbed(&mut screen), (1, 9));
    assert_eq!(rt; tabbed(&mut screen), (1, 17));
    screen.clear_tabs();
    assert_eq!(rt; tabbed(&mut screen), (1, 80));
    type_text(&mut screen, b"x");
    see(&rt, &screen, "1: {79}x at 1 80 wrap tabs")?;
    screen.tab_forward();
    see(&rt, &screen, "1: {79}x at 1 80 tabs")
}

#[test]
fn sets_and_clears_stops(rt: HostRuntime) {
    let mut screen = Screen::reset();
    screen.place(1, 5, false);
    screen.set_tab();
    screen.to_left();
    assert_eq!(rt; tabbed(&mut screen), (1, 5));
    screen.clear_tab();
    screen.to_left();
    assert_eq!(rt; tabbed(&mut screen), (1, 9));
}

/// A stop right of the margin of a double line is not reached.
#[test]
fn stops_at_the_margin_of_a_double_line(rt: HostRuntime) {
    let mut screen = Screen::reset();
    screen.set_size(Size::Double);
    screen.place(1, 34, false);
    assert_eq!(rt; tabbed(&mut screen), (1, 40));
    assert_eq!(rt; tabbed(&mut screen), (1, 40));
}

#[test]
fn tabs_outlive_a_change_of_columns(rt: HostRuntime) -> Result<(), Fail> {
    let mut screen = Screen::reset();
    screen.clear_tabs();
    screen.place(1, 3, false);
    screen.set_tab();
    screen.set_columns(true, false);
    screen.place(1, 130, false);
    screen.tab_forward();
    see(&rt, &screen, "wide at 1 132 tabs 3")?;
    screen.set_tab();
    screen.set_columns(false, false);
    screen.set_columns(true, false);
    see(&rt, &screen, "wide at 1 1 tabs 3 132")
}
