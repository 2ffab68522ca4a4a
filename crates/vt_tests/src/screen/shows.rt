//! Characters, the pending wrap and renditions.
ghost use Rattle.std.specs.Prelude.{◌<◌};

use super::{see, type_text};
use crate::terminal::changes::told_screen;
use std::process::Abort;
use std::test::Fail;
use vt_screen::{Cell, Rendition, Screen, Size};

#[test]
fn starts_blank(rt: HostRuntime) -> Result<(), Fail> {
    let screen = Screen::reset();
    assert_eq!(rt; (screen.columns(), screen.margins()), (80, (1, 24)));
    see(&rt, &screen, "at 1 1")
}

#[test]
fn starts_with_single_lines_in_order(rt: HostRuntime) {
    let screen = Screen::reset();
    for line in 1..25 {
        let told = (
            screen.size(line),
            screen.right_margin(line),
            screen.place_of(line),
        );
        assert_eq!(rt; told, (Size::Single, 80, line - 1));
    }
}

const FIRST_STOPS: [u8; 16] = [
    9, 17, 25, 33, 41, 49, 57, 65, 73, 81, 89, 97, 105, 113, 121, 129,
];

#[test]
fn starts_with_a_stop_at_every_eighth_column(rt: HostRuntime) {
    let screen = Screen::reset();
    for col in 1..133 {
        assert_eq!(rt; screen.tab(col), FIRST_STOPS.contains(&col), "column {col}");
    }
}

/// The attributes that a rendition of these has: bold, underscore, blink and reverse.
fn kept(bold: bool, underscore: bool, blink: bool, reverse: bool) -> (bool, bool, bool, bool) {
    let rendition = Rendition::new(bold, underscore, blink, reverse);
    (
        rendition.bold(),
        rendition.underscore(),
        rendition.blink(),
        rendition.reverse(),
    )
}

#[test]
fn keeps_four_attributes(rt: HostRuntime) {
    for bits in 0..16u8 {
        let bold = bits % 2 == 1;
        let underscore = bits / 2 % 2 == 1;
        let blink = bits / 4 % 2 == 1;
        let reverse = bits / 8 % 2 == 1;
        let told = kept(bold, underscore, blink, reverse);
        assert_eq!(rt; told, (bold, underscore, blink, reverse));
    }
    assert_eq!(rt;
        Rendition::plain(),
        Rendition::new(false, false, false, false)
    );
}

#[test]
fn wraps_with_the_next_character(rt: HostRuntime) -> Result<(), Fail> {
    let mut screen = Screen::reset();
    type_text(&mut screen, &[b'A'; 80]);
    see(&rt, &screen, "1:A{80} at 1 80 wrap")?;
    type_text(&mut screen, b"B");
    see(&rt, &screen, "1:A{80} 2:B at 2 2")
}

#[test]
fn steps_back_from_a_pending_wrap(rt: HostRuntime) -> Result<(), Fail> {
    let mut screen = Screen::reset();
    type_text(&mut screen, &[b'A'; 80]);
    screen.step_left(1);
    type_text(&mut screen, b"B");
    see(&rt, &screen, "1:A{78}BA at 1 80")
}

#[test]
fn replaces_at_the_margin_without_autowrap(rt: HostRuntime) -> Result<(), Fail> {
    let mut screen = Screen::reset();
    screen.show_run(&[b'A'; 200], Rendition::plain(), false);
    screen.show(b'B', Rendition::plain(), false);
    see(&rt, &screen, "1:A{79}B at 1 80")
}

#[test]
fn writes_the_rendition(rt: HostRuntime) {
    let mut screen = Screen::reset();
    let underscored = Rendition::new(false, true, false, false);
    screen.show(b'X', underscored, true);
    assert_eq!(rt; screen.cell(1, 1).rendition, underscored);
    assert_eq!(rt; screen.cell(1, 2), Cell::blank());
}

#[test]
fn clears_the_wrap_alone(rt: HostRuntime) -> Result<(), Fail> {
    let mut screen = Screen::reset();
    type_text(&mut screen, &[b'A'; 80]);
    screen.clear_wrap();
    see(&rt, &screen, "1:A{80} at 1 80")
}

/// A screen that was shown the letter A 2000 times, by itself.
fn shown_one_by_one() -> Screen {
    let mut screen = Screen::reset();
    for _ in 0..2000 {
        screen.show(b'A', Rendition::plain(), true);
    }
    screen
}

/// A screen that was shown the letter A 2000 times, in runs of so many.
fn shown_in_pieces(piece: usize) -> Screen
    requires some { 0 < piece }
{
    let mut screen = Screen::reset();
    let glyphs = [b'A'; 2000];
    let mut rest = &glyphs[..];
    while !rest.is_empty() {
        let taken = rest.len().min(piece);
        screen.show_run(&rest[..taken], Rendition::plain(), true);
        rest = &rest[taken..];
    }
    screen
}

// Runs of the length leave what letters by themselves leave.
fn see_pieces(rt: &(impl Abort + AllocGlobal), piece: usize) -> Result<(), Fail>
    requires { 0 < piece }
{
    let text = told_screen(rt.alloc(), &shown_in_pieces(piece))?;
    assert_eq!(rt;
        text.as_str(),
        "1-24:A{80} at 24 80 wrap",
        "in runs of {piece}"
    );
    Ok(())
}

#[test]
fn runs_are_shows(rt: HostRuntime) -> Result<(), Fail> {
    see(&rt, &shown_one_by_one(), "1-24:A{80} at 24 80 wrap")?;
    for piece in [2000usize, 1, 31, 32, 33] {
        see_pieces(&rt, piece.max(1))?;
    }
    Ok(())
}

#[test]
fn copies(rt: HostRuntime) -> Result<(), Fail> {
    let mut screen = Screen::reset();
    screen.set_columns(true, false);
    type_text(&mut screen, b"abc");
    screen.set_size(Size::Double);
    let _ = screen.set_margins(2, 9, false);
    screen.place(9, 4, false);
    screen.index();
    screen.clear_tabs();
    let mut copy = Screen::reset();
    copy.copy_from(&screen);
    assert_eq!(rt; copy.place_of(9), screen.place_of(9));
    see(&rt, &copy, "1(Double):abc wide at 9 4 margins 2 9 tabs")
}
