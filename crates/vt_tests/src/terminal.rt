//! What bytes leave of a terminal from its reset, told as a text: in this order each part that isn't as in the initial state,
//! and the cursor always.
//!
//! | Told | Means |
//! |---|---|
//! | `7:ghi` | line 7 isn't blank and single: its cells from column 1 to the last that isn't blank |
//! | `7(Top):ghi` | the same of a line that isn't single width: `Double`, `Top` or `Bottom` |
//! | `<25>` | a glyph below 32, by its number |
//! | `A{80}` | 80 of a glyph, where there are more than eight |
//! | `[BUKR]` | from here on bold (B), underscore (U), blink (K), reverse (R); `[]` none of them |
//! | `wide` | 132 columns |
//! | `at 7 40 wrap` | the cursor's line and column, and that a wrap is pending |
//! | `margins 5 9` | the top and the bottom margin |
//! | `tabs 3 50` | the columns of all tab stops |
//! | `DECCKM no DECAWM` | modes by their names: those that are set, and DECAWM where it is reset |
//! | `G0 Uk G1 SpecialGraphics SO graphics` | the sets that are designated, that G1 is invoked, and that VT52 graphics is on |
//! | `L1 L3` | the LEDs that are on |
//! | `[BR]` | the current rendition |
//! | `saved(6 8 wrap DECOM [BR] G0 Uk SO)` | what DECSC has saved, in the same words |
//! | `pending` | a sequence that isn't finished |
//! | `sent E[0n from 2` | the list of reports with E for ESC, and the place in it where that isn't its end |
ghost use Rattle.std.specs.Prelude.{◌≤◌, ◌+◌};

use std::alloc::Global;
use std::fmt::Write;
use std::process::Abort;
use std::test::Fail;
use vt_parser::{Mode, ParserState};
use vt_screen::{Cell, Rendition, Row, Screen, Size};
use vt_term::{CharacterSet, Modes, OutOfMemory, Profile, Reports, Saved, Sets, Slot, Terminal};

pub(crate) mod changes;
mod editing;
mod nothing;
mod packed;
mod played;
mod recordings;
mod refused;
mod rows;
mod starts;
mod stream;
mod tables;
mod touched;
mod whole;
mod wraps;

// A terminal, and what it sent.
#[derive(Drop)]
struct Left {
    terminal: Terminal,
    reports: Reports,
}

impl Left {
    fn feed(&mut self, pieces: &[&[u8]]) -> Result<(), OutOfMemory> {
        for piece in pieces {
            self.terminal.feed(piece, &mut self.reports)?;
        }
        Ok(())
    }
}

fn reset_as(alloc: Global, profile: Profile) -> Left {
    Left {
        terminal: Terminal::reset_as(profile),
        reports: Reports::new(alloc),
    }
}

fn feed_reset(alloc: Global, bytes: &[u8]) -> Result<Left, OutOfMemory> {
    feed_reset_as(alloc, Profile::Vt100, &[bytes])
}

fn feed_reset_as(alloc: Global, profile: Profile, pieces: &[&[u8]]) -> Result<Left, OutOfMemory> {
    let mut left = reset_as(alloc, profile);
    left.feed(pieces)?;
    Ok(left)
}

// B, U, K and R stand for bold, underscore, blink and reverse.
fn write_rendition(text: &mut String, rendition: Rendition) -> Result<(), Fail> {
    text.push('[')?;
    for (is_on, letter) in [
        (rendition.bold(), 'B'),
        (rendition.underscore(), 'U'),
        (rendition.blink(), 'K'),
        (rendition.reverse(), 'R'),
    ] {
        if is_on {
            text.push(letter)?;
        }
    }
    text.push(']')?;
    Ok(())
}

fn is_blank(cell: Cell) -> bool {
    cell == Cell::blank()
}

fn write_glyph(text: &mut String, glyph: u8) -> Result<(), Fail> {
    if glyph < 32 {
        write!(text, "<{glyph}>")?;
    } else {
        text.push(char::from(glyph))?;
    }
    Ok(())
}

// A glyph below 32 by its number, and so many of one glyph, where there are more than eight, as `A{80}`.
fn write_glyphs(text: &mut String, glyph: u8, count: u8) -> Result<(), Fail> {
    if count > 8 {
        write_glyph(text, glyph)?;
        write!(text, "{{{count}}}")?;
        return Ok(());
    }
    for _ in 0..count {
        write_glyph(text, glyph)?;
    }
    Ok(())
}

// How many cells from a column on are as the one there.
fn cells_alike(screen: &Screen, line: u8, column: u8) -> u8
    requires low { 1 ≤ line }
    requires high { line ≤ 24 }
    requires column_low { 1 ≤ column }
    requires column_high { column ≤ 132 }
    ensures some { 1 ≤ result }
    ensures within { column + result ≤ 133 }
{
    let cell = screen.cell(line, column);
    for next in column + 1..133 {
        if screen.cell(line, next) != cell {
            return next - column;
        }
    }
    133 - column
}

// Cells up to the last that isn't blank.
fn write_cells(text: &mut String, screen: &Screen, line: u8) -> Result<(), Fail>
    requires low { 1 ≤ line }
    requires high { line ≤ 24 }
{
    let mut rendition = Rendition::plain();
    let mut gap = 0;
    let mut next = 1;
    for column in 1..133 {
        if column < next {
            continue;
        }
        let cell = screen.cell(line, column);
        let count = cells_alike(screen, line, column);
        next = column + count;
        if is_blank(cell) {
            gap = count;
            continue;
        }
        write_glyphs(text, b' ', gap)?;
        gap = 0;
        if cell.rendition != rendition {
            rendition = cell.rendition;
            write_rendition(text, rendition)?;
        }
        write_glyphs(text, cell.glyph, count)?;
    }
    Ok(())
}

// The size of a line where it isn't single, and its cells.
fn write_line(text: &mut String, screen: &Screen, line: u8) -> Result<(), Fail>
    requires low { 1 ≤ line }
    requires high { line ≤ 24 }
{
    let size = screen.size(line);
    if size != Size::Single {
        write!(text, "({size:?})")?;
    }
    text.push(':')?;
    write_cells(text, screen, line)?;
    text.push(' ')?;
    Ok(())
}

// The lines that aren't blank and single, each with its number.
fn write_lines(text: &mut String, screen: &Screen) -> Result<(), Fail> {
    for line in 1..25 {
        if *screen.row(line) == Row::blank() {
            continue;
        }
        write!(text, "{line}")?;
        write_line(text, screen, line)?;
    }
    Ok(())
}

// Modes that aren't as in the initial state, by their names.
fn write_modes(text: &mut String, modes: Modes) -> Result<(), Fail> {
    for (is_other, name) in [
        (modes.mode == Mode::Vt52, " VT52"),
        (modes.cursor_keys, " DECCKM"),
        (modes.smooth_scroll, " DECSCLM"),
        (modes.reverse_screen, " DECSCNM"),
        (modes.origin, " DECOM"),
        (!modes.autowrap, " no DECAWM"),
        (modes.auto_repeat, " DECARM"),
        (modes.interlace, " DECINLM"),
        (modes.newline, " LNM"),
        (modes.insert, " IRM"),
        (modes.application_keypad, " DECKPAM"),
    ] {
        if is_other {
            text.push_str(name)?;
        }
    }
    Ok(())
}

// G0 and G1 where they aren't ASCII, and SO where G1 is invoked.
fn write_designated(
    text: &mut String,
    g0: CharacterSet,
    g1: CharacterSet,
    invoked: Slot,
) -> Result<(), Fail> {
    if g0 != CharacterSet::Ascii {
        write!(text, " G0 {g0:?}")?;
    }
    if g1 != CharacterSet::Ascii {
        write!(text, " G1 {g1:?}")?;
    }
    if invoked == Slot::G1 {
        text.push_str(" SO")?;
    }
    Ok(())
}

// Sets that aren't as in the initial state.
fn write_sets(text: &mut String, sets: Sets) -> Result<(), Fail> {
    write_designated(text, sets.g0, sets.g1, sets.invoked)?;
    if sets.vt52_graphics {
        text.push_str(" graphics")?;
    }
    Ok(())
}

// Line and column, and the pending wrap.
fn write_place(text: &mut String, line: u8, column: u8, wrap: bool) -> Result<(), Fail> {
    write!(text, "{line} {column}")?;
    if wrap {
        text.push_str(" wrap")?;
    }
    Ok(())
}

// A rendition that isn't plain, after a space.
fn write_current(text: &mut String, rendition: Rendition) -> Result<(), Fail> {
    if rendition == Rendition::plain() {
        return Ok(());
    }
    text.push(' ')?;
    write_rendition(text, rendition)
}

// What was saved, part by part.
fn write_saved(text: &mut String, saved: Saved) -> Result<(), Fail> {
    text.push_str(" saved(")?;
    write_place(text, saved.line, saved.column, saved.wrap)?;
    text.push_str(if saved.origin { " DECOM" } else { "" })?;
    write_current(text, saved.rendition)?;
    write_designated(text, saved.g0, saved.g1, saved.invoked)?;
    text.push(')')?;
    Ok(())
}

// Whether the stops are at 9, 17 and so on to 129 alone.
fn has_first_tabs(screen: &Screen) -> bool {
    for column in 1..133 {
        let is_first = column % 8 == 1 && column > 1;
        if screen.tab(column) != is_first {
            return false;
        }
    }
    true
}

// All tab stops, where they aren't as in the initial state.
fn write_tabs(text: &mut String, screen: &Screen) -> Result<(), Fail> {
    if has_first_tabs(screen) {
        return Ok(());
    }
    text.push_str(" tabs")?;
    for column in 1..133 {
        if screen.tab(column) {
            write!(text, " {column}")?;
        }
    }
    Ok(())
}

fn write_leds(text: &mut String, leds: [bool; 4]) -> Result<(), Fail> {
    for (i, is_on) in leds.iter().enumerate() {
        if *is_on {
            write!(text, " L{}", i + 1)?;
        }
    }
    Ok(())
}

fn write_cursor(text: &mut String, screen: &Screen) -> Result<(), Fail> {
    let (line, column) = screen.cursor();
    text.push_str("at ")?;
    write_place(text, line, column, screen.wrap())
}

fn write_margins(text: &mut String, screen: &Screen) -> Result<(), Fail> {
    let (top, bottom) = screen.margins();
    if (top, bottom) != (1, 24) {
        write!(text, " margins {top} {bottom}")?;
    }
    Ok(())
}

// The list of reports with E for ESC, and its place where that isn't the end.
fn write_reports(text: &mut String, reports: &Reports) -> Result<(), Fail> {
    if reports.bytes().is_empty() {
        return Ok(());
    }
    text.push_str(" sent ")?;
    for byte in reports.bytes() {
        text.push(if *byte == 27 { 'E' } else { char::from(*byte) })?;
    }
    if reports.place() != reports.bytes().len() {
        write!(text, " from {}", reports.place())?;
    }
    Ok(())
}

// A part of a terminal and of what it sent.
#[derive(Clone, Copy, Debug, PartialEq, Eq)]
enum Part {
    Lines,
    Columns,
    Cursor,
    Margins,
    Tabs,
    Modes,
    Sets,
    Leds,
    Rendition,
    Saved,
    Pending,
    Reports,
}

const PARTS: [Part; 12] = [
    Part::Lines,
    Part::Columns,
    Part::Cursor,
    Part::Margins,
    Part::Tabs,
    Part::Modes,
    Part::Sets,
    Part::Leds,
    Part::Rendition,
    Part::Saved,
    Part::Pending,
    Part::Reports,
];

// A part of the screen.
fn write_picture_part(text: &mut String, screen: &Screen, part: Part) -> Result<(), Fail> {
    match part {
        Part::Lines => write_lines(text, screen),
        Part::Columns => {
            if screen.columns() == 132 {
                text.push_str("wide ")?;
            }
            Ok(())
        }
        Part::Cursor => write_cursor(text, screen),
        Part::Margins => write_margins(text, screen),
        Part::Tabs => write_tabs(text, screen),
        _ => Ok(()),
    }
}

// A part that is told in a word or two.
fn write_rest(text: &mut String, terminal: &Terminal, part: Part) -> Result<(), Fail> {
    match part {
        Part::Rendition => write_current(text, terminal.rendition()),
        Part::Saved => match terminal.saved() {
            Some(saved) => write_saved(text, saved),
            None => Ok(()),
        },
        Part::Pending if *terminal.parser_state() != ParserState::Ground => {
            text.push_str(" pending")?;
            Ok(())
        }
        _ => Ok(()),
    }
}

// A part, where it isn't as in the initial state.
fn write_part(text: &mut String, left: &Left, part: Part) -> Result<(), Fail> {
    let terminal = &left.terminal;
    match part {
        Part::Modes => write_modes(text, terminal.modes()),
        Part::Sets => write_sets(text, terminal.sets()),
        Part::Leds => write_leds(text, terminal.leds()),
        Part::Reports => write_reports(text, &left.reports),
        Part::Rendition | Part::Saved | Part::Pending => write_rest(text, terminal, part),
        _ => write_picture_part(text, terminal.screen(), part),
    }
}

// All parts, each where it isn't as in the initial state.
fn told(alloc: Global, left: &Left) -> Result<String, Fail> {
    let mut text = String::new(alloc);
    for part in PARTS {
        write_part(&mut text, left, part)?;
    }
    Ok(text)
}

// What is told of a terminal that the bytes were fed.
fn told_after(alloc: Global, profile: Profile, bytes: &[u8]) -> Result<String, Fail> {
    let left = feed_reset_as(alloc, profile, &[bytes])?;
    told(alloc, &left)
}

fn assert_leaves(
    rt: &(impl Abort + AllocGlobal),
    profile: Profile,
    bytes: &[u8],
    want: &str,
) -> Result<(), Fail> {
    let text = told_after(rt.alloc(), profile, bytes)?;
    assert_eq!(rt;
        text.as_str(),
        want,
        "at {} of a {profile:?}",
        bytes.escape_ascii()
    );
    Ok(())
}

// The bytes of each row, and what they leave from the reset, in both profiles.
fn all_leave(rt: &(impl Abort + AllocGlobal), rows: &[(&[u8], &str)]) -> Result<(), Fail> {
    for (bytes, want) in rows {
        assert_leaves(rt, Profile::Vt100, bytes, want)?;
        assert_leaves(rt, Profile::Vt102, bytes, want)?;
    }
    Ok(())
}

// Rows that differ: what the bytes leave of a VT100, and what of a VT102.
fn all_leave_by_profile(
    rt: &(impl Abort + AllocGlobal),
    rows: &[(&[u8], &str, &str)],
) -> Result<(), Fail> {
    for (bytes, of_vt100, of_vt102) in rows {
        assert_leaves(rt, Profile::Vt100, bytes, of_vt100)?;
        assert_leaves(rt, Profile::Vt102, bytes, of_vt102)?;
    }
    Ok(())
}

fn are_same_screens(one: &Screen, other: &Screen) -> bool {
    for line in 1..25 {
        if one.row(line) != other.row(line) {
            return false;
        }
    }
    for column in 1..133 {
        if one.tab(column) != other.tab(column) {
            return false;
        }
    }
    one.columns() == other.columns()
        && one.cursor() == other.cursor()
        && one.wrap() == other.wrap()
        && one.margins() == other.margins()
}

fn are_same_terminals(one: &Terminal, other: &Terminal) -> bool {
    are_same_screens(one.screen(), other.screen())
        && one.profile() == other.profile()
        && one.parser_state() == other.parser_state()
        && one.modes() == other.modes()
        && one.rendition() == other.rendition()
        && one.sets() == other.sets()
        && one.saved() == other.saved()
        && one.leds() == other.leds()
}

// Whether two tell the same in all parts, and sent the same.
fn are_same(one: &Left, other: &Left) -> bool {
    are_same_terminals(&one.terminal, &other.terminal)
        && one.reports.bytes() == other.reports.bytes()
        && one.reports.place() == other.reports.place()
}
