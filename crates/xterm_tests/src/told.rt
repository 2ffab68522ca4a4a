//! What bytes leave of a terminal from its reset, told as a text: in this order each part that isn't as in the initial
//! state, and the cursor always.
//!
//! | Told | Means |
//! |---|---|
//! | `2:ghi` | line 2 isn't blank on the default ground: its cells up to the last that isn't |
//! | `日`, `é` | a character of width 2 in two cells; one with its marks |
//! | `A{80}` | 80 of a cell, where there are more than eight |
//! | `[BFIUKRCX]` | from here on bold, faint, italic, underscore, blink (K), reverse, concealed, crossed out (X) |
//! | `[Bi1g1.2.3]` | and ink 1 of the palette on a ground of red, green and blue; `[]` none of all these |
//! | `alternate` | the alternate sheet is shown |
//! | `at 2 12 wrap` | the cursor's line and column, and that a wrap is pending |
//! | `margins 2 5` | the top and the bottom margin |
//! | `tabs 3 12` | the columns of all tab stops |
//! | `DECCKM no DECAWM` | modes by their names: those that are set, and DECAWM and DECTCEM where they are reset |
//! | `G0 Uk G1 SpecialGraphics SO` | the sets that are designated, and that G1 is invoked |
//! | `[Bi1]` | the current rendition |
//! | `last x` | the character that REP repeats |
//! | `main saved(6 8 wrap [B] G0 Uk SO)` | what DECSC has saved of the main sheet, in these words; `alternate saved` alike |
//! | `title` | a title is read |
//! | `pending` | a sequence or character that isn't finished |
//! | `sent E[0n from 2` | the list of reports with E for ESC, and the place in it where that isn't its end |
ghost use Rattle.std.specs.Prelude.{◌≤◌};

use characters::Begun;
use sheet::{Cell, Colour, Kind, Rendition};
use std::alloc::Global;
use std::fmt::Write;
use std::process::Abort;
use std::test::Fail;
use vt_parser::ParserState;
use xterm_screen::Screen;
use xterm_term::{CharacterSet, Modes, OutOfMemory, Reports, Saved, Sets, Size, Slot, Terminal};

// A terminal, and what it sent.
#[derive(Drop)]
pub(crate) struct Left {
    pub(crate) terminal: Terminal,
    pub(crate) reports: Reports,
}

impl Left {
    pub(crate) fn feed(&mut self, pieces: &[&[u8]]) -> Result<(), OutOfMemory> {
        for piece in pieces {
            self.terminal.feed(piece, &mut self.reports)?;
        }
        Ok(())
    }
}

// Columns and lines of most tests.
pub(crate) const SIZE: (u16, u16) = (12, 6);

impl Left {
    // Becomes a copy of a terminal of the same size. The list is left.
    pub(crate) fn copy_from(&mut self, other: &Terminal) -> Result<(), Fail> {
        let own = self.terminal.screen();
        let size = (own.columns(), own.lines());
        if size.0 != other.screen().columns() || size.1 != other.screen().lines() {
            return Err(Fail::new("another size"));
        }
        self.terminal.copy_from(other);
        Ok(())
    }
}

pub(crate) fn reset_as(alloc: Global, size: (u16, u16)) -> Result<Left, Fail> {
    let size = Size::new(size.0, size.1).ok_or_else(|| Fail::new("no size"))?;
    Ok(Left {
        terminal: Terminal::reset(alloc, size)?,
        reports: Reports::new(alloc),
    })
}

pub(crate) fn feed_reset(alloc: Global, pieces: &[&[u8]]) -> Result<Left, Fail> {
    let mut left = reset_as(alloc, SIZE)?;
    left.feed(pieces)?;
    Ok(left)
}

fn write_colour(text: &mut String, letter: char, colour: Colour) -> Result<(), Fail> {
    match colour {
        Colour::Default => {}
        Colour::Palette(number) => write!(text, "{letter}{number}")?,
        Colour::Direct(red, green, blue) => write!(text, "{letter}{red}.{green}.{blue}")?,
    }
    Ok(())
}

fn write_rendition(text: &mut String, rendition: Rendition) -> Result<(), Fail> {
    text.push('[')?;
    for (is_on, letter) in [
        (rendition.bold, 'B'),
        (rendition.faint, 'F'),
        (rendition.italic, 'I'),
        (rendition.underscore, 'U'),
        (rendition.blink, 'K'),
        (rendition.reverse, 'R'),
        (rendition.concealed, 'C'),
        (rendition.crossed_out, 'X'),
    ] {
        if is_on {
            text.push(letter)?;
        }
    }
    write_colour(text, 'i', rendition.ink)?;
    write_colour(text, 'g', rendition.paper)?;
    text.push(']')?;
    Ok(())
}

fn plain() -> Rendition {
    Rendition::plain_on(Colour::Default)
}

// A character and its marks.
fn write_cell(text: &mut String, cell: Cell) -> Result<(), Fail> {
    text.push(cell.character())?;
    for n in 0..cell.mark_count() {
        text.push(cell.mark(n))?;
    }
    Ok(())
}

// So many of a cell, where there are more than eight as `A{80}`.
fn write_cells(text: &mut String, cell: Cell, count: usize) -> Result<(), Fail> {
    if count > 8 {
        write_cell(text, cell)?;
        write!(text, "{{{count}}}")?;
        return Ok(());
    }
    for _ in 0..count {
        write_cell(text, cell)?;
    }
    Ok(())
}

// Cells alike that follow one another, and the rendition last written.
#[derive(Drop)]
struct Run {
    cell: Cell,
    count: usize,
    rendition: Rendition,
}

impl Run {
    // Another cell ends the run, and is the first of the next one.
    fn end(&mut self, text: &mut String, next: Cell) -> Result<(), Fail> {
        if self.cell.rendition() != self.rendition && self.count > 0 {
            self.rendition = self.cell.rendition();
            write_rendition(text, self.rendition)?;
        }
        write_cells(text, self.cell, self.count)?;
        self.cell = next;
        self.count = 1;
        Ok(())
    }
}

// Cells up to the last that isn't blank on the default ground.
pub(crate) fn write_row(text: &mut String, row: &[Cell]) -> Result<(), Fail> {
    let blank = Cell::empty();
    let mut run = Run {
        cell: blank,
        count: 0,
        rendition: plain(),
    };
    for cell in row {
        if cell.kind() == Kind::Covered {
            continue;
        }
        if *cell == run.cell {
            run.count = run.count.saturating_add(1);
        } else {
            run.end(text, *cell)?;
        }
    }
    if run.cell != blank {
        run.end(text, blank)?;
    }
    Ok(())
}

fn is_blank(row: &[Cell]) -> bool {
    row.iter().all(|cell| *cell == Cell::empty())
}

// The lines that aren't blank, each with its number.
pub(crate) fn write_lines(text: &mut String, screen: &Screen) -> Result<(), Fail> {
    for line in 1..screen.lines() + 1 {
        if is_blank(screen.row(line)) {
            continue;
        }
        write!(text, "{line}:")?;
        write_row(text, screen.row(line))?;
        text.push(' ')?;
    }
    Ok(())
}

// The modes by their names, each with whether it is set at first.
pub(crate) fn named_modes(modes: Modes) -> [(bool, &'static str, bool); 8] {
    [
        (modes.cursor_keys, "DECCKM", false),
        (modes.reverse_screen, "DECSCNM", false),
        (modes.origin, "DECOM", false),
        (modes.autowrap, "DECAWM", true),
        (modes.newline, "LNM", false),
        (modes.insert, "IRM", false),
        (modes.application_keypad, "DECKPAM", false),
        (modes.cursor_shown, "DECTCEM", true),
    ]
}

// Modes that aren't as in the initial state.
fn write_modes(text: &mut String, modes: Modes) -> Result<(), Fail> {
    for (is_set, name, at_first) in named_modes(modes) {
        if is_set != at_first {
            text.push_str(if is_set { " " } else { " no " })?;
            text.push_str(name)?;
        }
    }
    Ok(())
}

// G0 and G1 where they aren't ASCII, and SO where G1 is invoked.
fn write_designated(
    text: &mut String,
    g0: CharacterSet,
    g1: CharacterSet,
    invoked: Slot,
) -> Result<(), Fail> {
    if g0 != CharacterSet::Ascii {
        write!(text, " G0 {g0:?}")?;
    }
    if g1 != CharacterSet::Ascii {
        write!(text, " G1 {g1:?}")?;
    }
    if invoked == Slot::G1 {
        text.push_str(" SO")?;
    }
    Ok(())
}

fn write_sets(text: &mut String, sets: Sets) -> Result<(), Fail> {
    write_designated(text, sets.g0, sets.g1, sets.invoked)
}

// Line and column, and the pending wrap.
fn write_place(text: &mut String, line: u16, column: u16, wrap: bool) -> Result<(), Fail> {
    write!(text, "{line} {column}")?;
    if wrap {
        text.push_str(" wrap")?;
    }
    Ok(())
}

// A rendition that isn't plain, after a space.
fn write_current(text: &mut String, rendition: Rendition) -> Result<(), Fail> {
    if rendition == plain() {
        return Ok(());
    }
    text.push(' ')?;
    write_rendition(text, rendition)
}

// What was saved of a sheet, part by part.
fn write_saved(text: &mut String, sheet: &str, saved: Option<Saved>) -> Result<(), Fail> {
    let Some(saved) = saved else {
        return Ok(());
    };
    write!(text, " {sheet} saved(")?;
    write_place(text, saved.line, saved.column, saved.wrap)?;
    text.push_str(if saved.origin { " DECOM" } else { "" })?;
    write_current(text, saved.rendition)?;
    write_designated(text, saved.g0, saved.g1, saved.invoked)?;
    text.push(')')?;
    Ok(())
}

// Whether the stops are at 9, 17 and so on alone.
fn has_first_tabs(screen: &Screen) -> bool {
    for column in 1..screen.columns() + 1 {
        let is_first = column % 8 == 1 && column > 1;
        if screen.tab(column) != is_first {
            return false;
        }
    }
    true
}

// All tab stops, where they aren't as in the initial state.
fn write_tabs(text: &mut String, screen: &Screen) -> Result<(), Fail> {
    if has_first_tabs(screen) {
        return Ok(());
    }
    text.push_str(" tabs")?;
    for column in 1..screen.columns() + 1 {
        if screen.tab(column) {
            write!(text, " {column}")?;
        }
    }
    Ok(())
}

pub(crate) fn write_cursor(text: &mut String, screen: &Screen) -> Result<(), Fail> {
    let (line, column) = screen.cursor();
    text.push_str("at ")?;
    write_place(text, line, column, screen.wrap())
}

fn write_margins(text: &mut String, screen: &Screen) -> Result<(), Fail> {
    let (top, bottom) = screen.margins();
    if (top, bottom) != (1, screen.lines()) {
        write!(text, " margins {top} {bottom}")?;
    }
    Ok(())
}

// The list of reports with E for ESC, and its place where that isn't the end.
fn write_reports(text: &mut String, reports: &Reports) -> Result<(), Fail> {
    if reports.bytes().is_empty() {
        return Ok(());
    }
    text.push_str(" sent ")?;
    for byte in reports.bytes() {
        text.push(if *byte == 27 { 'E' } else { char::from(*byte) })?;
    }
    if reports.place() != reports.bytes().len() {
        write!(text, " from {}", reports.place())?;
    }
    Ok(())
}

// A part of a terminal and of what it sent.
#[derive(Clone, Copy, Debug, PartialEq, Eq)]
pub(crate) enum Part {
    Lines,
    Sheet,
    Cursor,
    Margins,
    Tabs,
    Modes,
    Sets,
    Rendition,
    Last,
    MainSaved,
    AlternateSaved,
    Title,
    Pending,
    Reports,
}

pub(crate) const PARTS: [Part; 14] = [
    Part::Lines,
    Part::Sheet,
    Part::Cursor,
    Part::Margins,
    Part::Tabs,
    Part::Modes,
    Part::Sets,
    Part::Rendition,
    Part::Last,
    Part::MainSaved,
    Part::AlternateSaved,
    Part::Title,
    Part::Pending,
    Part::Reports,
];

// A part of the screen.
fn write_screen_part(text: &mut String, screen: &Screen, part: Part) -> Result<(), Fail> {
    match part {
        Part::Lines => write_lines(text, screen),
        Part::Sheet => {
            if screen.is_alternate() {
                text.push_str("alternate ")?;
            }
            Ok(())
        }
        Part::Cursor => write_cursor(text, screen),
        Part::Margins => write_margins(text, screen),
        Part::Tabs => write_tabs(text, screen),
        _ => Ok(()),
    }
}

fn is_pending(terminal: &Terminal) -> bool {
    *terminal.parser_state() != ParserState::Ground || terminal.character() != Begun::Nothing
}

// A part that is told in a word or two.
fn write_rest(text: &mut String, terminal: &Terminal, part: Part) -> Result<(), Fail> {
    match part {
        Part::Last => {
            if let Some(character) = terminal.last_character() {
                write!(text, " last {character}")?;
            }
        }
        Part::Title if terminal.in_title() => text.push_str(" title")?,
        Part::Pending if is_pending(terminal) => text.push_str(" pending")?,
        _ => {}
    }
    Ok(())
}

// A part, where it isn't as in the initial state.
pub(crate) fn write_part(text: &mut String, left: &Left, part: Part) -> Result<(), Fail> {
    let terminal = &left.terminal;
    match part {
        Part::Modes => write_modes(text, terminal.modes()),
        Part::Sets => write_sets(text, terminal.sets()),
        Part::Rendition => write_current(text, terminal.rendition()),
        Part::MainSaved => write_saved(text, "main", terminal.main_saved()),
        Part::AlternateSaved => write_saved(text, "alternate", terminal.alternate_saved()),
        Part::Reports => write_reports(text, &left.reports),
        Part::Last | Part::Title | Part::Pending => write_rest(text, terminal, part),
        _ => write_screen_part(text, terminal.screen(), part),
    }
}

// All parts, each where it isn't as in the initial state.
pub(crate) fn told(alloc: Global, left: &Left) -> Result<String, Fail> {
    let mut text = String::new(alloc);
    for part in PARTS {
        write_part(&mut text, left, part)?;
    }
    Ok(text)
}

fn have_same_rows(one: &Screen, other: &Screen) -> bool {
    for line in 1..one.lines().min(other.lines()) + 1 {
        if *one.row(line) != *other.row(line) {
            return false;
        }
    }
    one.lines() == other.lines()
}

fn have_same_tabs(one: &Screen, other: &Screen) -> bool {
    for column in 1..one.columns().min(other.columns()) + 1 {
        if one.tab(column) != other.tab(column) {
            return false;
        }
    }
    one.columns() == other.columns()
}

fn are_same_screens(one: &Screen, other: &Screen) -> bool {
    have_same_rows(one, other)
        && have_same_tabs(one, other)
        && one.cursor() == other.cursor()
        && one.wrap() == other.wrap()
        && one.margins() == other.margins()
        && one.is_alternate() == other.is_alternate()
}

// Whether two tell the same in all parts. It takes no memory.
pub(crate) fn are_same_terminals(one: &Terminal, other: &Terminal) -> bool {
    are_same_screens(one.screen(), other.screen())
        && one.parser_state() == other.parser_state()
        && one.character() == other.character()
        && one.modes() == other.modes()
        && one.rendition() == other.rendition()
        && one.sets() == other.sets()
        && one.last_character() == other.last_character()
        && one.in_title() == other.in_title()
        && one.main_saved() == other.main_saved()
        && one.alternate_saved() == other.alternate_saved()
}

// And whether they sent the same.
pub(crate) fn are_same(one: &Left, other: &Left) -> bool {
    are_same_terminals(&one.terminal, &other.terminal)
        && one.reports.bytes() == other.reports.bytes()
        && one.reports.place() == other.reports.place()
}

fn assert_leaves(rt: &(impl Abort + AllocGlobal), bytes: &[u8], want: &str) -> Result<(), Fail> {
    let left = feed_reset(rt.alloc(), &[bytes])?;
    let text = told(rt.alloc(), &left)?;
    assert_eq!(rt; text.as_str(), want, "at {}", bytes.escape_ascii());
    Ok(())
}

// The bytes of each row, and what they leave from the reset.
pub(crate) fn all_bytes_leave(
    rt: &(impl Abort + AllocGlobal),
    rows: &[(&[u8], &str)],
) -> Result<(), Fail> {
    for (bytes, want) in rows {
        assert_leaves(rt, bytes, want)?;
    }
    Ok(())
}

// The same of texts.
pub(crate) fn all_leave(
    rt: &(impl Abort + AllocGlobal),
    rows: &[(&str, &str)],
) -> Result<(), Fail> {
    for (text, want) in rows {
        assert_leaves(rt, text.as_bytes(), want)?;
    }
    Ok(())
}
