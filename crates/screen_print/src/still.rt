//! What stands on a screen, copied, and in which lines another screen differs from it.

ghost use Rattle.std.specs.Prelude.{◌≡◌, ◌≤◌, ◌<◌, ℕ, length, true, false};
ghost use Rattle.vt_screen.specs.Cells.{blank, row_at};
ghost use Rattle.vt_screen.specs.Picture.{SoundRow};
ghost use Rattle.vt_screen.specs.Table.{nth};
ghost use Rattle.vt_screen.specs.Touched.{Told as ScreenTold, is_touched};
ghost use Rattle.screen_print.specs.Cover.{Cover, CoverAll};
ghost use Rattle.screen_rows.specs.SameRows.{changed_lines, is_changed};

use crate::alike::BLOCK;
use crate::by_line::FEW;
use arrayvec::ArrayVec;
use screen_rows::{cells_to_margin, same_first, same_row};
use std::marker::Model;
use vt_screen::laws::screens_are_sound;
use vt_screen::limits::{LINES, NARROW_COLUMNS, WIDE_COLUMNS};
use vt_screen::{Cell, Row, Screen};
use vt_term::Terminal;

/// How many rows a screen has.
pub(crate) const ROWS: usize = LINES as usize;

/// How many cells a row has.
const ROW: usize = WIDE_COLUMNS as usize;

/// How many of them a narrow screen shows.
const NARROW: usize = NARROW_COLUMNS as usize;

/// A copy of what stands on a screen: its columns, its rows, whether it is reversed, and its cursor.
#[derive(Drop)]
pub struct Still {
    rows: [Row; ROWS],
    wide: bool,
    reversed: bool,
    line: u8,
    column: u8,
}

impl Model for Still {
    ghost use Rattle.screen_print.specs.Stills.{IsStill, Still};

    ghost Value = { Still };

    ghost use Rattle.screen_print.specs.View.{still_in};

    ghost view = { still_in };

    ghost invariant = { λ s. IsStill (still_in s) };
}

impl Still {
    ghost use Rattle.vt_term.specs.Seen.{Told};
    ghost use Rattle.screen_print.specs.ByLine.{row_on};
    ghost use Rattle.screen_print.specs.Stills.{IsStill, still_of};
    ghost use Rattle.screen_rows.specs.RowText.{characters};

    /// What stands on the screen of a terminal.
    pub fn of(terminal: &Terminal) -> Self
        ensures { result ≡ still_of terminal.now.console }
    {
        let screen = terminal.screen();
        let (line, column) = screen.cursor();
        Still {
            rows: rows_of(screen),
            wide: screen.is_wide(),
            reversed: terminal.modes().reverse_screen,
            line,
            column,
        }
    }

    /// Whether it has 132 columns.
    pub fn is_wide(&self) -> bool
        ensures { result ≡ self.now.wide }
    {
        self.wide
    }

    /// The row of a line.
    pub fn row(&self, line: u8) -> &Row
        requires low { 1 ≤ line }
        requires high { line ≤ LINES }
        ensures value { result.now ≡ row_at self.now.rows line }
        ensures sound { SoundRow self.now.wide result.now }
    {
        &self.rows[line as usize - 1]
    }

    /// The cells of a line up to the right margin.
    pub(crate) fn cells(&self, line: u8) -> &[Cell]
        requires low { 1 ≤ line }
        requires high { line ≤ LINES }
        ensures text { characters result.now ≡ row_on self.now line }
        ensures long { length result.now ≡ length (row_on self.now line) }
        ensures some { 1 ≤ length result.now }
        ensures few { length result.now ≤ WIDE_COLUMNS }
    {
        cells_to_margin(self.wide, self.row(line))
    }

    /// Whether the screen is reversed.
    pub fn is_reversed(&self) -> bool
        ensures { result ≡ self.now.reversed }
    {
        self.reversed
    }

    /// The cursor's line and column.
    pub fn cursor(&self) -> (u8, u8)
        ensures line { result.0 ≡ self.now.line }
        ensures column { result.1 ≡ self.now.column }
    {
        (self.line, self.column)
    }

    /// Every still has 24 rows, blank right of the right margin. Nothing runs.
    pub fn sound(&self)
        ensures { IsStill self.now }
    {
        let _wide = self.wide;
    }

    /// The lines in which it differs from what stands on the screen of a terminal, which marks all that it may have
    /// touched since.
    pub(crate) fn changed_lines(&self, terminal: &Terminal) -> ArrayVec<u8, ROWS>
        requires { Told self.now.rows terminal.now }
        ensures { result.items
            ≡ changed_lines self.now.rows terminal.now.console.picture.rows }
    {
        let screen = terminal.screen();
        let narrow = !(self.wide || screen.is_wide());
        changed_lines(&self.rows, screen, narrow)
    }

    /// The lines in which it differs from what stands on the screen of any terminal, whatever it marks.
    fn lines_unlike(&self, terminal: &Terminal) -> ArrayVec<u8, ROWS>
        ensures { result.items
            ≡ changed_lines self.now.rows terminal.now.console.picture.rows }
    {
        let screen = terminal.screen();
        let mut unlike = ArrayVec::new();
        for line in 1..LINES + 1 {
            if self.is_unlike(screen, line) {
                unlike.push(line);
            }
        }
        unlike
    }

    /// Lines that cover those in which it differs from what stands on the screen of a terminal, which marks all that it may
    /// have touched since. Where all are marked, rows mostly moved, and they aren't compared.
    pub(crate) fn lines_told(&self, terminal: &Terminal) -> ArrayVec<u8, ROWS>
        requires { Told self.now.rows terminal.now }
        ensures { Cover result.items self.now.rows terminal.now.console.picture.rows }
    {
        let count = touched_count(terminal.screen());
        if count == 0 {
            return ArrayVec::new();
        }
        if count == LINES {
            return all_lines();
        }
        self.changed_lines(terminal)
    }

    /// The same of any terminal, whatever it marks: where rows moved up they aren't compared.
    pub(crate) fn lines_aside(&self, terminal: &Terminal) -> ArrayVec<u8, ROWS>
        ensures { Cover result.items self.now.rows terminal.now.console.picture.rows }
    {
        if self.has_risen(terminal.screen()) {
            return all_lines();
        }
        self.lines_unlike(terminal)
    }

    /// Whether the first row of a screen begins otherwise than its own one, and as one further down.
    fn has_risen(&self, screen: &Screen) -> bool {
        let cells = &screen.row(1).cells;
        if same_first::<BLOCK>(&self.row(1).cells, cells) {
            return false;
        }
        for line in 2..LINES + 1 {
            if same_first::<BLOCK>(&self.row(line).cells, cells) {
                return true;
            }
        }
        false
    }

    /// Whether it differs from a screen in a line.
    fn is_unlike(&self, screen: &Screen, line: u8) -> bool
        requires low { 1 ≤ line }
        requires high { line ≤ LINES }
        ensures { result ≡ is_changed self.now.rows screen.now.picture.rows line }
    {
        !same_row(
            self.row(line),
            screen.row(line),
            !(self.wide || screen.is_wide()),
        )
    }

    /// Becomes what stands on the screen of a terminal, from which it differs in these lines at most.
    pub(crate) fn catch_up(&mut self, terminal: &Terminal, lines: &[u8])
        requires { Cover lines.now self.old.rows terminal.now.console.picture.rows }
        ensures { self.new ≡ still_of terminal.now.console }
    {
        let screen = terminal.screen();
        screens_are_sound(screen);
        let wide = self.wide || screen.is_wide();
        copy_rows(&mut self.rows, screen, lines, !wide);
        self.wide = screen.is_wide();
        self.reversed = terminal.modes().reverse_screen;
        (self.line, self.column) = screen.cursor();
    }

    /// The same where another still is that already: it's copied as a whole where many lines differ.
    pub(crate) fn follow(&mut self, other: &Still, terminal: &Terminal, lines: &[u8])
        requires other { other.now ≡ still_of terminal.now.console }
        requires lines { Cover lines.now self.old.rows terminal.now.console.picture.rows }
        ensures { self.new ≡ still_of terminal.now.console }
    {
        if lines.len() > FEW {
            self.copy_from(other);
        } else {
            self.catch_up(terminal, lines);
        }
    }

    /// Becomes the other still.
    fn copy_from(&mut self, other: &Still)
        ensures { self.new ≡ other.now }
    {
        self.rows.copy_from_slice(&other.rows);
        self.wide = other.wide;
        self.reversed = other.reversed;
        self.line = other.line;
        self.column = other.column;
    }
}

/// All lines.
fn all_lines() -> ArrayVec<u8, ROWS>
    ensures { CoverAll result.items }
{
    let mut lines = ArrayVec::new();
    for line in 1..LINES + 1 {
        lines.push(line);
    }
    lines
}

/// How many lines a screen marks as touched. The marks are counted one after the other, and none is kept for another use:
/// so that takes an instruction each.
#[inline(never)]
fn touched_count(screen: &Screen) -> u8
    ensures { result ≡ 0 → (line : ℕ) → 1 ≤ line → line ≤ LINES
        → is_touched screen.now.touched line ≡ false }
{
    let mut count = 0;
    for line in 1..LINES + 1 {
        count += u8::from(screen.is_touched(line));
    }
    count
}

/// A copy of the screen's rows.
fn rows_of(screen: &Screen) -> [Row; ROWS]
    ensures { result ≡ screen.now.picture.rows }
{
    screens_are_sound(screen);
    let mut rows = [Row::blank(); ROWS];
    for line in 1..LINES + 1 {
        rows[line as usize - 1] = *screen.row(line);
    }
    rows
}

/// The lines in which the rows differ from those of the screen.
fn changed_lines(rows: &[Row; ROWS], screen: &Screen, narrow: bool) -> ArrayVec<u8, ROWS>
    requires told { ScreenTold rows.now screen.now }
    requires here { narrow ≡ true → screen.now.picture.wide ≡ false }
    requires there { narrow ≡ true → (k : ℕ) → SoundRow false (row_at rows.now k) }
    ensures { result.items ≡ changed_lines rows.now screen.now.picture.rows }
{
    screens_are_sound(screen);
    let mut changed = ArrayVec::new();
    for line in 1..LINES + 1 {
        if is_changed(rows, screen, line, narrow) {
            changed.push(line);
        }
    }
    changed
}

/// Whether the row of a line differs from that of the screen. One that wasn't touched doesn't.
fn is_changed(rows: &[Row; ROWS], screen: &Screen, line: u8, narrow: bool) -> bool
    requires low { 1 ≤ line }
    requires high { line ≤ LINES }
    requires told { ScreenTold rows.now screen.now }
    requires here { narrow ≡ true → screen.now.picture.wide ≡ false }
    requires there { narrow ≡ true → (k : ℕ) → SoundRow false (row_at rows.now k) }
    ensures { result ≡ is_changed rows.now screen.now.picture.rows line }
{
    screen.is_touched(line) && !same_row(&rows[line as usize - 1], screen.row(line), narrow)
}

/// Copies the rows of these lines from the screen. Rows of narrow screens are blank right of column 80, and aren't copied
/// there.
fn copy_rows(rows: &mut [Row; ROWS], screen: &Screen, lines: &[u8], narrow: bool)
    requires lines { Cover lines.now rows.old screen.now.picture.rows }
    requires here { narrow ≡ true → screen.now.picture.wide ≡ false }
    requires there { narrow ≡ true → (k : ℕ) → SoundRow false (row_at rows.old k) }
    ensures { rows.new ≡ screen.now.picture.rows }
{
    if narrow {
        copy_narrow_lines(rows, screen, lines);
    } else {
        copy_lines(rows, screen, lines);
    }
}

/// The same of narrow screens.
fn copy_narrow_lines(rows: &mut [Row; ROWS], screen: &Screen, lines: &[u8])
    requires lines { Cover lines.now rows.old screen.now.picture.rows }
    requires here { screen.now.picture.wide ≡ false }
    requires there { (k : ℕ) → SoundRow false (row_at rows.old k) }
    ensures { rows.new ≡ screen.now.picture.rows }
{
    screens_are_sound(screen);
    for line in lines {
        copy_narrow(&mut rows[*line as usize - 1], screen.row(*line));
    }
}

/// A row of a narrow screen becomes another one.
fn copy_narrow(row: &mut Row, other: &Row)
    requires old { SoundRow false row.old }
    requires other { SoundRow false other.now }
    ensures { row.new ≡ other.now }
{
    row.size = other.size;
    copy_front(&mut row.cells, &other.cells);
}

/// Cells become others, where right of column 80 they are the same.
fn copy_front(cells: &mut [Cell; ROW], others: &[Cell; ROW])
    requires { (column : ℕ) → NARROW_COLUMNS < column
        → nth blank cells.old column ≡ nth blank others.now column }
    ensures { cells.new ≡ others.now }
{
    cells[..NARROW].copy_from_slice(&others[..NARROW]);
}

/// Copies the rows of these lines from the screen.
fn copy_lines(rows: &mut [Row; ROWS], screen: &Screen, lines: &[u8])
    requires { Cover lines.now rows.old screen.now.picture.rows }
    ensures { rows.new ≡ screen.now.picture.rows }
{
    screens_are_sound(screen);
    for line in lines {
        rows[*line as usize - 1] = *screen.row(*line);
    }
}
