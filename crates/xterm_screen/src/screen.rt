//! The screen, how it is made, and what is read of it. Lines and columns are counted from 1.

ghost use Rattle.std.specs.Prelude.{◌≡◌, ℕ, ◌+◌, ◌<◌, ◌≤◌, Bool, IfOk, List, false, if◌then◌else◌, length, true};
ghost use Rattle.sheet.specs.Cells.{Cell};
ghost use Rattle.sheet.specs.Grid.{IsUsed, is_touched, origin_of, row_at};
ghost use Rattle.sheet.specs.Halves.{Whole};
ghost use Rattle.xterm_screen.specs.Picture.{KeepsTold, Sound, Told, first_tabs, reset};
ghost use Rattle.xterm_screen.specs.Sheets.{main_rows};
ghost use Rattle.xterm_screen.specs.Tabs.{stop_at};

mod cells;
mod erasures;
mod margins;
mod moves;
mod packed;
mod puts;
mod scrolls;
mod sheets;
mod tabs;

pub use packed::PackedScreen;
use sheet::limits::{LEAST_COLUMNS, MOST_COLUMNS, MOST_LINES};
use sheet::{Cell, Colour, Paper, Sheet};
use std::alloc::{AllocError, Global};
use std::marker::Model;

/// Two sheets of a size that never changes, of which one is shown, with a cursor, a pending wrap, margins and tab
/// stops. Contracts see a `ScreenState`: the picture, told by line and column, and where its rows came from.
#[derive(Debug, Drop)]
pub struct Screen {
    shown: Sheet,
    other: Sheet,
    tabs: Vec<bool>,
    columns: u16,
    lines: u16,
    line: u16,
    column: u16,
    top: u16,
    bottom: u16,
    alternate: bool,
    wrap: bool,
}

impl Model for Screen {
    ghost use Rattle.xterm_screen.specs.Picture.{ScreenState};

    ghost Value = { ScreenState };

    ghost use Rattle.xterm_screen.specs.View.{IsScreen, state_of};

    ghost view = { state_of };

    ghost invariant = { IsScreen };
}

impl Screen {
    /// The initial screen: both sheets blank, the main one shown, tab stops at 9, 17 and so on. No line's origin is known.
    pub fn new(alloc: Global, columns: u16, lines: u16) -> Result<Self, AllocError>
        requires columns_low { LEAST_COLUMNS ≤ columns }
        requires columns_high { columns ≤ MOST_COLUMNS }
        requires lines_low { 1 ≤ lines }
        requires lines_high { lines ≤ MOST_LINES }
        ensures picture { IfOk result (λ s. s.picture ≡ reset columns lines) }
        ensures told { (before : List (List Cell)) → IfOk result (λ s. Told before s) }
    {
        let shown = Sheet::new(alloc, columns, lines)?;
        let other = Sheet::new(alloc, columns, lines)?;
        let mut tabs = vec![in alloc; false; columns as usize]?;
        put_first_tabs(tabs.as_mut_slice());
        Ok(Screen {
            shown,
            other,
            tabs,
            columns,
            lines,
            line: 1,
            column: 1,
            top: 1,
            bottom: lines,
            alternate: false,
            wrap: false,
        })
    }

    /// RIS: the initial screen of the same size.
    pub fn reset(&mut self)
        ensures picture { self.new.picture ≡ reset self.old.picture.columns self.old.picture.lines }
        ensures told { KeepsTold self.old self.new }
    {
        let paper = Paper::of(Colour::Default);
        self.shown.clear(paper);
        self.other.clear(paper);
        put_first_tabs(self.tabs.as_mut_slice());
        self.line = 1;
        self.column = 1;
        self.top = 1;
        self.bottom = self.lines;
        self.alternate = false;
        self.wrap = false;
    }

    /// Becomes another screen of the same size.
    pub fn copy_from(&mut self, other: &Screen)
        requires columns { self.old.picture.columns ≡ other.now.picture.columns }
        requires lines { self.old.picture.lines ≡ other.now.picture.lines }
        ensures { self.new ≡ other.now }
    {
        self.shown.copy_from(&other.shown);
        self.other.copy_from(&other.other);
        self.tabs
            .as_mut_slice()
            .copy_from_slice(other.tabs.as_slice());
        self.line = other.line;
        self.column = other.column;
        self.top = other.top;
        self.bottom = other.bottom;
        self.alternate = other.alternate;
        self.wrap = other.wrap;
    }

    /// How many columns each line has.
    pub fn columns(&self) -> u16
        ensures value { result ≡ self.now.picture.columns }
        ensures low { LEAST_COLUMNS ≤ result }
        ensures high { result ≤ MOST_COLUMNS }
    {
        self.columns
    }

    /// How many lines there are.
    pub fn lines(&self) -> u16
        ensures value { result ≡ self.now.picture.lines }
        ensures low { 1 ≤ result }
        ensures high { result ≤ MOST_LINES }
    {
        self.lines
    }

    /// The cells of a line of the sheet that is shown.
    pub fn row(&self, line: u16) -> &[Cell]
        requires low { 1 ≤ line }
        requires high { line ≤ self.now.picture.lines }
        ensures value { result.now ≡ row_at self.now.picture.rows line }
        ensures columns { length result.now ≡ self.now.picture.columns }
        ensures whole { Whole result.now }
    {
        self.shown.row(line)
    }

    /// How many of a line's first cells may be in use: behind them all are blank.
    pub fn used(&self, line: u16) -> usize
        requires low { 1 ≤ line }
        requires high { line ≤ self.now.picture.lines }
        ensures { IsUsed (row_at self.now.picture.rows line) result }
    {
        self.shown.used(line)
    }

    /// The cells of a line of the main sheet, whichever is shown.
    pub fn main_row(&self, line: u16) -> &[Cell]
        requires low { 1 ≤ line }
        requires high { line ≤ self.now.picture.lines }
        ensures value { result.now ≡ row_at (main_rows self.now.picture) line }
        ensures columns { length result.now ≡ self.now.picture.columns }
        ensures whole { Whole result.now }
    {
        self.main_sheet().row(line)
    }

    /// How many of its first cells may be in use: behind them all are blank.
    pub fn main_used(&self, line: u16) -> usize
        requires low { 1 ≤ line }
        requires high { line ≤ self.now.picture.lines }
        ensures { IsUsed (row_at (main_rows self.now.picture) line) result }
    {
        self.main_sheet().used(line)
    }

    // The main sheet, whichever is shown.
    fn main_sheet(&self) -> &Sheet
        ensures rows { result.now.rows ≡ main_rows self.now.picture }
        ensures columns { result.now.columns ≡ self.now.picture.columns }
        ensures lines { result.now.lines ≡ self.now.picture.lines }
    {
        if self.alternate {
            &self.other
        } else {
            &self.shown
        }
    }

    /// The cells of a line of the alternate sheet, whichever is shown.
    pub fn alternate_row(&self, line: u16) -> &[Cell]
        requires low { 1 ≤ line }
        requires high { line ≤ self.now.picture.lines }
        ensures value { let p = self.now.picture in
            result.now ≡ row_at (if p.alternate then p.rows else p.other) line }
        ensures columns { length result.now ≡ self.now.picture.columns }
        ensures whole { Whole result.now }
    {
        self.alternate_sheet().row(line)
    }

    // The alternate sheet, whichever is shown.
    fn alternate_sheet(&self) -> &Sheet
        ensures rows { let p = self.now.picture in
            result.now.rows ≡ (if p.alternate then p.rows else p.other) }
        ensures columns { result.now.columns ≡ self.now.picture.columns }
        ensures lines { result.now.lines ≡ self.now.picture.lines }
    {
        if self.alternate {
            &self.shown
        } else {
            &self.other
        }
    }

    /// The cursor's line and column.
    pub fn cursor(&self) -> (u16, u16)
        ensures line { result.0 ≡ self.now.picture.line }
        ensures column { result.1 ≡ self.now.picture.column }
        ensures sound { Sound self.now.picture }
    {
        (self.line, self.column)
    }

    /// Whether the next character wraps first.
    pub fn wrap(&self) -> bool
        ensures { result ≡ self.now.picture.wrap }
    {
        self.wrap
    }

    /// The top and the bottom margin.
    pub fn margins(&self) -> (u16, u16)
        ensures top { result.0 ≡ self.now.picture.top }
        ensures bottom { result.1 ≡ self.now.picture.bottom }
        ensures sound { Sound self.now.picture }
    {
        (self.top, self.bottom)
    }

    /// Whether a tab stops at a column.
    pub fn tab(&self, column: u16) -> bool
        requires low { 1 ≤ column }
        requires high { column ≤ self.now.picture.columns }
        ensures { result ≡ stop_at self.now.picture.tabs column }
    {
        self.tabs[column as usize - 1]
    }

    /// Whether the alternate sheet is shown.
    pub fn is_alternate(&self) -> bool
        ensures { result ≡ self.now.picture.alternate }
    {
        self.alternate
    }

    /// The line of which this one of the sheet that is shown has the row, as rows stood when the marks were last cleared;
    /// 0 where that isn't known, as the row was written since.
    pub fn origin(&self, line: u16) -> u16
        requires low { 1 ≤ line }
        requires high { line ≤ self.now.picture.lines }
        ensures { result ≡ origin_of self.now.origins line }
    {
        self.shown.origin(line)
    }

    /// Whether a line of the sheet that is shown was touched since the marks were last cleared.
    pub fn is_touched(&self, line: u16) -> bool
        requires low { 1 ≤ line }
        requires high { line ≤ self.now.picture.lines }
        ensures { result ≡ is_touched self.now.origins line }
    {
        self.shown.is_touched(line)
    }

    /// Whether a line of the sheet that is shown was touched since the marks were last cleared.
    pub fn any_touched(&self) -> bool
        ensures { result ≡ false → (line : ℕ) → 1 ≤ line → line ≤ self.now.picture.lines
            → is_touched self.now.origins line ≡ false }
    {
        self.shown.any_touched()
    }

    /// The first line from one on of the sheet that is shown that was touched since the marks were last cleared; one
    /// behind the last where none was.
    pub fn next_touched(&self, line: u16) -> u16
        requires low { 1 ≤ line }
        requires high { line ≤ self.now.picture.lines + 1 }
        ensures low { line ≤ result }
        ensures high { result ≤ self.now.picture.lines + 1 }
        ensures between { (k : ℕ) → line ≤ k → k < result → is_touched self.now.origins k ≡ false }
        ensures touched { result ≤ self.now.picture.lines → is_touched self.now.origins result ≡ true }
    {
        self.shown.next_touched(line)
    }

    /// From here on lines are told against the rows of now.
    pub fn clear_touched(&mut self)
        ensures picture { self.new.picture ≡ self.old.picture }
        ensures told { Told self.old.picture.rows self.new }
    {
        self.shown.clear_touched();
    }
}

/// The tab stops at first.
fn put_first_tabs(tabs: &mut [bool])
    ensures { tabs.new ≡ first_tabs (length tabs.old) }
{
    for column in 1..tabs.len() + 1 {
        tabs[column - 1] = column > 1 && column % 8 == 1;
    }
}
