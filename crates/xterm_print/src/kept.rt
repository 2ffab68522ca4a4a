//! Rows that are kept of a sheet, to tell which of them another one changes.

ghost use Rattle.std.specs.Prelude.{◌≡◌, ◌≢◌, ◌+◌, ◌-◌, ◌<◌, ◌≤◌, ℕ, IfOk, IfSome, List, false, filter, is_none, length, not, true};
ghost use Rattle.std.specs.List.{range_with_len};
ghost use Rattle.sheet.specs.Cells.{Cell};
ghost use Rattle.sheet.specs.Grid.{IsUsed, row_at};
ghost use Rattle.xterm_screen.specs.Picture.{Tells};
ghost use Rattle.xterm_print.specs.ChangeLines.{changed_lines, is_changed, same_row};
ghost use Rattle.xterm_print.specs.Kept.{AreApart, FollowAll, FollowLines, Follows};
ghost use Rattle.xterm_print.specs.Same.{Agree};

use crate::moved::{Apart, catch_up_moved, moved_up, some_differs};
use crate::same::{TOGETHER, place_from, same_cell, same_up_to};
use arrayvec::ArrayVec;
use sheet::Cell;
use sheet::limits::MOST_LINES;
use std::alloc::{AllocError, Global};
use std::marker::Model;
use xterm_screen::Screen;

/// How many rows a sheet has at most.
pub(crate) const ROWS: usize = MOST_LINES as usize;

/// A copy of the rows of a sheet, lines of which it is known that their rows differ, and room for the numbers of those that
/// a chunk changes.
#[derive(Drop)]
pub struct KeptRows {
    pub rows: Vec<KeptRow>,
    pub apart: Apart,
    pub changed: ArrayVec<u16, ROWS>,
}

/// A copy of the cells of a row. Behind so many all are blank; at a place it was seen to differ from another row, and mostly
/// differs there from the next one too.
#[derive(Drop)]
pub struct KeptRow {
    cells: Vec<Cell>,
    used: usize,
    pub(crate) apart: usize,
}

impl Model for KeptRow {
    ghost use Rattle.std.specs.Prelude.{List};
    ghost use Rattle.sheet.specs.Cells.{Cell};
    ghost use Rattle.sheet.specs.Grid.{IsUsed};

    ghost Value = { List Cell };

    ghost view = { λ row. row.cells.items };

    ghost invariant = { λ row. IsUsed row.cells.items row.used };
}

impl KeptRows {
    /// A copy of the rows of the sheet that is shown.
    pub fn of(alloc: Global, screen: &Screen) -> Result<Self, AllocError>
        ensures rows { IfOk result (λ kept. FollowAll screen.now.picture.lines
            screen.now.picture.columns kept.rows.items screen.now.picture.rows) }
        ensures known { IfOk result (λ kept. AreApart kept.apart kept.rows.items) }
    {
        let rows = kept_rows(alloc, screen)?;
        Ok(KeptRows {
            rows,
            apart: Apart::none(),
            changed: ArrayVec::new(),
        })
    }
}

impl KeptRow {
    /// A copy of these cells, behind so many of which all are blank.
    fn of(alloc: Global, cells: &[Cell], used: usize) -> Result<Self, AllocError>
        requires { IsUsed cells.now used }
        ensures { IfOk result (λ row. row ≡ cells.now) }
    {
        let cells = cells.to_vec(alloc)?;
        let apart = 0;
        Ok(KeptRow { cells, used, apart })
    }

    /// Whether it has the same cells as these, behind so many of which all are blank.
    pub(crate) fn is_same(&self, cells: &[Cell], used: usize) -> bool
        requires { IsUsed cells.now used }
        ensures { result ≡ same_row self.now cells.now }
    {
        self.place_apart(cells, used).is_none()
    }

    /// A place up to which its cells are the same as these, behind so many of which all are blank, if some differ. Mostly
    /// they differ still where they were seen to.
    #[inline(always)]
    fn place_apart(&self, cells: &[Cell], used: usize) -> Option<usize>
        requires { IsUsed cells.now used }
        ensures same { is_none result ≡ same_row self.now cells.now }
        ensures equal { is_none result ≡ true → self.now ≡ cells.now }
        ensures agree { IfSome result (λ at. Agree self.now cells.now 0 at) }
        ensures within { IfSome result (λ at. at ≤ length cells.now) }
    {
        if self.cells.len() != cells.len() {
            return Some(0);
        }
        if self.differs_still(cells) {
            return Some(0);
        }
        self.place_compared(cells, used)
    }

    /// The same by a look at the cells, of which it has as many.
    #[inline(never)]
    fn place_compared(&self, cells: &[Cell], used: usize) -> Option<usize>
        requires used { IsUsed cells.now used }
        requires long { length self.now ≡ length cells.now }
        ensures same { is_none result ≡ same_row self.now cells.now }
        ensures equal { is_none result ≡ true → self.now ≡ cells.now }
        ensures agree { IfSome result (λ at. Agree self.now cells.now 0 at) }
        ensures within { IfSome result (λ at. at ≤ length cells.now) }
    {
        let end = end_of(self.used.max(used), cells.len());
        let at = same_up_to(self.cells.as_slice(), cells, end);
        if at == end {
            return None;
        }
        Some(place_from(self.cells.as_slice(), cells, at, end))
    }

    /// A place up to which its cells are the same as those of another row, if some differ.
    pub(crate) fn place_apart_from(&self, other: &KeptRow) -> Option<usize>
        ensures { is_none result ≡ same_row self.now other.now }
    {
        self.place_apart(other.cells.as_slice(), other.used)
    }

    /// Whether its cells differ from these at the place where it was seen to differ.
    fn differs_still(&self, cells: &[Cell]) -> bool
        ensures { result ≡ true → same_row self.now cells.now ≡ false }
    {
        let at = self.apart;
        if self.cells.len() != cells.len() || cells.len() <= at {
            return false;
        }
        !same_cell(self.cells[at], cells[at])
    }

    /// Becomes the same as these cells, behind so many of which all are blank.
    pub(crate) fn become_same(&mut self, cells: &[Cell], used: usize)
        requires { IsUsed cells.now used }
        ensures { length self.old ≡ length cells.now → Follows (length cells.now) self.new cells.now }
    {
        if self.cells.len() == cells.len() {
            let end = self.used.max(used);
            copy_between(self.cells.as_mut_slice(), cells, 0, end);
            self.used = used;
        }
    }

    /// Becomes the same as these cells, behind so many of which all are blank, and tells whether it wasn't.
    pub(crate) fn catch_up(&mut self, cells: &[Cell], used: usize) -> bool
        requires { IsUsed cells.now used }
        ensures changed { result ≡ not (same_row self.old cells.now) }
        ensures caught { length self.old ≡ length cells.now
            → Follows (length cells.now) self.new cells.now }
    {
        let Some(from) = self.place_apart(cells, used) else {
            return false;
        };
        if self.cells.len() == cells.len() {
            let end = end_of(self.used.max(used), cells.len()).max(from);
            copy_between(self.cells.as_mut_slice(), cells, from, end);
            self.used = used;
            self.apart = seen_apart(from, self.apart);
        }
        true
    }
}

/// The place to look at first from now on, where rows were the same up to one: that one, or the one before where it is the
/// first, which may not have been looked at.
pub(crate) fn seen_apart(same: usize, before: usize) -> usize {
    if same > 0 { same } else { before }
}

/// Where the cells end that are compared, of which so many are in use: they are compared together.
fn end_of(used: usize, columns: usize) -> usize
    requires { used ≤ columns }
    ensures low { used ≤ result }
    ensures high { result ≤ columns }
{
    let more = (TOGETHER - used % TOGETHER) % TOGETHER;
    used + more.min(columns - used)
}

/// Makes cells the same as others, from which they differ between two places alone.
fn copy_between(cells: &mut [Cell], others: &[Cell], from: usize, to: usize)
    requires long { length cells.old ≡ length others.now }
    requires apart { from ≤ to }
    requires within { to ≤ length cells.old }
    requires before { Agree cells.old others.now 0 from }
    requires behind { Agree cells.old others.now to (length others.now) }
    ensures { cells.new ≡ others.now }
{
    cells[from..to].copy_from_slice(&others[from..to]);
}

/// A copy of the rows of the sheet that is shown.
fn kept_rows(alloc: Global, screen: &Screen) -> Result<Vec<KeptRow>, AllocError>
    ensures { IfOk result (λ rows. FollowAll screen.now.picture.lines screen.now.picture.columns
        rows.items screen.now.picture.rows) }
{
    let mut rows = Vec::with_capacity(alloc, screen.lines() as usize)?;
    for line in 1..screen.lines() + 1 {
        rows.push(KeptRow::of(alloc, screen.row(line), screen.used(line))?)?;
    }
    Ok(rows)
}

/// The lines whose rows differ from those of the sheet that is shown, which they then follow. Only touched lines are
/// looked at: the sheet tells that the others are as before.
pub fn catch_up(
    rows: &mut [KeptRow],
    screen: &Screen,
    apart: &mut Apart,
    changed: &mut ArrayVec<u16, ROWS>,
)
    requires rows { length rows.old ≡ screen.now.picture.lines }
    requires known { AreApart apart.old rows.old }
    ensures known { AreApart apart.new rows.new }
    ensures changed { (before : List (List Cell)) → Tells before screen.now
        → FollowAll screen.now.picture.lines screen.now.picture.columns rows.old before
        → changed.new.items ≡ changed_lines screen.now.picture.lines before screen.now.picture.rows }
    ensures caught { (before : List (List Cell)) → Tells before screen.now
        → FollowAll screen.now.picture.lines screen.now.picture.columns rows.old before
        → FollowAll screen.now.picture.lines screen.now.picture.columns rows.new
        screen.now.picture.rows }
{
    changed.clear();
    let _cursor = screen.cursor();
    let lines = screen.lines();
    let mut line = 1;
    while line <= lines {
        // Where a line was touched, the next one mostly was too: the others are looked for in blocks.
        if screen.is_touched(line) {
            line = catch_up_from(rows, screen, line, apart, changed);
        } else {
            line = screen.next_touched(line);
        }
    }
}

/// The row of a line that was touched follows the one that is shown, and where it moved up, and some row differs, so do
/// those that moved with it; adds the lines that differ, and tells where they end.
fn catch_up_from(
    rows: &mut [KeptRow],
    screen: &Screen,
    line: u16,
    apart: &mut Apart,
    changed: &mut ArrayVec<u16, ROWS>,
) -> u16
    requires rows { length rows.old ≡ screen.now.picture.lines }
    requires known { AreApart apart.old rows.old }
    requires low { 1 ≤ line }
    requires high { line ≤ screen.now.picture.lines }
    requires few { length changed.old.items + 1 ≤ line }
    ensures low { line < result }
    ensures high { result ≤ screen.now.picture.lines + 1 }
    ensures known { AreApart apart.new rows.new }
    ensures whole { length rows.new ≡ length rows.old }
    ensures few { length changed.new.items + 1 ≤ result }
    ensures before { (k : ℕ) → 1 ≤ k → k < line → row_at rows.new k ≡ row_at rows.old k }
    ensures behind { (k : ℕ) → result ≤ k → row_at rows.new k ≡ row_at rows.old k }
    ensures changed { (before : List (List Cell)) → Tells before screen.now
        → FollowLines line result screen.now.picture.columns rows.old before
        → changed.old.items ≡ filter (is_changed before screen.now.picture.rows) (range_with_len 1 (line - 1))
        → changed.new.items ≡ filter (is_changed before screen.now.picture.rows) (range_with_len 1 (result - 1)) }
    ensures caught { (before : List (List Cell)) → Tells before screen.now
        → FollowLines line result screen.now.picture.columns rows.old before
        → changed.old.items ≡ filter (is_changed before screen.now.picture.rows) (range_with_len 1 (line - 1))
        → FollowLines line result screen.now.picture.columns rows.new screen.now.picture.rows }
{
    let _cursor = screen.cursor();
    let shift = moved_up(screen, line);
    if shift > 0 && some_differs(rows, screen, line, changed) {
        return catch_up_moved(rows, screen, line, shift, apart, changed);
    }
    apart.forget(line);
    if catch_up_line(rows, screen, line) {
        changed.push(line);
    }
    line + 1
}

/// Whether the row of a line differs from that of the sheet that is shown, which it then follows.
fn catch_up_line(rows: &mut [KeptRow], screen: &Screen, line: u16) -> bool
    requires whole { length rows.old ≡ screen.now.picture.lines }
    requires low { 1 ≤ line }
    requires high { line ≤ screen.now.picture.lines }
    ensures whole { length rows.new ≡ length rows.old }
    ensures others { (k : ℕ) → 1 ≤ k → k ≢ line → row_at rows.new k ≡ row_at rows.old k }
    ensures changed { (before : List (List Cell)) → Tells before screen.now
        → Follows screen.now.picture.columns (row_at rows.old line) (row_at before line)
        → result ≡ is_changed before screen.now.picture.rows line }
    ensures caught { (before : List (List Cell)) → Tells before screen.now
        → Follows screen.now.picture.columns (row_at rows.old line) (row_at before line)
        → Follows screen.now.picture.columns (row_at rows.new line)
        (row_at screen.now.picture.rows line) }
{
    let row = &mut rows[line as usize - 1];
    row.catch_up(screen.row(line), screen.used(line))
}
