//! Sheets: rows of cells behind an order, so that a scroll moves no cells.

ghost use Rattle.std.specs.Prelude.{◌≡◌, ◌+◌, ◌-◌, ◌*◌, ◌<◌, ◌≤◌, IfOk, List, ℕ, false, length, true};
ghost use Rattle.sheet.specs.Cells.{Cell};
ghost use Rattle.sheet.specs.Grid.{IsUsed, Told, aligned, blank_row, blank_rows, first_grid, is_touched, lines_erased};
ghost use Rattle.sheet.specs.Grid.{origin_of, own_origins, row_at, scrolled_down, scrolled_up, unknown_from, with_row};
ghost use Rattle.sheet.specs.EditOf.{Fits, edited};
ghost use Rattle.sheet.specs.Halves.{Whole};
ghost use Rattle.sheet.specs.Table.{table};
ghost use Rattle.sheet.specs.Held.{LinesFilled, Once, SlotsStayOrFill, row_in, turned_up};
ghost use Rattle.sheet.specs.Edits.{deleted, erased, inserted, mark_added, put, run_put};

mod marked;
mod packed;

use crate::cell::Cell;
use crate::edit::Edit;
use crate::limits::{LEAST_COLUMNS, MOST_COLUMNS, MOST_LINES};
use crate::pen::{Paper, Pen};
use crate::rendition::Colour;
use crate::slot::Slot;
use marked::next_touched;
pub use packed::PackedSheet;
use std::alloc::{AllocError, Global};
use std::marker::Model;

/// Rows of cells, a size that never changes, and for each line the one whose row it has, as rows stood when the marks
/// were last cleared.
#[derive(Debug, Drop)]
pub struct Sheet {
    columns: u16,
    order: Vec<u16>,
    slots: Vec<Slot>,
    // From 1, and 0 where the row was written since.
    origins: Vec<u16>,
}

impl Model for Sheet {
    ghost use Rattle.sheet.specs.Grid.{Grid};
    ghost use Rattle.sheet.specs.Held.{Sound, grid_of};

    ghost Value = { Grid };

    ghost use Rattle.sheet.specs.View.{held_of};

    ghost view = { λ s. grid_of (held_of s) };

    ghost invariant = { λ s. Sound (held_of s) };
}

impl Sheet {
    /// Changes one line.
    #[inline(always)]
    pub fn edit(&mut self, line: u16, edit: Edit)
        requires line_low { 1 ≤ line }
        requires line_high { line ≤ self.old.lines }
        requires fits { Fits self.old.columns edit }
        ensures rows { self.new.rows
            ≡ with_row line (edited edit (row_at self.old.rows line)) self.old.rows }
        ensures columns { self.new.columns ≡ self.old.columns }
        ensures lines { self.new.lines ≡ self.old.lines }
        ensures told { (before : List (List Cell)) → Told before self.old → Told before self.new }
    {
        let slot = self.order[line as usize - 1] as usize;
        let row = &mut self.slots[slot];
        row.edit(edit);
        self.origins[line as usize - 1] = 0;
    }

    /// Blanks the cells of a line from one column to another.
    pub fn erase(&mut self, line: u16, from: u16, to: u16, paper: Paper)
        requires line_low { 1 ≤ line }
        requires line_high { line ≤ self.old.lines }
        requires from_low { 1 ≤ from }
        requires apart { from ≤ to }
        requires to_high { to ≤ self.old.columns }
        ensures rows { self.new.rows
            ≡ with_row line (erased from to paper (row_at self.old.rows line)) self.old.rows }
        ensures columns { self.new.columns ≡ self.old.columns }
        ensures lines { self.new.lines ≡ self.old.lines }
        ensures told { (before : List (List Cell)) → Told before self.old → Told before self.new }
    {
        self.edit(line, Edit::Erase(from, to, paper));
    }

    /// Puts a character of one column.
    pub fn put_narrow(&mut self, line: u16, column: u16, character: char, rendition: Pen)
        requires line_low { 1 ≤ line }
        requires line_high { line ≤ self.old.lines }
        requires column_low { 1 ≤ column }
        requires column_high { column ≤ self.old.columns }
        ensures rows { self.new.rows
            ≡ with_row line (put column character false rendition (row_at self.old.rows line)) self.old.rows }
        ensures columns { self.new.columns ≡ self.old.columns }
        ensures lines { self.new.lines ≡ self.old.lines }
        ensures told { (before : List (List Cell)) → Told before self.old → Told before self.new }
    {
        self.edit(line, Edit::Narrow(column, character, rendition));
    }

    /// Puts a character of two columns.
    pub fn put_wide(&mut self, line: u16, column: u16, character: char, rendition: Pen)
        requires line_low { 1 ≤ line }
        requires line_high { line ≤ self.old.lines }
        requires column_low { 1 ≤ column }
        requires column_high { column < self.old.columns }
        ensures rows { self.new.rows
            ≡ with_row line (put column character true rendition (row_at self.old.rows line)) self.old.rows }
        ensures columns { self.new.columns ≡ self.old.columns }
        ensures lines { self.new.lines ≡ self.old.lines }
        ensures told { (before : List (List Cell)) → Told before self.old → Told before self.new }
    {
        self.edit(line, Edit::Wide(column, character, rendition));
    }

    /// Puts characters of ASCII, one after another.
    pub fn put_run(&mut self, line: u16, column: u16, characters: &[u8], rendition: Pen)
        requires line_low { 1 ≤ line }
        requires line_high { line ≤ self.old.lines }
        requires column_low { 1 ≤ column }
        requires column_high { column + length characters.now ≤ self.old.columns + 1 }
        ensures rows { self.new.rows
            ≡ with_row line (run_put column characters.now rendition (row_at self.old.rows line)) self.old.rows }
        ensures columns { self.new.columns ≡ self.old.columns }
        ensures lines { self.new.lines ≡ self.old.lines }
        ensures told { (before : List (List Cell)) → Told before self.old → Told before self.new }
    {
        let slot = self.order[line as usize - 1] as usize;
        let row = &mut self.slots[slot];
        row.put_run(column as usize, characters, rendition);
        self.origins[line as usize - 1] = 0;
    }

    /// Puts characters of one column, one after another.
    pub fn put_letters(&mut self, line: u16, column: u16, letters: &[char], rendition: Pen)
        requires line_low { 1 ≤ line }
        requires line_high { line ≤ self.old.lines }
        requires column_low { 1 ≤ column }
        requires column_high { column + length letters.now ≤ self.old.columns + 1 }
        ensures rows { self.new.rows
            ≡ with_row line (run_put column letters.now rendition (row_at self.old.rows line)) self.old.rows }
        ensures columns { self.new.columns ≡ self.old.columns }
        ensures lines { self.new.lines ≡ self.old.lines }
        ensures told { (before : List (List Cell)) → Told before self.old → Told before self.new }
    {
        let slot = self.order[line as usize - 1] as usize;
        let row = &mut self.slots[slot];
        row.put_letters(column as usize, letters, rendition);
        self.origins[line as usize - 1] = 0;
    }

    /// A character of width 0 joins the one that lies at a column, where that has fewer than two.
    pub fn add_mark(&mut self, line: u16, column: u16, mark: char)
        requires line_low { 1 ≤ line }
        requires line_high { line ≤ self.old.lines }
        requires column_low { 1 ≤ column }
        requires column_high { column ≤ self.old.columns }
        ensures rows { self.new.rows
            ≡ with_row line (mark_added column mark (row_at self.old.rows line)) self.old.rows }
        ensures columns { self.new.columns ≡ self.old.columns }
        ensures lines { self.new.lines ≡ self.old.lines }
        ensures told { (before : List (List Cell)) → Told before self.old → Told before self.new }
    {
        self.edit(line, Edit::Mark(column, mark));
    }

    /// Blank cells come in at a column; the row's last ones are lost.
    pub fn insert(&mut self, line: u16, n: u16, from: u16, paper: Paper)
        requires line_low { 1 ≤ line }
        requires line_high { line ≤ self.old.lines }
        requires from_low { 1 ≤ from }
        requires room { from + n ≤ self.old.columns + 1 }
        ensures rows { self.new.rows
            ≡ with_row line (inserted n from paper (row_at self.old.rows line)) self.old.rows }
        ensures columns { self.new.columns ≡ self.old.columns }
        ensures lines { self.new.lines ≡ self.old.lines }
        ensures told { (before : List (List Cell)) → Told before self.old → Told before self.new }
    {
        self.edit(line, Edit::Insert(n, from, paper));
    }

    /// Cells are taken out from a column on, and blank ones come in at the end.
    pub fn delete(&mut self, line: u16, n: u16, from: u16, paper: Paper)
        requires line_low { 1 ≤ line }
        requires line_high { line ≤ self.old.lines }
        requires from_low { 1 ≤ from }
        requires room { from + n ≤ self.old.columns + 1 }
        ensures rows { self.new.rows
            ≡ with_row line (deleted n from paper (row_at self.old.rows line)) self.old.rows }
        ensures columns { self.new.columns ≡ self.old.columns }
        ensures lines { self.new.lines ≡ self.old.lines }
        ensures told { (before : List (List Cell)) → Told before self.old → Told before self.new }
    {
        self.edit(line, Edit::Delete(n, from, paper));
    }

    /// Blanks the lines from one to another; none where the second lies before the first.
    pub fn erase_lines(&mut self, from: u16, to: u16, paper: Paper)
        requires low { 1 ≤ from }
        requires apart { from ≤ to + 1 }
        requires high { to ≤ self.old.lines }
        ensures rows { self.new.rows ≡ lines_erased from to self.old.columns paper self.old.rows }
        ensures columns { self.new.columns ≡ self.old.columns }
        ensures lines { self.new.lines ≡ self.old.lines }
        ensures told { (before : List (List Cell)) → Told before self.old → Told before self.new }
    {
        let (first, last) = (from as usize, to as usize + 1);
        let cell = Cell::blank(paper);
        fill_lines(
            self.slots.as_mut_slice(),
            self.order.as_slice(),
            first,
            last,
            cell,
        );
        forget_lines(self.origins.as_mut_slice(), first, last);
    }

    /// Blanks all lines.
    pub fn clear(&mut self, paper: Paper)
        ensures rows { self.new.rows ≡ blank_rows self.old.columns self.old.lines paper }
        ensures columns { self.new.columns ≡ self.old.columns }
        ensures lines { self.new.lines ≡ self.old.lines }
        ensures told { (before : List (List Cell)) → Told before self.old → Told before self.new }
    {
        let lines = self.lines();
        self.erase_lines(1, lines, paper);
    }

    /// Fills the sheet with the letter E (DECALN).
    pub fn align(&mut self)
        ensures rows { self.new.rows ≡ aligned self.old.columns self.old.lines }
        ensures columns { self.new.columns ≡ self.old.columns }
        ensures lines { self.new.lines ≡ self.old.lines }
        ensures told { (before : List (List Cell)) → Told before self.old → Told before self.new }
    {
        let last = self.order.len() + 1;
        let cell = Cell::alignment();
        fill_lines(
            self.slots.as_mut_slice(),
            self.order.as_slice(),
            1,
            last,
            cell,
        );
        forget_lines(self.origins.as_mut_slice(), 1, last);
    }

    /// The lines from the top to the bottom move up by `n`, and blank ones come in.
    pub fn scroll_up(&mut self, n: u16, top: u16, bottom: u16, paper: Paper)
        requires low { 1 ≤ top }
        requires apart { top ≤ bottom }
        requires high { bottom ≤ self.old.lines }
        ensures rows { self.new.rows
            ≡ scrolled_up n top bottom (blank_row self.old.columns paper) self.old.rows }
        ensures columns { self.new.columns ≡ self.old.columns }
        ensures lines { self.new.lines ≡ self.old.lines }
        ensures told { (before : List (List Cell)) → Told before self.old → Told before self.new }
    {
        let (top, bottom) = (top as usize, bottom as usize);
        let n = (n as usize).min(bottom + 1 - top);
        turn(self.order.as_mut_slice(), n, top, bottom);
        let (first, last) = (bottom + 1 - n, bottom + 1);
        let cell = Cell::blank(paper);
        fill_lines(
            self.slots.as_mut_slice(),
            self.order.as_slice(),
            first,
            last,
            cell,
        );
        turn_origins(self.origins.as_mut_slice(), n, top, bottom, first, last);
    }

    /// The lines from the top to the bottom move down by `n`, and blank ones come in.
    pub fn scroll_down(&mut self, n: u16, top: u16, bottom: u16, paper: Paper)
        requires low { 1 ≤ top }
        requires apart { top ≤ bottom }
        requires high { bottom ≤ self.old.lines }
        ensures rows { self.new.rows
            ≡ scrolled_down n top bottom (blank_row self.old.columns paper) self.old.rows }
        ensures columns { self.new.columns ≡ self.old.columns }
        ensures lines { self.new.lines ≡ self.old.lines }
        ensures told { (before : List (List Cell)) → Told before self.old → Told before self.new }
    {
        let (top, bottom) = (top as usize, bottom as usize);
        let n = (n as usize).min(bottom + 1 - top);
        turn(self.order.as_mut_slice(), bottom + 1 - top - n, top, bottom);
        let (first, last) = (top, top + n);
        let cell = Cell::blank(paper);
        fill_lines(
            self.slots.as_mut_slice(),
            self.order.as_slice(),
            first,
            last,
            cell,
        );
        turn_origins(
            self.origins.as_mut_slice(),
            bottom + 1 - top - n,
            top,
            bottom,
            first,
            last,
        );
    }

    /// A blank sheet, of which no line's origin is known. Only here memory is taken.
    pub fn new(alloc: Global, columns: u16, lines: u16) -> Result<Self, AllocError>
        requires columns_low { LEAST_COLUMNS ≤ columns }
        requires columns_high { columns ≤ MOST_COLUMNS }
        requires lines_low { 1 ≤ lines }
        requires lines_high { lines ≤ MOST_LINES }
        ensures { IfOk result (λ s. s ≡ first_grid columns lines) }
    {
        let order = first_order(alloc, lines)?;
        let slots = blank_slots(alloc, columns, lines)?;
        let origins = vec![in alloc; 0; lines as usize]?;
        Ok(Sheet {
            columns,
            order,
            slots,
            origins,
        })
    }

    /// Becomes the other sheet, the origins of its rows too. It takes no memory.
    pub fn copy_from(&mut self, other: &Sheet)
        requires columns { other.now.columns ≡ self.old.columns }
        requires lines { other.now.lines ≡ self.old.lines }
        ensures { self.new ≡ other.now }
    {
        self.order
            .as_mut_slice()
            .copy_from_slice(other.order.as_slice());
        copy_slots(self.slots.as_mut_slice(), other.slots.as_slice());
        self.origins
            .as_mut_slice()
            .copy_from_slice(other.origins.as_slice());
    }

    /// How many columns each row has.
    pub fn columns(&self) -> u16
        ensures value { result ≡ self.now.columns }
        ensures low { LEAST_COLUMNS ≤ result }
        ensures high { result ≤ MOST_COLUMNS }
    {
        self.columns
    }

    /// How many rows there are.
    pub fn lines(&self) -> u16
        ensures value { result ≡ self.now.lines }
        ensures rows { length self.now.rows ≡ self.now.lines }
        ensures low { 1 ≤ result }
        ensures high { result ≤ MOST_LINES }
    {
        self.order.len() as u16
    }

    /// The slot of a line.
    #[inline]
    fn slot(&self, line: u16) -> &Slot
        requires low { 1 ≤ line }
        requires high { line ≤ self.now.lines }
        ensures value { result.now ≡ row_at self.now.rows line }
        ensures columns { length result.now ≡ self.now.columns }
        ensures whole { Whole result.now }
    {
        let slot = self.order[line as usize - 1] as usize;
        &self.slots[slot]
    }

    /// The cells of a line.
    pub fn row(&self, line: u16) -> &[Cell]
        requires low { 1 ≤ line }
        requires high { line ≤ self.now.lines }
        ensures value { result.now ≡ row_at self.now.rows line }
        ensures columns { length result.now ≡ self.now.columns }
        ensures whole { Whole result.now }
    {
        self.slot(line).cells()
    }

    /// How many of a line's first cells may be in use: behind them all are blank.
    pub fn used(&self, line: u16) -> usize
        requires low { 1 ≤ line }
        requires high { line ≤ self.now.lines }
        ensures { IsUsed (row_at self.now.rows line) result }
    {
        self.slot(line).used()
    }

    /// The line of which this one has the row, as rows stood when the marks were last cleared; 0 where that isn't known,
    /// as the row was written since.
    pub fn origin(&self, line: u16) -> u16
        requires low { 1 ≤ line }
        requires high { line ≤ self.now.lines }
        ensures { result ≡ origin_of self.now.origins line }
    {
        self.origins[line as usize - 1]
    }

    /// Whether a line was touched since the marks were last cleared.
    pub fn is_touched(&self, line: u16) -> bool
        requires low { 1 ≤ line }
        requires high { line ≤ self.now.lines }
        ensures { result ≡ is_touched self.now.origins line }
    {
        self.origin(line) != line
    }

    /// Whether a line was touched since the marks were last cleared.
    pub fn any_touched(&self) -> bool
        ensures { result ≡ false → (line : ℕ) → 1 ≤ line → line ≤ self.now.lines
            → is_touched self.now.origins line ≡ false }
    {
        is_any_touched(self.origins.as_slice())
    }

    /// The first line from one on that was touched since the marks were last cleared; one behind the last where none was.
    pub fn next_touched(&self, line: u16) -> u16
        requires low { 1 ≤ line }
        requires high { line ≤ self.now.lines + 1 }
        ensures low { line ≤ result }
        ensures high { result ≤ self.now.lines + 1 }
        ensures between { (k : ℕ) → line ≤ k → k < result → is_touched self.now.origins k ≡ false }
        ensures touched { result ≤ self.now.lines → is_touched self.now.origins result ≡ true }
    {
        next_touched(self.origins.as_slice(), line as usize - 1) as u16 + 1
    }

    /// From here on no line's origin is known, as where another sheet takes the place of one that was shown.
    pub fn touch_all(&mut self)
        ensures rows { self.new.rows ≡ self.old.rows }
        ensures columns { self.new.columns ≡ self.old.columns }
        ensures lines { self.new.lines ≡ self.old.lines }
        ensures told { (before : List (List Cell)) → Told before self.new }
    {
        let last = self.order.len() + 1;
        forget_lines(self.origins.as_mut_slice(), 1, last);
    }

    /// From here on lines are told against the rows of now.
    pub fn clear_touched(&mut self)
        ensures rows { self.new.rows ≡ self.old.rows }
        ensures columns { self.new.columns ≡ self.old.columns }
        ensures lines { self.new.lines ≡ self.old.lines }
        ensures untouched { (line : ℕ) → 1 ≤ line → line ≤ self.old.lines → is_touched self.new.origins line
            ≡ false }
        ensures told { Told self.old.rows self.new }
    {
        name_lines(self.origins.as_mut_slice());
    }
}

/// Line r is in slot r - 1.
fn first_order(alloc: Global, lines: u16) -> Result<Vec<u16>, AllocError>
    ensures { IfOk result (λ order. order.items ≡ table lines (λ line. line - 1)) }
{
    let mut order = Vec::with_capacity(alloc, lines as usize)?;
    for line in 0..lines {
        order.push(line)?;
    }
    Ok(order)
}

/// As many blank rows as lines.
fn blank_slots(alloc: Global, columns: u16, lines: u16) -> Result<Vec<Slot>, AllocError>
    ensures { IfOk result (λ slots. slots.items
        ≡ table lines (λ _. blank_row columns Colour.Default)) }
{
    let mut slots = Vec::with_capacity(alloc, lines as usize)?;
    for line in 0..lines {
        slots.push(Slot::new(alloc, columns)?)?;
    }
    Ok(slots)
}

/// Each slot becomes the other one at its place.
fn copy_slots(slots: &mut [Slot], others: &[Slot])
    requires count { length others.now ≡ length slots.old }
    requires columns { (slot : ℕ) → slot < length slots.old
        → length (row_in others.now slot) ≡ length (row_in slots.old slot) }
    ensures { slots.new ≡ others.now }
{
    for i in 0..slots.len() {
        let row = &mut slots[i];
        row.copy_from(&others[i]);
    }
}

/// Each line has its own row.
fn name_lines(origins: &mut [u16])
    requires { length origins.old ≤ MOST_LINES }
    ensures { origins.new ≡ own_origins (length origins.old) }
{
    for i in 0..origins.len() {
        origins[i] = i as u16 + 1;
    }
}

/// Each line from top to bottom takes the name of the one `n` below it, the last `n` those of the first.
fn turn(order: &mut [u16], n: usize, top: usize, bottom: usize)
    requires low { 1 ≤ top }
    requires room { top + n ≤ bottom + 1 }
    requires apart { top ≤ bottom }
    requires high { bottom ≤ length order.old }
    ensures { order.new ≡ turned_up n top bottom order.old }
{
    order[top - 1..bottom].rotate_left(n);
}

/// Makes the rows of the lines from one to before another full of one cell.
fn fill_lines(slots: &mut [Slot], order: &[u16], first: usize, last: usize, cell: Cell)
    requires once { Once order.now }
    requires slots { length slots.old ≡ length order.now }
    requires low { 1 ≤ first }
    requires apart { first ≤ last }
    requires high { last ≤ length order.now + 1 }
    ensures lines { LinesFilled first last cell order.now slots.old slots.new }
    ensures slots { SlotsStayOrFill cell slots.old slots.new }
{
    for line in first..last {
        let slot = order[line - 1] as usize;
        let row = &mut slots[slot];
        row.fill(cell);
    }
}

/// Where the rows of the lines from one to before another came from isn't known.
fn forget_lines(origins: &mut [u16], first: usize, last: usize)
    requires low { 1 ≤ first }
    requires apart { first ≤ last }
    requires high { last ≤ length origins.old + 1 }
    ensures { origins.new ≡ unknown_from first last origins.old }
{
    for line in first..last {
        origins[line - 1] = 0;
    }
}

/// The origins of lines turn with their rows, and those from one to before another aren't known then.
fn turn_origins(origins: &mut [u16], n: usize, top: usize, bottom: usize, first: usize, last: usize)
    requires low { 1 ≤ top }
    requires room { top + n ≤ bottom + 1 }
    requires apart { top ≤ bottom }
    requires high { bottom ≤ length origins.old }
    requires first_low { 1 ≤ first }
    requires first_high { first ≤ last }
    requires last_high { last ≤ length origins.old + 1 }
    ensures { origins.new ≡ unknown_from first last (turned_up n top bottom origins.old) }
{
    turn(origins, n, top, bottom);
    forget_lines(origins, first, last);
}

/// Whether a line hasn't its own row. It goes over all of them with no way out, since that is done many at a time.
fn is_any_touched(origins: &[u16]) -> bool
    requires { length origins.now ≤ MOST_LINES }
    ensures { result ≡ false → (line : ℕ) → 1 ≤ line → line ≤ length origins.now
        → is_touched origins.now line ≡ false }
{
    let mut any = false;
    for i in 0..origins.len() {
        any |= origins[i] != i as u16 + 1;
    }
    any
}
