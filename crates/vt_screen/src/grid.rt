//! The 24 rows behind an index, so that a scroll moves no cells.

ghost use Rattle.std.specs.Prelude.{◌≡◌, ◌+◌, ◌-◌, ◌<◌, ◌≤◌, length, slice_set};
ghost use Rattle.vt_screen.specs.Cells.{blank_row, row_at, rows_by};
ghost use Rattle.vt_screen.specs.Erasures.{part_erased};
ghost use Rattle.vt_screen.specs.Lines.{filled_to};
ghost use Rattle.vt_screen.specs.Slots.{OncePerSlot, slot_at, row_in, rows_of, first_order, line_below, line_above, turned_up, turned_down};
ghost use Rattle.vt_screen.specs.Puts.{with_row, with_cell};
ghost use Rattle.vt_screen.specs.Written.{written, line_changed, lines_changed, lines_taken, slots_filled};
ghost use Rattle.vt_screen.specs.Touched.{touched_from};

use crate::cell::{Cell, Row};
use crate::limits::{LINES, WIDE_COLUMNS};
use crate::rendition::Rendition;
use crate::touched::touch_lines;
use std::marker::Model;

/// 24 slots for rows, and for each line the name of its slot.
#[derive(Debug, Drop)]
pub struct Grid {
    slots: [Row; LINES as usize],
    order: [u8; LINES as usize],
}

impl Model for Grid {
    ghost use Rattle.vt_screen.specs.Slots.{Held, OncePerSlot};

    ghost Value = { Held };

    ghost view = { λ g. record { order = g.order; slots = g.slots } };

    ghost invariant = { λ g. OncePerSlot (record { order = g.order; slots = g.slots }) };
}

impl Grid {
    /// All rows blank and single, line r in slot r - 1.
    pub fn new() -> Self
        ensures { result ≡ record { order = first_order; slots = rows_by (λ _. blank_row) } }
    {
        Grid {
            slots: [Row::blank(); LINES as usize],
            order: [
                0, 1, 2, 3, 4, 5, 6, 7, 8, 9, 10, 11, 12, 13, 14, 15, 16, 17, 18, 19, 20, 21, 22,
                23,
            ],
        }
    }

    pub fn copy_from(&mut self, other: &Grid)
        ensures { self.new ≡ other.now }
    {
        self.slots.copy_from_slice(&other.slots);
        self.order = other.order;
    }

    /// The name of a line's slot, from 0.
    pub fn slot_of(&self, line: u8) -> u8
        requires low { 1 ≤ line }
        requires high { line ≤ LINES }
        ensures value { result ≡ slot_at self.now.order line }
        ensures within { result < LINES }
        ensures once { OncePerSlot self.now }
    {
        self.order[line as usize - 1]
    }

    /// The row in a slot.
    pub fn row_in(&self, slot: u8) -> &Row
        requires { slot < LINES }
        ensures value { result.now ≡ row_in self.now.slots slot }
        ensures whole { length result.now.cells ≡ WIDE_COLUMNS }
    {
        &self.slots[slot as usize]
    }

    /// The row of a line.
    pub fn row(&self, line: u8) -> &Row
        requires low { 1 ≤ line }
        requires high { line ≤ LINES }
        ensures value { result.now ≡ row_at (rows_of self.now) line }
        ensures whole { length result.now.cells ≡ WIDE_COLUMNS }
    {
        self.row_in(self.slot_of(line))
    }

    /// Writes one cell.
    pub fn write(&mut self, line: u8, column: u8, cell: Cell)
        requires line_low { 1 ≤ line }
        requires line_high { line ≤ LINES }
        requires column_low { 1 ≤ column }
        requires column_high { column ≤ WIDE_COLUMNS }
        ensures rows { rows_of self.new ≡ line_changed (with_cell column cell) line self.old }
        ensures order { self.new.order ≡ self.old.order }
    {
        let slot = self.order[line as usize - 1] as usize;
        let row = &mut self.slots[slot];
        row.write(column, cell);
    }

    /// Writes glyphs from a column on.
    pub fn write_run(&mut self, line: u8, column: u8, glyphs: &[u8], rendition: Rendition)
        requires line_low { 1 ≤ line }
        requires line_high { line ≤ LINES }
        requires column_low { 1 ≤ column }
        requires column_high { column + length glyphs.now ≤ WIDE_COLUMNS + 1 }
        ensures rows { rows_of self.new
            ≡ line_changed (written column glyphs.now rendition) line self.old }
        ensures order { self.new.order ≡ self.old.order }
    {
        let slot = self.order[line as usize - 1] as usize;
        let row = &mut self.slots[slot];
        row.write_run(column, glyphs, rendition);
    }

    /// Puts another row at a line.
    pub fn set_row(&mut self, line: u8, row: Row)
        requires line_low { 1 ≤ line }
        requires line_high { line ≤ LINES }
        requires whole { length row.cells ≡ WIDE_COLUMNS }
        ensures rows { rows_of self.new ≡ with_row line row (rows_of self.old) }
        ensures order { self.new.order ≡ self.old.order }
    {
        let slot = self.order[line as usize - 1] as usize;
        self.slots[slot] = row;
    }

    /// Blanks the cells of a part of a line.
    pub fn erase_part(&mut self, part: u8, line: u8, column: u8)
        requires part { part ≤ 2 }
        requires line_low { 1 ≤ line }
        requires line_high { line ≤ LINES }
        requires column_low { 1 ≤ column }
        requires column_high { column ≤ WIDE_COLUMNS }
        ensures { rows_of self.new ≡ line_changed (part_erased part column) line self.old }
    {
        let mut row = *self.row(line);
        row.erase_part(part, column);
        self.set_row(line, row);
    }

    /// Fills a line to a column with one cell, single width.
    pub fn fill_line(&mut self, line: u8, cell: Cell, to: u8)
        requires line_low { 1 ≤ line }
        requires line_high { line ≤ LINES }
        requires high { to ≤ WIDE_COLUMNS }
        ensures rows { rows_of self.new ≡ line_changed (filled_to cell to) line self.old }
        ensures order { self.new.order ≡ self.old.order }
        ensures slots { let row = row_at (rows_of self.old) line in self.new.slots
            ≡ slice_set self.old.slots (slot_at self.old.order line) (filled_to cell to row) }
    {
        let slot = self.order[line as usize - 1] as usize;
        let row = &mut self.slots[slot];
        row.fill_to(cell, to);
    }

    /// Fills the lines from one to another.
    pub fn fill_lines(&mut self, first: u8, last: u8, cell: Cell, to: u8)
        requires low { 1 ≤ first }
        requires last { last ≤ LINES }
        requires apart { first ≤ last + 1 }
        requires high { to ≤ WIDE_COLUMNS }
        ensures rows { rows_of self.new
            ≡ lines_changed (filled_to cell to) first (last + 1) (rows_of self.old) }
        ensures order { self.new.order ≡ self.old.order }
        ensures slots { self.new.slots
            ≡ slots_filled cell to first (last + 1 - first) self.old.order self.old.slots }
    {
        let Cell { glyph, rendition } = cell;
        for line in first..last + 1 {
            self.fill_line(line, Cell { glyph, rendition }, to);
        }
    }

    /// Turns the names up by `n` from the top line to the bottom one, and touches these; no slot is written.
    pub fn turn_up(&mut self, n: u8, top: u8, bottom: u8, touched: &mut [bool; LINES as usize])
        requires low { 1 ≤ top }
        requires room { top + n ≤ bottom + 1 }
        requires apart { top ≤ bottom }
        requires high { bottom ≤ LINES }
        ensures rows { rows_of self.new ≡ lines_taken (line_below n top bottom) (rows_of self.old) }
        ensures order { self.new.order ≡ turned_up n top bottom self.old.order }
        ensures slots { self.new.slots ≡ self.old.slots }
        ensures touched { touched.new ≡ touched_from top (bottom + 1) touched.old }
    {
        let (n, top, bottom) = (n as usize, top as usize, bottom as usize);
        turn_lines(&mut self.order, n, top, bottom, touched);
    }

    /// Turns the names down by `n`.
    #[inline(never)]
    pub fn turn_down(&mut self, n: u8, top: u8, bottom: u8, touched: &mut [bool; LINES as usize])
        requires low { 1 ≤ top }
        requires room { top + n ≤ bottom + 1 }
        requires apart { top ≤ bottom }
        requires high { bottom ≤ LINES }
        ensures rows { rows_of self.new ≡ lines_taken (line_above n top bottom) (rows_of self.old) }
        ensures order { self.new.order ≡ turned_down n top bottom self.old.order }
        ensures slots { self.new.slots ≡ self.old.slots }
        ensures touched { touched.new ≡ touched_from top (bottom + 1) touched.old }
    {
        self.turn_up(bottom + 1 - top - n, top, bottom, touched);
    }
}

// `turn` and the marks, for the scroll that comes most often with numbers that the compiler knows: it is a few moves then.
#[inline]
fn turn_lines(
    order: &mut [u8; LINES as usize],
    n: usize,
    top: usize,
    bottom: usize,
    touched: &mut [bool; LINES as usize],
)
    requires low { 1 ≤ top }
    requires room { top + n ≤ bottom + 1 }
    requires apart { top ≤ bottom }
    requires high { bottom ≤ LINES }
    ensures order { order.new ≡ turned_up n top bottom order.old }
    ensures touched { touched.new ≡ touched_from top (bottom + 1) touched.old }
{
    if n == 1 && top == 1 && bottom == LINES as usize {
        turn(order, 1, 1, LINES as usize);
        touch_lines(touched, 1, LINES);
    } else {
        turn_part(order, n, top, bottom, touched);
    }
}

// The same of any other scroll; its calls stay out of the one above, which then saves no registers.
#[inline(never)]
fn turn_part(
    order: &mut [u8; LINES as usize],
    n: usize,
    top: usize,
    bottom: usize,
    touched: &mut [bool; LINES as usize],
)
    requires low { 1 ≤ top }
    requires room { top + n ≤ bottom + 1 }
    requires apart { top ≤ bottom }
    requires high { bottom ≤ LINES }
    ensures order { order.new ≡ turned_up n top bottom order.old }
    ensures touched { touched.new ≡ touched_from top (bottom + 1) touched.old }
{
    turn(order, n, top, bottom);
    touch_lines(touched, top as u8, bottom as u8);
}

/// Each line from top to bottom takes the name of the one `n` below it, the last `n` those of the first.
#[inline]
fn turn(order: &mut [u8; LINES as usize], n: usize, top: usize, bottom: usize)
    requires low { 1 ≤ top }
    requires room { top + n ≤ bottom + 1 }
    requires apart { top ≤ bottom }
    requires high { bottom ≤ LINES }
    ensures { order.new ≡ turned_up n top bottom order.old }
{
    order[top - 1..bottom].rotate_left(n);
}
