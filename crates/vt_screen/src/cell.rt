//! Cells, and rows of 132 of them.

ghost use Rattle.std.specs.Prelude.{◌≡◌, ◌+◌, ◌*◌, ◌<◌, ◌≤◌, length};
ghost use Rattle.vt_screen.specs.Attributes.{byte_of};
ghost use Rattle.vt_screen.specs.CellEdits.{taken_out, moved_right};
ghost use Rattle.vt_screen.specs.Cells.{blank, blank_row, is_single};
ghost use Rattle.vt_screen.specs.Erasures.{part_erased};
ghost use Rattle.vt_screen.specs.Lines.{resized, filled_to};
ghost use Rattle.vt_screen.specs.Picture.{columns, margin_of};
ghost use Rattle.vt_screen.specs.Puts.{with_cell};
ghost use Rattle.vt_screen.specs.Written.{filled, written};

use crate::limits::{NARROW_COLUMNS, WIDE_COLUMNS};
use crate::rendition::Rendition;

/// A glyph and its rendition. Glyphs 32 to 126 are the characters of ASCII, those below 32 the special
/// graphics.
#[derive(Clone, Copy, Debug, PartialEq, Eq)]
pub struct Cell {
    pub glyph: u8,
    pub rendition: Rendition,
}

const _: () = prove!(size_of::<Cell>() == 2);

/// The size of a line: single width, double width, or a half of double height.
#[derive(Clone, Copy, Debug, PartialEq, Eq)]
pub enum Size {
    Single,
    Double,
    Top,
    Bottom,
}

/// A line's size and its cells from column 1 on.
#[derive(Clone, Copy, Debug, PartialEq, Eq)]
pub struct Row {
    pub size: Size,
    pub cells: [Cell; WIDE_COLUMNS as usize],
}

impl Cell {
    /// A space without rendition.
    pub fn blank() -> Self
        ensures { result ≡ blank }
    {
        Cell {
            glyph: 32,
            rendition: Rendition::plain(),
        }
    }

    /// The cell as a number: the byte of its rendition above its glyph. Cells are equal where their numbers are.
    pub fn number(self) -> u16
        ensures value { result ≡ 256 * byte_of self.rendition + self.glyph }
        ensures within { self.glyph < 256 }
    {
        256 * u16::from(self.rendition.byte()) + u16::from(self.glyph)
    }
}

impl Size {
    pub fn is_single(self) -> bool
        ensures { result ≡ is_single self }
    {
        match self {
            Size::Single => true,
            Size::Double | Size::Top | Size::Bottom => false,
        }
    }
}

impl Row {
    /// 132 blank cells, single width.
    pub fn blank() -> Self
        ensures { result ≡ blank_row }
    {
        Row {
            size: Size::Single,
            cells: [Cell::blank(); WIDE_COLUMNS as usize],
        }
    }

    /// Writes one cell.
    pub(crate) fn write(&mut self, column: u8, cell: Cell)
        requires whole { length self.old.cells ≡ WIDE_COLUMNS }
        requires low { 1 ≤ column }
        requires high { column ≤ WIDE_COLUMNS }
        ensures { self.new ≡ with_cell column cell self.old }
    {
        self.cells[column as usize - 1] = cell;
    }

    /// Writes glyphs from a column on, all with one rendition.
    pub(crate) fn write_run(&mut self, column: u8, glyphs: &[u8], rendition: Rendition)
        requires whole { length self.old.cells ≡ WIDE_COLUMNS }
        requires low { 1 ≤ column }
        requires high { column + length glyphs.now ≤ WIDE_COLUMNS + 1 }
        ensures written { self.new ≡ written column glyphs.now rendition self.old }
        ensures whole { length self.new.cells ≡ WIDE_COLUMNS }
    {
        let start = column as usize - 1;
        for (i, glyph) in glyphs.iter().enumerate() {
            self.cells[start + i] = Cell {
                glyph: *glyph,
                rendition,
            };
        }
    }

    /// Makes the cells from one column to another all the same.
    pub(crate) fn fill(&mut self, from: u8, to: u8, cell: Cell)
        requires whole { length self.old.cells ≡ WIDE_COLUMNS }
        requires low { 1 ≤ from }
        requires apart { from ≤ to + 1 }
        requires high { to ≤ WIDE_COLUMNS }
        ensures { self.new ≡ filled from to cell self.old }
    {
        let Cell { glyph, rendition } = cell;
        for i in from as usize - 1..to as usize {
            self.cells[i] = Cell { glyph, rendition };
        }
    }

    // Makes the cells from the first one on all the same. Of a narrow line the compiler knows the length, so that its
    // fill has no loop.
    #[inline]
    fn fill_front(&mut self, to: u8, cell: Cell)
        requires whole { length self.old.cells ≡ WIDE_COLUMNS }
        requires high { to ≤ WIDE_COLUMNS }
        ensures { self.new ≡ filled 1 to cell self.old }
    {
        if to == NARROW_COLUMNS {
            self.fill(1, NARROW_COLUMNS, cell);
        } else {
            self.fill(1, to, cell);
        }
    }

    /// Gives the row another size. From single to double the cells right of the middle become blank.
    pub(crate) fn resize(&mut self, size: Size, wide: bool)
        requires whole { length self.old.cells ≡ WIDE_COLUMNS }
        ensures { self.new ≡ resized wide size self.old }
    {
        if self.size.is_single() && !size.is_single() {
            self.fill(margin_of(wide, size) + 1, WIDE_COLUMNS, Cell::blank());
        }
        self.size = size;
    }

    /// Blanks the cells of a part, seen from the cursor's column.
    pub(crate) fn erase_part(&mut self, part: u8, column: u8)
        requires whole { length self.old.cells ≡ WIDE_COLUMNS }
        requires part { part ≤ 2 }
        requires low { 1 ≤ column }
        requires high { column ≤ WIDE_COLUMNS }
        ensures { self.new ≡ part_erased part column self.old }
    {
        match part {
            0 => self.fill(column, WIDE_COLUMNS, Cell::blank()),
            1 => self.fill(1, column, Cell::blank()),
            _ => self.fill(1, WIDE_COLUMNS, Cell::blank()),
        }
    }

    /// Fills the row to a column with one cell, single width.
    pub(crate) fn fill_to(&mut self, cell: Cell, to: u8)
        requires whole { length self.old.cells ≡ WIDE_COLUMNS }
        requires high { to ≤ WIDE_COLUMNS }
        ensures { self.new ≡ filled_to cell to self.old }
    {
        self.fill_front(to, cell);
        self.size = Size::Single;
    }

    /// Takes out `n` cells from a column on: those right of them up to the margin move left, and blank
    /// cells come in at the margin.
    pub(crate) fn take_out(&mut self, n: u8, from: u8, margin: u8)
        requires whole { length self.old.cells ≡ WIDE_COLUMNS }
        requires low { 1 ≤ from }
        requires room { from + n ≤ margin + 1 }
        requires high { margin ≤ WIDE_COLUMNS }
        ensures { self.new ≡ taken_out n from margin self.old }
    {
        let source = (from + n) as usize - 1..margin as usize;
        self.cells.copy_within(source, from as usize - 1);
        self.fill(margin + 1 - n, margin, Cell::blank());
    }

    /// Moves the cells from a column on one to the right; the one at the margin is lost.
    pub(crate) fn move_right(&mut self, from: u8, margin: u8)
        requires whole { length self.old.cells ≡ WIDE_COLUMNS }
        requires low { 1 ≤ from }
        requires within { from ≤ margin }
        requires high { margin ≤ WIDE_COLUMNS }
        ensures { self.new ≡ moved_right from margin self.old }
    {
        let source = from as usize - 1..margin as usize - 1;
        self.cells.copy_within(source, from as usize);
    }
}

/// How many columns a screen has.
pub(crate) fn columns_of(wide: bool) -> u8
    ensures { result ≡ columns wide }
{
    if wide { WIDE_COLUMNS } else { NARROW_COLUMNS }
}

/// The right margin of a line of a size: the number of columns, or half of it on a double size (EK-VT100-UG chapter 3).
pub fn margin_of(wide: bool, size: Size) -> u8
    ensures value { result ≡ margin_of wide size }
    ensures low { 40 ≤ result }
    ensures high { result ≤ WIDE_COLUMNS }
{
    if size.is_single() {
        columns_of(wide)
    } else {
        columns_of(wide) / 2
    }
}
