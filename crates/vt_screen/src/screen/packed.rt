//! Screens that are kept for later, without the blank tails of their lines.

ghost use Rattle.std.specs.Prelude.{◌≡◌, ℕ, ◌+◌, ◌≤◌, IfOk, List, OnOk, length, true};
ghost use Rattle.vt_screen.specs.Cells.{blank, row_at};
ghost use Rattle.vt_screen.specs.Packed.{ArePacked, AreUsed, IsPart, IsUsed, unpacked};
ghost use Rattle.vt_screen.specs.declared.cell.Row.{Row};
ghost use Rattle.vt_screen.specs.declared.screen.packed.Part.{Part};
ghost use Rattle.vt_screen.specs.Slots.{rows_of};
ghost use Rattle.vt_screen.specs.Touched.{Told, all_touched};

use crate::cell::{Cell, Row, Size};
use crate::grid::Grid;
use crate::limits::{LINES, WIDE_COLUMNS};
use crate::screen::Screen;
use std::alloc::{AllocError, Global};
use std::marker::Model;

// So many cells are packed at most before a line's come in.
const MOST_CELLS: usize = (LINES as usize - 1) * WIDE_COLUMNS as usize;

/// A line's size, and where its cells lie among those of all lines.
#[derive(Clone, Copy, Debug)]
struct Part {
    size: Size,
    from: u16,
    len: u8,
}

/// A screen of which each line is kept up to its last cell that isn't blank. Contracts see the picture.
#[derive(Debug, Drop)]
pub struct PackedScreen {
    cells: Vec<Cell>,
    parts: [Part; LINES as usize],
    tabs: [bool; WIDE_COLUMNS as usize],
    wide: bool,
    line: u8,
    column: u8,
    wrap: bool,
    top: u8,
    bottom: u8,
}

impl Model for PackedScreen {
    ghost use Rattle.vt_screen.specs.Picture.{Picture};

    ghost Value = { Picture };

    ghost use Rattle.vt_screen.specs.Packed.{IsPacked, packed_picture};

    ghost view = { packed_picture };

    ghost invariant = { IsPacked };
}

impl Screen {
    /// The screen to be kept for later.
    pub fn pack(&self, alloc: Global) -> Result<PackedScreen, AllocError>
        ensures { IfOk result (λ packed. packed ≡ self.now.picture) }
    {
        let used = used_by_line(&self.grid);
        let mut cells = Vec::with_capacity(alloc, sum(&used))?;
        let parts = pack_rows(&self.grid, &used, &mut cells)?;
        Ok(PackedScreen {
            cells,
            parts,
            tabs: self.tabs,
            wide: self.wide,
            line: self.line,
            column: self.column,
            wrap: self.wrap,
            top: self.top,
            bottom: self.bottom,
        })
    }

    /// Becomes the screen that was packed, with all lines touched.
    pub fn unpack(&mut self, packed: &PackedScreen)
        ensures picture { self.new.picture ≡ packed.now }
        ensures touched { self.new.touched ≡ all_touched }
        ensures told { (before : List Row) → Told before self.new }
    {
        put_rows(&mut self.grid, packed);
        self.tabs = packed.tabs;
        self.wide = packed.wide;
        self.line = packed.line;
        self.column = packed.column;
        self.wrap = packed.wrap;
        self.top = packed.top;
        self.bottom = packed.bottom;
        self.touched = [true; LINES as usize];
    }
}

impl PackedScreen {
    /// The row of a line.
    fn row(&self, line: u8) -> Row
        requires low { 1 ≤ line }
        requires high { line ≤ LINES }
        ensures value { result ≡ row_at self.now.rows line }
        ensures whole { length result.cells ≡ WIDE_COLUMNS }
    {
        let part = self.parts[line as usize - 1];
        row_of(self.cells.as_slice(), part)
    }
}

/// The row of a part: its cells, and blank ones behind them.
fn row_of(cells: &[Cell], part: Part) -> Row
    requires { IsPart cells.now part }
    ensures value { result ≡ unpacked cells.now part }
    ensures whole { length result.cells ≡ WIDE_COLUMNS }
{
    let mut row = Row::blank();
    row.size = part.size;
    let from = part.from as usize;
    for i in 0..part.len as usize {
        row.cells[i] = cells[from + i];
    }
    row
}

/// Puts back all rows.
fn put_rows(grid: &mut Grid, packed: &PackedScreen)
    ensures { (line : ℕ) → 1 ≤ line → line ≤ LINES
        → row_at (rows_of grid.new) line ≡ row_at packed.now.rows line }
{
    for line in 1..LINES + 1 {
        grid.set_row(line, packed.row(line));
    }
}

/// Whether a cell is blank, by its number.
#[inline]
#[tactic(auto, using(crate::proofs::Packed::blank_by_number))]
fn is_blank(cell: Cell) -> bool
    ensures { result ≡ true → cell ≡ blank }
{
    cell.number() == 32
}

/// How many cells a row has up to the last one that isn't blank. Each is looked at, whatever the others are, so that many
/// are looked at at once.
fn used(row: &Row) -> u8
    requires { length row.now.cells ≡ WIDE_COLUMNS }
    ensures { IsUsed row.now result }
{
    let mut used = 0;
    for column in 0..WIDE_COLUMNS {
        if !is_blank(row.cells[column as usize]) {
            used = column + 1;
        }
    }
    used
}

/// How many cells each row has up to the last one that isn't blank.
fn used_by_line(grid: &Grid) -> [u8; LINES as usize]
    ensures { AreUsed (rows_of grid.now) result (LINES + 1) }
{
    let mut all = [0; LINES as usize];
    for line in 1..LINES + 1 {
        all[line as usize - 1] = used(grid.row(line));
    }
    all
}

/// How many these are together.
fn sum(all: &[u8; LINES as usize]) -> usize {
    let mut sum = 0;
    for used in all {
        sum += *used as usize;
    }
    sum
}

/// Packs all rows, of which each has so many cells, and says where each lies.
fn pack_rows(
    grid: &Grid,
    used: &[u8; LINES as usize],
    cells: &mut Vec<Cell>,
) -> Result<[Part; LINES as usize], AllocError>
    requires none { length cells.old.items ≡ 0 }
    requires used { AreUsed (rows_of grid.now) used.now (LINES + 1) }
    ensures { IfOk result (λ parts.
        ArePacked (rows_of grid.now) cells.new.items parts (LINES + 1)) }
{
    let mut parts = [Part {
        size: Size::Single,
        from: 0,
        len: 0,
    }; LINES as usize];
    for line in 1..LINES + 1 {
        parts[line as usize - 1] = pack_row(grid.row(line), used[line as usize - 1], cells)?;
    }
    Ok(parts)
}

/// Puts a row's first cells, behind which all are blank, behind the others, and says where they lie.
fn pack_row(row: &Row, len: u8, cells: &mut Vec<Cell>) -> Result<Part, AllocError>
    requires whole { length row.now.cells ≡ WIDE_COLUMNS }
    requires used { IsUsed row.now len }
    requires few { length cells.old.items ≤ MOST_CELLS }
    ensures row { IfOk result (λ part. unpacked cells.new.items part ≡ row.now) }
    ensures part { IfOk result (λ part. IsPart cells.new.items part) }
    ensures others { (part : Part) → IsPart cells.old.items part → OnOk result
        (IsPart cells.new.items part
        × (unpacked cells.new.items part ≡ unpacked cells.old.items part)) }
    ensures few { OnOk result
        (length cells.new.items ≤ length cells.old.items + WIDE_COLUMNS) }
{
    let from = cells.len() as u16;
    cells.extend_from_slice(&row.cells[..len as usize])?;
    Ok(Part {
        size: row.size,
        from,
        len,
    })
}
