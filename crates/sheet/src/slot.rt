//! A row that owns its cells.

ghost use Rattle.std.specs.Prelude.{◌≡◌, ◌+◌, ◌-◌, ◌<◌, ◌≤◌, IfOk, false, length, true};
ghost use Rattle.sheet.specs.Cells.{blank};
ghost use Rattle.sheet.specs.Edits.{deleted, erased, inserted, mark_added, put, run_put};
ghost use Rattle.sheet.specs.EditOf.{Fits, edited};
ghost use Rattle.sheet.specs.Grid.{IsUsed, blank_row, row_of};
ghost use Rattle.sheet.specs.Halves.{Whole};
ghost use Rattle.sheet.specs.Packed.{unpacked};
ghost use Rattle.sheet.specs.declared.rendition.Colour.{Colour};

use crate::cell::Cell;
use crate::edit::Edit;
use crate::pen::{Paper, Pen};
use crate::row;
use std::alloc::{AllocError, Global};
use std::marker::Model;

/// The cells of a row; their number never changes.
#[derive(Debug, Drop)]
pub(crate) struct Slot {
    cells: Vec<Cell>,
    // Behind so many cells all are blank, so that they needn't be blanked anew.
    used: usize,
}

impl Model for Slot {
    ghost use Rattle.std.specs.Prelude.{List};
    ghost use Rattle.sheet.specs.Cells.{Cell};

    ghost Value = { List Cell };

    ghost view = { λ s. s.cells.items };

    ghost use Rattle.sheet.specs.Grid.{IsUsed};

    ghost invariant = { λ s. IsUsed s.cells.items s.used };
}

impl Slot {
    /// A blank row.
    pub fn new(alloc: Global, columns: u16) -> Result<Self, AllocError>
        ensures { IfOk result (λ s. s ≡ blank_row columns Colour.Default) }
    {
        let cells = vec![in alloc; Cell::empty(); columns as usize]?;
        Ok(Slot { cells, used: 0 })
    }

    /// The cells of a row up to the last one that isn't blank.
    pub fn keep(alloc: Global, cells: &[Cell]) -> Result<Self, AllocError>
        ensures row { IfOk result (λ s. unpacked (length cells.now) s ≡ cells.now) }
        ensures short { IfOk result (λ s. length s ≤ length cells.now) }
    {
        let used = row::used(cells);
        let cells = cells[..used].to_vec(alloc)?;
        let used = cells.len();
        Ok(Slot { cells, used })
    }

    /// Becomes a row of which these are the first cells.
    pub fn restore(&mut self, kept: &Slot)
        requires { length kept.now ≤ length self.old }
        ensures { self.new ≡ unpacked (length self.old) kept.now }
    {
        row::restore(self.cells.as_mut_slice(), kept.cells(), self.used);
        self.used = kept.used;
    }

    /// Becomes the other row.
    pub fn copy_from(&mut self, other: &Slot)
        requires { length other.now ≡ length self.old }
        ensures { self.new ≡ other.now }
    {
        let used = self.used.max(other.used);
        row::copy_used(self.cells.as_mut_slice(), other.cells(), used);
        self.used = other.used;
    }

    pub fn cells(&self) -> &[Cell]
        ensures { result.now ≡ self.now }
    {
        self.cells.as_slice()
    }

    /// How many of the first cells may be in use: behind them all are blank.
    pub fn used(&self) -> usize
        ensures { IsUsed self.now result }
    {
        self.used
    }

    /// Makes all cells the same.
    pub fn fill(&mut self, cell: Cell)
        ensures { self.new ≡ row_of (length self.old) cell }
    {
        if cell.is_blank() {
            row::fill(self.cells.as_mut_slice(), 1, self.used, cell);
            self.used = 0;
        } else {
            let columns = self.cells.len();
            row::fill(self.cells.as_mut_slice(), 1, columns, cell);
            self.used = columns;
        }
    }

    pub fn erase(&mut self, from: usize, to: usize, paper: Paper)
        requires whole { Whole self.old }
        requires low { 1 ≤ from }
        requires apart { from ≤ to }
        requires high { to ≤ length self.old }
        ensures { self.new ≡ erased from to paper self.old }
    {
        if Cell::blank(paper).is_blank() {
            self.erase_used(from, to, paper);
        } else {
            row::erase(self.cells.as_mut_slice(), from, to, paper);
            self.used = self.cells.len();
        }
    }

    /// Erases in a paper in which cells are blank: those behind the ones in use are so already.
    fn erase_used(&mut self, from: usize, to: usize, paper: Paper)
        requires blank { blank paper ≡ blank Colour.Default }
        requires whole { Whole self.old }
        requires low { 1 ≤ from }
        requires apart { from ≤ to }
        requires high { to ≤ length self.old }
        ensures { self.new ≡ erased from to paper self.old }
    {
        if from > self.used {
            return;
        }
        let end = to.min(self.used);
        row::erase(self.cells.as_mut_slice(), from, end, paper);
        if end == self.used {
            self.used = from - 1;
        }
    }

    pub fn put_narrow(&mut self, column: usize, character: char, rendition: Pen)
        requires whole { Whole self.old }
        requires low { 1 ≤ column }
        requires high { column ≤ length self.old }
        ensures { self.new ≡ put column character false rendition self.old }
    {
        row::put_narrow(self.cells.as_mut_slice(), column, character, rendition);
        self.used = self.used.max(column);
    }

    pub fn put_wide(&mut self, column: usize, character: char, rendition: Pen)
        requires whole { Whole self.old }
        requires low { 1 ≤ column }
        requires high { column + 1 ≤ length self.old }
        ensures { self.new ≡ put column character true rendition self.old }
    {
        row::put_wide(self.cells.as_mut_slice(), column, character, rendition);
        self.used = self.used.max(column + 1);
    }

    pub fn put_run(&mut self, column: usize, characters: &[u8], rendition: Pen)
        requires whole { Whole self.old }
        requires low { 1 ≤ column }
        requires high { column + length characters.now ≤ length self.old + 1 }
        ensures { self.new ≡ run_put column characters.now rendition self.old }
    {
        row::put_run(self.cells.as_mut_slice(), column, characters, rendition);
        self.used = self.used.max(column + characters.len() - 1);
    }

    pub fn put_letters(&mut self, column: usize, letters: &[char], rendition: Pen)
        requires whole { Whole self.old }
        requires low { 1 ≤ column }
        requires high { column + length letters.now ≤ length self.old + 1 }
        ensures { self.new ≡ run_put column letters.now rendition self.old }
    {
        row::put_letters(self.cells.as_mut_slice(), column, letters, rendition);
        self.used = self.used.max(column + letters.len() - 1);
    }

    pub fn add_mark(&mut self, column: usize, mark: char)
        requires whole { Whole self.old }
        requires low { 1 ≤ column }
        requires high { column ≤ length self.old }
        ensures { self.new ≡ mark_added column mark self.old }
    {
        row::add_mark(self.cells.as_mut_slice(), column, mark);
        self.used = self.used.max(column);
    }

    pub fn insert(&mut self, n: usize, from: usize, paper: Paper)
        requires whole { Whole self.old }
        requires low { 1 ≤ from }
        requires room { from + n ≤ length self.old + 1 }
        requires bound { length self.old ≤ 1000 }
        ensures { self.new ≡ inserted n from paper self.old }
    {
        row::insert(self.cells.as_mut_slice(), n, from, paper);
        self.used = self.cells.len().min(self.used.max(from - 1) + n);
    }

    pub fn delete(&mut self, n: usize, from: usize, paper: Paper)
        requires whole { Whole self.old }
        requires low { 1 ≤ from }
        requires room { from + n ≤ length self.old + 1 }
        requires bound { length self.old ≤ 1000 }
        ensures { self.new ≡ deleted n from paper self.old }
    {
        row::delete(self.cells.as_mut_slice(), n, from, paper);
        if !Cell::blank(paper).is_blank() {
            self.used = self.cells.len();
        }
    }

    #[inline(always)]
    pub fn edit(&mut self, edit: Edit)
        requires whole { Whole self.old }
        requires bound { length self.old ≤ 1000 }
        requires fits { Fits (length self.old) edit }
        ensures { self.new ≡ edited edit self.old }
    {
        match edit {
            Edit::Erase(from, to, paper) => self.erase(from as usize, to as usize, paper),
            Edit::Narrow(column, character, rendition) => {
                self.put_narrow(column as usize, character, rendition)
            }
            Edit::Wide(column, character, rendition) => {
                self.put_wide(column as usize, character, rendition)
            }
            Edit::Mark(column, mark) => self.add_mark(column as usize, mark),
            Edit::Insert(n, from, paper) => self.insert(n as usize, from as usize, paper),
            Edit::Delete(n, from, paper) => self.delete(n as usize, from as usize, paper),
        }
    }
}
