//! Cells that come in at the cursor and that are taken out there. The cursor stays, and a pending wrap is cleared.

ghost use Rattle.std.specs.Prelude.{◌≡◌, ◌+◌, ◌≤◌};
ghost use Rattle.xterm_screen.specs.CellEdits.{cells_deleted, cells_inserted, cells_left};
ghost use Rattle.xterm_screen.specs.Picture.{KeepsTold};

use crate::screen::Screen;
use sheet::Paper;

impl Screen {
    /// ICH: `n` blank cells come in at the cursor; that cell and those right of it move right, and the last ones
    /// are lost.
    pub fn insert_cells(&mut self, n: u16, paper: Paper)
        ensures picture { self.new.picture ≡ cells_inserted n paper self.old.picture }
        ensures told { KeepsTold self.old self.new }
    {
        let count = self.cells_left(n);
        self.shown.insert(self.line, count, self.column, paper);
        self.wrap = false;
    }

    /// DCH: `n` cells from the cursor on are taken out; those right of them move left, and blank ones come in at
    /// the last column.
    pub fn delete_cells(&mut self, n: u16, paper: Paper)
        ensures picture { self.new.picture ≡ cells_deleted n paper self.old.picture }
        ensures told { KeepsTold self.old self.new }
    {
        let count = self.cells_left(n);
        self.shown.delete(self.line, count, self.column, paper);
        self.wrap = false;
    }

    /// At most the number of cells from the cursor to the last column.
    fn cells_left(&self, n: u16) -> u16
        ensures value { result ≡ cells_left n self.now.picture }
        ensures room { self.now.picture.column + result ≤ self.now.picture.columns + 1 }
    {
        n.min(self.columns + 1 - self.column)
    }
}
