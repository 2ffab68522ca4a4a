//! Erasing, in a paper. The cursor stays, and a pending wrap is cleared.

ghost use Rattle.std.specs.Prelude.{◌≡◌, ◌+◌, ◌≤◌};
ghost use Rattle.xterm_screen.specs.Erasures.{cells_erased, display_erased, first_column, first_line, last_column, last_line, line_erased};
ghost use Rattle.xterm_screen.specs.Picture.{KeepsTold};

use crate::screen::Screen;
use sheet::Paper;

impl Screen {
    /// EL: part 0 is from the cursor to the line's end, 1 from its start to the cursor, 2 all.
    pub fn erase_line(&mut self, part: u8, paper: Paper)
        requires { part ≤ 2 }
        ensures picture { self.new.picture ≡ line_erased part paper self.old.picture }
        ensures told { KeepsTold self.old self.new }
    {
        let (from, to) = columns_of(part, self.column, self.columns);
        self.shown.erase(self.line, from, to, paper);
        self.wrap = false;
    }

    /// ED: part 0 is from the cursor to the end, 1 from the start to the cursor, 2 all.
    pub fn erase_display(&mut self, part: u8, paper: Paper)
        requires { part ≤ 2 }
        ensures picture { self.new.picture ≡ display_erased part paper self.old.picture }
        ensures told { KeepsTold self.old self.new }
    {
        self.erase_line(part, paper);
        let (first, last) = lines_of(part, self.line, self.lines);
        self.shown.erase_lines(first, last, paper);
    }

    /// ECH: `n` cells from the cursor on are blank, at most to the last column.
    pub fn erase_cells(&mut self, n: u16, paper: Paper)
        requires { 1 ≤ n }
        ensures picture { self.new.picture ≡ cells_erased n paper self.old.picture }
        ensures told { KeepsTold self.old self.new }
    {
        let to = self.column.saturating_add(n - 1).min(self.columns);
        self.shown.erase(self.line, self.column, to, paper);
        self.wrap = false;
    }
}

/// The columns of the cursor's line that a part has, from the first to the last.
fn columns_of(part: u8, cursor: u16, columns: u16) -> (u16, u16)
    requires part { part ≤ 2 }
    requires low { 1 ≤ cursor }
    requires high { cursor ≤ columns }
    ensures first { result.0 ≡ first_column part cursor }
    ensures last { result.1 ≡ last_column part cursor columns }
    ensures low { 1 ≤ result.0 }
    ensures apart { result.0 ≤ result.1 }
    ensures high { result.1 ≤ columns }
{
    match part {
        0 => (cursor, columns),
        1 => (1, cursor),
        _ => (1, columns),
    }
}

/// The other lines that a part has, from the first to the last.
fn lines_of(part: u8, cursor: u16, lines: u16) -> (u16, u16)
    requires part { part ≤ 2 }
    requires low { 1 ≤ cursor }
    requires high { cursor ≤ lines }
    requires few { lines ≤ 500 }
    ensures first { result.0 ≡ first_line part cursor }
    ensures last { result.1 ≡ last_line part cursor lines }
    ensures low { 1 ≤ result.0 }
    ensures apart { result.0 ≤ result.1 + 1 }
    ensures high { result.1 ≤ lines }
{
    match part {
        0 => (cursor + 1, lines),
        1 => (1, cursor - 1),
        _ => (1, lines),
    }
}
