//! Moves of the cursor. Each takes the pending wrap away.

ghost use Rattle.std.specs.Prelude.{◌≡◌, ◌≤◌};
ghost use Rattle.xterm_screen.specs.Moves.{line_placed, lowered, moved_home, moved_to_left, on_column, placed, placed_on_line, put_back, stepped_down, stepped_left, stepped_right, stepped_up, wrap_cleared};
ghost use Rattle.xterm_screen.specs.Picture.{KeepsTold};

use crate::screen::Screen;

impl Screen {
    /// CUU: `n` lines up, at most to the top margin from it or below, else to line 1.
    pub fn step_up(&mut self, n: u16)
        ensures picture { self.new.picture ≡ stepped_up n self.old.picture }
        ensures told { KeepsTold self.old self.new }
    {
        let stop = if self.top <= self.line { self.top } else { 1 };
        self.line = self.line.saturating_sub(n).max(stop);
        self.wrap = false;
    }

    /// CUD: `n` lines down, at most to the bottom margin from it or above, else to the last line.
    pub fn step_down(&mut self, n: u16)
        ensures picture { self.new.picture ≡ stepped_down n self.old.picture }
        ensures told { KeepsTold self.old self.new }
    {
        let stop = if self.line <= self.bottom {
            self.bottom
        } else {
            self.lines
        };
        self.line = self.line.saturating_add(n).min(stop);
        self.wrap = false;
    }

    /// VPR: `n` lines down, at most to the last line, or to the bottom margin with `origin`.
    pub fn lower(&mut self, n: u16, origin: bool)
        ensures picture { self.new.picture ≡ lowered n origin self.old.picture }
        ensures told { KeepsTold self.old self.new }
    {
        let stop = if origin { self.bottom } else { self.lines };
        self.line = self.line.saturating_add(n).min(stop);
        self.wrap = false;
    }

    /// CUF and HPR: `n` columns right, at most to the last one.
    pub fn step_right(&mut self, n: u16)
        ensures picture { self.new.picture ≡ stepped_right n self.old.picture }
        ensures told { KeepsTold self.old self.new }
    {
        self.column = self.column.saturating_add(n).min(self.columns);
        self.wrap = false;
    }

    /// CUB and BS: `n` columns left, at least column 1.
    pub fn step_left(&mut self, n: u16)
        ensures picture { self.new.picture ≡ stepped_left n self.old.picture }
        ensures told { KeepsTold self.old self.new }
    {
        self.column = self.column.saturating_sub(n).max(1);
        self.wrap = false;
    }

    /// CR: column 1.
    pub fn to_left(&mut self)
        ensures picture { self.new.picture ≡ moved_to_left self.old.picture }
        ensures told { KeepsTold self.old self.new }
    {
        self.column = 1;
        self.wrap = false;
    }

    /// CHA and HPA: a column from 1, at most the last one.
    pub fn to_column(&mut self, column: u16)
        requires { 1 ≤ column }
        ensures picture { self.new.picture ≡ on_column column self.old.picture }
        ensures told { KeepsTold self.old self.new }
    {
        self.column = column.min(self.columns);
        self.wrap = false;
    }

    /// VPA: a line from 1, counted as `place` counts it; the column stays.
    pub fn to_line(&mut self, line: u16, origin: bool)
        requires { 1 ≤ line }
        ensures picture { self.new.picture ≡ placed_on_line line origin self.old.picture }
        ensures told { KeepsTold self.old self.new }
    {
        self.line = self.line_placed(line, origin);
        self.wrap = false;
    }

    /// CUP: a line and a column from 1. With `origin` lines are counted from the top margin and end at the bottom
    /// margin.
    pub fn place(&mut self, line: u16, column: u16, origin: bool)
        requires line { 1 ≤ line }
        requires column { 1 ≤ column }
        ensures picture { self.new.picture ≡ placed line column origin self.old.picture }
        ensures told { KeepsTold self.old self.new }
    {
        self.line = self.line_placed(line, origin);
        self.column = column.min(self.columns);
        self.wrap = false;
    }

    /// Column 1 of line 1, or of the top margin with `origin`.
    pub fn home(&mut self, origin: bool)
        ensures picture { self.new.picture ≡ moved_home origin self.old.picture }
        ensures told { KeepsTold self.old self.new }
    {
        self.line = if origin { self.top } else { 1 };
        self.column = 1;
        self.wrap = false;
    }

    /// Takes the pending wrap away, for what else clears it.
    pub fn clear_wrap(&mut self)
        ensures picture { self.new.picture ≡ wrap_cleared self.old.picture }
        ensures told { KeepsTold self.old self.new }
    {
        self.wrap = false;
    }

    /// DECRC: the saved line and column, and the saved wrap. With `origin` the line is moved into the margins; the
    /// wrap is pending only with `autowrap` and at the last column.
    pub fn put_back(&mut self, line: u16, column: u16, wrap: bool, origin: bool, autowrap: bool)
        requires line_low { 1 ≤ line }
        requires line_high { line ≤ self.old.picture.lines }
        requires column { 1 ≤ column }
        ensures picture { self.new.picture
            ≡ put_back line column wrap origin autowrap self.old.picture }
        ensures told { KeepsTold self.old self.new }
    {
        self.line = if origin {
            line.min(self.bottom).max(self.top)
        } else {
            line
        };
        self.column = column.min(self.columns);
        self.wrap = wrap && autowrap && self.column == self.columns;
    }

    /// The line of a number from 1.
    fn line_placed(&self, line: u16, origin: bool) -> u16
        requires { 1 ≤ line }
        ensures value { result ≡ line_placed line origin self.now.picture }
        ensures low { 1 ≤ result }
        ensures high { result ≤ self.now.picture.lines }
    {
        if origin {
            self.top.saturating_add(line - 1).min(self.bottom)
        } else {
            line.min(self.lines)
        }
    }
}
