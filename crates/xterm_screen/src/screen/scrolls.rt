//! Lines that move. Rows that enter are blank in a paper, and the rows themselves stay where they lie.

ghost use Rattle.std.specs.Prelude.{◌≡◌};
ghost use Rattle.xterm_screen.specs.Picture.{KeepsTold};
ghost use Rattle.xterm_screen.specs.Scrolls.{indexed, lines_deleted, lines_inserted, region_lowered, region_raised, reverse_indexed};

use crate::screen::Screen;
use sheet::Paper;

impl Screen {
    /// IND: one line down; at the bottom margin the region moves up.
    pub fn index(&mut self, paper: Paper)
        ensures picture { self.new.picture ≡ indexed paper self.old.picture }
        ensures told { KeepsTold self.old self.new }
    {
        self.wrap = false;
        if self.line == self.bottom {
            self.shown.scroll_up(1, self.top, self.bottom, paper);
        } else {
            self.line = (self.line + 1).min(self.lines);
        }
    }

    /// RI: one line up; at the top margin the region moves down.
    pub fn reverse_index(&mut self, paper: Paper)
        ensures picture { self.new.picture ≡ reverse_indexed paper self.old.picture }
        ensures told { KeepsTold self.old self.new }
    {
        self.wrap = false;
        if self.line == self.top {
            self.shown.scroll_down(1, self.top, self.bottom, paper);
        } else {
            self.line = (self.line - 1).max(1);
        }
    }

    /// SU: the rows inside the margins move up by `n`; cursor and wrap stay.
    pub fn scroll_up(&mut self, n: u16, paper: Paper)
        ensures picture { self.new.picture ≡ region_raised n paper self.old.picture }
        ensures told { KeepsTold self.old self.new }
    {
        self.shown.scroll_up(n, self.top, self.bottom, paper);
    }

    /// SD: the rows inside the margins move down by `n`; cursor and wrap stay.
    pub fn scroll_down(&mut self, n: u16, paper: Paper)
        ensures picture { self.new.picture ≡ region_lowered n paper self.old.picture }
        ensures told { KeepsTold self.old self.new }
    {
        self.shown.scroll_down(n, self.top, self.bottom, paper);
    }

    /// IL: `n` blank lines come in at the cursor's, and those from it to the bottom margin move down; the cursor
    /// goes to column 1. Outside the margins nothing.
    pub fn insert_lines(&mut self, n: u16, paper: Paper)
        ensures picture { self.new.picture ≡ lines_inserted n paper self.old.picture }
        ensures told { KeepsTold self.old self.new }
    {
        if self.top <= self.line && self.line <= self.bottom {
            self.shown.scroll_down(n, self.line, self.bottom, paper);
            self.column = 1;
            self.wrap = false;
        }
    }

    /// DL: `n` lines from the cursor's on go away, those below move up, and blank ones come in at the bottom
    /// margin; the cursor goes to column 1. Outside the margins nothing.
    pub fn delete_lines(&mut self, n: u16, paper: Paper)
        ensures picture { self.new.picture ≡ lines_deleted n paper self.old.picture }
        ensures told { KeepsTold self.old self.new }
    {
        if self.top <= self.line && self.line <= self.bottom {
            self.shown.scroll_up(n, self.line, self.bottom, paper);
            self.column = 1;
            self.wrap = false;
        }
    }
}
