//! The margins, and the alignment pattern.

ghost use Rattle.std.specs.Prelude.{◌≡◌};
ghost use Rattle.xterm_screen.specs.Margins.{aligned, are_margins, margins_set};
ghost use Rattle.xterm_screen.specs.Picture.{KeepsTold};

use crate::screen::Screen;

impl Screen {
    /// DECSTBM: these margins and home, where top is at least 1 and above bottom, a bottom past the last line
    /// counting as that one; else false, and nothing changes.
    pub fn set_margins(&mut self, top: u16, bottom: u16, origin: bool) -> bool
        ensures answer { result ≡ are_margins top bottom self.old.picture.lines }
        ensures picture { self.new.picture ≡ margins_set top bottom origin self.old.picture }
        ensures told { KeepsTold self.old self.new }
    {
        let bottom = bottom.min(self.lines);
        if top < 1 || bottom <= top {
            return false;
        }
        self.top = top;
        self.bottom = bottom;
        self.home(origin);
        true
    }

    /// DECALN: every cell is the letter E; margins 1 and the last line, cursor at line 1 column 1.
    pub fn align(&mut self)
        ensures picture { self.new.picture ≡ aligned self.old.picture }
        ensures told { KeepsTold self.old self.new }
    {
        self.shown.align();
        self.line = 1;
        self.column = 1;
        self.wrap = false;
        self.top = 1;
        self.bottom = self.lines;
    }
}
