//! The main and the alternate sheet.

ghost use Rattle.std.specs.Prelude.{◌≡◌};
ghost use Rattle.xterm_screen.specs.Picture.{KeepsTold};
ghost use Rattle.xterm_screen.specs.Sheets.{alternate_shown, main_shown};

use crate::screen::Screen;
use sheet::Paper;
use std::mem::swap;

impl Screen {
    /// From the main sheet the alternate one is shown, blank in a paper; else nothing.
    pub fn show_alternate(&mut self, paper: Paper)
        ensures picture { self.new.picture ≡ alternate_shown paper self.old.picture }
        ensures told { KeepsTold self.old self.new }
    {
        if !self.alternate {
            swap(&mut self.shown, &mut self.other);
            self.shown.clear(paper);
            self.shown.touch_all();
            self.alternate = true;
        }
    }

    /// The main sheet is shown, as it was left.
    pub fn show_main(&mut self)
        ensures picture { self.new.picture ≡ main_shown self.old.picture }
        ensures told { KeepsTold self.old self.new }
    {
        if self.alternate {
            swap(&mut self.shown, &mut self.other);
            self.shown.touch_all();
            self.alternate = false;
        }
    }
}
