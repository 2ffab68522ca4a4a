//! Control characters.
ghost use Rattle.std.specs.Prelude.{◌≡◌};
ghost use Rattle.xterm_term.specs.Rows.{named, effect_of};
ghost use Rattle.xterm_term.specs.Controls.{controls, control_effect, line_fed};
ghost use Rattle.xterm_term.specs.Console.{console_of, on_paper};
ghost use Rattle.xterm_screen.specs.Picture.{KeepsTold};

use crate::Slot;
use crate::console::Console;

impl Console {
    /// Does what a control character asks for.
    #[inline]
    pub(crate) fn control(&mut self, byte: u8)
        ensures done { console_of self.new
            ≡ effect_of control_effect (named controls byte) (console_of self.old) }
        ensures told { KeepsTold self.old.screen self.new.screen }
    {
        match byte {
            8 => self.screen.step_left(1), // BS
            9 => self.screen.tab_forward(), // HT
            10..=12 => self.feed_line(), // LF, VT, FF
            13 => self.screen.to_left(), // CR
            14 => self.sets.invoked = Slot::G1, // SO
            15 => self.sets.invoked = Slot::G0, // SI
            _ => {}
        }
    }

    #[inline]
    fn feed_line(&mut self)
        ensures done { console_of self.new
            ≡ on_paper (line_fed self.old.modes.newline) (console_of self.old) }
        ensures told { KeepsTold self.old.screen self.new.screen }
    {
        if self.modes.newline {
            self.screen.to_left();
        }
        self.screen.index(self.rendition.paper());
    }
}
