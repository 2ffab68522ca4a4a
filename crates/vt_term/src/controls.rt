//! Control characters.
ghost use Rattle.std.specs.Prelude.{◌≡◌};
ghost use Rattle.vt_term.specs.Rows.{named};
ghost use Rattle.vt_term.specs.Controls.{controls, control_effect, line_fed, invoked};
ghost use Rattle.vt_term.specs.Console.{console_of, on_picture, effect_of};
ghost use Rattle.vt_screen.specs.Touched.{KeepsTold};

use crate::Slot;
use crate::console::Console;
use vt_parser::Mode;

impl Console {
    /// Does what a control character asks for.
    #[inline(always)]
    pub(crate) fn control(&mut self, byte: u8)
        ensures done { console_of self.new
            ≡ effect_of control_effect (named controls byte) (console_of self.old) }
        ensures told { KeepsTold self.old.screen self.new.screen }
    {
        match byte {
            8 => self.screen.step_left(1), // BS
            9 => self.screen.tab_forward(), // HT
            10..=12 => self.feed_line(), // LF, VT, FF
            13 => self.screen.to_left(), // CR
            14 => self.invoke(Slot::G1), // SO
            15 => self.invoke(Slot::G0), // SI
            _ => {}
        }
    }

    #[inline]
    fn feed_line(&mut self)
        ensures done { console_of self.new
            ≡ on_picture (line_fed self.old.modes.newline) (console_of self.old) }
        ensures told { KeepsTold self.old.screen self.new.screen }
    {
        if self.modes.newline {
            self.screen.to_left();
        }
        self.screen.index();
    }

    fn invoke(&mut self, slot: Slot)
        ensures done { console_of self.new ≡ invoked slot self.old.modes.mode (console_of self.old) }
        ensures told { KeepsTold self.old.screen self.new.screen }
    {
        match self.modes.mode {
            Mode::Ansi => self.sets.invoked = slot,
            Mode::Vt52 => {}
        }
    }
}
