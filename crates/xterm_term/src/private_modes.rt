//! Control sequences with `?`.
ghost use Rattle.std.specs.Prelude.{◌≡◌, true};
ghost use Rattle.xterm_term.specs.PrivateModes.{Decom, Decawm, mode_effect, mode_set, modes_set, sheet_shown, save_switched, save_and_sheet_switched};
ghost use Rattle.xterm_term.specs.Effect.{control_sequence_effect};
ghost use Rattle.xterm_term.specs.Console.{console_of, IsSafe};
ghost use Rattle.xterm_screen.specs.Picture.{KeepsTold};

use crate::below::commands_keep_safe;
use crate::console::Console;

impl Console {
    /// Does what a control sequence with `?` asks for.
    #[inline(never)]
    pub(crate) fn obey_private_sequence(&mut self, last: u8, params: &[u16])
        requires { IsSafe (console_of self.old) }
        ensures done { console_of self.new
            ≡ control_sequence_effect true last params.now (console_of self.old) }
        ensures told { KeepsTold self.old.screen self.new.screen }
    {
        match last {
            b'h' => self.set_modes(true, params),
            b'l' => self.set_modes(false, params),
            _ => {}
        }
    }

    fn set_modes(&mut self, value: bool, params: &[u16])
        requires { IsSafe (console_of self.old) }
        ensures done { console_of self.new ≡ modes_set params.now value (console_of self.old) }
        ensures told { KeepsTold self.old.screen self.new.screen }
    {
        commands_keep_safe();
        for &param in params {
            self.set_mode(value, param);
        }
    }

    fn set_mode(&mut self, value: bool, param: u16)
        requires { IsSafe (console_of self.old) }
        ensures done { console_of self.new ≡ mode_set value (console_of self.old) param }
        ensures told { KeepsTold self.old.screen self.new.screen }
    {
        match param {
            1 => self.modes.cursor_keys = value, // DECCKM
            5 => self.modes.reverse_screen = value, // DECSCNM
            6 => self.set_origin(value), // DECOM
            7 => self.set_autowrap(value), // DECAWM
            25 => self.modes.cursor_shown = value, // DECTCEM
            47 | 1047 => self.show_sheet(value),
            1048 => self.switch_save(value),
            1049 => self.switch_save_and_sheet(value),
            _ => {}
        }
    }

    fn set_origin(&mut self, value: bool)
        ensures done { console_of self.new ≡ mode_effect value Decom (console_of self.old) }
        ensures told { KeepsTold self.old.screen self.new.screen }
    {
        self.modes.origin = value;
        self.screen.home(value);
    }

    fn set_autowrap(&mut self, value: bool)
        ensures done { console_of self.new ≡ mode_effect value Decawm (console_of self.old) }
        ensures told { KeepsTold self.old.screen self.new.screen }
    {
        self.modes.autowrap = value;
        if !value {
            self.screen.clear_wrap();
        }
    }

    // The alternate sheet or the main one.
    fn show_sheet(&mut self, alternate: bool)
        ensures done { console_of self.new ≡ sheet_shown alternate (console_of self.old) }
        ensures told { KeepsTold self.old.screen self.new.screen }
    {
        if alternate {
            self.screen.show_alternate(self.rendition.paper());
        } else {
            self.screen.show_main();
        }
    }

    // DECSC or DECRC.
    fn switch_save(&mut self, value: bool)
        requires { IsSafe (console_of self.old) }
        ensures done { console_of self.new ≡ save_switched value (console_of self.old) }
        ensures told { KeepsTold self.old.screen self.new.screen }
    {
        if value {
            self.save();
        } else {
            self.restore();
        }
    }

    // DECSC and the alternate sheet, or the main one and DECRC.
    fn switch_save_and_sheet(&mut self, value: bool)
        requires { IsSafe (console_of self.old) }
        ensures done { console_of self.new ≡ save_and_sheet_switched value (console_of self.old) }
        ensures told { KeepsTold self.old.screen self.new.screen }
    {
        commands_keep_safe();
        if !value {
            self.show_sheet(false);
            self.restore();
        } else if !self.screen.is_alternate() {
            self.save();
            self.show_sheet(true);
        }
    }
}
