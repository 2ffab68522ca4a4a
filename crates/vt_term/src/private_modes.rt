//! Control sequences of ANSI mode with `?`.
ghost use Rattle.std.specs.Prelude.{◌≡◌, true};
ghost use Rattle.vt_term.specs.PrivateModes.{Decanm, Decom, Decawm, mode_effect, mode_set, modes_set, vt52_entered};
ghost use Rattle.vt_term.specs.Effect.{control_sequence_effect};
ghost use Rattle.vt_term.specs.Console.{console_of};
ghost use Rattle.vt_screen.specs.Touched.{KeepsTold};

use crate::console::Console;
use vt_parser::Mode;

impl Console {
    /// Does what a control sequence with `?` asks for.
    #[inline(never)]
    pub(crate) fn obey_private_sequence(&mut self, last: u8, params: &[u16])
        ensures done { console_of self.new
            ≡ control_sequence_effect true last params.now (console_of self.old) }
        ensures told { KeepsTold self.old.screen self.new.screen }
    {
        match last {
            b'h' => self.set_modes(true, params),
            b'l' => self.set_modes(false, params),
            _ => {}
        }
    }

    fn set_modes(&mut self, value: bool, params: &[u16])
        ensures done { console_of self.new ≡ modes_set params.now value (console_of self.old) }
        ensures told { KeepsTold self.old.screen self.new.screen }
    {
        for &param in params {
            self.set_mode(value, param);
        }
    }

    fn set_mode(&mut self, value: bool, param: u16)
        ensures done { console_of self.new ≡ mode_set value (console_of self.old) param }
        ensures told { KeepsTold self.old.screen self.new.screen }
    {
        match param {
            1 => self.modes.cursor_keys = value, // DECCKM
            2 => self.set_ansi(value), // DECANM
            3 => self.screen.set_columns(value, self.modes.origin), // DECCOLM
            4 => self.modes.smooth_scroll = value, // DECSCLM
            5 => self.modes.reverse_screen = value, // DECSCNM
            6 => self.set_origin(value), // DECOM
            7 => self.set_autowrap(value), // DECAWM
            8 => self.modes.auto_repeat = value, // DECARM
            9 => self.modes.interlace = value, // DECINLM
            _ => {}
        }
    }

    fn set_ansi(&mut self, value: bool)
        ensures done { console_of self.new ≡ mode_effect value Decanm (console_of self.old) }
        ensures told { KeepsTold self.old.screen self.new.screen }
    {
        if !value {
            self.enter_vt52();
        }
    }

    fn enter_vt52(&mut self)
        ensures done { console_of self.new ≡ vt52_entered (console_of self.old) }
        ensures told { KeepsTold self.old.screen self.new.screen }
    {
        self.modes.mode = Mode::Vt52;
        self.sets.vt52_graphics = false;
    }

    fn set_origin(&mut self, value: bool)
        ensures done { console_of self.new ≡ mode_effect value Decom (console_of self.old) }
        ensures told { KeepsTold self.old.screen self.new.screen }
    {
        self.modes.origin = value;
        self.screen.home(value);
    }

    fn set_autowrap(&mut self, value: bool)
        ensures done { console_of self.new ≡ mode_effect value Decawm (console_of self.old) }
        ensures told { KeepsTold self.old.screen self.new.screen }
    {
        self.modes.autowrap = value;
        if !value {
            self.screen.clear_wrap();
        }
    }
}
