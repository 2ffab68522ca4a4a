//! Sequences of VT52 mode.
ghost use Rattle.std.specs.Prelude.{◌≡◌, ◌≤◌, IsOk, OnOk, OnErr};
ghost use Rattle.vt_screen.specs.Moves.{placed};
ghost use Rattle.vt_term.specs.Rows.{named};
ghost use Rattle.vt_term.specs.Vt52.{vt52_sequences, vt52_effect, graphics_set};
ghost use Rattle.vt_term.specs.Replies.{vt52_reply, reply_of};
ghost use Rattle.vt_term.specs.Console.{console_of, on_picture, effect_of};
ghost use Rattle.plays.specs.Sink.{after_sending, HasRoom};
ghost use Rattle.vt_screen.specs.Touched.{KeepsTold};

use crate::console::Console;
use crate::replies::VT52_IDENTITY;
use crate::{OutOfMemory, Reports};
use vt_parser::Mode;

impl Console {
    /// Sends the reply to a sequence of VT52 mode, and does what it asks for. A refused growth changes
    /// nothing.
    #[inline(never)]
    pub(crate) fn obey_vt52(&mut self, last: u8, sink: &mut Reports) -> Result<(), OutOfMemory>
        ensures done { OnOk result
            (console_of self.new
            ≡ effect_of vt52_effect (named vt52_sequences last) (console_of self.old)) }
        ensures sent { OnOk result
            (sink.new ≡ after_sending sink.old
            (reply_of vt52_reply (named vt52_sequences last) (console_of self.old))) }
        ensures err { OnErr result (console_of self.new ≡ console_of self.old) }
        ensures err_sink { OnErr result (sink.new ≡ sink.old) }
        ensures room { HasRoom sink.old
            (reply_of vt52_reply (named vt52_sequences last) (console_of self.old))
            → IsOk result }
        ensures told { KeepsTold self.old.screen self.new.screen }
    {
        match last {
            b'A' => self.screen.step_up(1),
            b'B' => self.screen.step_down(1),
            b'C' => self.screen.step_right(1),
            b'D' => self.screen.step_left(1),
            b'F' => self.set_graphics(true),
            b'G' => self.set_graphics(false),
            b'H' => self.screen.home(self.modes.origin),
            b'I' => self.screen.reverse_index(),
            b'J' => self.screen.erase_display(0),
            b'K' => self.screen.erase_line(0),
            b'Z' => return sink.send(VT52_IDENTITY),
            b'=' => self.set_keypad(true),
            b'>' => self.set_keypad(false),
            b'<' => self.modes.mode = Mode::Ansi,
            _ => {}
        }
        Ok(())
    }

    fn set_graphics(&mut self, value: bool)
        ensures done { console_of self.new ≡ graphics_set value (console_of self.old) }
        ensures told { KeepsTold self.old.screen self.new.screen }
    {
        self.sets.vt52_graphics = value;
    }

    /// A direct cursor address.
    pub(crate) fn go_to_address(&mut self, line: u8, column: u8)
        requires line { 1 ≤ line }
        requires column { 1 ≤ column }
        ensures done { console_of self.new
            ≡ on_picture (placed line column self.old.modes.origin) (console_of self.old) }
        ensures told { KeepsTold self.old.screen self.new.screen }
    {
        self.screen
            .place(u16::from(line), u16::from(column), self.modes.origin);
    }
}
