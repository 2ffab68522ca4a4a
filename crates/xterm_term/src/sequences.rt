//! Control sequences without `?`.
ghost use Rattle.std.specs.Prelude.{◌≡◌, ◌≤◌, fold, true, false, OnOk, OnErr, IsOk};
ghost use Rattle.xterm_screen.specs.Erasures.{display_erased, line_erased};
ghost use Rattle.xterm_screen.specs.Moves.{stepped_up, stepped_down};
ghost use Rattle.xterm_term.specs.Sequences.{Sgr, Decstbm, sequence_effect, param_or, erased, tabs_taken, then_to_left, region_lowered_by, ansi_mode_set};
ghost use Rattle.xterm_term.specs.Effect.{control_sequence_effect, control_sequence_reply};
ghost use Rattle.xterm_term.specs.Console.{console_of, on_picture, on_paper, on_modes, IsSafe};
ghost use Rattle.plays.specs.Sink.{after_sending, HasRoom};
ghost use Rattle.xterm_screen.specs.Picture.{KeepsTold};

use crate::console::Console;
use crate::renditions::pen_set;
use crate::{OutOfMemory, Reports};

// The parameter at an index, or the default where it is missing or 0.
#[inline]
fn param_or(params: &[u16], index: usize, default: u16) -> u16
    ensures value { result ≡ param_or params.now index default }
    ensures low { 1 ≤ default → 1 ≤ result }
{
    let param = params.get(index).copied().unwrap_or(0);
    if param == 0 { default } else { param }
}

impl Console {
    /// Sends the reply to a control sequence without `?`, and does what it asks for. A refused growth changes
    /// nothing.
    pub(crate) fn obey_plain_sequence(
        &mut self,
        last: u8,
        params: &[u16],
        sink: &mut Reports,
    ) -> Result<(), OutOfMemory>
        requires { IsSafe (console_of self.old) }
        ensures done { OnOk result
            (console_of self.new
            ≡ control_sequence_effect false last params.now (console_of self.old)) }
        ensures sent { OnOk result
            (sink.new ≡ after_sending sink.old
            (control_sequence_reply false last params.now (console_of self.old))) }
        ensures err { OnErr result (console_of self.new ≡ console_of self.old) }
        ensures err_sink { OnErr result (sink.new ≡ sink.old) }
        ensures room { HasRoom sink.old
            (control_sequence_reply false last params.now (console_of self.old))
            → IsOk result }
        ensures told { KeepsTold self.old.screen self.new.screen }
    {
        match last {
            b'c' => return self.send_attributes(param_or(params, 0, 0), sink), // DA
            b'n' => return self.send_status(param_or(params, 0, 0), sink), // DSR
            b'x' => return self.send_parameters(param_or(params, 0, 0), sink), // DECREQTPARM
            _ => self.obey_silent_sequence(last, params),
        }
        Ok(())
    }

    // Those that have no reply.
    fn obey_silent_sequence(&mut self, last: u8, params: &[u16])
        requires { IsSafe (console_of self.old) }
        ensures done { console_of self.new
            ≡ control_sequence_effect false last params.now (console_of self.old) }
        ensures told { KeepsTold self.old.screen self.new.screen }
    {
        let n = param_or(params, 0, 1);
        let paper = self.rendition.paper();
        match last {
            b'A' => self.screen.step_up(n), // CUU
            b'B' => self.screen.step_down(n), // CUD
            b'C' | b'a' => self.screen.step_right(n), // CUF, HPR
            b'D' => self.screen.step_left(n), // CUB
            b'E' => self.go_to_next_lines(n), // CNL
            b'F' => self.go_to_previous_lines(n), // CPL
            b'G' | b'`' => self.screen.to_column(n), // CHA, HPA
            b'e' => self.screen.lower(n, self.modes.origin), // VPR
            b'd' => self.screen.to_line(n, self.modes.origin), // VPA
            b'H' | b'f' => self
                .screen
                .place(n, param_or(params, 1, 1), self.modes.origin), // CUP, HVP
            b'I' => self.screen.tab_on(n), // CHT
            b'Z' => self.screen.tab_back(n), // CBT
            b'J' => self.erase_display(param_or(params, 0, 0)), // ED
            b'K' => self.erase_line(param_or(params, 0, 0)), // EL
            b'X' => self.screen.erase_cells(n, paper), // ECH
            b'@' => self.screen.insert_cells(n, paper), // ICH
            b'P' => self.screen.delete_cells(n, paper), // DCH
            b'L' => self.screen.insert_lines(n, paper), // IL
            b'M' => self.screen.delete_lines(n, paper), // DL
            b'S' => self.screen.scroll_up(n, paper), // SU
            b'T' => self.scroll_down(params), // SD
            b'b' => self.repeat_last(n), // REP
            b'g' => self.take_tabs(param_or(params, 0, 0)), // TBC
            b'h' => self.set_ansi_modes(true, params), // SM
            b'l' => self.set_ansi_modes(false, params), // RM
            b'm' => self.set_rendition(params), // SGR
            b'r' => self.set_margins(params), // DECSTBM
            b's' => self.save(), // SCOSC
            b'u' => self.restore(), // SCORC
            _ => {}
        }
    }

    fn set_rendition(&mut self, params: &[u16])
        ensures done { console_of self.new ≡ sequence_effect Sgr params.now (console_of self.old) }
        ensures told { KeepsTold self.old.screen self.new.screen }
    {
        self.rendition = pen_set(self.rendition, params);
    }

    fn go_to_next_lines(&mut self, n: u16)
        ensures done { console_of self.new
            ≡ on_picture (then_to_left stepped_down n) (console_of self.old) }
        ensures told { KeepsTold self.old.screen self.new.screen }
    {
        self.screen.step_down(n);
        self.screen.to_left();
    }

    fn go_to_previous_lines(&mut self, n: u16)
        ensures done { console_of self.new
            ≡ on_picture (then_to_left stepped_up n) (console_of self.old) }
        ensures told { KeepsTold self.old.screen self.new.screen }
    {
        self.screen.step_up(n);
        self.screen.to_left();
    }

    fn erase_display(&mut self, part: u16)
        ensures done { console_of self.new ≡ on_paper (erased display_erased part) (console_of self.old) }
        ensures told { KeepsTold self.old.screen self.new.screen }
    {
        if part <= 2 {
            self.screen
                .erase_display(part as u8, self.rendition.paper());
        }
    }

    fn erase_line(&mut self, part: u16)
        ensures done { console_of self.new ≡ on_paper (erased line_erased part) (console_of self.old) }
        ensures told { KeepsTold self.old.screen self.new.screen }
    {
        if part <= 2 {
            self.screen.erase_line(part as u8, self.rendition.paper());
        }
    }

    fn scroll_down(&mut self, params: &[u16])
        ensures done { console_of self.new ≡ on_paper (region_lowered_by params.now) (console_of self.old) }
        ensures told { KeepsTold self.old.screen self.new.screen }
    {
        if params.len() <= 1 {
            self.screen
                .scroll_down(param_or(params, 0, 1), self.rendition.paper());
        }
    }

    fn take_tabs(&mut self, param: u16)
        ensures done { console_of self.new ≡ on_picture (tabs_taken param) (console_of self.old) }
        ensures told { KeepsTold self.old.screen self.new.screen }
    {
        match param {
            0 => self.screen.clear_tab(),
            3 => self.screen.clear_tabs(),
            _ => {}
        }
    }

    fn set_margins(&mut self, params: &[u16])
        ensures done { console_of self.new ≡ sequence_effect Decstbm params.now (console_of self.old) }
        ensures told { KeepsTold self.old.screen self.new.screen }
    {
        let top = param_or(params, 0, 1);
        let bottom = param_or(params, 1, self.screen.lines());
        // Margins that are none are refused, and nothing changes.
        let _accepted = self.screen.set_margins(top, bottom, self.modes.origin);
    }

    fn set_ansi_modes(&mut self, value: bool, params: &[u16])
        ensures done { console_of self.new
            ≡ on_modes (λ modes. fold (ansi_mode_set value) modes params.now)
            (console_of self.old) }
        ensures told { KeepsTold self.old.screen self.new.screen }
    {
        for &param in params {
            self.set_ansi_mode(value, param);
        }
    }

    fn set_ansi_mode(&mut self, value: bool, param: u16)
        ensures { self.new ≡ record self.old {
          modes = ansi_mode_set value self.old.modes param;
        } }
    {
        match param {
            4 => self.modes.insert = value, // IRM
            20 => self.modes.newline = value, // LNM
            _ => {}
        }
    }
}
