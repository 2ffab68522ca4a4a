//! Control sequences of ANSI mode without `?`.
ghost use Rattle.std.specs.Prelude.{◌≡◌, ◌≤◌, fold, true, false, length, OnOk, OnErr, IsOk};
ghost use Rattle.vt_screen.specs.CellEdits.{cells_deleted};
ghost use Rattle.vt_screen.specs.Erasures.{display_erased, line_erased};
ghost use Rattle.vt_screen.specs.Scrolls.{lines_inserted, lines_deleted};
ghost use Rattle.vt_term.specs.Sequences.{Sgr, Decll, sequence_effect, param_or, erased, tabs_taken, rendition_set, ansi_mode_set, where_it_edits};
ghost use Rattle.vt_term.specs.Effect.{control_sequence_effect, control_sequence_reply};
ghost use Rattle.vt_term.specs.Console.{console_of, on_picture, on_modes};
ghost use Rattle.plays.specs.Sink.{after_sending, HasRoom};
ghost use Rattle.vt_screen.specs.Touched.{KeepsTold};

use crate::console::Console;
use crate::{OutOfMemory, Reports};
use vt_screen::Rendition;
use vt_screen::limits::LINES;

// The parameter at an index, or the default where it is missing or 0.
#[inline]
fn param_or(params: &[u16], index: usize, default: u16) -> u16
    ensures value { result ≡ param_or params.now index default }
    ensures low { 1 ≤ default → 1 ≤ result }
{
    let param = params.get(index).copied().unwrap_or(0);
    if param == 0 { default } else { param }
}

// A rendition with what one parameter of SGR adds.
#[inline]
fn rendition_set(rendition: Rendition, param: u16) -> Rendition
    ensures { result ≡ rendition_set rendition param }
{
    let bold = rendition.bold();
    let underscore = rendition.underscore();
    let blink = rendition.blink();
    let reverse = rendition.reverse();
    match param {
        0 => Rendition::plain(),
        1 => Rendition::new(true, underscore, blink, reverse),
        4 => Rendition::new(bold, true, blink, reverse),
        5 => Rendition::new(bold, underscore, true, reverse),
        7 => Rendition::new(bold, underscore, blink, true),
        _ => rendition,
    }
}

impl Console {
    /// Sends the reply to a control sequence without `?`, and does what it asks for. A refused growth changes
    /// nothing.
    #[inline(always)]
    pub(crate) fn obey_plain_sequence(
        &mut self,
        last: u8,
        params: &[u16],
        sink: &mut Reports,
    ) -> Result<(), OutOfMemory>
        requires { length self.old.leds ≡ 4 }
        ensures done { OnOk result
            (console_of self.new
            ≡ control_sequence_effect false last params.now (console_of self.old)) }
        ensures sent { OnOk result
            (sink.new ≡ after_sending sink.old
            (control_sequence_reply false last params.now (console_of self.old))) }
        ensures err { OnErr result (console_of self.new ≡ console_of self.old) }
        ensures err_sink { OnErr result (sink.new ≡ sink.old) }
        ensures room { HasRoom sink.old
            (control_sequence_reply false last params.now (console_of self.old))
            → IsOk result }
        ensures told { KeepsTold self.old.screen self.new.screen }
    {
        match last {
            b'A' => self.screen.step_up(param_or(params, 0, 1)), // CUU
            b'B' => self.screen.step_down(param_or(params, 0, 1)), // CUD
            b'C' => self.screen.step_right(param_or(params, 0, 1)), // CUF
            b'D' => self.screen.step_left(param_or(params, 0, 1)), // CUB
            b'H' | b'f' => self.screen.place(
                param_or(params, 0, 1),
                param_or(params, 1, 1),
                self.modes.origin,
            ), // CUP, HVP
            b'J' => self.erase_display(param_or(params, 0, 0)), // ED
            b'K' => self.erase_line(param_or(params, 0, 0)), // EL
            b'L' => self.insert_lines(param_or(params, 0, 1)), // IL
            b'M' => self.delete_lines(param_or(params, 0, 1)), // DL
            b'P' => self.delete_cells(param_or(params, 0, 1)), // DCH
            b'r' => {
                // Margins that are none are refused, and nothing changes.
                let _accepted = self.screen.set_margins(
                    param_or(params, 0, 1),
                    param_or(params, 1, u16::from(LINES)),
                    self.modes.origin,
                );
            } // DECSTBM
            b'g' => self.take_tabs(param_or(params, 0, 0)), // TBC
            b'm' => self.set_rendition(params), // SGR
            b'h' => self.set_ansi_modes(true, params), // SM
            b'l' => self.set_ansi_modes(false, params), // RM
            b'q' => self.set_leds(params), // DECLL
            b'c' => return self.send_attributes(param_or(params, 0, 0), sink), // DA
            b'n' => return self.send_status(param_or(params, 0, 0), sink), // DSR
            b'x' => return self.send_parameters(param_or(params, 0, 0), sink), // DECREQTPARM
            _ => {}
        }
        Ok(())
    }

    fn erase_display(&mut self, part: u16)
        ensures done { console_of self.new
            ≡ on_picture (erased display_erased part) (console_of self.old) }
        ensures told { KeepsTold self.old.screen self.new.screen }
    {
        if part <= 2 {
            self.screen.erase_display(part as u8);
        }
    }

    fn erase_line(&mut self, part: u16)
        ensures done { console_of self.new ≡ on_picture (erased line_erased part) (console_of self.old) }
        ensures told { KeepsTold self.old.screen self.new.screen }
    {
        if part <= 2 {
            self.screen.erase_line(part as u8);
        }
    }

    fn insert_lines(&mut self, n: u16)
        ensures done { console_of self.new ≡ where_it_edits (lines_inserted n) (console_of self.old) }
        ensures told { KeepsTold self.old.screen self.new.screen }
    {
        if self.profile.has_editing() {
            self.screen.insert_lines(n);
        }
    }

    fn delete_lines(&mut self, n: u16)
        ensures done { console_of self.new ≡ where_it_edits (lines_deleted n) (console_of self.old) }
        ensures told { KeepsTold self.old.screen self.new.screen }
    {
        if self.profile.has_editing() {
            self.screen.delete_lines(n);
        }
    }

    fn delete_cells(&mut self, n: u16)
        ensures done { console_of self.new ≡ where_it_edits (cells_deleted n) (console_of self.old) }
        ensures told { KeepsTold self.old.screen self.new.screen }
    {
        if self.profile.has_editing() {
            self.screen.delete_cells(n);
        }
    }

    fn take_tabs(&mut self, param: u16)
        ensures done { console_of self.new ≡ on_picture (tabs_taken param) (console_of self.old) }
        ensures told { KeepsTold self.old.screen self.new.screen }
    {
        match param {
            0 => self.screen.clear_tab(),
            3 => self.screen.clear_tabs(),
            _ => {}
        }
    }

    fn set_rendition(&mut self, params: &[u16])
        ensures done { console_of self.new ≡ sequence_effect Sgr params.now (console_of self.old) }
        ensures told { KeepsTold self.old.screen self.new.screen }
    {
        let mut rendition = self.rendition;
        for &param in params {
            rendition = rendition_set(rendition, param);
        }
        self.rendition = rendition;
    }

    fn set_ansi_modes(&mut self, value: bool, params: &[u16])
        ensures done { console_of self.new
            ≡ on_modes (λ modes. fold (ansi_mode_set self.old.profile value) modes params.now)
            (console_of self.old) }
        ensures told { KeepsTold self.old.screen self.new.screen }
    {
        for &param in params {
            self.set_ansi_mode(value, param);
        }
    }

    fn set_ansi_mode(&mut self, value: bool, param: u16)
        ensures { self.new ≡ record self.old {
          modes = ansi_mode_set self.old.profile value self.old.modes param;
        } }
    {
        match param {
            4 => self.set_insert(value), // IRM
            20 => self.modes.newline = value, // LNM
            _ => {}
        }
    }

    fn set_insert(&mut self, value: bool)
        ensures { self.new ≡ record self.old {
          modes = ansi_mode_set self.old.profile value self.old.modes 4;
        } }
    {
        if self.profile.has_editing() {
            self.modes.insert = value;
        }
    }

    fn set_leds(&mut self, params: &[u16])
        requires { length self.old.leds ≡ 4 }
        ensures done { console_of self.new ≡ sequence_effect Decll params.now (console_of self.old) }
        ensures told { KeepsTold self.old.screen self.new.screen }
    {
        let mut leds = self.leds;
        for &param in params {
            match param {
                0 => leds = [false; 4],
                1..=4 => leds[param as usize - 1] = true,
                _ => {}
            }
        }
        self.leds = leds;
    }
}
