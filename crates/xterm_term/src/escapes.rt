//! Escape sequences.
ghost use Rattle.std.specs.Prelude.{◌≡◌, [], Option, IsOk, OnOk, OnErr};
ghost use Rattle.xterm_term.specs.Rows.{named, effect_of};
ghost use Rattle.xterm_term.specs.Escapes.{Nel, Decaln, plain_escapes, line_escapes, character_sets, designation_named, escape_named, escape_effect, saved_from, saved, restored, restored_from, keypad_set};
ghost use Rattle.xterm_term.specs.Replies.{escape_reply, reply_of};
ghost use Rattle.plays.specs.Sink.{after_sending, HasRoom};
ghost use Rattle.xterm_term.specs.Console.{console_of, IsSavedWell, IsSafe, saved_here};
ghost use Rattle.xterm_screen.specs.Picture.{KeepsTold};

use crate::console::Console;
use crate::replies::DEVICE_ATTRIBUTES;
use crate::{CharacterSet, OutOfMemory, Reports, Saved, Sets, Slot};
use sheet::Pen;

// The set that SCS designates.
#[inline]
fn set_named(last: u8) -> Option<CharacterSet>
    ensures { result ≡ named character_sets last }
{
    match last {
        b'A' => Some(CharacterSet::Uk),
        b'B' => Some(CharacterSet::Ascii),
        b'0' => Some(CharacterSet::SpecialGraphics),
        b'1' => Some(CharacterSet::Ascii),
        b'2' => Some(CharacterSet::SpecialGraphics),
        _ => None,
    }
}

impl Console {
    /// Sends the reply to an escape sequence, and does what it asks for. A refused growth changes
    /// nothing.
    pub(crate) fn obey_escape(
        &mut self,
        inter: Option<u8>,
        last: u8,
        sink: &mut Reports,
    ) -> Result<(), OutOfMemory>
        requires { IsSafe (console_of self.old) }
        ensures done { OnOk result
            (console_of self.new
            ≡ effect_of escape_effect (escape_named inter last) (console_of self.old)) }
        ensures sent { OnOk result
            (sink.new ≡ after_sending sink.old
            (reply_of escape_reply (escape_named inter last) (console_of self.old))) }
        ensures err { OnErr result (console_of self.new ≡ console_of self.old) }
        ensures err_sink { OnErr result (sink.new ≡ sink.old) }
        ensures room { HasRoom sink.old
            (reply_of escape_reply (escape_named inter last) (console_of self.old))
            → IsOk result }
        ensures told { KeepsTold self.old.screen self.new.screen }
    {
        match inter {
            None => return self.obey_plain_escape(last, sink),
            Some(b'#') => self.change_lines(last),
            Some(b'(') => self.designate(Slot::G0, last),
            Some(b')') => self.designate(Slot::G1, last),
            Some(_) => {}
        }
        Ok(())
    }

    // Those without an intermediate.
    #[inline]
    fn obey_plain_escape(&mut self, last: u8, sink: &mut Reports) -> Result<(), OutOfMemory>
        requires { IsSafe (console_of self.old) }
        ensures done { OnOk result
            (console_of self.new
            ≡ effect_of escape_effect (named plain_escapes last) (console_of self.old)) }
        ensures sent { OnOk result
            (sink.new ≡ after_sending sink.old
            (reply_of escape_reply (named plain_escapes last) (console_of self.old))) }
        ensures err { OnErr result (console_of self.new ≡ console_of self.old) }
        ensures err_sink { OnErr result (sink.new ≡ sink.old) }
        ensures room { HasRoom sink.old
            (reply_of escape_reply (named plain_escapes last) (console_of self.old))
            → IsOk result }
        ensures told { KeepsTold self.old.screen self.new.screen }
    {
        match last {
            b'D' => self.screen.index(self.rendition.paper()), // IND
            b'E' => self.next_line(), // NEL
            b'M' => self.screen.reverse_index(self.rendition.paper()), // RI
            b'H' => self.screen.set_tab(), // HTS
            b'Z' => return sink.send(DEVICE_ATTRIBUTES), // DECID
            b'c' => self.reset(), // RIS
            b'7' => self.save(), // DECSC
            b'8' => self.restore(), // DECRC
            b'=' => self.set_keypad(true), // DECKPAM
            b'>' => self.set_keypad(false), // DECKPNM
            b'k' => self.title = true,
            _ => {}
        }
        Ok(())
    }

    // Those with the intermediate #.
    fn change_lines(&mut self, last: u8)
        ensures done { console_of self.new
            ≡ effect_of escape_effect (named line_escapes last) (console_of self.old) }
        ensures silent { reply_of escape_reply (named line_escapes last) (console_of self.old)
            ≡ [] }
        ensures told { KeepsTold self.old.screen self.new.screen }
    {
        if last == b'8' {
            self.align(); // DECALN
        }
    }

    // SCS.
    fn designate(&mut self, slot: Slot, last: u8)
        ensures done { console_of self.new
            ≡ effect_of escape_effect (designation_named slot last) (console_of self.old) }
        ensures silent { reply_of escape_reply (designation_named slot last) (console_of self.old)
            ≡ [] }
        ensures told { KeepsTold self.old.screen self.new.screen }
    {
        if let Some(set) = set_named(last) {
            self.sets.designate(slot, set);
        }
    }

    fn next_line(&mut self)
        ensures done { console_of self.new ≡ escape_effect Nel (console_of self.old) }
        ensures told { KeepsTold self.old.screen self.new.screen }
    {
        self.screen.to_left();
        self.screen.index(self.rendition.paper());
    }

    fn align(&mut self)
        ensures done { console_of self.new ≡ escape_effect Decaln (console_of self.old) }
        ensures told { KeepsTold self.old.screen self.new.screen }
    {
        self.screen.align();
        self.modes.origin = false;
    }

    fn saved_from(&self) -> Saved
        ensures { result ≡ saved_from (console_of self.now) }
    {
        let (line, column) = self.screen.cursor();
        Saved {
            line,
            column,
            wrap: self.screen.wrap(),
            rendition: self.rendition.rendition(),
            g0: self.sets.g0,
            g1: self.sets.g1,
            invoked: self.sets.invoked,
            origin: self.modes.origin,
        }
    }

    /// DECSC.
    pub(crate) fn save(&mut self)
        ensures done { console_of self.new ≡ saved (console_of self.old) }
        ensures told { KeepsTold self.old.screen self.new.screen }
    {
        let saved = Some(self.saved_from());
        if self.screen.is_alternate() {
            self.alternate_saved = saved;
        } else {
            self.main_saved = saved;
        }
    }

    fn saved_here(&self) -> Option<Saved>
        ensures { result ≡ saved_here (console_of self.now) }
    {
        if self.screen.is_alternate() {
            self.alternate_saved
        } else {
            self.main_saved
        }
    }

    /// DECRC.
    pub(crate) fn restore(&mut self)
        requires { IsSafe (console_of self.old) }
        ensures done { console_of self.new ≡ restored (console_of self.old) }
        ensures told { KeepsTold self.old.screen self.new.screen }
    {
        match self.saved_here() {
            None => self.restore_nothing(),
            Some(saved) => self.restore_saved(saved),
        }
    }

    // Where nothing was saved: home, no rendition, and the sets of the initial state.
    fn restore_nothing(&mut self)
        ensures done { console_of self.new ≡ restored_from Option.None (console_of self.old) }
        ensures told { KeepsTold self.old.screen self.new.screen }
    {
        self.screen.home(false);
        self.modes.origin = false;
        self.rendition = Pen::plain();
        self.sets = Sets::first();
    }

    fn restore_saved(&mut self, saved: Saved)
        requires { IsSavedWell (Option.Some saved) }
        ensures done { console_of self.new ≡ restored_from (Option.Some saved) (console_of self.old) }
        ensures told { KeepsTold self.old.screen self.new.screen }
    {
        self.screen.put_back(
            saved.line.min(self.screen.lines()),
            saved.column,
            saved.wrap,
            saved.origin,
            self.modes.autowrap,
        );
        self.modes.origin = saved.origin;
        self.rendition = Pen::of(saved.rendition);
        self.sets = Sets {
            g0: saved.g0,
            g1: saved.g1,
            invoked: saved.invoked,
        };
    }

    /// DECKPAM and DECKPNM.
    pub(crate) fn set_keypad(&mut self, application: bool)
        ensures done { console_of self.new ≡ keypad_set application (console_of self.old) }
        ensures told { KeepsTold self.old.screen self.new.screen }
    {
        self.modes.application_keypad = application;
    }
}
