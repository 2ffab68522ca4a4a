//! Escape sequences of ANSI mode.
ghost use Rattle.std.specs.Prelude.{◌≡◌, [], Option, IsOk, OnOk, OnErr};
ghost use Rattle.vt_term.specs.Rows.{named};
ghost use Rattle.vt_term.specs.Escapes.{Nel, Decsc, plain_escapes, line_escapes, character_sets, designation_named, escape_named, escape_effect, restored, keypad_set};
ghost use Rattle.vt_term.specs.Replies.{escape_reply, reply_of};
ghost use Rattle.plays.specs.Sink.{after_sending, HasRoom};
ghost use Rattle.vt_term.specs.Console.{console_of, effect_of, IsSavedWell};
ghost use Rattle.vt_screen.specs.Touched.{KeepsTold};

use crate::console::Console;
use crate::replies::device_attributes;
use crate::{CharacterSet, OutOfMemory, Reports, Saved, Slot};
use vt_screen::{Rendition, Size};

// The set that SCS designates.
#[inline]
fn set_named(last: u8) -> Option<CharacterSet>
    ensures { result ≡ named character_sets last }
{
    match last {
        b'A' => Some(CharacterSet::Uk),
        b'B' => Some(CharacterSet::Ascii),
        b'0' => Some(CharacterSet::SpecialGraphics),
        b'1' => Some(CharacterSet::Ascii),
        b'2' => Some(CharacterSet::SpecialGraphics),
        _ => None,
    }
}

impl Console {
    /// Sends the reply to an escape sequence, and does what it asks for. A refused growth changes
    /// nothing.
    pub(crate) fn obey_escape(
        &mut self,
        inter: Option<u8>,
        last: u8,
        sink: &mut Reports,
    ) -> Result<(), OutOfMemory>
        requires { IsSavedWell self.old.saved }
        ensures done { OnOk result
            (console_of self.new
            ≡ effect_of escape_effect (escape_named inter last) (console_of self.old)) }
        ensures sent { OnOk result
            (sink.new ≡ after_sending sink.old
            (reply_of escape_reply (escape_named inter last) (console_of self.old))) }
        ensures err { OnErr result (console_of self.new ≡ console_of self.old) }
        ensures err_sink { OnErr result (sink.new ≡ sink.old) }
        ensures room { HasRoom sink.old
            (reply_of escape_reply (escape_named inter last) (console_of self.old))
            → IsOk result }
        ensures told { KeepsTold self.old.screen self.new.screen }
    {
        match inter {
            None => return self.obey_plain_escape(last, sink),
            Some(b'#') => self.change_line(last),
            Some(b'(') => self.designate(Slot::G0, last),
            Some(b')') => self.designate(Slot::G1, last),
            Some(_) => {}
        }
        Ok(())
    }

    // Those without an intermediate.
    #[inline]
    fn obey_plain_escape(&mut self, last: u8, sink: &mut Reports) -> Result<(), OutOfMemory>
        requires { IsSavedWell self.old.saved }
        ensures done { OnOk result
            (console_of self.new
            ≡ effect_of escape_effect (named plain_escapes last) (console_of self.old)) }
        ensures sent { OnOk result
            (sink.new ≡ after_sending sink.old
            (reply_of escape_reply (named plain_escapes last) (console_of self.old))) }
        ensures err { OnErr result (console_of self.new ≡ console_of self.old) }
        ensures err_sink { OnErr result (sink.new ≡ sink.old) }
        ensures room { HasRoom sink.old
            (reply_of escape_reply (named plain_escapes last) (console_of self.old))
            → IsOk result }
        ensures told { KeepsTold self.old.screen self.new.screen }
    {
        match last {
            b'D' => self.screen.index(), // IND
            b'E' => self.next_line(), // NEL
            b'M' => self.screen.reverse_index(), // RI
            b'H' => self.screen.set_tab(), // HTS
            b'Z' => return sink.send(device_attributes(self.profile)), // DECID
            b'c' => *self = Console::reset(self.profile), // RIS
            b'7' => self.save(), // DECSC
            b'8' => self.restore(), // DECRC
            b'=' => self.set_keypad(true), // DECKPAM
            b'>' => self.set_keypad(false), // DECKPNM
            _ => {}
        }
        Ok(())
    }

    // Those with the intermediate #.
    fn change_line(&mut self, last: u8)
        ensures done { console_of self.new
            ≡ effect_of escape_effect (named line_escapes last) (console_of self.old) }
        ensures silent { reply_of escape_reply (named line_escapes last) (console_of self.old)
            ≡ [] }
        ensures told { KeepsTold self.old.screen self.new.screen }
    {
        match last {
            b'3' => self.screen.set_size(Size::Top), // DECDHL
            b'4' => self.screen.set_size(Size::Bottom), // DECDHL
            b'5' => self.screen.set_size(Size::Single), // DECSWL
            b'6' => self.screen.set_size(Size::Double), // DECDWL
            b'8' => self.screen.align(), // DECALN
            _ => {}
        }
    }

    // SCS.
    fn designate(&mut self, slot: Slot, last: u8)
        ensures done { console_of self.new
            ≡ effect_of escape_effect (designation_named slot last) (console_of self.old) }
        ensures silent { reply_of escape_reply (designation_named slot last) (console_of self.old)
            ≡ [] }
        ensures told { KeepsTold self.old.screen self.new.screen }
    {
        if let Some(set) = set_named(last) {
            self.sets.designate(slot, set);
        }
    }

    fn next_line(&mut self)
        ensures done { console_of self.new ≡ escape_effect Nel (console_of self.old) }
        ensures told { KeepsTold self.old.screen self.new.screen }
    {
        self.screen.to_left();
        self.screen.index();
    }

    fn save(&mut self)
        ensures done { console_of self.new ≡ escape_effect Decsc (console_of self.old) }
        ensures told { KeepsTold self.old.screen self.new.screen }
    {
        let (line, column) = self.screen.cursor();
        self.saved = Some(Saved {
            line,
            column,
            wrap: self.screen.wrap(),
            rendition: self.rendition,
            g0: self.sets.g0,
            g1: self.sets.g1,
            invoked: self.sets.invoked,
            origin: self.modes.origin,
        });
    }

    fn restore(&mut self)
        requires { IsSavedWell self.old.saved }
        ensures done { console_of self.new ≡ restored self.old.saved (console_of self.old) }
        ensures told { KeepsTold self.old.screen self.new.screen }
    {
        match self.saved {
            None => self.restore_nothing(),
            Some(saved) => self.restore_saved(saved),
        }
    }

    // Where nothing was saved: home, no rendition, and the sets of the initial state.
    fn restore_nothing(&mut self)
        ensures done { console_of self.new ≡ restored Option.None (console_of self.old) }
        ensures told { KeepsTold self.old.screen self.new.screen }
    {
        self.screen.home(false);
        self.modes.origin = false;
        self.rendition = Rendition::plain();
        self.sets.g0 = CharacterSet::Ascii;
        self.sets.g1 = CharacterSet::Ascii;
        self.sets.invoked = Slot::G0;
    }

    fn restore_saved(&mut self, saved: Saved)
        requires { IsSavedWell (Option.Some saved) }
        ensures done { console_of self.new ≡ restored (Option.Some saved) (console_of self.old) }
        ensures told { KeepsTold self.old.screen self.new.screen }
    {
        self.screen.put_back(
            saved.line,
            saved.column,
            saved.wrap,
            saved.origin,
            self.modes.autowrap,
        );
        self.modes.origin = saved.origin;
        self.rendition = saved.rendition;
        self.sets.g0 = saved.g0;
        self.sets.g1 = saved.g1;
        self.sets.invoked = saved.invoked;
    }

    /// DECKPAM and DECKPNM.
    pub(crate) fn set_keypad(&mut self, application: bool)
        ensures done { console_of self.new ≡ keypad_set application (console_of self.old) }
        ensures told { KeepsTold self.old.screen self.new.screen }
    {
        self.modes.application_keypad = application;
    }
}
