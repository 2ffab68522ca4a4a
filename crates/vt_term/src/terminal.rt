//! The terminal: a parser before a console.
ghost use Rattle.std.specs.Prelude.{◌≡◌, ◌≤◌, ◌<◌, length, take, IsOk, IfOk, OnOk, OnErr};

mod packed;

use crate::console::Console;
use crate::{Modes, OutOfMemory, Profile, Reports, Saved, Sets};
pub use packed::PackedTerminal;
use std::marker::Model;
use vt_parser::{Parser, ParserState};
use vt_screen::{Rendition, Screen};

/// A VT100 or VT102 terminal. Contracts see what is seen of it: its profile, picture, modes, rendition, sets, save and
/// LEDs, its parser's state, and which lines were touched.
#[derive(Debug, Drop)]
pub struct Terminal {
    console: Console,
    parser: Parser,
}

impl Model for Terminal {
    ghost use Rattle.vt_term.specs.Seen.{Seen};

    ghost Value = { Seen };

    ghost use Rattle.vt_term.specs.Seen.{seen_of, IsTerminal};

    ghost view = { λ t. seen_of t.console t.parser };

    ghost invariant = { λ t. IsTerminal (seen_of t.console t.parser) };
}

impl Terminal {
    ghost use Rattle.std.specs.Prelude.{List, true};
    ghost use Rattle.vt_screen.specs.declared.cell.Row.{Row};
    ghost use Rattle.vt_term.specs.Term.{Term, reset_term, reset_term_as, play, sent};
    ghost use Rattle.vt_term.specs.Seen.{Shows, IsTerminal, Told};
    ghost use Rattle.plays.specs.Sink.{after_sending, HasRoom, KeepsFront};

    /// The initial state of a VT100: 80 columns, all blank, ANSI mode, DECAWM set and every other mode reset.
    pub fn reset() -> Self
        ensures { Shows result reset_term }
    {
        Terminal::reset_as(Profile::Vt100)
    }

    /// The same of a profile, which stays whatever comes, RIS included.
    pub fn reset_as(profile: Profile) -> Self
        ensures { Shows result (reset_term_as profile) }
    {
        Terminal {
            console: Console::reset(profile),
            parser: Parser::new(),
        }
    }

    /// Becomes what the other terminal is.
    pub fn copy_from(&mut self, other: &Terminal)
        ensures { self.new ≡ other.now }
    {
        self.console.copy_from(&other.console);
        self.parser.copy_from(&other.parser);
    }

    /// Takes bytes, and sends the replies to them. Its marks are cleared first, so that then they tell which rows the bytes
    /// may have touched. It feeds in place, and keeps a copy of the terminal for the case that memory is refused.
    pub fn feed(&mut self, bytes: &[u8], sink: &mut Reports) -> Result<(), OutOfMemory>
        // For every term that the terminal shows, it shows that term with the bytes played ..
        ensures shows { (x : Term) → Shows self.old x
            → OnOk result (Shows self.new (play x bytes.now)) }
        // .. and the replies to them were sent.
        ensures sent { (x : Term) → Shows self.old x
            → OnOk result (sink.new ≡ after_sending sink.old (sent x bytes.now)) }
        // Each row that isn't marked as touched is the one of before.
        ensures told { OnOk result (Told self.old.console.picture.rows self.new) }
        ensures err { OnErr result (self.new ≡ self.old) }
        ensures err_sink { OnErr result (sink.new ≡ sink.old) }
        ensures room { (x : Term) → Shows self.old x → HasRoom sink.old (sent x bytes.now)
            → IsOk result }
    {
        let place = sink.place();
        let mut before = Terminal::reset();
        before.copy_from(self);
        let len = sink.bytes().len();
        if self.feed_in_place(bytes, sink).is_err() {
            self.copy_from(&before);
            sink.cut(len);
            sink.set_place(place);
            return Err(OutOfMemory);
        }
        Ok(())
    }

    /// Feeds as `feed` does, and keeps no copy: after a refusal the terminal is some terminal, and the list begins with
    /// what it held.
    pub fn feed_in_place(&mut self, bytes: &[u8], sink: &mut Reports) -> Result<(), OutOfMemory>
        ensures shows { (x : Term) → Shows self.old x
            → OnOk result (Shows self.new (play x bytes.now)) }
        ensures sent { (x : Term) → Shows self.old x
            → OnOk result (sink.new ≡ after_sending sink.old (sent x bytes.now)) }
        ensures told { OnOk result (Told self.old.console.picture.rows self.new) }
        ensures front { KeepsFront sink.old sink.new }
        ensures room { (x : Term) → Shows self.old x → HasRoom sink.old (sent x bytes.now)
            → IsOk result }
    {
        self.console.screen.clear_touched();
        self.take_all(bytes, sink)
    }

    // Takes all of the bytes.
    #[inline]
    fn take_all(&mut self, bytes: &[u8], sink: &mut Reports) -> Result<(), OutOfMemory>
        ensures shows { (x : Term) → Shows self.old x
            → OnOk result (Shows self.new (play x bytes.now)) }
        ensures sent { (x : Term) → Shows self.old x
            → OnOk result (sink.new ≡ after_sending sink.old (sent x bytes.now)) }
        ensures told { (before : List Row) → Told before self.old → Told before self.new }
        ensures front { KeepsFront sink.old sink.new }
        ensures room { (x : Term) → Shows self.old x → HasRoom sink.old (sent x bytes.now)
            → IsOk result }
    {
        let mut rest = bytes;
        while !rest.is_empty() {
            let taken = self.take_some(rest, sink)?;
            rest = &rest[taken..];
        }
        Ok(())
    }

    // Takes some of the bytes, does what they come to, and says how many it took.
    #[inline]
    fn take_some(&mut self, bytes: &[u8], sink: &mut Reports) -> Result<usize, OutOfMemory>
        requires { 0 < length bytes.now }
        ensures some { IfOk result (λ n. 0 < n) }
        ensures within { IfOk result (λ n. n ≤ length bytes.now) }
        ensures shows { (x : Term) → Shows self.old x
            → IfOk result (λ n. Shows self.new (play x (take n bytes.now))) }
        ensures sent { (x : Term) → Shows self.old x
            → IfOk result (λ n. sink.new ≡ after_sending sink.old (sent x (take n bytes.now))) }
        ensures told { (before : List Row) → Told before self.old → Told before self.new }
        ensures front { KeepsFront sink.old sink.new }
        ensures room { (x : Term) → Shows self.old x → HasRoom sink.old (sent x bytes.now)
            → IsOk result }
    {
        let (taken, token) = self.parser.next(self.console.modes.mode, bytes);
        if let Some(token) = token {
            self.console.obey(token, sink)?;
        }
        Ok(taken)
    }

    /// The cells, sizes, cursor, pending wrap, margins and tabs, and which lines were touched by the last feed.
    pub fn screen(&self) -> &Screen
        ensures value { result.now.picture ≡ self.now.console.picture }
        ensures touched { result.now.touched ≡ self.now.touched }
        // The cursor is within its line's right margin, cells right of it are blank, glyphs are at most 126, and while DECOM
        // is set the cursor is inside the margins.
        ensures proper { IsTerminal self.now }
    {
        &self.console.screen
    }

    /// How far the sequence that isn't finished has come.
    pub fn parser_state(&self) -> &ParserState
        ensures { result.now ≡ self.now.state }
    {
        self.parser.state()
    }

    /// Which terminal it is.
    pub fn profile(&self) -> Profile
        ensures { result ≡ self.now.console.profile }
    {
        self.console.profile
    }

    /// The modes, and the keypad.
    pub fn modes(&self) -> Modes
        ensures { result ≡ self.now.console.modes }
    {
        self.console.modes
    }

    /// The rendition of the characters that come.
    pub fn rendition(&self) -> Rendition
        ensures { result ≡ self.now.console.rendition }
    {
        self.console.rendition
    }

    /// The designated sets, which of them is invoked, and VT52 graphics.
    pub fn sets(&self) -> Sets
        ensures { result ≡ self.now.console.sets }
    {
        self.console.sets
    }

    /// What DECSC saved, if it was ever sent.
    pub fn saved(&self) -> Option<Saved>
        ensures { result ≡ self.now.console.saved }
    {
        self.console.saved
    }

    /// L1 to L4.
    pub fn leds(&self) -> [bool; 4]
        ensures { result ≡ self.now.console.leds }
    {
        self.console.leds
    }
}
