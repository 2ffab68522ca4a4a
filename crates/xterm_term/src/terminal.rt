//! The terminal: a decoder and a parser before a console.
ghost use Rattle.std.specs.Prelude.{◌≡◌, ◌≤◌, ◌<◌, [], ◌∷◌, length, take, true, false, IsOk, IfOk, OnOk, OnErr};
ghost use Rattle.std.specs.List.{list_all};
ghost use Rattle.vt_parser.specs.Syntax.{is_graphic, is_within};
ghost use Rattle.characters.specs.Utf8.{bytes_of};
ghost use Rattle.xterm_term.specs.Reading.{GoesOn};

mod ahead;
mod between;
mod erases;
mod moving;
mod packed;
mod styling;

use crate::below::laws_below;
use crate::console::Console;
use crate::reading::{ESC, is_effective, is_graphic, is_ground_state, is_open, read_byte};
use crate::{Modes, OutOfMemory, Reports, Saved, Sets, Size};
use characters::{Begun, Decoder, character_at};
pub use moving::MovedLines;
pub use packed::PackedTerminal;
use sheet::Rendition;
use std::alloc::{AllocError, Global};
use std::marker::Model;
pub(crate) use styling::is_narrow;
pub use styling::{Letter, letter_at, styling_at};
use vt_parser::laws::control_is_given;
use vt_parser::{Mode, Parser, ParserState, printable_run};
use xterm_screen::Screen;

/// A terminal of a size. Contracts see what is seen of it: its picture, modes, rendition, sets and saves, its parser's
/// state, the bytes of the character that isn't finished, and where rows came from.
#[derive(Debug, Drop)]
pub struct Terminal {
    alloc: Global,
    console: Console,
    parser: Parser,
    decoder: Decoder,
}

impl Model for Terminal {
    ghost use Rattle.xterm_term.specs.Seen.{Seen};

    ghost Value = { Seen };

    ghost use Rattle.xterm_term.specs.Seen.{seen_of, IsTerminal};

    ghost view = { λ t. seen_of t.console t.parser t.decoder };

    ghost invariant = { λ t. IsTerminal (seen_of t.console t.parser t.decoder) };
}

impl Terminal {
    ghost use Rattle.xterm_term.specs.Term.{Term, reset_term, step, play, reply_to, sent};
    ghost use Rattle.xterm_term.specs.Seen.{Shows, IsTerminal, Told, KeepsTold};
    ghost use Rattle.xterm_term.specs.SameSize.{SameSize};
    ghost use Rattle.plays.specs.Sink.{after_sending, HasRoom, KeepsFront};

    /// The initial state of a size.
    pub fn reset(alloc: Global, size: Size) -> Result<Self, AllocError>
        ensures shows { IfOk result (λ terminal. Shows terminal (reset_term size.columns size.lines)) }
        ensures columns { IfOk result (λ terminal. terminal.console.picture.columns ≡ size.columns) }
        ensures lines { IfOk result (λ terminal. terminal.console.picture.lines ≡ size.lines) }
    {
        laws_below();
        let console = Console::new(alloc, size)?;
        Ok(Terminal {
            alloc,
            console,
            parser: Parser::new(),
            decoder: Decoder::new(),
        })
    }

    /// Becomes the initial state of its size. It takes no memory.
    pub fn clear(&mut self)
        ensures { Shows self.new (reset_term self.old.console.picture.columns
            self.old.console.picture.lines) }
    {
        laws_below();
        self.console.reset();
        self.parser = Parser::new();
        self.decoder = Decoder::new();
    }

    /// Becomes what the other terminal of the same size is.
    pub fn copy_from(&mut self, other: &Terminal)
        requires columns { self.old.console.picture.columns ≡ other.now.console.picture.columns }
        requires lines { self.old.console.picture.lines ≡ other.now.console.picture.lines }
        ensures { self.new ≡ other.now }
    {
        self.console.copy_from(&other.console);
        self.parser.copy_from(&other.parser);
        self.decoder.copy_from(&other.decoder);
    }

    /// Takes bytes, and sends the replies to them. A refused feed changes nothing. It feeds in place, and keeps a copy of the
    /// terminal for the case that memory is refused; the copy takes memory too.
    pub fn feed(&mut self, bytes: &[u8], sink: &mut Reports) -> Result<(), OutOfMemory>
        // For every term that the terminal shows, it shows that term with the bytes played ..
        ensures shows { (x : Term) → Shows self.old x
            → OnOk result (Shows self.new (play x bytes.now)) }
        // .. and the replies to them were sent.
        ensures sent { (x : Term) → Shows self.old x
            → OnOk result (sink.new ≡ after_sending sink.old (sent x bytes.now)) }
        ensures err { OnErr result (self.new ≡ self.old) }
        ensures err_sink { OnErr result (sink.new ≡ sink.old) }
        ensures size { SameSize self.old.console self.new.console }
        // Lines whose origins are known then have the rows that these had before.
        ensures told { OnOk result (Told self.old.console.picture.rows self.new) }
    {
        let place = sink.place();
        let len = sink.bytes().len();
        let mut before = Terminal::reset(self.alloc, self.size())?;
        before.copy_from(self);
        if self.feed_in_place(bytes, sink).is_err() {
            self.copy_from(&before);
            sink.cut(len);
            sink.set_place(place);
            return Err(OutOfMemory);
        }
        Ok(())
    }

    /// Feeds as `feed` does, and keeps no copy: after a refusal the terminal is some terminal of the same size, and the list
    /// begins with what it held.
    pub fn feed_in_place(&mut self, bytes: &[u8], sink: &mut Reports) -> Result<(), OutOfMemory>
        ensures shows { (x : Term) → Shows self.old x
            → OnOk result (Shows self.new (play x bytes.now)) }
        ensures sent { (x : Term) → Shows self.old x
            → OnOk result (sink.new ≡ after_sending sink.old (sent x bytes.now)) }
        ensures size { SameSize self.old.console self.new.console }
        ensures front { KeepsFront sink.old sink.new }
        ensures told { OnOk result (Told self.old.console.picture.rows self.new) }
        ensures room { (x : Term) → Shows self.old x → HasRoom sink.old (sent x bytes.now)
            → IsOk result }
    {
        self.clear_touched();
        self.take_all(bytes, sink)
    }

    // From here on lines are told against the rows of now.
    #[inline]
    fn clear_touched(&mut self)
        ensures shows { (x : Term) → Shows self.old x → Shows self.new x }
        ensures size { SameSize self.old.console self.new.console }
        ensures told { Told self.old.console.picture.rows self.new }
    {
        self.console.screen.clear_touched();
    }

    // Takes bytes, some after others.
    #[inline]
    fn take_all(&mut self, bytes: &[u8], sink: &mut Reports) -> Result<(), OutOfMemory>
        ensures shows { (x : Term) → Shows self.old x
            → OnOk result (Shows self.new (play x bytes.now)) }
        ensures sent { (x : Term) → Shows self.old x
            → OnOk result (sink.new ≡ after_sending sink.old (sent x bytes.now)) }
        ensures size { SameSize self.old.console self.new.console }
        ensures told { KeepsTold self.old self.new }
        ensures front { KeepsFront sink.old sink.new }
        ensures room { (x : Term) → Shows self.old x → HasRoom sink.old (sent x bytes.now)
            → IsOk result }
    {
        let mut rest = bytes;
        while !rest.is_empty() {
            let taken = self.take_some(rest, sink)?;
            rest = &rest[taken..];
        }
        Ok(())
    }

    // Takes some of the bytes, does what they come to, and says how many it took.
    fn take_some(&mut self, bytes: &[u8], sink: &mut Reports) -> Result<usize, OutOfMemory>
        requires { 0 < length bytes.now }
        ensures some { IfOk result (λ n. 0 < n) }
        ensures within { IfOk result (λ n. n ≤ length bytes.now) }
        ensures shows { (x : Term) → Shows self.old x
            → IfOk result (λ n. Shows self.new (play x (take n bytes.now))) }
        ensures sent { (x : Term) → Shows self.old x
            → IfOk result (λ n. sink.new ≡ after_sending sink.old (sent x (take n bytes.now))) }
        ensures size { SameSize self.old.console self.new.console }
        ensures told { KeepsTold self.old self.new }
        ensures front { KeepsFront sink.old sink.new }
        ensures room { (x : Term) → Shows self.old x → HasRoom sink.old (sent x bytes.now)
            → IsOk result }
    {
        let plain = self.take_plain(bytes);
        if plain > 0 {
            return Ok(plain);
        }
        let sequence = self.sequence_at(bytes);
        if sequence > 0 {
            let taken = self.take_sequence(&bytes[..sequence], sink)?;
            return Ok(taken);
        }
        self.take_byte(bytes[0], sink)?;
        Ok(1)
    }

    // Whether nothing is pending, no title is read, and no sequence begins.
    #[inline]
    fn is_idle(&self, byte: u8) -> bool
        ensures title { result ≡ true → self.now.console.title ≡ false }
        ensures state { result ≡ true → self.now.state ≡ ParserState.Ground }
        ensures character { result ≡ true → self.now.character ≡ [] }
    {
        byte != ESC
            && !self.console.title
            && is_ground_state(self.parser.state())
            && !self.decoder.is_pending()
    }

    // Takes bytes that have their effect just as they come, if they do: where nothing is pending, a run of graphic
    // characters, a control, or a character of several bytes.
    #[inline]
    fn take_plain(&mut self, bytes: &[u8]) -> usize
        requires { 0 < length bytes.now }
        ensures within { result ≤ length bytes.now }
        ensures shows { (x : Term) → Shows self.old x
            → Shows self.new (play x (take result bytes.now)) }
        ensures silent { (x : Term) → Shows self.old x → sent x (take result bytes.now) ≡ [] }
        ensures size { SameSize self.old.console self.new.console }
        ensures told { KeepsTold self.old self.new }
    {
        if self.is_idle(bytes[0]) {
            self.take_idle(bytes)
        } else {
            0
        }
    }

    #[inline]
    fn take_idle(&mut self, bytes: &[u8]) -> usize
        requires some { 0 < length bytes.now }
        requires title { self.old.console.title ≡ false }
        requires state { self.old.state ≡ ParserState.Ground }
        requires character { self.old.character ≡ [] }
        ensures within { result ≤ length bytes.now }
        ensures shows { (x : Term) → Shows self.old x
            → Shows self.new (play x (take result bytes.now)) }
        ensures silent { (x : Term) → Shows self.old x → sent x (take result bytes.now) ≡ [] }
        ensures size { SameSize self.old.console self.new.console }
        ensures told { KeepsTold self.old self.new }
    {
        // Most bytes are graphic, so that is asked first.
        if !is_graphic(bytes[0]) && is_effective(bytes[0]) {
            self.take_control(bytes[0]);
            return 1;
        }
        self.take_text(bytes)
    }

    // Takes characters: those of several bytes that come first, and a run of graphic ones behind them.
    #[inline]
    fn take_text(&mut self, bytes: &[u8]) -> usize
        requires some { 0 < length bytes.now }
        requires title { self.old.console.title ≡ false }
        requires state { self.old.state ≡ ParserState.Ground }
        requires character { self.old.character ≡ [] }
        ensures within { result ≤ length bytes.now }
        ensures shows { (x : Term) → Shows self.old x
            → Shows self.new (play x (take result bytes.now)) }
        ensures silent { (x : Term) → Shows self.old x → sent x (take result bytes.now) ≡ [] }
        ensures size { SameSize self.old.console self.new.console }
        ensures told { KeepsTold self.old self.new }
    {
        let taken = self.take_characters(bytes);
        let rest = &bytes[taken..];
        if rest.is_empty() || !is_graphic(rest[0]) {
            return taken;
        }
        let run = printable_run(rest);
        self.take_run(&rest[..run]);
        taken + run
    }

    // Puts the characters of a run.
    fn take_run(&mut self, run: &[u8])
        requires graphic { list_all is_graphic run.now ≡ true }
        requires title { self.old.console.title ≡ false }
        requires state { self.old.state ≡ ParserState.Ground }
        requires character { self.old.character ≡ [] }
        ensures shows { (x : Term) → Shows self.old x → Shows self.new (play x run.now) }
        ensures silent { (x : Term) → Shows self.old x → sent x run.now ≡ [] }
        ensures size { SameSize self.old.console self.new.console }
        ensures told { KeepsTold self.old self.new }
    {
        laws_below();
        self.console.put_bytes(run);
    }

    // Obeys a control.
    #[inline]
    fn take_control(&mut self, byte: u8)
        requires effective { is_within 8 15 byte ≡ true }
        requires title { self.old.console.title ≡ false }
        requires state { self.old.state ≡ ParserState.Ground }
        requires character { self.old.character ≡ [] }
        ensures shows { (x : Term) → Shows self.old x → Shows self.new (play x (byte ∷ [])) }
        ensures silent { (x : Term) → Shows self.old x → sent x (byte ∷ []) ≡ [] }
        ensures size { SameSize self.old.console self.new.console }
        ensures told { KeepsTold self.old self.new }
    {
        laws_below();
        control_is_given();
        self.console.control(byte);
        self.console.forget_if(true);
    }

    // Puts characters of several bytes that come first, and says how many bytes they are: none where another byte comes, or
    // one that isn't whole. Nothing is pending then.
    #[inline]
    fn take_characters(&mut self, bytes: &[u8]) -> usize
        requires some { 0 < length bytes.now }
        requires title { self.old.console.title ≡ false }
        requires state { self.old.state ≡ ParserState.Ground }
        requires character { self.old.character ≡ [] }
        ensures within { result ≤ length bytes.now }
        ensures shows { (x : Term) → Shows self.old x
            → Shows self.new (play x (take result bytes.now)) }
        ensures silent { (x : Term) → Shows self.old x → sent x (take result bytes.now) ≡ [] }
        ensures size { SameSize self.old.console self.new.console }
        ensures told { KeepsTold self.old self.new }
        ensures title { self.new.console.title ≡ false }
        ensures state { self.new.state ≡ ParserState.Ground }
        ensures character { self.new.character ≡ [] }
    {
        laws_below();
        if is_graphic(bytes[0]) {
            return 0;
        }
        match character_at(bytes) {
            Some((first, len)) => len + self.console.put_spelled(first, &bytes[len..]),
            None => 0,
        }
    }

    // How many bytes begin a sequence or go on one at once: ESC and the graphic characters behind it, or those of the text
    // of a control sequence.
    #[inline]
    fn sequence_at(&self, bytes: &[u8]) -> usize
        requires { 0 < length bytes.now }
        ensures within { result ≤ length bytes.now }
        ensures goes { 0 < result → GoesOn self.now.state (take result bytes.now) }
        ensures title { 0 < result → self.now.console.title ≡ false }
        ensures character { 0 < result → self.now.character ≡ [] }
    {
        if self.console.title || self.decoder.is_pending() {
            return 0;
        }
        if is_open(self.parser.state()) {
            return printable_run(bytes);
        }
        if bytes[0] == ESC {
            return 1 + printable_run(&bytes[1..]);
        }
        0
    }

    // Takes some bytes of a sequence.
    #[inline]
    fn take_sequence(&mut self, bytes: &[u8], sink: &mut Reports) -> Result<usize, OutOfMemory>
        requires some { 0 < length bytes.now }
        requires title { self.old.console.title ≡ false }
        requires character { self.old.character ≡ [] }
        requires goes { GoesOn self.old.state bytes.now }
        ensures some { IfOk result (λ n. 0 < n) }
        ensures within { IfOk result (λ n. n ≤ length bytes.now) }
        ensures shows { (x : Term) → Shows self.old x
            → IfOk result (λ n. Shows self.new (play x (take n bytes.now))) }
        ensures sent { (x : Term) → Shows self.old x
            → IfOk result (λ n. sink.new ≡ after_sending sink.old (sent x (take n bytes.now))) }
        ensures size { SameSize self.old.console self.new.console }
        ensures told { KeepsTold self.old self.new }
        ensures front { KeepsFront sink.old sink.new }
        ensures room { (x : Term) → Shows self.old x → HasRoom sink.old (sent x bytes.now)
            → IsOk result }
    {
        laws_below();
        let (taken, token) = self.parser.next(Mode::Ansi, bytes);
        self.console.obey_token_if(token, sink)?;
        self.console.forget_if(is_ground_state(self.parser.state()));
        Ok(taken)
    }

    // Takes one byte.
    fn take_byte(&mut self, byte: u8, sink: &mut Reports) -> Result<(), OutOfMemory>
        ensures shows { (x : Term) → Shows self.old x → OnOk result (Shows self.new (step x byte)) }
        ensures sent { (x : Term) → Shows self.old x
            → OnOk result (sink.new ≡ after_sending sink.old (reply_to x byte)) }
        ensures size { SameSize self.old.console self.new.console }
        ensures told { KeepsTold self.old self.new }
        ensures front { KeepsFront sink.old sink.new }
        ensures room { (x : Term) → Shows self.old x → HasRoom sink.old (reply_to x byte)
            → IsOk result }
    {
        laws_below();
        read_byte(
            &mut self.console,
            &mut self.parser,
            &mut self.decoder,
            byte,
            sink,
        )?;
        Ok(())
    }

    /// How many columns and lines it has.
    pub fn size(&self) -> Size
        ensures columns { result.columns ≡ self.now.console.picture.columns }
        ensures lines { result.lines ≡ self.now.console.picture.lines }
    {
        let screen = &self.console.screen;
        Size {
            columns: screen.columns(),
            lines: screen.lines(),
        }
    }

    /// The cells, the cursor, pending wrap, margins and tabs, and where rows came from.
    pub fn screen(&self) -> &Screen
        ensures value { result.now.picture ≡ self.now.console.picture }
        ensures touched { result.now.origins ≡ self.now.origins }
        // The cursor is on the sheet, and inside the margins while DECOM is set.
        ensures proper { IsTerminal self.now }
    {
        &self.console.screen
    }

    /// How far the sequence that isn't finished has come.
    pub fn parser_state(&self) -> &ParserState
        ensures { result.now ≡ self.now.state }
    {
        self.parser.state()
    }

    /// The bytes of the character that isn't finished.
    pub fn character(&self) -> Begun
        ensures { bytes_of result ≡ self.now.character }
    {
        self.decoder.begun()
    }

    /// The modes, and the keypad.
    pub fn modes(&self) -> Modes
        ensures { result ≡ self.now.console.modes }
    {
        self.console.modes
    }

    /// The rendition of the characters that come.
    pub fn rendition(&self) -> Rendition
        ensures { result ≡ self.now.console.rendition }
    {
        self.console.rendition.rendition()
    }

    /// The designated sets, and which of them is invoked.
    pub fn sets(&self) -> Sets
        ensures { result ≡ self.now.console.sets }
    {
        self.console.sets
    }

    /// The character that REP repeats, if there is one.
    pub fn last_character(&self) -> Option<char>
        ensures { result ≡ self.now.console.last }
    {
        self.console.last
    }

    /// Whether a title is read.
    pub fn in_title(&self) -> bool
        ensures { result ≡ self.now.console.title }
    {
        self.console.title
    }

    /// What DECSC saved of the main sheet.
    pub fn main_saved(&self) -> Option<Saved>
        ensures { result ≡ self.now.console.main_saved }
    {
        self.console.main_saved
    }

    /// What DECSC saved of the alternate sheet.
    pub fn alternate_saved(&self) -> Option<Saved>
        ensures { result ≡ self.now.console.alternate_saved }
    {
        self.console.alternate_saved
    }
}
