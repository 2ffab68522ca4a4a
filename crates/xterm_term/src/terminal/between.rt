//! What is done to a terminal between bytes.
ghost use Rattle.std.specs.Prelude.{◌≡◌, ◌<◌, ◌≤◌, [], length, OnOk};
ghost use Rattle.characters.specs.Utf8.{reading};
ghost use Rattle.plays.specs.Sink.{after_sending};
ghost use Rattle.vt_parser.specs.Law.{IsProper};
ghost use Rattle.vt_parser.specs.Token.{command_of_token};
ghost use Rattle.xterm_term.specs.Between.{broken_off, character_put, last_forgotten, obeyed};
ghost use Rattle.xterm_term.specs.Effect.{reply};
ghost use Rattle.xterm_term.specs.Puts.{character_for};
ghost use Rattle.xterm_term.specs.SameSize.{SameSize};

use crate::below::laws_below;
use crate::terminal::Terminal;
use crate::{OutOfMemory, Reports};
use characters::{Decoder, Reading};
use vt_parser::Token;

impl Terminal {
    ghost use Rattle.xterm_term.specs.Seen.{Shows};
    ghost use Rattle.xterm_term.specs.Term.{Term};

    /// The character of a byte 32 to 126 in the set in use.
    pub fn character_for(&self, byte: u8) -> char
        requires { byte ≤ 126 }
        ensures { result ≡ character_for self.now.console byte }
    {
        self.console.sets.in_use().character(byte)
    }

    /// Puts a character, as bytes that bring it would. What is pending stays.
    pub fn put(&mut self, character: char)
        ensures shows { (x : Term) → Shows self.old x → Shows self.new (character_put character x) }
        ensures size { SameSize self.old.console self.new.console }
    {
        laws_below();
        self.console.put(character);
    }

    /// There is no character any more that REP repeats.
    pub fn forget_last(&mut self)
        ensures shows { (x : Term) → Shows self.old x → Shows self.new (last_forgotten x) }
        ensures size { SameSize self.old.console self.new.console }
    {
        self.console.forget_if(true);
    }

    /// Obeys a control or a sequence that a parser beside it read, and sends the reply to it. What is pending stays.
    #[inline]
    pub fn obey(&mut self, token: Token, sink: &mut Reports) -> Result<(), OutOfMemory>
        requires { IsProper (command_of_token token) }
        ensures shows { (x : Term) → Shows self.old x
            → OnOk result (Shows self.new (obeyed (command_of_token token.entry) x)) }
        ensures sent { (x : Term) → Shows self.old x → OnOk result
            (sink.new ≡ after_sending sink.old (reply (command_of_token token.entry) x.console)) }
    {
        laws_below();
        self.console.obey_token(token, sink)?;
        self.console.forget_if(true);
        Ok(())
    }

    /// Breaks off the character that isn't finished: U+FFFD stands for its bytes.
    pub fn break_off(&mut self)
        ensures shows { (x : Term) → Shows self.old x → Shows self.new (broken_off x) }
        ensures none { self.new.character ≡ [] }
        ensures size { SameSize self.old.console self.new.console }
    {
        laws_below();
        self.console.put(char::REPLACEMENT_CHARACTER);
        self.decoder = Decoder::new();
    }

    /// What a byte makes of the bytes of the character that isn't finished.
    pub fn reading(&self, byte: u8) -> Reading
        requires { 0 < length self.now.character }
        ensures { result ≡ reading self.now.character byte }
    {
        let mut decoder = Decoder::new();
        decoder.copy_from(&self.decoder);
        decoder.take(byte)
    }
}
