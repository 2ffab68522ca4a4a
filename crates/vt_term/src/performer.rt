//! A terminal without its parser, for whoever reads the bytes with one beside it.
ghost use Rattle.std.specs.Prelude.{◌≡◌, ℕ, List, Some, OnErr, OnOk};
ghost use Rattle.plays.specs.Sink.{after_sending};
ghost use Rattle.vt_parser.specs.Token.{TellsOf};
ghost use Rattle.vt_term.specs.Console.{IsSafe, reset_console};
ghost use Rattle.vt_term.specs.Effect.{IsRead};
ghost use Rattle.vt_term.specs.Term.{Term, mode_of, play, sent};

use crate::console::Console;
use crate::{OutOfMemory, Profile, Reports};
use std::marker::Model;
use vt_parser::{Mode, Token};
use vt_screen::Screen;

/// A VT100 or VT102 terminal without its parser. Contracts see its profile, picture, modes, rendition, sets, save and LEDs.
#[derive(Drop)]
pub struct Performer {
    console: Console,
}

impl Model for Performer {
    ghost use Rattle.vt_term.specs.Console.{Console, IsSafe, console_of};

    ghost Value = { Console };

    ghost view = { λ p. console_of p.console };

    ghost invariant = { λ p. IsSafe (console_of p.console) };
}

impl Performer {
    /// The initial state of a profile.
    pub fn reset_as(profile: Profile) -> Self
        ensures { result ≡ reset_console profile }
    {
        Performer {
            console: Console::reset(profile),
        }
    }

    /// Obeys what a parser read, and sends the reply to it. A refused growth changes nothing.
    #[inline(always)]
    pub fn obey(&mut self, token: Token, sink: &mut Reports) -> Result<(), OutOfMemory>
        requires { IsRead token }
        // For every term that it stands for, and all bytes that come to the token then, the bytes are played ..
        ensures played { (x : Term) (bytes : List ℕ) → x.console ≡ self.old
            → TellsOf (mode_of x) (mode_of x) x.pending bytes (Some token.entry)
            → OnOk result (self.new ≡ (play x bytes).console) }
        // .. and the replies to them were sent.
        ensures sent { (x : Term) (bytes : List ℕ) → x.console ≡ self.old
            → TellsOf (mode_of x) (mode_of x) x.pending bytes (Some token.entry)
            → OnOk result (sink.new ≡ after_sending sink.old (sent x bytes)) }
        ensures err { OnErr result (self.new ≡ self.old) }
        ensures err_sink { OnErr result (sink.new ≡ sink.old) }
    {
        self.console.obey(token, sink)?;
        Ok(())
    }

    /// The cells, sizes, cursor, pending wrap, margins and tabs.
    #[inline]
    pub fn screen(&self) -> &Screen
        ensures value { result.now.picture ≡ self.now.picture }
        ensures safe { IsSafe self.now }
    {
        &self.console.screen
    }

    /// The mode that decides how sequences are read.
    #[inline]
    pub fn mode(&self) -> Mode
        ensures { result ≡ self.now.modes.mode }
    {
        self.console.modes.mode
    }
}
