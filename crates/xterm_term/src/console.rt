//! A terminal without what is pending: the screen, the modes, the sets and what else commands change. `obey` is the top:
//! from a command to the table that its control or sequence stands in.
ghost use Rattle.std.specs.Prelude.{◌≡◌, IfOk, IfSome, OnOk, OnErr, IsOk};
ghost use Rattle.xterm_term.specs.Console.{IsSafe, reset_console, console_of};
ghost use Rattle.xterm_term.specs.Term.{forgotten_if, title_set};
ghost use Rattle.xterm_term.specs.Effect.{effect, reply, token_effect, token_reply};
ghost use Rattle.xterm_term.specs.Replies.{reply_of};
ghost use Rattle.xterm_term.specs.Rows.{effect_of};
ghost use Rattle.vt_parser.specs.Law.{IsProper};
ghost use Rattle.vt_parser.specs.Token.{command_of_token};
ghost use Rattle.plays.specs.Sink.{after_sending, HasRoom};
ghost use Rattle.xterm_screen.specs.Picture.{KeepsTold};

use crate::{Modes, OutOfMemory, Reports, Saved, Sets, Size};
use sheet::Pen;
use std::alloc::{AllocError, Global};
use vt_parser::{Command, Token};
use xterm_screen::Screen;

/// The state that effects change.
#[derive(Debug, Drop)]
pub(crate) struct Console {
    pub(crate) screen: Screen,
    pub(crate) modes: Modes,
    pub(crate) rendition: Pen,
    pub(crate) sets: Sets,
    pub(crate) last: Option<char>,
    pub(crate) title: bool,
    pub(crate) main_saved: Option<Saved>,
    pub(crate) alternate_saved: Option<Saved>,
}

impl Console {
    /// The initial state of a size.
    pub(crate) fn new(alloc: Global, size: Size) -> Result<Self, AllocError>
        ensures { IfOk result (λ console. console_of console ≡ reset_console size.columns size.lines) }
    {
        let screen = Screen::new(alloc, size.columns, size.lines)?;
        Ok(Console {
            screen,
            modes: Modes::first(),
            rendition: Pen::plain(),
            sets: Sets::first(),
            last: None,
            title: false,
            main_saved: None,
            alternate_saved: None,
        })
    }

    /// RIS: the initial state of the same size.
    pub(crate) fn reset(&mut self)
        ensures done { console_of self.new
            ≡ reset_console self.old.screen.picture.columns self.old.screen.picture.lines }
        ensures told { KeepsTold self.old.screen self.new.screen }
    {
        self.screen.reset();
        self.modes = Modes::first();
        self.rendition = Pen::plain();
        self.sets = Sets::first();
        self.last = None;
        self.title = false;
        self.main_saved = None;
        self.alternate_saved = None;
    }

    /// Becomes another one of the same size.
    pub(crate) fn copy_from(&mut self, other: &Console)
        requires columns { self.old.screen.picture.columns ≡ other.now.screen.picture.columns }
        requires lines { self.old.screen.picture.lines ≡ other.now.screen.picture.lines }
        ensures done { console_of self.new ≡ console_of other.now }
        ensures touched { self.new.screen.origins ≡ other.now.screen.origins }
    {
        self.screen.copy_from(&other.screen);
        self.modes = other.modes;
        self.rendition = other.rendition;
        self.sets = other.sets;
        self.last = other.last;
        self.title = other.title;
        self.main_saved = other.main_saved;
        self.alternate_saved = other.alternate_saved;
    }

    /// Obeys a command: sends the reply to it, and does what it asks for. A refused growth changes nothing.
    #[tactic(auto, unfolding(crate::specs::Effect::effect, crate::specs::Effect::reply))]
    pub(crate) fn obey(&mut self, command: &Command, sink: &mut Reports) -> Result<(), OutOfMemory>
        requires proper { IsProper command.now }
        requires safe { IsSafe (console_of self.old) }
        ensures done { OnOk result (console_of self.new ≡ effect command.now (console_of self.old)) }
        ensures sent { OnOk result
            (sink.new ≡ after_sending sink.old (reply command.now (console_of self.old))) }
        ensures err { OnErr result (console_of self.new ≡ console_of self.old) }
        ensures err_sink { OnErr result (sink.new ≡ sink.old) }
        ensures room { HasRoom sink.old (reply command.now (console_of self.old)) → IsOk result }
        ensures told { KeepsTold self.old.screen self.new.screen }
    {
        match command {
            Command::Show(byte) => self.put_byte(*byte),
            Command::Control(byte) => self.control(*byte),
            Command::Esc { inter, last } => return self.obey_escape(*inter, *last, sink),
            Command::Csi {
                private: true,
                params,
                last,
            } => self.obey_private_sequence(*last, params.as_slice()),
            Command::Csi {
                private: false,
                params,
                last,
            } => return self.obey_plain_sequence(*last, params.as_slice(), sink),
            Command::Error | Command::Vt52(_) | Command::Vt52Address { .. } => {}
        }
        Ok(())
    }

    /// Obeys a token that is no run, as its command.
    // Inlined always: the terminal's loop takes a twentieth longer where it calls this.
    #[inline(always)]
    #[tactic(auto, unfolding(crate::specs::Effect::effect, crate::specs::Effect::reply))]
    pub(crate) fn obey_token(&mut self, token: Token, sink: &mut Reports) -> Result<(), OutOfMemory>
        requires proper { IsProper (command_of_token token) }
        requires safe { IsSafe (console_of self.old) }
        ensures done { OnOk result
            (console_of self.new ≡ token_effect token.entry (console_of self.old)) }
        ensures sent { OnOk result
            (sink.new ≡ after_sending sink.old (token_reply token.entry (console_of self.old))) }
        ensures err { OnErr result (console_of self.new ≡ console_of self.old) }
        ensures err_sink { OnErr result (sink.new ≡ sink.old) }
        ensures room { HasRoom sink.old (token_reply token.entry (console_of self.old))
            → IsOk result }
        ensures told { KeepsTold self.old.screen self.new.screen }
    {
        match token {
            Token::Show(run) => self.put_byte(run[0]),
            Token::Control(byte) => self.control(byte),
            Token::Esc { inter, last } => return self.obey_escape(inter, last, sink),
            Token::Csi {
                private: true,
                params,
                last,
            } => self.obey_private_sequence(last, params),
            Token::Csi {
                private: false,
                params,
                last,
            } => return self.obey_plain_sequence(last, params, sink),
            Token::Error | Token::Vt52(_) | Token::Vt52Address { .. } => {}
        }
        Ok(())
    }

    /// Obeys a token, where there is one.
    #[inline]
    pub(crate) fn obey_token_if(
        &mut self,
        token: Option<Token>,
        sink: &mut Reports,
    ) -> Result<(), OutOfMemory>
        requires proper { IfSome token (λ token. IsProper (command_of_token token)) }
        requires safe { IsSafe (console_of self.old) }
        ensures done { OnOk result
            (console_of self.new ≡ effect_of token_effect token.entry (console_of self.old)) }
        ensures sent { OnOk result
            (sink.new
            ≡ after_sending sink.old (reply_of token_reply token.entry (console_of self.old))) }
        ensures err { OnErr result (console_of self.new ≡ console_of self.old) }
        ensures err_sink { OnErr result (sink.new ≡ sink.old) }
        ensures room { HasRoom sink.old (reply_of token_reply token.entry (console_of self.old))
            → IsOk result }
        ensures told { KeepsTold self.old.screen self.new.screen }
    {
        match token {
            Some(token) => self.obey_token(token, sink),
            None => Ok(()),
        }
    }

    /// Obeys a command, where there is one.
    pub(crate) fn obey_if(
        &mut self,
        command: &Option<Command>,
        sink: &mut Reports,
    ) -> Result<(), OutOfMemory>
        requires proper { IfSome command.now IsProper }
        requires safe { IsSafe (console_of self.old) }
        ensures done { OnOk result
            (console_of self.new ≡ effect_of effect command.now (console_of self.old)) }
        ensures sent { OnOk result
            (sink.new
            ≡ after_sending sink.old (reply_of reply command.now (console_of self.old))) }
        ensures err { OnErr result (console_of self.new ≡ console_of self.old) }
        ensures err_sink { OnErr result (sink.new ≡ sink.old) }
        ensures room { HasRoom sink.old (reply_of reply command.now (console_of self.old))
            → IsOk result }
        ensures told { KeepsTold self.old.screen self.new.screen }
    {
        match command {
            Some(command) => self.obey(command, sink),
            None => Ok(()),
        }
    }

    /// There is no last character any more, if something has ended.
    #[inline]
    pub(crate) fn forget_if(&mut self, ended: bool)
        ensures done { console_of self.new ≡ forgotten_if ended (console_of self.old) }
        ensures told { KeepsTold self.old.screen self.new.screen }
    {
        if ended {
            self.last = None;
        }
    }

    /// A title begins or ends.
    pub(crate) fn set_title(&mut self, value: bool)
        ensures done { console_of self.new ≡ title_set value (console_of self.old) }
        ensures told { KeepsTold self.old.screen self.new.screen }
    {
        self.title = value;
    }
}
