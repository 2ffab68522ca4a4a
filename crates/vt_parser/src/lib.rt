//! The control syntax of a VT100: bytes to commands, one byte at a time, in ANSI and in VT52 mode.
//!
//! The forms of sequences are those of ECMA-48, and of EK-VT100-UG chapter 3 in VT52 mode. Nothing here takes memory or
//! refuses a byte.
#![tactic(auto)]

ghost use Rattle.std.specs.Prelude.{◌≡◌, ◌≤◌, ◌<◌, ℕ, List, Some, None, IfSome, length, take};
ghost use Rattle.vt_parser.specs.Forms.{most_params};
ghost use Rattle.vt_parser.specs.Reading.{event_command, command_told, IsLent};
ghost use Rattle.vt_parser.specs.View.{parser_view, IsShown};
ghost use Rattle.vt_parser.specs.Step.{command_of, pending_after, mode_after};
ghost use Rattle.vt_parser.specs.Law.{IsProper};
ghost use Rattle.vt_parser.specs.Formless.{NoneEndsBehind};
ghost use Rattle.vt_parser.specs.Token.{command_of_token, TellsOf};

mod commands;
mod control_sequence;
pub mod laws;
pub mod limits;
mod machine;
mod runs;
mod states;
mod syntax;
mod waiting;

use commands::Event;
pub use commands::{Command, Mode, Token};
use control_sequence::read_control_sequence;
use limits::MOST_PARAMS;
pub use runs::printable_run;
pub use states::{Formless, ParserState};
use std::marker::Model;
pub use waiting::waiting_run;

/// Where a reader of terminal output stands in the control syntax.
#[derive(Debug, Drop)]
pub struct Parser {
    state: ParserState,
    // The parameters of the control sequence that is read; a finished one lends them from here.
    params: [u16; MOST_PARAMS],
}

impl Model for Parser {
    ghost use Rattle.std.specs.Prelude.{◌≡◌, length};
    ghost use Rattle.vt_parser.specs.declared.states.ParserState.{ParserState};

    ghost Value = { ParserState };

    ghost use Rattle.vt_parser.specs.Forms.{most_params};
    ghost use Rattle.vt_parser.specs.View.{IsShown};

    ghost view = { λ parser. parser.state };

    ghost invariant = { λ parser. IsShown parser.state × (length parser.params ≡ most_params) };
}

impl Parser {
    ghost use Rattle.std.specs.Borrow.{sem};
    ghost use Rattle.vt_parser.specs.Lending.{LeavesLed};

    /// A parser on ground.
    pub fn new() -> Self
        ensures { result ≡ ParserState.Ground }
    {
        Parser {
            state: ParserState::Ground,
            params: [0; MOST_PARAMS],
        }
    }

    /// Takes some of the bytes, at least one, and says how many, and what they come to, if anything. The mode that is
    /// given matters only at an ESC: the mode at its ESC decides how a sequence is read to its end. It can't change
    /// within a call, since a sequence ends with its last byte. A finished sequence whose form has no effect comes to
    /// nothing.
    // Inlined always, with all that it calls: the terminal's loop takes half as long again where it shares a copy with
    // another loop over tokens.
    #[inline(always)]
    pub fn next<'a>(&'a mut self, mode: Mode, bytes: &'a [u8]) -> (usize, Option<Token<'a>>)
        requires { 0 < length bytes.now }
        // Whatever pending bytes the state stands for, the new state shows what is pending after the bytes taken ..
        ensures* state { sem 𝓛 (LeavesLed self.entry mode (take result.0 bytes.now)) }
        ensures some { 0 < result.0 }
        ensures within { result.0 ≤ length bytes.now }
        // .. and the token is theirs.
        ensures told { (m : Mode) (pending : List ℕ) → parser_view m pending ≡ Some self.old
            → TellsOf mode m pending (take result.0 bytes.now) result.1 }
        // No byte taken but the first ends a sequence without a command.
        ensures formless { (m : Mode) (pending : List ℕ) → parser_view m pending ≡ Some self.old
            → NoneEndsBehind mode m pending (take result.0 bytes.now) }
        ensures proper { IfSome result.1 (λ token. IsProper (command_of_token token)) }
    {
        let run = machine::run_at(&self.state, bytes);
        if run > 0 {
            return (run, Some(Token::Show(&bytes[..run])));
        }
        // Control sequences come most often, and take a tenth less with a way of their own to the token.
        if machine::opens_control_sequence(mode, bytes) {
            let (taken, event) = read_control_sequence(&mut self.state, &mut self.params, bytes);
            return (taken, lent(event, &self.params));
        }
        let (taken, event) = machine::read(&mut self.state, &mut self.params, mode, bytes);
        (taken, lent(event, &self.params))
    }

    /// Takes one byte. The mode that is given matters only at an ESC: the mode at its ESC decides how a sequence is
    /// read to its end. A finished sequence whose form has no effect gives no command.
    pub fn step(&mut self, mode: Mode, byte: u8) -> Option<Command>
        // Whatever pending bytes the state stands for, the command is theirs ..
        ensures command { (m : Mode) (pending : List ℕ)
            → parser_view m pending ≡ Some self.old → result ≡ command_of m pending byte }
        // .. and the new state shows what is pending then.
        ensures state { (m : Mode) (pending : List ℕ) → parser_view m pending ≡ Some self.old
            → parser_view (mode_after mode m byte) (pending_after m pending byte) ≡ Some self.new }
        ensures proper { IfSome result IsProper }
    {
        let bytes = [byte];
        let (_, token) = self.next(mode, &bytes);
        match token {
            Some(token) => Some(token.command()),
            None => None,
        }
    }

    /// How far the pending sequence has come.
    #[inline]
    pub fn state(&self) -> &ParserState
        ensures value { result.now ≡ self.now }
        // Each parser stands for some pending bytes.
        ensures shown { IsShown self.now }
    {
        &self.state
    }

    /// Makes this parser stand where the other one does.
    pub fn copy_from(&mut self, other: &Parser)
        ensures { self.new ≡ other.now }
    {
        self.state = other.state.copy();
    }
}

/// The token of an event, if there is one, its parameters lent from the array.
#[inline(always)]
fn lent<'a>(event: Option<Event>, params: &'a [u16]) -> Option<Token<'a>>
    requires lent { IsLent event }
    requires long { length params.now ≡ most_params }
    ensures { event_command event params.now ≡ command_told result }
{
    Some(match event? {
        Event::Error => Token::Error,
        Event::Control(byte) => Token::Control(byte),
        Event::Esc { inter, last } => Token::Esc { inter, last },
        Event::Csi {
            private,
            count,
            last,
        } => Token::Csi {
            private,
            params: &params[..count],
            last,
        },
        Event::Vt52(last) => Token::Vt52(last),
        Event::Vt52Address { line, column } => Token::Vt52Address { line, column },
    })
}
