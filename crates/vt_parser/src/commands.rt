//! What a parser is told, the mode, and what it tells of the bytes: commands, which have all of theirs, and tokens, which
//! lend it.
ghost use Rattle.std.specs.Prelude.{◌≡◌};
ghost use Rattle.vt_parser.specs.Law.{IsProper};
ghost use Rattle.vt_parser.specs.Token.{command_of_token};

use crate::limits::MOST_PARAMS;
use crate::states::copied;
use arrayvec::ArrayVec;

/// How sequences are read: as the VT100's ANSI mode or as its VT52 mode (EK-VT100-UG chapter 3).
#[derive(Clone, Copy, Debug, PartialEq, Eq)]
pub enum Mode {
    Ansi,
    Vt52,
}

/// What a byte, or a sequence that a byte ends, asks a terminal for.
#[derive(Debug, PartialEq, Eq, Drop)]
pub enum Command {
    /// Show a graphic character, 32 to 126.
    Show(u8),
    /// Show the error character: an unfinished sequence was cancelled, or a byte from 128 on came.
    Error,
    /// A control character that has an effect, 8 (BS) to 15 (SI).
    Control(u8),
    /// An escape sequence: its intermediate, 32 to 47, if it has one, and its final byte, 48 to 126.
    Esc {
        inter: Option<u8>,
        last: u8,
    },
    /// A control sequence: whether it began with `?`, its parameters (1 to 16 of them, each at most 9,999), and its
    /// final byte, 64 to 126.
    Csi {
        private: bool,
        params: ArrayVec<u16, MOST_PARAMS>,
        last: u8,
    },
    /// A sequence of VT52 mode by its final byte, 32 to 126 without `Y`.
    Vt52(u8),
    /// A direct cursor address of VT52 mode, each number from 1 to 95.
    Vt52Address {
        line: u8,
        column: u8,
    },
}

/// What bytes ask a terminal for: a run of graphic characters, or what a command asks for, the parameters lent.
#[derive(Clone, Copy, Debug)]
pub enum Token<'a> {
    /// Show these graphic characters, 32 to 126, one after another.
    Show(&'a [u8]),
    /// Show the error character.
    Error,
    /// A control character that has an effect, 8 (BS) to 15 (SI).
    Control(u8),
    /// An escape sequence: its intermediate, if it has one, and its final byte.
    Esc {
        inter: Option<u8>,
        last: u8,
    },
    /// A control sequence: whether it began with `?`, its parameters, and its final byte.
    Csi {
        private: bool,
        params: &'a [u16],
        last: u8,
    },
    /// A sequence of VT52 mode by its final byte.
    Vt52(u8),
    /// A direct cursor address of VT52 mode.
    Vt52Address {
        line: u8,
        column: u8,
    },
}

impl Token<'_> {
    /// The command of a token of one byte or of one sequence.
    pub(crate) fn command(self) -> Command
        requires { IsProper (command_of_token self) }
        ensures { result ≡ command_of_token self.entry }
    {
        match self {
            Token::Show(run) => Command::Show(run[0]),
            Token::Error => Command::Error,
            Token::Control(byte) => Command::Control(byte),
            Token::Esc { inter, last } => Command::Esc { inter, last },
            Token::Csi {
                private,
                params,
                last,
            } => Command::Csi {
                private,
                params: copied(params),
                last,
            },
            Token::Vt52(last) => Command::Vt52(last),
            Token::Vt52Address { line, column } => Command::Vt52Address { line, column },
        }
    }
}

/// A token that is no run, before it borrows its parameters: they are the first `count` of an array.
#[derive(Clone, Copy)]
pub(crate) enum Event {
    Error,
    Control(u8),
    Esc {
        inter: Option<u8>,
        last: u8,
    },
    Csi {
        private: bool,
        count: usize,
        last: u8,
    },
    Vt52(u8),
    Vt52Address {
        line: u8,
        column: u8,
    },
}
