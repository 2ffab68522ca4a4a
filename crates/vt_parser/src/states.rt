//! What a parser shows of an unfinished sequence.
ghost use Rattle.std.specs.Prelude.{◌≡◌, ◌≤◌, List, Some, length, ℕ};
ghost use Rattle.vt_parser.specs.View.{parser_view};
ghost use Rattle.vt_parser.specs.Formless.{formless_of};
ghost use Rattle.vt_parser.specs.Machine.{formless_at};

use crate::Mode;
use crate::limits::MOST_PARAMS;
use crate::syntax::{is_control_sequence_final, is_escape_final};
use arrayvec::ArrayVec;

/// How far the pending sequence has come.
#[derive(Debug, PartialEq, Eq, Drop)]
pub enum ParserState {
    /// Nothing is pending.
    Ground,
    /// ESC in ANSI mode.
    Escape,
    /// ESC and one intermediate, 32 to 47.
    EscapeOne(u8),
    /// ESC and two or more intermediates, which will have no effect.
    EscapeMany,
    /// ESC and `[`.
    CsiStart,
    /// ESC, `[` and a well formed text: whether it begins with `?`, the first 16 parameters, each at most 9,999, and
    /// whether there are more than 16.
    Csi {
        private: bool,
        params: ArrayVec<u16, MOST_PARAMS>,
        over: bool,
    },
    /// ESC, `[` and a text that isn't well formed, which will have no effect.
    CsiIgnored,
    /// A string (DCS, SOS, OSC, PM and APC alike), whose content is skipped.
    Text,
    /// ESC in VT52 mode.
    Vt52Escape,
    /// ESC and `Y` in VT52 mode.
    Vt52Line,
    /// ESC, `Y` and the byte of the line, 32 to 126.
    Vt52Column(u8),
}

/// The form of a finished sequence that gives no command.
#[derive(Clone, Copy, Debug, PartialEq, Eq)]
pub enum Formless {
    /// ESC, two or more intermediates, and this final byte.
    Escape(u8),
    /// ESC, `[`, a text that isn't well formed, and this final byte.
    ControlSequence(u8),
}

/// A list of the same parameters.
pub(crate) fn copied(params: &[u16]) -> ArrayVec<u16, MOST_PARAMS>
    requires { length params.now ≤ MOST_PARAMS }
    ensures { result.items ≡ params.now }
{
    let mut copy = ArrayVec::new();
    for &param in params {
        copy.push(param);
    }
    copy
}

impl ParserState {
    /// The sequence without a command that a byte ends, if it ends one.
    #[inline]
    pub fn formless_with(&self, byte: u8) -> Option<Formless>
        // Whatever pending bytes the state stands for, it is theirs.
        ensures { (m : Mode) (pending : List ℕ) → parser_view m pending ≡ Some self.now
            → result ≡ formless_of m pending byte }
    {
        self.formless_at(byte)
    }

    // The same, by the state alone.
    #[inline]
    fn formless_at(&self, byte: u8) -> Option<Formless>
        ensures { result ≡ formless_at self.now byte }
    {
        match self {
            ParserState::EscapeMany if is_escape_final(byte) => Some(Formless::Escape(byte)),
            ParserState::CsiIgnored if is_control_sequence_final(byte) => {
                Some(Formless::ControlSequence(byte))
            }
            _ => None,
        }
    }

    /// The same state again. It can't fail, as `clone` of a list may.
    pub(crate) fn copy(&self) -> ParserState
        ensures { result ≡ self.now }
    {
        match self {
            ParserState::Ground => ParserState::Ground,
            ParserState::Escape => ParserState::Escape,
            ParserState::EscapeOne(inter) => ParserState::EscapeOne(*inter),
            ParserState::EscapeMany => ParserState::EscapeMany,
            ParserState::CsiStart => ParserState::CsiStart,
            ParserState::Csi {
                private,
                params,
                over,
            } => ParserState::Csi {
                private: *private,
                params: copied(params.as_slice()),
                over: *over,
            },
            ParserState::CsiIgnored => ParserState::CsiIgnored,
            ParserState::Text => ParserState::Text,
            ParserState::Vt52Escape => ParserState::Vt52Escape,
            ParserState::Vt52Line => ParserState::Vt52Line,
            ParserState::Vt52Column(line) => ParserState::Vt52Column(*line),
        }
    }
}
