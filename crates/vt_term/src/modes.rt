//! The modes of a terminal.
ghost use Rattle.std.specs.Prelude.{◌≡◌};
ghost use Rattle.vt_term.specs.Console.{first_modes};

use vt_parser::Mode;

/// The modes of a terminal, each true where it is set, and its keypad. DECCOLM is told by the screen's columns.
#[derive(Clone, Copy, Debug, PartialEq, Eq)]
pub struct Modes {
    /// DECANM: how sequences are read.
    pub mode: Mode,
    /// DECCKM.
    pub cursor_keys: bool,
    /// DECSCLM.
    pub smooth_scroll: bool,
    /// DECSCNM.
    pub reverse_screen: bool,
    /// DECOM: lines are counted from the top margin.
    pub origin: bool,
    /// DECAWM.
    pub autowrap: bool,
    /// DECARM.
    pub auto_repeat: bool,
    /// DECINLM.
    pub interlace: bool,
    /// LNM: LF begins a line.
    pub newline: bool,
    /// IRM: characters move those from the cursor on to the right.
    pub insert: bool,
    /// DECKPAM.
    pub application_keypad: bool,
}

impl Modes {
    /// ANSI mode, and DECAWM set alone.
    pub(crate) fn first() -> Self
        ensures { result ≡ first_modes }
    {
        Modes {
            mode: Mode::Ansi,
            cursor_keys: false,
            smooth_scroll: false,
            reverse_screen: false,
            origin: false,
            autowrap: true,
            auto_repeat: false,
            interlace: false,
            newline: false,
            insert: false,
            application_keypad: false,
        }
    }
}
