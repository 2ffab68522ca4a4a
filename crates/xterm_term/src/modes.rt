//! The modes of a terminal.
ghost use Rattle.std.specs.Prelude.{◌≡◌};
ghost use Rattle.xterm_term.specs.Console.{first_modes};

/// The modes of a terminal, each true where it is set, and its keypad.
#[derive(Clone, Copy, Debug, PartialEq, Eq)]
pub struct Modes {
    /// DECCKM.
    pub cursor_keys: bool,
    /// DECSCNM.
    pub reverse_screen: bool,
    /// DECOM: lines are counted from the top margin.
    pub origin: bool,
    /// DECAWM.
    pub autowrap: bool,
    /// LNM: LF begins a line.
    pub newline: bool,
    /// IRM: characters move those from the cursor on to the right.
    pub insert: bool,
    /// DECKPAM.
    pub application_keypad: bool,
    /// DECTCEM.
    pub cursor_shown: bool,
}

impl Modes {
    /// DECAWM set and the cursor shown alone.
    pub(crate) fn first() -> Self
        ensures { result ≡ first_modes }
    {
        Modes {
            cursor_keys: false,
            reverse_screen: false,
            origin: false,
            autowrap: true,
            newline: false,
            insert: false,
            application_keypad: false,
            cursor_shown: true,
        }
    }
}
