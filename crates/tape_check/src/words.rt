//! The words that are looked for in a typescript, and those that are written: `specs/Words` has the same table.
ghost use Rattle.std.specs.Prelude.{◌≡◌};
ghost use Rattle.tape_check.specs.Words.{text_of};

/// A word of the table.
#[derive(Clone, Copy)]
pub enum Word {
    // What script(1) writes.
    Opening,
    Closing,
    NotExecuted,
    TermLabel,
    ColumnsLabel,
    LinesLabel,
    // The screen that is played, and the names of terminals.
    EightyColumns,
    TwentyFourLines,
    Vt52,
    Vt100,
    Vt102,
    Xterm,
    Screen,
    Tmux,
    Linux,
    Vt220,
    Rxvt,
    Alacritty,
    Kitty,
    Foot,
    St,
    Gnome,
    Konsole,
    Putty,
    Ansi,
    // Facts.
    Started,
    Term,
    Size,
    // Notes.
    Note,
    NoHeader,
    OtherSize,
    PlayedSize,
    OtherTerm,
    PlayedTerm,
    HighBytes,
    NoUtf8,
    NotUtf8,
    Trailing,
    NeverShown,
    Resizes,
    LeftOut,
    Sessions,
    MoreSessions,
    // Unplayed sequences.
    Unplayed,
    // The advice.
    Try,
    // The line on standard error.
    Beginning,
    Separator,
    Ending,
    EndingTry,
}

impl Word {
    /// Its bytes.
    #[tactic(auto, unfolding(crate::specs::Words::text_of))]
    pub(crate) fn text(self) -> &'static [u8]
        ensures { result.now ≡ text_of self }
    {
        match self {
            Word::Opening => b"Script started on ",
            Word::Closing => b"\nScript done on ",
            Word::NotExecuted => b"<not executed on terminal>]",
            Word::TermLabel => b"TERM=\"",
            Word::ColumnsLabel => b"COLUMNS=\"",
            Word::LinesLabel => b"LINES=\"",
            Word::EightyColumns => b"80",
            Word::TwentyFourLines => b"24",
            Word::Vt52 => b"vt52",
            Word::Vt100 => b"vt100",
            Word::Vt102 => b"vt102",
            Word::Xterm => b"xterm",
            Word::Screen => b"screen",
            Word::Tmux => b"tmux",
            Word::Linux => b"linux",
            Word::Vt220 => b"vt220",
            Word::Rxvt => b"rxvt",
            Word::Alacritty => b"alacritty",
            Word::Kitty => b"kitty",
            Word::Foot => b"foot",
            Word::St => b"st",
            Word::Gnome => b"gnome",
            Word::Konsole => b"konsole",
            Word::Putty => b"putty",
            Word::Ansi => b"ansi",
            Word::Started => b"started ",
            Word::Term => b"term ",
            Word::Size => b"size ",
            Word::Note => b"note ",
            Word::NoHeader => b"header: not script's",
            Word::OtherSize => b"size: recorded at ",
            Word::PlayedSize => b", played at ",
            Word::OtherTerm => b"term: recorded under ",
            Word::PlayedTerm => b", played as ",
            Word::HighBytes => b"bytes: ",
            Word::NoUtf8 => b" from 128 on: this terminal has no UTF-8",
            Word::NotUtf8 => b" parts that are no UTF-8",
            Word::Trailing => b"trailer: ",
            Word::NeverShown => b" bytes behind the last chunk are never shown",
            Word::Resizes => b"resizes: ",
            Word::LeftOut => b" left out",
            Word::Sessions => b"sessions: ",
            Word::MoreSessions => b" more in the trailer",
            Word::Unplayed => b"unplayed ",
            Word::Try => b"try --profile xterm\n",
            Word::Beginning => b"typetool: note: ",
            Word::Separator => b"; ",
            Word::Ending => b" (see typetool check)\n",
            Word::EndingTry => b" (see typetool check, or try --profile xterm)\n",
        }
    }
}
