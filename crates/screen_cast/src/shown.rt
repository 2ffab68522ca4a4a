//! What a terminal showed before a chunk.

ghost use Rattle.std.specs.Prelude.{◌≡◌};
ghost use Rattle.vt_screen.specs.Touched.{Told};
ghost use Rattle.screen_rows.specs.KeptRows.{AreSources, HasOrder};
ghost use Rattle.screen_rows.specs.SameRows.{changed_lines};
ghost use Rattle.screen_print.specs.Stills.{still_of};

use screen_rows::{Compared, KeptRows, ROWS};
use std::marker::Model;
use vt_screen::Screen;
use vt_term::Terminal;

/// A copy of what a terminal showed: its rows by their slots, its columns, whether it was reversed, and its cursor.
#[derive(Drop)]
pub(crate) struct Shown {
    rows: KeptRows,
    wide: bool,
    reversed: bool,
    line: u8,
    column: u8,
}

impl Model for Shown {
    ghost use Rattle.screen_cast.specs.ShownView.{shown_in};
    ghost use Rattle.screen_cast.specs.Texts.{KeptStill};

    ghost Value = { KeptStill };

    ghost view = { shown_in };
}

impl Shown {
    /// What a terminal shows on its screen.
    pub(crate) fn of(terminal: &Terminal, screen: &Screen) -> Self
        requires { screen.now.picture ≡ terminal.now.console.picture }
        ensures still { result.still ≡ still_of terminal.now.console }
        ensures order { HasOrder result.kept screen.now }
    {
        let (line, column) = screen.cursor();
        Shown {
            rows: KeptRows::of(screen),
            wide: screen.is_wide(),
            reversed: terminal.modes().reverse_screen,
            line,
            column,
        }
    }

    /// Whether it had 132 columns.
    pub(crate) fn is_wide(&self) -> bool
        ensures { result ≡ self.now.still.wide }
    {
        self.wide
    }

    /// Whether its screen was reversed.
    pub(crate) fn is_reversed(&self) -> bool
        ensures { result ≡ self.now.still.reversed }
    {
        self.reversed
    }

    /// The line and the column of its cursor.
    pub(crate) fn cursor(&self) -> (u8, u8)
        ensures line { result.0 ≡ self.now.still.line }
        ensures column { result.1 ≡ self.now.still.column }
    {
        (self.line, self.column)
    }

    /// What the screen shows beside it, which marks all lines that it may have touched since.
    pub(crate) fn compare(&self, screen: &Screen) -> Compared
        requires { Told self.now.still.rows screen.now }
        ensures lines { result.lines.items
            ≡ changed_lines self.now.still.rows screen.now.picture.rows }
        ensures sources { AreSources self.now.kept screen.now result.sources }
    {
        self.rows.compare(screen)
    }

    /// It becomes what a terminal shows on its screen, of which it is known what that shows beside it.
    pub(crate) fn catch_up(&mut self, terminal: &Terminal, screen: &Screen, sources: &[u8; ROWS])
        requires shown { screen.now.picture ≡ terminal.now.console.picture }
        requires sources { AreSources self.old.kept screen.now sources.now }
        ensures still { self.new.still ≡ still_of terminal.now.console }
        ensures order { HasOrder self.new.kept screen.now }
        ensures rows { self.new.kept.rows ≡ screen.now.picture.rows }
    {
        self.rows.catch_up(screen, sources);
        self.wide = screen.is_wide();
        self.reversed = terminal.modes().reverse_screen;
        (self.line, self.column) = screen.cursor();
    }
}
