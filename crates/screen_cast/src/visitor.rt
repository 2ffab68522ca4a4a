//! What visits the chunks of a recording, and writes the events of each.

ghost use Rattle.std.specs.Prelude.{◌≡◌, ◌++◌};
ghost use Rattle.std.specs.List.{flat_map};
ghost use Rattle.tape_core.specs.Devices.{Gave};
ghost use Rattle.vt_term.specs.Seen.{Told};
ghost use Rattle.screen_print.specs.Stills.{still_of};
ghost use Rattle.screen_cast.specs.Cast.{event_line};
ghost use Rattle.screen_cast.specs.Events.{outputs, resizes};

use crate::events::put_events;
use crate::shown::Shown;
use crate::texts::{RunsText, forget_others, texts_of_rows};
use chunk_walk::Visitor;
use std::alloc::Global;
use std::io::Write;
use std::marker::Model;
use tape_core::Watched;
use tape_seek::{OutOfMemory, Session};
use vt_term::Terminal;

/// What a terminal showed, and the runs of its rows as far as they were drawn.
#[derive(Drop)]
pub(crate) struct DrawnRows {
    shown: Shown,
    texts: Vec<RunsText>,
}

impl Model for DrawnRows {
    ghost use Rattle.screen_print.specs.Stills.{Still};
    ghost use Rattle.screen_cast.specs.Texts.{AreTexts};
    ghost use Rattle.screen_cast.specs.DrawnView.{drawn_in};

    ghost Value = { Still };

    ghost view = { drawn_in };

    ghost invariant = { λ d.
        AreTexts d.shown.still.reversed d.shown.kept.order d.shown.kept.rows d.texts.items };
}

impl DrawnRows {
    /// What a terminal shows, of which nothing was drawn.
    fn of(alloc: Global, terminal: &Terminal) -> Self
        ensures { result ≡ still_of terminal.now.console }
    {
        DrawnRows {
            shown: Shown::of(terminal, terminal.screen()),
            texts: texts_of_rows(alloc),
        }
    }

    /// Writes the events of a chunk by what the terminal shows after it, which it becomes.
    fn put_chunk<W: Write>(&mut self, due: u64, terminal: &Terminal, writer: &mut Watched<W>)
        requires { Told self.old.rows terminal.now }
        ensures gave { let after = still_of terminal.now.console in Gave W.contents writer.old writer.new
            (flat_map event_line (resizes due self.old after)
            ++ flat_map event_line (outputs due self.old after)) }
        ensures after { self.new ≡ still_of terminal.now.console }
    {
        let screen = terminal.screen();
        let reversed = terminal.modes().reverse_screen;
        let compared = self.shown.compare(screen);
        let sources = &compared.sources;
        let texts = self.texts.as_mut_slice();
        forget_others(texts, &self.shown, screen, sources, reversed);
        let lines = compared.lines.as_slice();
        put_events(due, &self.shown, terminal, screen, lines, texts, writer);
        self.shown.catch_up(terminal, screen, sources);
    }
}

/// Writes the events of each chunk.
#[derive(Drop)]
pub(crate) struct EventPrinter {
    pub(crate) alloc: Global,
}

impl Visitor<Terminal> for EventPrinter {
    ghost use Rattle.std.specs.Prelude.{◌≡◌};
    ghost use Rattle.screen_print.specs.Walk.{still_by, text_by};
    ghost use Rattle.screen_cast.specs.Cast.{chunk_text};

    type Kept = DrawnRows;

    ghost text = { λ _. text_by chunk_text };

    ghost keeps = { λ profile drawn bytes. drawn ≡ still_by profile bytes };

    ghost takes_none = { Unit {0} };

    fn go_to(session: &mut Session, count: usize) -> Result<(), OutOfMemory> {
        session.seek_count(count)?;
        Ok(())
    }

    fn keep(&self, terminal: &Terminal) -> Result<DrawnRows, OutOfMemory> {
        Ok(DrawnRows::of(self.alloc, terminal))
    }

    fn visit<W: Write>(
        &self,
        _index: usize,
        due: u64,
        kept: &mut DrawnRows,
        terminal: &Terminal,
        writer: &mut Watched<W>,
    ) -> Result<(), OutOfMemory> {
        kept.put_chunk(due, terminal, writer);
        Ok(())
    }
}
