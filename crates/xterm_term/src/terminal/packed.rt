//! Terminals that are kept for later, without the blank tails of their rows.
ghost use Rattle.std.specs.Prelude.{◌≡◌, IfOk, List};
ghost use Rattle.sheet.specs.Cells.{Cell};
ghost use Rattle.xterm_term.specs.Packed.{touched_whole};
ghost use Rattle.xterm_term.specs.Seen.{Told};

use crate::terminal::Terminal;
use crate::{Modes, Saved, Sets, Size};
use characters::Decoder;
use sheet::Pen;
use std::alloc::{AllocError, Global};
use std::marker::Model;
use vt_parser::Parser;
use xterm_screen::PackedScreen;

/// A terminal of which each row is kept up to its last cell that isn't blank. Contracts see what is seen of the terminal,
/// no line's origin known.
#[derive(Debug, Drop)]
pub struct PackedTerminal {
    columns: u16,
    lines: u16,
    screen: PackedScreen,
    modes: Modes,
    rendition: Pen,
    sets: Sets,
    last: Option<char>,
    title: bool,
    main_saved: Option<Saved>,
    alternate_saved: Option<Saved>,
    parser: Parser,
    decoder: Decoder,
}

impl Model for PackedTerminal {
    ghost use Rattle.xterm_term.specs.Seen.{Seen};

    ghost Value = { Seen };

    ghost use Rattle.xterm_term.specs.Packed.{packed_seen, IsPacked};

    ghost view = { packed_seen };

    ghost invariant = { IsPacked };
}

impl PackedTerminal {
    /// How many columns and lines it has.
    pub fn size(&self) -> Size
        ensures columns { result.columns ≡ self.now.console.picture.columns }
        ensures lines { result.lines ≡ self.now.console.picture.lines }
    {
        Size {
            columns: self.columns,
            lines: self.lines,
        }
    }
}

impl Terminal {
    /// The terminal to be kept for later.
    pub fn pack(&self, alloc: Global) -> Result<PackedTerminal, AllocError>
        ensures { IfOk result (λ packed. packed ≡ touched_whole self.now) }
    {
        let console = &self.console;
        let screen = console.screen.pack(alloc)?;
        let mut parser = Parser::new();
        parser.copy_from(&self.parser);
        let mut decoder = Decoder::new();
        decoder.copy_from(&self.decoder);
        Ok(PackedTerminal {
            columns: console.screen.columns(),
            lines: console.screen.lines(),
            screen,
            modes: console.modes,
            rendition: console.rendition,
            sets: console.sets,
            last: console.last,
            title: console.title,
            main_saved: console.main_saved,
            alternate_saved: console.alternate_saved,
            parser,
            decoder,
        })
    }

    /// Becomes the terminal of the same size that was packed, no line's origin known.
    pub fn unpack(&mut self, packed: &PackedTerminal)
        requires columns { self.old.console.picture.columns ≡ packed.now.console.picture.columns }
        requires lines { self.old.console.picture.lines ≡ packed.now.console.picture.lines }
        ensures value { self.new ≡ packed.now }
        ensures told { (before : List (List Cell)) → Told before self.new }
    {
        self.console.screen.unpack(&packed.screen);
        self.console.modes = packed.modes;
        self.console.rendition = packed.rendition;
        self.console.sets = packed.sets;
        self.console.last = packed.last;
        self.console.title = packed.title;
        self.console.main_saved = packed.main_saved;
        self.console.alternate_saved = packed.alternate_saved;
        self.parser.copy_from(&packed.parser);
        self.decoder.copy_from(&packed.decoder);
    }
}
