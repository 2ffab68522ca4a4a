//! Terminals that are kept for later, without the blank tails of their lines.
ghost use Rattle.std.specs.Prelude.{◌≡◌, IfOk, List};
ghost use Rattle.vt_screen.specs.declared.cell.Row.{Row};
ghost use Rattle.vt_term.specs.Packed.{wholly_touched};
ghost use Rattle.vt_term.specs.Seen.{Told};

use crate::terminal::Terminal;
use crate::{Modes, Profile, Saved, Sets};
use std::alloc::{AllocError, Global};
use std::marker::Model;
use vt_parser::Parser;
use vt_screen::{PackedScreen, Rendition};

/// A terminal of which each line is kept up to its last cell that isn't blank. Contracts see what is seen of the
/// terminal.
#[derive(Debug, Drop)]
pub struct PackedTerminal {
    profile: Profile,
    screen: PackedScreen,
    modes: Modes,
    rendition: Rendition,
    sets: Sets,
    saved: Option<Saved>,
    leds: [bool; 4],
    parser: Parser,
}

impl Model for PackedTerminal {
    ghost use Rattle.vt_term.specs.Seen.{Seen};

    ghost Value = { Seen };

    ghost use Rattle.vt_term.specs.Packed.{packed_seen};
    ghost use Rattle.vt_term.specs.Seen.{IsTerminal};

    ghost view = { packed_seen };

    ghost invariant = { λ t. IsTerminal (packed_seen t) };
}

impl Terminal {
    /// The terminal to be kept for later, with all lines touched.
    pub fn pack(&self, alloc: Global) -> Result<PackedTerminal, AllocError>
        ensures { IfOk result (λ packed. packed ≡ wholly_touched self.now) }
    {
        let console = &self.console;
        let screen = console.screen.pack(alloc)?;
        let mut parser = Parser::new();
        parser.copy_from(&self.parser);
        Ok(PackedTerminal {
            profile: console.profile,
            screen,
            modes: console.modes,
            rendition: console.rendition,
            sets: console.sets,
            saved: console.saved,
            leds: console.leds,
            parser,
        })
    }

    /// Becomes the terminal that was packed.
    pub fn unpack(&mut self, packed: &PackedTerminal)
        ensures value { self.new ≡ packed.now }
        ensures told { (before : List Row) → Told before self.new }
    {
        self.console.profile = packed.profile;
        self.console.screen.unpack(&packed.screen);
        self.console.modes = packed.modes;
        self.console.rendition = packed.rendition;
        self.console.sets = packed.sets;
        self.console.saved = packed.saved;
        self.console.leds = packed.leds;
        self.parser.copy_from(&packed.parser);
    }
}
