//! Screens that are kept for later, without the blank tails of their rows.

ghost use Rattle.std.specs.Prelude.{◌≡◌, IfOk, List};
ghost use Rattle.sheet.specs.Cells.{Cell};
ghost use Rattle.sheet.specs.Grid.{no_origins};
ghost use Rattle.xterm_screen.specs.Picture.{Told};

use crate::screen::Screen;
use sheet::PackedSheet;
use std::alloc::{AllocError, Global};
use std::marker::Model;

/// A screen of which each row is kept up to its last cell that isn't blank. Contracts see the picture.
#[derive(Debug, Drop)]
pub struct PackedScreen {
    shown: PackedSheet,
    other: PackedSheet,
    tabs: Vec<bool>,
    columns: u16,
    lines: u16,
    line: u16,
    column: u16,
    top: u16,
    bottom: u16,
    alternate: bool,
    wrap: bool,
}

impl Model for PackedScreen {
    ghost use Rattle.xterm_screen.specs.Picture.{Picture};

    ghost Value = { Picture };

    ghost use Rattle.xterm_screen.specs.Packed.{IsPacked, packed_picture};

    ghost view = { packed_picture };

    ghost invariant = { IsPacked };
}

impl Screen {
    /// The screen to be kept for later.
    pub fn pack(&self, alloc: Global) -> Result<PackedScreen, AllocError>
        ensures { IfOk result (λ packed. packed ≡ self.now.picture) }
    {
        let shown = self.shown.pack(alloc)?;
        let other = self.other.pack(alloc)?;
        let tabs = Vec::from_slice(alloc, self.tabs.as_slice())?;
        Ok(PackedScreen {
            shown,
            other,
            tabs,
            columns: self.columns,
            lines: self.lines,
            line: self.line,
            column: self.column,
            top: self.top,
            bottom: self.bottom,
            alternate: self.alternate,
            wrap: self.wrap,
        })
    }

    /// Becomes a screen of the same size that was packed. It takes no memory, and no line's origin is known.
    pub fn unpack(&mut self, packed: &PackedScreen)
        requires columns { packed.now.columns ≡ self.old.picture.columns }
        requires lines { packed.now.lines ≡ self.old.picture.lines }
        ensures picture { self.new.picture ≡ packed.now }
        ensures touched { self.new.origins ≡ no_origins packed.now.lines }
        ensures told { (before : List (List Cell)) → Told before self.new }
    {
        self.shown.unpack(&packed.shown);
        self.other.unpack(&packed.other);
        self.tabs
            .as_mut_slice()
            .copy_from_slice(packed.tabs.as_slice());
        self.line = packed.line;
        self.column = packed.column;
        self.top = packed.top;
        self.bottom = packed.bottom;
        self.alternate = packed.alternate;
        self.wrap = packed.wrap;
    }
}
