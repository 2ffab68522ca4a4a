//! Character sets, and the glyph that a byte stands for.
ghost use Rattle.std.specs.Prelude.{◌≡◌, ◌≤◌};
ghost use Rattle.vt_term.specs.Sets.{glyph_of, set_in, set_in_use, first_sets, designated};

use vt_parser::Mode;
use vt_screen::limits::LAST_GLYPH;

/// The error character's glyph, the checkerboard.
pub(crate) const CHECKERBOARD: u8 = 2;

// What the bytes of special graphics have over their glyphs, from this byte on.
const GRAPHICS_OFFSET: u8 = 95;

const POUND_SIGN: u8 = 30;

/// A character set that can be designated.
#[derive(Clone, Copy, Debug, PartialEq, Eq)]
pub enum CharacterSet {
    Ascii,
    Uk,
    SpecialGraphics,
}

/// Where a set is designated.
#[derive(Clone, Copy, Debug, PartialEq, Eq)]
pub enum Slot {
    G0,
    G1,
}

/// The sets that are designated, which of them is invoked, and whether VT52 mode's graphics is on.
#[derive(Clone, Copy, Debug, PartialEq, Eq)]
pub struct Sets {
    pub g0: CharacterSet,
    pub g1: CharacterSet,
    pub invoked: Slot,
    pub vt52_graphics: bool,
}

impl Sets {
    /// ASCII in G0 and G1, G0 invoked, and VT52 graphics off.
    pub(crate) fn first() -> Self
        ensures { result ≡ first_sets }
    {
        Sets {
            g0: CharacterSet::Ascii,
            g1: CharacterSet::Ascii,
            invoked: Slot::G0,
            vt52_graphics: false,
        }
    }

    #[inline]
    fn invoked_set(&self) -> CharacterSet
        ensures { result ≡ set_in self.now.invoked self.now }
    {
        match self.invoked {
            Slot::G0 => self.g0,
            Slot::G1 => self.g1,
        }
    }

    /// The set by which bytes are shown in a mode.
    #[inline]
    pub(crate) fn in_use(&self, mode: Mode) -> CharacterSet
        ensures { result ≡ set_in_use mode self.now }
    {
        match mode {
            Mode::Ansi => self.invoked_set(),
            Mode::Vt52 => {
                if self.vt52_graphics {
                    CharacterSet::SpecialGraphics
                } else {
                    CharacterSet::Ascii
                }
            }
        }
    }

    /// SCS.
    pub(crate) fn designate(&mut self, slot: Slot, set: CharacterSet)
        ensures { self.new ≡ designated slot set self.old }
    {
        match slot {
            Slot::G0 => self.g0 = set,
            Slot::G1 => self.g1 = set,
        }
    }
}

impl CharacterSet {
    /// The glyph of a byte 32 to 126.
    #[inline]
    pub(crate) fn glyph(self, byte: u8) -> u8
        ensures value { result ≡ glyph_of self byte }
        ensures most { byte ≤ LAST_GLYPH → result ≤ LAST_GLYPH }
    {
        match self {
            CharacterSet::Ascii => byte,
            CharacterSet::Uk => { if byte == b'#' { POUND_SIGN } else { byte } }
            CharacterSet::SpecialGraphics => {
                if byte >= GRAPHICS_OFFSET {
                    byte - GRAPHICS_OFFSET
                } else {
                    byte
                }
            }
        }
    }
}
