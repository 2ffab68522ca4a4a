//! Character sets, and the character that a byte stands for.
ghost use Rattle.std.specs.Prelude.{◌≡◌, ◌≤◌};
ghost use Rattle.xterm_term.specs.Sets.{character_of, set_in_use, first_sets, designated};

// The first byte of special graphics that isn't as in ASCII.
const FIRST_GRAPHIC: u8 = 95;

const POUND_SIGN: char = '£';

// The characters of special graphics, from that byte on.
const SPECIAL_GRAPHICS: [char; 32] = [
    ' ', '◆', '▒', '␉', '␌', '␍', '␊', '°', '±', '␤', '␋', '┘', '┐', '┌', '└', '┼', '⎺', '⎻', '─',
    '⎼', '⎽', '├', '┤', '┴', '┬', '│', '≤', '≥', 'π', '≠', '£', '·',
];

/// A character set that can be designated.
#[derive(Clone, Copy, Debug, PartialEq, Eq)]
pub enum CharacterSet {
    Ascii,
    Uk,
    SpecialGraphics,
}

/// Where a set is designated.
#[derive(Clone, Copy, Debug, PartialEq, Eq)]
pub enum Slot {
    G0,
    G1,
}

/// The sets that are designated, and which of them is invoked.
#[derive(Clone, Copy, Debug, PartialEq, Eq)]
pub struct Sets {
    pub g0: CharacterSet,
    pub g1: CharacterSet,
    pub invoked: Slot,
}

impl Sets {
    /// ASCII in G0 and G1, and G0 invoked.
    pub(crate) fn first() -> Self
        ensures { result ≡ first_sets }
    {
        Sets {
            g0: CharacterSet::Ascii,
            g1: CharacterSet::Ascii,
            invoked: Slot::G0,
        }
    }

    /// The set by which bytes are shown.
    #[inline]
    pub(crate) fn in_use(&self) -> CharacterSet
        ensures { result ≡ set_in_use self.now }
    {
        match self.invoked {
            Slot::G0 => self.g0,
            Slot::G1 => self.g1,
        }
    }

    /// SCS.
    pub(crate) fn designate(&mut self, slot: Slot, set: CharacterSet)
        ensures { self.new ≡ designated slot set self.old }
    {
        match slot {
            Slot::G0 => self.g0 = set,
            Slot::G1 => self.g1 = set,
        }
    }
}

impl CharacterSet {
    /// The character of a byte 32 to 126.
    #[inline]
    #[tactic(auto, unfolding(crate::specs::Sets::character_of))]
    pub(crate) fn character(self, byte: u8) -> char
        requires { byte ≤ 126 }
        ensures { result ≡ character_of self byte }
    {
        match self {
            CharacterSet::Ascii => char::from(byte),
            CharacterSet::Uk => {
                if byte == b'#' {
                    POUND_SIGN
                } else {
                    char::from(byte)
                }
            }
            CharacterSet::SpecialGraphics => {
                if byte >= FIRST_GRAPHIC {
                    SPECIAL_GRAPHICS[usize::from(byte - FIRST_GRAPHIC)]
                } else {
                    char::from(byte)
                }
            }
        }
    }
}
