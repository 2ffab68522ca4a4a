//! How a character is written: its attributes and colours.

ghost use Rattle.std.specs.Prelude.{◌≡◌, ◌<◌, ◌≤◌};
ghost use Rattle.sheet.specs.Cells.{plain_on};
ghost use Rattle.sheet.specs.Numbers.{attribute_number, bit, colour_number, colour_of, rendition_of};

/// A colour: the default, a number of the palette, or red, green and blue.
#[derive(Clone, Copy, Debug, PartialEq, Eq)]
pub enum Colour {
    Default,
    Palette(u8),
    Direct(u8, u8, u8),
}

/// The rendition of a character (ECMA-48 8.3.117, SGR). The paper is the ground on which it is written.
#[derive(Clone, Copy, Debug, PartialEq, Eq)]
pub struct Rendition {
    pub bold: bool,
    pub faint: bool,
    pub italic: bool,
    pub underscore: bool,
    pub blink: bool,
    pub reverse: bool,
    pub concealed: bool,
    pub crossed_out: bool,
    pub ink: Colour,
    pub paper: Colour,
}

impl Colour {
    /// The colour as a number of 25 bits.
    #[tactic(auto, unfolding(crate::specs::Numbers::colour_number))]
    pub(crate) fn number(self) -> u32
        ensures value { result ≡ colour_number self }
        ensures below { result < 16777473 }
        ensures again { colour_of result ≡ self }
    {
        match self {
            Colour::Default => 0,
            Colour::Palette(n) => 1 + u32::from(n),
            Colour::Direct(red, green, blue) => {
                257 + (u32::from(red) * 65536 + u32::from(green) * 256 + u32::from(blue))
            }
        }
    }

    /// The colour of a number.
    #[tactic(auto, unfolding(crate::specs::Numbers::colour_of))]
    pub(crate) fn of(number: u32) -> Self
        requires { number < 16777473 }
        ensures { result ≡ colour_of number }
    {
        if number == 0 {
            Colour::Default
        } else if number < 257 {
            Colour::Palette((number - 1) as u8)
        } else {
            let direct = number - 257;
            Colour::Direct(
                (direct / 65536) as u8,
                (direct / 256 % 256) as u8,
                (direct % 256) as u8,
            )
        }
    }
}

impl Rendition {
    /// No attribute and the default ink.
    pub fn plain_on(paper: Colour) -> Self
        ensures { result ≡ plain_on paper }
    {
        Rendition {
            bold: false,
            faint: false,
            italic: false,
            underscore: false,
            blink: false,
            reverse: false,
            concealed: false,
            crossed_out: false,
            ink: Colour::Default,
            paper,
        }
    }

    /// The attributes as a number of 8 bits.
    #[tactic(auto, unfolding(crate::specs::Numbers::attribute_number))]
    pub(crate) fn attributes(self) -> u8
        ensures { result ≡ attribute_number self }
    {
        let first = one_if(self.bold) + 2 * one_if(self.faint) + 4 * one_if(self.italic);
        let second = 8 * one_if(self.underscore) + 16 * one_if(self.blink);
        let third = 32 * one_if(self.reverse) + 64 * one_if(self.concealed);
        first + second + third + 128 * one_if(self.crossed_out)
    }

    /// The rendition of a number of attributes and two of colours.
    #[tactic(auto, unfolding(crate::specs::Numbers::rendition_of))]
    pub(crate) fn of(bits: u8, ink: u32, paper: u32) -> Self
        requires ink { ink < 16777473 }
        requires paper { paper < 16777473 }
        ensures { result ≡ rendition_of bits ink paper }
    {
        Rendition {
            bold: bits % 2 == 1,
            faint: bits / 2 % 2 == 1,
            italic: bits / 4 % 2 == 1,
            underscore: bits / 8 % 2 == 1,
            blink: bits / 16 % 2 == 1,
            reverse: bits / 32 % 2 == 1,
            concealed: bits / 64 % 2 == 1,
            crossed_out: bits / 128 % 2 == 1,
            ink: Colour::of(ink),
            paper: Colour::of(paper),
        }
    }
}

/// 1 where it is on.
fn one_if(on: bool) -> u8
    ensures value { result ≡ bit on }
    ensures below { result ≤ 1 }
{
    if on { 1 } else { 0 }
}
