//! Renditions by their numbers.

ghost use Rattle.std.specs.Prelude.{◌≡◌, ◌<◌, ◌≤◌};
ghost use Rattle.xterm_rows.specs.Ink.{attribute_number, bit, colour_number, is_plain};

use sheet::{Colour, Rendition};

/// A colour by its number: 0 is the default, 1 + n number n of the palette, 257 and more red, green and blue (ours).
#[tactic(auto, unfolding(crate::specs::Ink::colour_number))]
pub fn colour_number(colour: Colour) -> u32
    ensures { result ≡ colour_number colour }
{
    match colour {
        Colour::Default => 0,
        Colour::Palette(n) => 1 + u32::from(n),
        Colour::Direct(red, green, blue) => {
            257 + (65536 * u32::from(red) + 256 * u32::from(green) + u32::from(blue))
        }
    }
}

/// The attributes of a rendition by their number: 1 bold, 2 underscore, 4 blink, 8 reverse, 32 faint, 64 italic, 128
/// concealed, 256 crossed out (ours).
#[tactic(auto, unfolding(crate::specs::Ink::attribute_number))]
pub fn attribute_number(rendition: Rendition) -> u16
    ensures value { result ≡ attribute_number rendition }
    ensures below { result < 512 }
{
    let first = bit_of(rendition.bold) + 2 * bit_of(rendition.underscore);
    let second = 4 * bit_of(rendition.blink) + 8 * bit_of(rendition.reverse);
    let third = 32 * bit_of(rendition.faint) + 64 * bit_of(rendition.italic);
    let fourth = 128 * bit_of(rendition.concealed) + 256 * bit_of(rendition.crossed_out);
    first + second + third + fourth
}

/// 1 where it is on.
pub(crate) fn bit_of(on: bool) -> u16
    ensures value { result ≡ bit on }
    ensures below { result ≤ 1 }
{
    if on { 1 } else { 0 }
}

/// Whether there is no attribute, and both colours are the default.
pub(crate) fn is_plain(rendition: Rendition) -> bool
    ensures { result ≡ is_plain rendition }
{
    attribute_number(rendition) == 0
        && colour_number(rendition.ink) == 0
        && colour_number(rendition.paper) == 0
}
