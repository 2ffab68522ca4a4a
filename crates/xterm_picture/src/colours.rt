//! What a rendition is painted with.

ghost use Rattle.std.specs.Prelude.{◌≡◌};
ghost use Rattle.xterm_picture.specs.Colours.{brightened, ground_paint, ink_paint, own_ground, own_ink, paint_number, painted, same_paint};

use crate::colour_table::{Rgb, palette};
use sheet::{Colour, Rendition};

/// What letters or grounds are painted with: the screen's ink, its ground, or a colour (ours).
#[derive(Clone, Copy, Debug, PartialEq, Eq)]
pub enum Paint {
    Ink,
    Back,
    Fill(Rgb),
}

impl Paint {
    /// The paint as a number.
    #[tactic(auto, unfolding(crate::specs::Colours::paint_number))]
    fn number(self) -> u32
        ensures { result ≡ paint_number self }
    {
        match self {
            Paint::Ink => 0,
            Paint::Back => 1,
            Paint::Fill(rgb) => {
                2 + (65536 * u32::from(rgb.red) + 256 * u32::from(rgb.green) + u32::from(rgb.blue))
            }
        }
    }
}

/// Whether two paints are written alike.
pub(crate) fn same_paint(one: Paint, other: Paint) -> bool
    ensures { result ≡ same_paint one other }
{
    one.number() == other.number()
}

/// What a colour is painted with, where this is the default.
fn painted(default: Paint, colour: Colour) -> Paint
    ensures { result ≡ painted default colour }
{
    match colour {
        Colour::Default => default,
        Colour::Palette(n) => Paint::Fill(palette(n)),
        Colour::Direct(red, green, blue) => Paint::Fill(Rgb { red, green, blue }),
    }
}

/// The first eight colours of the palette are bright where they are bold.
fn brightened(bold: bool, colour: Colour) -> Colour
    ensures { result ≡ brightened bold colour }
{
    match colour {
        Colour::Palette(n) => Colour::Palette(if bold && n < 8 { n + 8 } else { n }),
        Colour::Default | Colour::Direct(..) => colour,
    }
}

fn own_ink(rendition: Rendition) -> Paint
    ensures { result ≡ own_ink rendition }
{
    painted(Paint::Ink, brightened(rendition.bold, rendition.ink))
}

fn own_ground(rendition: Rendition) -> Paint
    ensures { result ≡ own_ground rendition }
{
    painted(Paint::Back, rendition.paper)
}

/// What the characters of a rendition are painted with: its ink, bright where it is bold, or its ground where it is
/// reversed.
#[tactic(auto, unfolding(crate::specs::Colours::ink_paint))]
pub fn ink_paint(rendition: Rendition) -> Paint
    ensures { result ≡ ink_paint rendition }
{
    if rendition.reverse {
        own_ground(rendition)
    } else {
        own_ink(rendition)
    }
}

/// What they stand on.
#[tactic(auto, unfolding(crate::specs::Colours::ground_paint))]
pub fn ground_paint(rendition: Rendition) -> Paint
    ensures { result ≡ ground_paint rendition }
{
    if rendition.reverse {
        own_ink(rendition)
    } else {
        own_ground(rendition)
    }
}
