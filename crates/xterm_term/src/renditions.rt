//! SGR.
ghost use Rattle.std.specs.Prelude.{◌≡◌, ◌∷◌};
ghost use Rattle.xterm_term.specs.Renditions.{attribute_set, attribute_taken, colour_set, rendition_set, tells_colour, used_up, colour_told, colour_taken, renditions_set};

use sheet::{Colour, Pen, Rendition};

// 0 to 9 and 21: no rendition, or one attribute more.
fn attribute_set(rendition: Rendition, param: u16) -> Rendition
    ensures { result ≡ attribute_set param rendition }
{
    let mut rendition = rendition;
    match param {
        0 => return Rendition::plain_on(Colour::Default),
        1 => rendition.bold = true,
        2 => rendition.faint = true,
        3 => rendition.italic = true,
        4 | 21 => rendition.underscore = true,
        5 | 6 => rendition.blink = true,
        7 => rendition.reverse = true,
        8 => rendition.concealed = true,
        9 => rendition.crossed_out = true,
        _ => {}
    }
    rendition
}

// 22 to 29: an attribute less.
fn attribute_taken(rendition: Rendition, param: u16) -> Rendition
    ensures { result ≡ attribute_taken param rendition }
{
    let mut rendition = rendition;
    match param {
        22 => {
            rendition.bold = false;
            rendition.faint = false;
        }
        23 => rendition.italic = false,
        24 => rendition.underscore = false,
        25 => rendition.blink = false,
        27 => rendition.reverse = false,
        28 => rendition.concealed = false,
        29 => rendition.crossed_out = false,
        _ => {}
    }
    rendition
}

// From 30 on: a colour of the first sixteen, or the default one.
fn colour_set(rendition: Rendition, param: u16) -> Rendition
    ensures { result ≡ colour_set param rendition }
{
    let mut rendition = rendition;
    match param {
        30..=37 => rendition.ink = Colour::Palette((param - 30) as u8),
        39 => rendition.ink = Colour::Default,
        40..=47 => rendition.paper = Colour::Palette((param - 40) as u8),
        49 => rendition.paper = Colour::Default,
        90..=97 => rendition.ink = Colour::Palette((param - 82) as u8),
        100..=107 => rendition.paper = Colour::Palette((param - 92) as u8),
        _ => {}
    }
    rendition
}

// One parameter by itself.
#[tactic(auto, unfolding(crate::specs::Renditions::rendition_set))]
fn rendition_set(rendition: Rendition, param: u16) -> Rendition
    ensures { result ≡ rendition_set param rendition }
{
    match param {
        0..=21 => attribute_set(rendition, param),
        22..=29 => attribute_taken(rendition, param),
        _ => colour_set(rendition, param),
    }
}

// Whether a parameter tells a colour by those that follow.
fn tells_colour(param: u16) -> bool
    ensures { result ≡ tells_colour param }
{
    matches!(param, 38 | 48 | 58)
}

// How many of those that follow tell it.
fn used_up(params: &[u16]) -> usize
    ensures { result ≡ used_up params.now }
{
    match params {
        [] => 0,
        [5, ..] => 2,
        [2, ..] => 4,
        _ => 1,
    }
}

// The colour that they tell, where all are there and small enough.
fn colour_told(params: &[u16]) -> Option<Colour>
    ensures { result ≡ colour_told params.now }
{
    match params {
        [5, number, ..] if *number <= 255 => Some(Colour::Palette(*number as u8)),
        [2, red, green, blue, ..] if *red <= 255 && *green <= 255 && *blue <= 255 => {
            Some(Colour::Direct(*red as u8, *green as u8, *blue as u8))
        }
        _ => None,
    }
}

// It becomes the ink or the paper.
fn colour_taken(rendition: Rendition, param: u16, colour: Option<Colour>) -> Rendition
    ensures { result ≡ colour_taken param colour rendition }
{
    let mut rendition = rendition;
    if let Some(colour) = colour {
        match param {
            38 => rendition.ink = colour,
            48 => rendition.paper = colour,
            _ => {}
        }
    }
    rendition
}

// What one parameter makes of the rendition, and how many of those behind it are used up then.
#[tactic(auto, using(crate::proofs::Rendered::skips, crate::proofs::Rendered::takes_colour, crate::proofs::Rendered::takes_other))]
fn after_param(rendition: Rendition, used: usize, param: u16, rest: &[u16]) -> (Rendition, usize)
    ensures { renditions_set used (param ∷ rest.now) rendition
        ≡ renditions_set result.1 rest.now result.0 }
{
    if used > 0 {
        return (rendition, used - 1);
    }
    if tells_colour(param) {
        let colour = colour_told(rest);
        return (colour_taken(rendition, param, colour), used_up(rest));
    }
    (rendition_set(rendition, param), 0)
}

/// The same of a pen.
#[inline]
#[tactic(auto, using(crate::proofs::Rendered::resets))]
pub(crate) fn pen_set(pen: Pen, params: &[u16]) -> Pen
    ensures { result ≡ renditions_set 0 params.now pen }
{
    // A lone 0 comes most often.
    if params.len() == 1 && params[0] == 0 {
        return Pen::plain();
    }
    Pen::of(renditions_set(pen.rendition(), params))
}

// The rendition after the parameters of SGR.
fn renditions_set(rendition: Rendition, params: &[u16]) -> Rendition
    ensures { result ≡ renditions_set 0 params.now rendition }
{
    let mut rendition = rendition;
    let mut used = 0;
    for i in 0..params.len() {
        (rendition, used) = after_param(rendition, used, params[i], &params[i + 1..]);
    }
    rendition
}
