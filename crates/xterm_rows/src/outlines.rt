//! The characters that are drawn, and their outlines.

ghost use Rattle.std.specs.Prelude.{◌≡◌};
ghost use Rattle.xterm_rows.specs.Outlines.{is_braille, is_outlined, outline};

use crate::outline_table::{
    outline_23b, outline_25c, outline_250, outline_251, outline_252, outline_253, outline_254,
    outline_255, outline_256, outline_257, outline_258, outline_259, outline_e0b,
};

/// The outline of a character in a cell of 10 by 20 units, in the words of an SVG path (ours); nothing where it has
/// none.
#[tactic(auto, unfolding(crate::specs::Outlines::outline, crate::specs::OutlineTable::block))]
pub fn outline(character: char) -> &'static [u8]
    ensures { result.now ≡ outline character }
{
    match character as u32 / 16 {
        0x23b => outline_23b(character),
        0x250 => outline_250(character),
        0x251 => outline_251(character),
        0x252 => outline_252(character),
        0x253 => outline_253(character),
        0x254 => outline_254(character),
        0x255 => outline_255(character),
        0x256 => outline_256(character),
        0x257 => outline_257(character),
        0x258 => outline_258(character),
        0x259 => outline_259(character),
        0x25c => outline_25c(character),
        0xe0b => outline_e0b(character),
        _ => b"",
    }
}

/// Whether a character is a pattern of Braille, whose dots are drawn.
pub fn is_braille(character: char) -> bool
    ensures { result ≡ is_braille character }
{
    let code = character as u32;
    0x2800 <= code && code < 0x2900
}

/// Whether a character is drawn. None of ASCII is.
#[tactic(auto, using(crate::proofs::LetterLemmas::not_drawn), unfolding(crate::specs::Outlines::is_outlined))]
pub(crate) fn is_outlined(character: char) -> bool
    ensures { result ≡ is_outlined character }
{
    if (character as u32) < 128 {
        return false;
    }
    is_braille(character) || !outline(character).is_empty()
}
