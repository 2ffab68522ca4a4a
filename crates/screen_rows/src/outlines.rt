//! The outlines of the glyphs that are drawn.

ghost use Rattle.std.specs.Prelude.{◌≡◌, ◌≤◌, length};
ghost use Rattle.screen_rows.specs.Outlines.{is_drawn, outline};

/// The outline of a glyph in a cell of 10 by 20 units, in the words of an SVG path (ours); nothing where it has none.
#[tactic(auto, unfolding(crate::specs::Outlines::outline, crate::specs::Outlines::outlines))]
pub fn outline(glyph: u8) -> &'static [u8]
    ensures outline { result.now ≡ outline glyph }
    ensures short { length result.now ≤ 52 }
{
    match glyph {
        1 => b"m5 5l4 5-4 5-4-5z", // diamond
        2 => b"m0 0h5v5h-5zm5 5h5v5h-5zm-5 5h5v5h-5zm5 5h5v5h-5z", // checkerboard
        11 => b"m0 9h4v-9h2v11h-6z", // lower-right corner
        12 => b"m0 9h6v11h-2v-9h-4z", // upper-right corner
        13 => b"m4 9h6v2h-4v9h-2z", // upper-left corner
        14 => b"m4 0h2v9h4v2h-6z", // lower-left corner
        15 => b"m4 0h2v9h4v2h-4v9h-2v-9h-4v-2h4z", // crossing
        16 => b"m0 1h10v2h-10z", // scan 1
        17 => b"m0 5h10v2h-10z", // scan 3
        18 => b"m0 9h10v2h-10z", // scan 5
        19 => b"m0 13h10v2h-10z", // scan 7
        20 => b"m0 17h10v2h-10z", // scan 9
        21 => b"m4 0h2v9h4v2h-4v9h-2z", // left T
        22 => b"m4 0h2v20h-2v-9h-4v-2h4z", // right T
        23 => b"m4 0h2v9h4v2h-10v-2h4z", // bottom T
        24 => b"m0 9h10v2h-4v9h-2v-9h-4z", // top T
        25 => b"m4 0h2v20h-2z", // vertical bar
        _ => b"",
    }
}

/// Whether a glyph has an outline.
pub(crate) fn is_drawn(glyph: u8) -> bool
    ensures { result ≡ is_drawn glyph }
{
    !outline(glyph).is_empty()
}
