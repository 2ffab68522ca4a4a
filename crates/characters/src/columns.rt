//! How many columns a character takes.
ghost use Rattle.std.specs.Prelude.{◌≡◌, ◌≤◌};
ghost use Rattle.characters.specs.Width.{width};

use ucd_category::GeneralCategory;
use unicode_width::UnicodeWidthChar;

// The first spacing mark is Devanagari visarga. The categories of those before it needn't be looked up.
const FIRST_SPACING_MARK: char = '\u{903}';

/// The columns that a character takes in a terminal: 0 to 2.
#[inline(always)]
#[tactic(auto, unfolding(crate::specs::Width::width))]
pub fn width(c: char) -> u8
    ensures value { result ≡ width c }
    ensures most { result ≤ 2 }
{
    let columns = c.width();
    if columns == Some(1) {
        return 1;
    }
    if c == '\u{AD}'
        || c >= FIRST_SPACING_MARK && GeneralCategory::for_char(c) == GeneralCategory::SpacingMark
    {
        return 1;
    }
    columns.unwrap_or(0).min(2) as u8
}
