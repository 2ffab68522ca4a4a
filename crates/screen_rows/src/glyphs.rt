//! The characters that glyphs are printed as.

ghost use Rattle.std.specs.Prelude.{◌≡◌, ◌≤◌, length, encode_utf8};
ghost use Rattle.screen_rows.specs.Glyphs.{character};

/// What glyphs 0 to 31 are printed as: the special graphics (EK-VT100-UG chapter 3).
const SPECIAL_GRAPHICS: [char; 32] = [
    ' ', // 0 blank
    '◆', // 1 diamond
    '▒', // 2 checkerboard
    '␉', // 3 HT
    '␌', // 4 FF
    '␍', // 5 CR
    '␊', // 6 LF
    '°', // 7 degree
    '±', // 8 plus/minus
    '␤', // 9 NL
    '␋', // 10 VT
    '┘', // 11 lower-right corner
    '┐', // 12 upper-right corner
    '┌', // 13 upper-left corner
    '└', // 14 lower-left corner
    '┼', // 15 crossing
    '⎺', // 16 scan 1
    '⎻', // 17 scan 3
    '─', // 18 scan 5
    '⎼', // 19 scan 7
    '⎽', // 20 scan 9
    '├', // 21 left T
    '┤', // 22 right T
    '┴', // 23 bottom T
    '┬', // 24 top T
    '│', // 25 vertical bar
    '≤', // 26 less or equal
    '≥', // 27 greater or equal
    'π', // 28 pi
    '≠', // 29 not equal
    '£', // 30 pound
    '·', // 31 centred dot
];

/// The character that a glyph is printed as (ours): from 32 on, the character of ASCII with that number.
pub fn character(glyph: u8) -> char
    ensures value { result ≡ character glyph }
    ensures short { length (encode_utf8 result) ≤ 3 }
{
    if glyph < 32 {
        SPECIAL_GRAPHICS[glyph as usize]
    } else {
        glyph as char
    }
}
