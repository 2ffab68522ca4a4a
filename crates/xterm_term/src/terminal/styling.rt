//! Characters of one column, and sequences between them that select renditions.
ghost use Rattle.std.specs.Prelude.{◌≡◌, ◌<◌, ◌≤◌, [], ◌∷◌, true, Some, IfSome, length, take};
ghost use Rattle.vt_parser.specs.Syntax.{is_graphic};
ghost use Rattle.xterm_term.specs.Ahead.{Letters, OpensStyling, is_narrow, letters_from, styling_behind};

use crate::reading::{ESC, is_graphic};
use crate::sets::CharacterSet;
use characters::laws::widths_are_small;
use characters::{character_at, width};

/// A character of one column, and how many bytes bring it.
#[derive(Clone, Copy, Debug)]
pub struct Letter {
    pub character: char,
    pub taken: usize,
}

/// The character of one column that the first of the bytes bring where this set is in use: a graphic character of ASCII, by
/// the set, or a whole one of several bytes (UTF-8). None where they bring another, or none.
#[inline]
pub fn letter_at(set: CharacterSet, bytes: &[u8]) -> Option<Letter>
    requires { 0 < length bytes.now }
    ensures some { IfSome result (λ letter. 0 < letter.taken) }
    ensures within { IfSome result (λ letter. letter.taken ≤ length bytes.now) }
    ensures styled { IfSome result (λ letter.
        styling_behind set Letters (take letter.taken bytes.now) ≡ Some Letters) }
    ensures letters { IfSome result (λ letter.
        letters_from set Letters (take letter.taken bytes.now) ≡ letter.character ∷ []) }
{
    if is_graphic(bytes[0]) {
        return graphic_letter(set, bytes[0]);
    }
    let (character, taken) = character_at(bytes)?;
    if is_narrow(character) {
        Some(Letter { character, taken })
    } else {
        None
    }
}

// The letter of a graphic character of ASCII.
#[inline]
fn graphic_letter(set: CharacterSet, byte: u8) -> Option<Letter>
    requires { is_graphic byte ≡ true }
    ensures taken { IfSome result (λ letter. letter.taken ≡ 1) }
    ensures styled { IfSome result (λ letter. styling_behind set Letters (byte ∷ []) ≡ Some Letters) }
    ensures letters { IfSome result (λ letter.
        letters_from set Letters (byte ∷ []) ≡ letter.character ∷ []) }
{
    widths_are_small();
    let character = set.character(byte);
    // Those of ASCII take a column each.
    if matches!(set, CharacterSet::Ascii) || is_narrow(character) {
        Some(Letter {
            character,
            taken: 1,
        })
    } else {
        None
    }
}

// Whether a character is shown in one column.
pub(crate) fn is_narrow(character: char) -> bool
    ensures { result ≡ is_narrow character }
{
    !matches!(character, '\u{80}'..='\u{9F}') && width(character) == 1
}

/// How many of the bytes are a whole sequence that selects renditions, of digits, semicolons and colons (SGR: ESC [ .. m;
/// ECMA-48, 8.3.117); 0 where they begin none.
#[inline]
pub fn styling_at(bytes: &[u8]) -> usize
    ensures within { result ≤ length bytes.now }
    ensures styled { 0 < result
        → (set : CharacterSet) → styling_behind set Letters (take result bytes.now) ≡ Some Letters }
    ensures letters { (set : CharacterSet) → letters_from set Letters (take result bytes.now) ≡ [] }
{
    match bytes {
        [ESC, b'[', ..] => styling_end(bytes),
        _ => 0,
    }
}

// The same of bytes that begin with ESC [.
fn styling_end(bytes: &[u8]) -> usize
    requires { OpensStyling bytes.now }
    ensures within { result ≤ length bytes.now }
    ensures styled { 0 < result
        → (set : CharacterSet) → styling_behind set Letters (take result bytes.now) ≡ Some Letters }
    ensures letters { (set : CharacterSet) → letters_from set Letters (take result bytes.now) ≡ [] }
{
    for at in 2..bytes.len() {
        match bytes[at] {
            b'm' => return at + 1,
            b'0'..=b';' => {}
            _ => return 0,
        }
    }
    0
}
