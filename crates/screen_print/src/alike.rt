//! How far cells are read alike.

ghost use Rattle.std.specs.Prelude.{◌≡◌, ◌≢◌, ◌≤◌, ◌<◌, ℕ, false, length, take, true};
ghost use Rattle.screen_rows.specs.Glyphs.{character};
ghost use Rattle.screen_rows.specs.RowText.{characters};

use screen_rows::character;
use vt_screen::Cell;

/// How many cells are compared at once.
pub(crate) const BLOCK: usize = 16;

/// Whether cells have the same glyphs. Each is compared, whatever those before it came to, so that many are compared at
/// once.
fn has_same_glyphs(one: &[Cell], other: &[Cell]) -> bool
    requires { length one.now ≡ length other.now }
    ensures { result ≡ true → characters one.now ≡ characters other.now }
{
    let mut same = true;
    for at in 0..one.len() {
        same &= one[at].glyph == other[at].glyph;
    }
    same
}

/// How many cells are read alike from the first on.
pub(crate) fn alike_len(one: &[Cell], other: &[Cell]) -> usize
    ensures same { take result (characters one.now) ≡ take result (characters other.now) }
    ensures most { (k : ℕ) → result < k → k ≤ length one.now
        → take k (characters one.now) ≢ take k (characters other.now) }
    ensures here { result ≤ length one.now }
{
    let least = one.len().min(other.len());
    for at in same_blocks(one, other, least)..least {
        if !read_alike(one[at].glyph, other[at].glyph) {
            return at;
        }
    }
    least
}

/// How many of the cells up to one surely are read alike from the first on, by whole blocks of them.
fn same_blocks(one: &[Cell], other: &[Cell], least: usize) -> usize
    requires here { least ≤ length one.now }
    requires there { least ≤ length other.now }
    ensures within { result ≤ least }
    ensures same { take result (characters one.now) ≡ take result (characters other.now) }
{
    let mut at = 0;
    while least - at >= BLOCK {
        if !has_same_glyphs(&one[at..at + BLOCK], &other[at..at + BLOCK]) {
            return at;
        }
        at += BLOCK;
    }
    at
}

/// Whether two glyphs are read alike.
fn read_alike(one: u8, other: u8) -> bool
    ensures yes { result ≡ true → character one ≡ character other }
    ensures no { result ≡ false → character one ≢ character other }
{
    one == other || character(one) == character(other)
}
