//! A look where a text stands around characters that were written.

ghost use Rattle.std.specs.Prelude.{◌≡◌, ◌+◌, ◌≤◌, ◌<◌, ◌++◌, ◌-◌, [], false, true, List, ℕ, drop, length, nat_eq, vec_capacity};
ghost use Rattle.std.specs.List.{starts_with};
ghost use Rattle.standings.specs.Near.{IsClear, IsCut, IsEarly, IsLate, IsOrdered, places_part};
ghost use Rattle.standings.specs.Rows.{Row, row_below};
ghost use Rattle.standings.specs.Standing.{line_text, place_at, standing};
ghost use Rattle.standings.specs.Written.{rows_written};

use crate::place::{Place, count_up_to, forget, has_front, has_front_early, put_part, turn};
use crate::row::{Row, characters_below, runs_on_to};

/// Looks again where a text stands that stood at these places, where so many characters were written in a row in which it
/// goes on from no row above: at them, and at those left of them from which the text may go on in them. There is room for a
/// place at each.
pub(crate) fn look_near(
    rows: &[Row],
    text: &[char],
    above: usize,
    before: usize,
    count: usize,
    places: &mut Vec<Place>,
)
    requires row { above < length rows.now }
    requires within { before + count ≤ length (row_below rows.now above).characters }
    requires some { 0 < length text.now }
    requires room { length places.old.items + (before + count - (before - (length text.now - 1)))
        ≤ vec_capacity places.old }
    ensures { (was : List Row) (written : List ℕ) → length written ≡ count
        → before + count ≤ length (row_below was above).characters
        → rows.now ≡ rows_written above before written was
        → IsClear was above before text.now
        → places.old.items ≡ standing text.now was
        → places.new.items ≡ standing text.now rows.now }
{
    let start = before.saturating_sub(text.len() - 1);
    let end = characters_below(rows, above).len().min(before + count);
    look_part(rows, above, start, end, text, places)
}

/// How many places may come there: one at each of these characters.
pub(crate) fn count_near(
    rows: &[Row],
    text: &[char],
    above: usize,
    before: usize,
    count: usize,
) -> usize
    requires row { above < length rows.now }
    requires within { before + count ≤ length (row_below rows.now above).characters }
    requires some { 0 < length text.now }
    ensures { result ≡ before + count - (before - (length text.now - 1)) }
{
    let from = before.saturating_sub(text.len() - 1);
    characters_below(rows, above)[from..before + count].len()
}

/// Whether a text that stands nowhere may come to stand where these characters are written over as many others of a row in
/// which it goes on from no row above: whether it may begin at one of them, or left of them and go on in them. Mostly it
/// doesn't.
pub(crate) fn may_come_near(
    rows: &[Row],
    text: &[char],
    above: usize,
    before: usize,
    letters: &[char],
) -> bool
    requires row { above < length rows.now }
    requires within { before + length letters.now ≤ length (row_below rows.now above).characters }
    requires some { 0 < length text.now }
    ensures { result ≡ false → IsClear rows.now above before text.now
        → standing text.now rows.now ≡ []
        → standing text.now (rows_written above before letters.now rows.now) ≡ [] }
{
    let characters = characters_below(rows, above);
    let from = before.saturating_sub(text.len() - 1);
    may_begin_in(&characters[from..before], letters, text)
        || may_begin_in(letters, &characters[before + letters.len()..], text)
}

/// Whether these characters stand in a row already, behind so many others: nothing changes where they are written there.
pub(crate) fn stand_there(rows: &[Row], above: usize, before: usize, letters: &[char]) -> bool
    requires row { above < length rows.now }
    requires within { before + length letters.now ≤ length (row_below rows.now above).characters }
    ensures { result ≡ true → rows_written above before letters.now rows.now ≡ rows.now }
{
    let characters = characters_below(rows, above);
    characters[before..].starts_with(letters)
}

/// Whether a text that begins in a row above may go on in what is written behind so many characters of a row.
pub(crate) fn may_go_on(rows: &[Row], text: &[char], above: usize, before: usize) -> bool
    requires { 0 < length text.now }
    ensures { result ≡ false → IsClear rows.now above before text.now }
{
    before < text.len() - 1 && runs_on_to(rows, above)
}

/// Whether a text may begin among characters behind which others stand: whether its first two stand side by side.
fn may_begin_in(characters: &[char], behind: &[char], text: &[char]) -> bool
    requires { 0 < length text.now }
    ensures { result ≡ false → (k : ℕ) → k < length characters.now
        → (rest : List ℕ) → starts_with nat_eq (drop k characters.now ++ (behind.now ++ rest)) text.now ≡ false }
{
    if characters.is_empty() {
        return false;
    }
    if text.len() < 2 {
        return has_front(characters, text);
    }
    if has_front_early(characters, text) {
        return true;
    }
    if characters[characters.len() - 1] != text[0] {
        return false;
    }
    behind.is_empty() || behind[0] == text[1]
}

/// The places of a row's characters from one up to and without another become those at which a text begins now; the others
/// stay. There is room for a place at each.
fn look_part(
    rows: &[Row],
    above: usize,
    start: usize,
    end: usize,
    text: &[char],
    places: &mut Vec<Place>,
)
    requires row { above < length rows.now }
    requires order { start ≤ end }
    requires within { end ≤ length (row_below rows.now above).characters }
    requires room { length places.old.items + (end - start) ≤ vec_capacity places.old }
    ensures { (front middle rest : List Place) → IsOrdered places.old.items
        → places.old.items ≡ front ++ (middle ++ rest)
        → IsCut above start end front middle rest
        → places.new.items ≡ front
        ++ (places_part text.now above (line_text (drop above rows.now)) start (end - start) ++ rest) }
{
    let behind = count_early(places.as_slice(), above, end);
    let kept = count_early(&places.as_slice()[..behind], above, start);
    forget(places, kept, behind);
    let count = places.len() - kept;
    put_part(rows, above, start, end, text, places);
    turn(places, kept, count);
}

/// How many places in reading order stand before a character of a row. Those in the rows below are passed first, and then
/// those in the row from the last one on.
fn count_early(places: &[Place], above: usize, before: usize) -> usize
    requires { above < usize.MAX }
    ensures within { result ≤ length places.now }
    ensures early { 0 < result → IsEarly (place_at places.now (result - 1)) above before }
    ensures late { IsOrdered places.now
        → (k : ℕ) → result ≤ k → k < length places.now → IsLate (place_at places.now k) above before }
{
    let all = places.len();
    if all == 0 || is_early(places[all - 1], above, before) {
        return all;
    }
    let mut count = count_up_to(places, all, above + 1);
    while count > 0 && !is_early(places[count - 1], above, before) {
        count -= 1;
    }
    count
}

/// Whether a place stands before a character of a row.
fn is_early(place: Place, above: usize, before: usize) -> bool
    ensures early { result ≡ true → IsEarly place above before }
    ensures late { result ≡ false → IsLate place above before }
{
    if place.above == above {
        return place.before < before;
    }
    place.above < above
}
