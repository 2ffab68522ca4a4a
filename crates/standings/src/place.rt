//! Where a text stands on a screen.

ghost use Rattle.std.specs.Prelude.{◌≡◌, ◌≢◌, ◌+◌, ◌≤◌, ◌<◌, ◌++◌, ◌∷◌, ◌-◌, [], false, true, List, ℕ, drop, length, map, nat_eq, slice_index_or, take, vec_capacity, IfOk, OnErr, OnOk};
ghost use Rattle.std.specs.List.{starts_with};
ghost use Rattle.standings.specs.Moved.{EndsInInk, place_down, place_up, spaces_row};
ghost use Rattle.standings.specs.Near.{IsOrdered, places_part};
ghost use Rattle.standings.specs.Room.{fitting};
ghost use Rattle.standings.specs.Rows.{Row, row_below};
ghost use Rattle.standings.specs.Spans.{Stays, characters_in, places_along};
ghost use Rattle.standings.specs.Standing.{begins, line_text, place_at, places_in, standing};

use crate::row::{Row, characters_below, runs_on_below};
use crate::span::Span;
use std::alloc::{AllocError, Global};

// How many characters are passed over at once where a text begins at none of them.
const BLOCK: usize = 16;

// How many places are passed over at once where the first of them stands in no row above.
const PLACES: usize = 8;

// Up to how many places there is room for those that come beside those that go.
const FEW: usize = 1024;

/// A place on a screen: how many rows are above it, and how many characters before it in its row.
#[derive(Clone, Copy, Debug, PartialEq, Eq)]
pub struct Place {
    pub above: usize,
    pub before: usize,
}

/// Where a text stands, in reading order.
pub fn standing(alloc: Global, rows: &[Row], text: &[char]) -> Result<Vec<Place>, AllocError>
    ensures { IfOk result (λ places. places.items ≡ standing text.now rows.now) }
{
    let mut places = Vec::new(alloc);
    push_standing(rows, text, &mut places)?;
    Ok(places)
}

/// Puts the places at which a text stands behind others.
fn push_standing(rows: &[Row], text: &[char], places: &mut Vec<Place>) -> Result<(), AllocError>
    ensures { OnOk result (places.new.items ≡ places.old.items ++ standing text.now rows.now) }
{
    let all = places.len();
    renew(rows, 0, rows.len(), text, places, all, all)
}

/// Looks again where a text stands that stood at these places, where only these rows may have changed: in them, and in
/// those above from which the text may go on in them. Where memory is refused, they are as before.
pub(crate) fn look_between(
    rows: &[Row],
    text: &[char],
    span: Span,
    places: &mut Vec<Place>,
) -> Result<(), AllocError>
    ensures looked { (before : List Row) → Stays span before rows.now
        → places.old.items ≡ standing text.now before
        → OnOk result (places.new.items ≡ standing text.now rows.now) }
    ensures refused { OnErr result (places.new.items ≡ places.old.items) }
{
    let end = span.to.min(rows.len());
    let start = reach_start(rows, text.len(), span.from).min(end);
    let behind = count_up_to(places.as_slice(), places.len(), end);
    let kept = count_up_to(places.as_slice(), behind, start);
    renew(rows, start, end, text, places, kept, behind)
}

/// The places from one up to and without another become those of the rows from one up to and without another. These are
/// put behind all others first, as many as there is room for; where that is too little, it is asked for before anything
/// is taken out. Where it is refused, the places are as before.
fn renew(
    rows: &[Row],
    start: usize,
    end: usize,
    text: &[char],
    places: &mut Vec<Place>,
    kept: usize,
    behind: usize,
) -> Result<(), AllocError>
    requires order { start ≤ end }
    requires within { end ≤ length rows.now }
    requires kept { kept ≤ behind }
    requires behind { behind ≤ length places.old.items }
    ensures items { OnOk result (places.new.items ≡ take kept places.old.items
        ++ (places_along text.now rows.now start (end - start) ++ drop behind places.old.items)) }
    ensures refused { OnErr result (places.new.items ≡ places.old.items) }
{
    let all = places.len();
    let found = put_between(rows, start, end, text, places);
    if found == usize::MAX || places.len() - all < found {
        places.truncate(all);
        make_room(places, found, behind - kept)?;
        forget(places, kept, behind);
        put_between(rows, start, end, text, places);
        turn(places, kept, all - behind);
        return Ok(());
    }
    forget(places, kept, behind);
    turn(places, kept, all - behind);
    Ok(())
}

/// Asks for room for so many places more, where so many others are to be taken out; where they are few without these,
/// so that there is room the next time.
fn make_room(places: &mut Vec<Place>, found: usize, gone: usize) -> Result<(), AllocError>
    ensures items { places.new.items ≡ places.old.items }
    ensures room { OnOk result (length places.old.items + found ≤ vec_capacity places.new + gone) }
    ensures few { OnOk result (found < usize.MAX) }
{
    if found == usize::MAX {
        return Err(AllocError);
    }
    if places.len() <= FEW && found <= FEW && places.reserve(found).is_ok() {
        return Ok(());
    }
    places.reserve(found.saturating_sub(gone))
}

/// Puts the places of the rows from one up to and without another behind others, as many as there is room for. Says how
/// many they are, or the greatest number.
fn put_between(
    rows: &[Row],
    start: usize,
    end: usize,
    text: &[char],
    places: &mut Vec<Place>,
) -> usize
    requires order { start ≤ end }
    requires within { end ≤ length rows.now }
    ensures items { places.new.items ≡ fitting (vec_capacity places.old) places.old.items
        (places_along text.now rows.now start (end - start)) }
    ensures room { vec_capacity places.new ≡ vec_capacity places.old }
    ensures count { result < usize.MAX
        → result ≡ length (places_along text.now rows.now start (end - start)) }
{
    let mut found = 0usize;
    for above in start..end {
        found = found.saturating_add(put_places(rows, above, text, places));
    }
    found
}

/// The places of the first row are taken out, and each other one moves up by a row.
pub(crate) fn move_places_up(places: &mut Vec<Place>)
    ensures { (text : List ℕ) (rows : List Row) → places.old.items ≡ standing text rows
        → places.new.items ≡ standing text (drop 1 rows) }
{
    let gone = count_above(places.as_slice(), 1);
    forget(places, 0, gone);
    lift(places.as_mut_slice());
}

/// Each place moves up by a row.
pub(crate) fn lift(places: &mut [Place])
    ensures { places.new ≡ map place_up places.old }
{
    for place in places.iter_mut() {
        place.above = place.above.saturating_sub(1);
    }
}

/// Each place moves down by a row.
pub(crate) fn lower(places: &mut [Place])
    ensures { places.new ≡ map place_down places.old }
{
    for place in places.iter_mut() {
        place.above = place.above.saturating_add(1);
    }
}

/// How many places in reading order stand in rows above one.
pub(crate) fn count_above(places: &[Place], above: usize) -> usize
    ensures within { result ≤ length places.now }
    ensures below { (k : ℕ) → k < result → (place_at places.now k).above < above }
    ensures ends { result < length places.now → above ≤ (place_at places.now result).above }
{
    let mut count = 0;
    while count < places.len() && places[count].above < above {
        count += 1;
    }
    count
}

/// How many of the first so many places in reading order stand in rows above one. They are passed from the last one on,
/// block by block and then one by one.
pub(crate) fn count_up_to(places: &[Place], most: usize, above: usize) -> usize
    requires { most ≤ length places.now }
    ensures within { result ≤ most }
    ensures early { 0 < result → (place_at places.now (result - 1)).above < above }
    ensures late { IsOrdered places.now
        → (k : ℕ) → result ≤ k → k < most → above ≤ (place_at places.now k).above }
{
    let mut count = count_blocks(places, most, above);
    while count > 0 && places[count - 1].above >= above {
        count -= 1;
    }
    count
}

/// The same up to whole blocks of places, each of which begins with one that doesn't.
fn count_blocks(places: &[Place], most: usize, above: usize) -> usize
    requires { most ≤ length places.now }
    ensures within { result ≤ most }
    ensures ends { result < most → above ≤ (place_at places.now result).above }
{
    let mut count = most;
    while count >= PLACES && places[count - PLACES].above >= above {
        count -= PLACES;
    }
    count
}

/// Takes the places from one up to and without another out. `drain` turns them about through 4 KB of the stack that it
/// fills with zeros.
pub(crate) fn forget(places: &mut Vec<Place>, from: usize, to: usize)
    requires order { from ≤ to }
    requires within { to ≤ length places.old.items }
    ensures items { places.new.items ≡ take from places.old.items ++ drop to places.old.items }
    ensures count { length places.new.items ≡ from + (length places.old.items - to) }
    ensures room { vec_capacity places.new ≡ vec_capacity places.old }
{
    let count = places.len();
    places.copy_within(to.., from);
    places.truncate(count - (to - from));
}

/// The first so many places behind others come last.
pub(crate) fn turn(places: &mut Vec<Place>, from: usize, count: usize)
    requires { from + count ≤ length places.old.items }
    ensures { places.new.items ≡ take from places.old.items
        ++ (drop count (drop from places.old.items) ++ take count (drop from places.old.items)) }
{
    turn_about(&mut places.as_mut_slice()[from..], count);
}

/// The first so many places come last. Three turns about do it: `rotate_left` fills 4 KB of the stack with zeros first.
fn turn_about(places: &mut [Place], count: usize)
    requires { count ≤ length places.old }
    ensures { places.new ≡ drop count places.old ++ take count places.old }
{
    let (front, behind) = places.split_at_mut(count);
    front.reverse();
    behind.reverse();
    places.reverse();
}

/// Whether a text may have come to stand, where it stood nowhere, by a change of these rows: whether it begins in one of
/// them, or in one above that runs on to them.
pub(crate) fn may_come(rows: &[Row], text: &[char], span: Span) -> bool
    ensures { result ≡ false → (before : List Row) → Stays span before rows.now
        → standing text.now before ≡ [] → standing text.now rows.now ≡ [] }
{
    let start = reach_start(rows, text.len(), span.from);
    for above in start..span.to.min(rows.len()) {
        if begins_in(rows, above, text) {
            return true;
        }
    }
    false
}

/// Whether a text may come to stand by a row of spaces that comes in below others: whether it ends in a space.
pub(crate) fn may_come_below(text: &[char]) -> bool
    ensures ink { result ≡ false → EndsInInk text.now }
    ensures below { result ≡ false → (rows : List Row) (columns : ℕ)
        → standing text.now (rows ++ spaces_row columns ∷ []) ≡ standing text.now rows }
{
    text.is_empty() || text[text.len() - 1] == ' '
}

/// How many rows are above those in which a text of so many characters may begin that goes on in the row below so many
/// others.
pub(crate) fn reach_start(rows: &[Row], len: usize, above: usize) -> usize
    ensures within { result ≤ above }
    ensures ends { 0 < result → (row_below rows.now (result - 1)).runs_on ≡ true
        → len ≤ characters_in rows.now result (above - result) + 1 }
{
    let mut start = above;
    let mut left = len.saturating_sub(1);
    while start > 0 && left > 0 && runs_on_below(rows, start - 1) {
        start -= 1;
        left = left.saturating_sub(characters_below(rows, start).len());
    }
    start
}

/// Whether a text begins in a row. It passes over blocks of characters at which the text doesn't begin.
fn begins_in(rows: &[Row], above: usize, text: &[char]) -> bool
    requires { above < length rows.now }
    ensures { result ≡ false → places_in text.now above (line_text (drop above rows.now)) (length (row_below rows.now above).characters) ≡ [] }
{
    let characters = characters_below(rows, above);
    if !has_front(characters, text) {
        return false;
    }
    let mut from = 0;
    while from < characters.len() {
        let next = next_block(characters, from, text);
        let last = next + BLOCK.min(characters.len() - next);
        if begins_between(rows, above, next, last, text) {
            return true;
        }
        from = last;
    }
    false
}

/// Whether a text begins at one of the characters of a row from one up to and without another.
fn begins_between(rows: &[Row], above: usize, start: usize, end: usize, text: &[char]) -> bool
    requires row { above < length rows.now }
    requires within { end ≤ length (row_below rows.now above).characters }
    ensures { result ≡ false → (before : ℕ) → start ≤ before → before < end
        → begins text.now (line_text (drop above rows.now)) before ≡ false }
{
    let characters = characters_below(rows, above);
    for before in start..end {
        if begins(rows, above, characters, before, text) {
            return true;
        }
    }
    false
}

/// Puts the places of one row behind others, as many as there is room for. Says how many they are.
fn put_places(rows: &[Row], above: usize, text: &[char], places: &mut Vec<Place>) -> usize
    requires { above < length rows.now }
    ensures items { places.new.items ≡ fitting (vec_capacity places.old) places.old.items
        (places_in text.now above (line_text (drop above rows.now)) (length (row_below rows.now above).characters)) }
    ensures room { vec_capacity places.new ≡ vec_capacity places.old }
    ensures count { result
        ≡ length (places_in text.now above (line_text (drop above rows.now)) (length (row_below rows.now above).characters)) }
{
    let count = characters_below(rows, above).len();
    put_part(rows, above, 0, count, text, places)
}

/// Puts the places of one row from one up to and without another behind others, as many as there is room for. Says how
/// many they are. It passes over blocks of characters at which the text doesn't begin.
pub(crate) fn put_part(
    rows: &[Row],
    above: usize,
    start: usize,
    end: usize,
    text: &[char],
    places: &mut Vec<Place>,
) -> usize
    requires row { above < length rows.now }
    requires order { start ≤ end }
    requires within { end ≤ length (row_below rows.now above).characters }
    ensures items { places.new.items ≡ fitting (vec_capacity places.old) places.old.items
        (places_part text.now above (line_text (drop above rows.now)) start (end - start)) }
    ensures room { vec_capacity places.new ≡ vec_capacity places.old }
    ensures count { result
        ≡ length (places_part text.now above (line_text (drop above rows.now)) start (end - start)) }
    ensures few { result ≤ end - start }
{
    let characters = characters_below(rows, above);
    let seen = &characters[..characters.len().min(end + 1)];
    let mut found = 0;
    let mut from = start;
    while from < end {
        let next = next_block(seen, from, text).min(end);
        let last = next + BLOCK.min(end - next);
        found += put_block(rows, above, next, last, text, places);
        from = last;
    }
    found
}

/// Puts the places of one row from one up to and without another behind others, as many as there is room for, character
/// by character. Says how many they are.
fn put_block(
    rows: &[Row],
    above: usize,
    start: usize,
    end: usize,
    text: &[char],
    places: &mut Vec<Place>,
) -> usize
    requires row { above < length rows.now }
    requires order { start ≤ end }
    requires within { end ≤ length (row_below rows.now above).characters }
    ensures items { places.new.items ≡ fitting (vec_capacity places.old) places.old.items
        (places_part text.now above (line_text (drop above rows.now)) start (end - start)) }
    ensures room { vec_capacity places.new ≡ vec_capacity places.old }
    ensures count { result
        ≡ length (places_part text.now above (line_text (drop above rows.now)) start (end - start)) }
    ensures few { result ≤ end - start }
{
    let characters = characters_below(rows, above);
    let mut found = 0;
    for before in start..end {
        if begins(rows, above, characters, before, text) {
            put(places, Place { above, before });
            found += 1;
        }
    }
    found
}

/// Puts a place behind others, if there is room for it.
fn put(places: &mut Vec<Place>, place: Place)
    ensures items { places.new.items ≡ fitting (vec_capacity places.old) places.old.items (place ∷ []) }
    ensures room { vec_capacity places.new ≡ vec_capacity places.old }
{
    let last = places.len();
    if last < places.capacity() {
        drop(places.insert(last, place));
    }
}

/// The next block of characters in which a text may begin, or the end. A block is looked at with the character behind it,
/// so that there is a pair for each of its own.
fn next_block(characters: &[char], from: usize, text: &[char]) -> usize
    requires { from ≤ length characters.now }
    ensures low { from ≤ result }
    ensures within { result ≤ length characters.now }
    ensures passed { (before : ℕ) → from ≤ before → before < result
        → (rest : List ℕ) → starts_with nat_eq (drop before characters.now ++ rest) text.now ≡ false }
{
    let mut at = from;
    while characters.len() - at > BLOCK {
        if has_front_early(&characters[at..at + BLOCK + 1], text) {
            return at;
        }
        at += BLOCK;
    }
    if has_front(&characters[at..], text) {
        at
    } else {
        characters.len()
    }
}

/// Whether a text may begin among these characters: whether its first two stand side by side, or its first one at the end.
#[inline(always)]
pub(crate) fn has_front(characters: &[char], text: &[char]) -> bool
    ensures { result ≡ false → (before : ℕ) → before < length characters.now → (rest : List ℕ)
        → starts_with nat_eq (drop before characters.now ++ rest) text.now ≡ false }
{
    if text.is_empty() || characters.is_empty() {
        return true;
    }
    if text.len() == 1 {
        return has(characters, text[0]);
    }
    characters[characters.len() - 1] == text[0] || has_pair(characters, text[0], text[1])
}

/// Whether a text may begin among these characters but at the last one: whether its first two stand side by side.
#[inline(always)]
pub(crate) fn has_front_early(characters: &[char], text: &[char]) -> bool
    requires { 0 < length characters.now }
    ensures { result ≡ false → (before : ℕ) → before + 1 < length characters.now → (rest : List ℕ)
        → starts_with nat_eq (drop before characters.now ++ rest) text.now ≡ false }
{
    if text.len() < 2 {
        return has_front(characters, text);
    }
    has_pair(characters, text[0], text[1])
}

/// Whether a character is among others. It goes over all of them with no way out, since that is done many at a time.
#[inline(always)]
fn has(characters: &[char], wanted: char) -> bool
    ensures { result ≡ false → (before : ℕ) → before < length characters.now
        → slice_index_or characters.now before 0 ≢ wanted }
{
    let mut found = false;
    for character in characters {
        found |= *character == wanted;
    }
    found
}

/// Whether two characters stand side by side among others. It goes over all of them too.
#[inline(always)]
fn has_pair(characters: &[char], first: char, second: char) -> bool
    requires { 0 < length characters.now }
    ensures { result ≡ false → (before : ℕ) → before + 1 < length characters.now
        → slice_index_or characters.now before 0 ≡ first
        → slice_index_or characters.now (before + 1) 0 ≢ second }
{
    let mut found = false;
    for before in 0..characters.len() - 1 {
        found |= (characters[before] == first) & (characters[before + 1] == second);
    }
    found
}

/// Whether a text begins behind so many characters of the row below so many others, by its characters: most of them are seen
/// at once to be other ones than the text's first.
#[inline(always)]
fn begins(rows: &[Row], above: usize, characters: &[char], before: usize, text: &[char]) -> bool
    requires row { above < length rows.now }
    requires characters { characters.now ≡ (row_below rows.now above).characters }
    requires before { before < length characters.now }
    ensures { result ≡ begins text.now (line_text (drop above rows.now)) before }
{
    if !may_begin(characters, before, text) {
        return false;
    }
    if text.len() <= 1 {
        // Of one character no more is to be seen.
        return true;
    }
    begins_along(&rows[above..], before, text)
}

/// Whether a character isn't another one than the first of a text.
#[inline(always)]
fn may_begin(characters: &[char], before: usize, text: &[char]) -> bool
    requires { before < length characters.now }
    ensures differs { result ≡ false → (rest : List ℕ)
        → starts_with nat_eq (drop before characters.now ++ rest) text.now ≡ false }
    ensures one { result ≡ true → length text.now ≤ 1 → (rest : List ℕ)
        → starts_with nat_eq (drop before characters.now ++ rest) text.now ≡ true }
{
    text.is_empty() || characters[before] == text[0]
}

/// The same in the line whose rows these are from its first one on, row by row.
fn begins_along(rows: &[Row], before: usize, text: &[char]) -> bool
    requires { before ≤ length (row_below rows.now 0).characters }
    ensures { result ≡ begins text.now (line_text rows.now) before }
{
    let mut rest = text;
    let mut from = before;
    for at in 0..rows.len() {
        let part = behind(characters_below(rows, at), from);
        if rest.len() <= part.len() {
            return part.starts_with(rest);
        }
        if !rest.starts_with(part) {
            return false;
        }
        if !runs_on_below(rows, at) {
            return false;
        }
        rest = behind(rest, part.len());
        from = 0;
    }
    rest.is_empty()
}

/// What is left behind so many characters.
fn behind(characters: &[char], count: usize) -> &[char]
    requires { count ≤ length characters.now }
    ensures { result.now ≡ drop count characters.now }
{
    &characters[count..]
}
