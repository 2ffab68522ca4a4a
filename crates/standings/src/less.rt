//! Which places of a screen are less on another, told by the rows that stand alone.
//!
//! Of each left part one screen has as many places more than another as its rows that stand alone have more than those of
//! the other. That surplus is kept for a row at a time, by the length of the left part, and the last so many places are less.

ghost use Rattle.std.specs.Prelude.{◌≡◌, ◌<◌, ◌≤◌, ◌&&◌, false, true, List, ℕ, length, nat_eq, slice_index_or, take, IfOk, OnOk};
ghost use Rattle.std.specs.List.{starts_with};
ghost use Rattle.standings.specs.Less.{ArePassed, HasAll, HasEach, IsTold, PairOff, SomePass, for_left, has_passed, is_away, is_wanted, may_pass};
ghost use Rattle.standings.specs.Rows.{Row, row_below};
ghost use Rattle.standings.specs.Standing.{count_left, is_less, left_of, place_at};
ghost use Rattle.standings.specs.declared.place.Place.{Place};

use crate::alone::{Alone, keeps_all, row_end};
use crate::left::{Standing, is_less, is_lone};
use crate::place::{Place, count_above};
use crate::row::{Row, characters_below};
use crate::surplus::{begins_with, find_surplus, is_spent, some_begins, take_all_off, tell_last};
use std::alloc::{AllocError, Global};

// How many places are asked at once whether it is told of one.
const PLACES: usize = 16;

/// Which places of a screen are less on another. Where memory is refused it is told of none, and each is asked for alone.
#[derive(Drop)]
pub struct Less {
    told: Option<Vec<bool>>,
}

impl Less {
    /// Those of a screen that are less on the other, by the places of both that stand alone.
    pub fn of(alloc: Global, one: &Standing, other: &Standing, alone: &Alone) -> Self
        ensures told { PairOff one.now.rows.items one.now.places.items other.now.rows.items
            other.now.places.items alone.now.one.items alone.now.other.items
            → IsTold result one.now.rows.items one.now.places.items other.now.rows.items
            other.now.places.items }
        ensures all { HasAll result (length one.now.places.items) }
    {
        Less {
            told: tell(alloc, None, one, other, alone).ok(),
        }
    }

    /// Of none it is told: each is asked for alone.
    pub fn untold() -> Self
        ensures told { (one other : List Row) (places others : List Place)
            → IsTold result one places other others }
        ensures all { (count : ℕ) → HasAll result count }
    {
        Less { told: None }
    }

    /// The next place of the screen, from one on, that may be less on the other: none of those before it is.
    #[inline]
    pub fn next(&self, from: usize) -> usize
        ensures low { from ≤ result }
        ensures within { (count : ℕ) → HasAll self.now count → from ≤ count → result ≤ count }
        ensures passed { (one other : List Row) (places others : List Place) → IsTold self.now one places other others
            → (n : ℕ) → from ≤ n → n < result → n < length places → is_less one places other others n ≡ false }
    {
        match &self.told {
            Some(told) => next_told(told.as_slice(), from),
            None => from,
        }
    }

    /// Whether a place of the screen is less on the other.
    #[inline]
    pub fn has(&self, one: &Standing, at: usize, other: &Standing) -> bool
        requires within { at < length one.now.places.items }
        requires all { HasAll self.now (length one.now.places.items) }
        ensures { IsTold self.now one.now.rows.items one.now.places.items other.now.rows.items
            other.now.places.items
            → result ≡ is_less one.now.rows.items one.now.places.items other.now.rows.items
            other.now.places.items at }
    {
        match &self.told {
            Some(told) => told[at],
            None => is_less(one, at, other),
        }
    }
}

/// Which places of a screen passed: they are less on another, and have nothing with the same to the left on two further
/// ones. Where memory is refused it is told of none, and each is asked for alone.
#[derive(Drop)]
pub struct Passed {
    told: Option<Vec<bool>>,
}

impl Passed {
    /// Those of a screen that are less on the other, and so on neither the first screen nor the last, by the places that
    /// stand alone on it and the other one.
    pub fn of(
        alloc: Global,
        first: &Standing,
        last: &Standing,
        one: &Standing,
        other: &Standing,
        alone: &Alone,
    ) -> Self
        ensures told { PairOff one.now.rows.items one.now.places.items other.now.rows.items
            other.now.places.items alone.now.one.items alone.now.other.items
            → ArePassed result first.now.rows.items first.now.places.items
            last.now.rows.items last.now.places.items one.now.rows.items one.now.places.items
            other.now.rows.items other.now.places.items }
        ensures all { HasEach result (length one.now.places.items) }
    {
        let ends = Ends { first, last };
        Passed {
            told: tell(alloc, Some(&ends), one, other, alone).ok(),
        }
    }

    /// Of none it is told: each is asked for alone.
    pub fn untold() -> Self
        ensures told { (first last one other : List Row) (firsts lasts places others : List Place)
            → ArePassed result first firsts last lasts one places other others }
        ensures all { (count : ℕ) → HasEach result count }
    {
        Passed { told: None }
    }

    /// The next place of the screen, from one on, that may have passed: none of those before it did.
    #[inline]
    pub fn next(&self, from: usize) -> usize
        ensures low { from ≤ result }
        ensures within { (count : ℕ) → HasEach self.now count → from ≤ count → result ≤ count }
        ensures passed { (first last one other : List Row) (firsts lasts places others : List Place)
            → ArePassed self.now first firsts last lasts one places other others
            → (n : ℕ) → from ≤ n → n < result → n < length places
            → has_passed first firsts last lasts one places other others n ≡ false }
    {
        match &self.told {
            Some(told) => next_told(told.as_slice(), from),
            None => from,
        }
    }

    /// Whether a place of the screen passed.
    #[inline]
    pub fn has(
        &self,
        first: &Standing,
        last: &Standing,
        one: &Standing,
        at: usize,
        other: &Standing,
    ) -> bool
        requires within { at < length one.now.places.items }
        requires all { HasEach self.now (length one.now.places.items) }
        ensures { ArePassed self.now first.now.rows.items first.now.places.items
            last.now.rows.items last.now.places.items one.now.rows.items one.now.places.items
            other.now.rows.items other.now.places.items
            → result ≡ has_passed first.now.rows.items first.now.places.items
            last.now.rows.items last.now.places.items one.now.rows.items one.now.places.items
            other.now.rows.items other.now.places.items at }
    {
        match &self.told {
            Some(told) => told[at],
            None => { is_lone(first, one, at) && is_lone(last, one, at) && is_less(one, at, other) }
        }
    }
}

/// The next place from one on of which it is told, or the end.
fn next_told(told: &[bool], from: usize) -> usize
    ensures low { from ≤ result }
    ensures within { from ≤ length told.now → result ≤ length told.now }
    ensures none { (n : ℕ) → from ≤ n → n < result → slice_index_or told.now n false ≡ false }
{
    if from < told.len() && told[from] {
        return from;
    }
    let mut at = past_untold(told, from);
    while at < told.len() && !told[at] {
        at += 1;
    }
    at
}

/// The same by whole blocks: there is none before it.
#[inline(always)]
fn past_untold(told: &[bool], from: usize) -> usize
    ensures low { from ≤ result }
    ensures within { from ≤ length told.now → result ≤ length told.now }
    ensures none { (n : ℕ) → from ≤ n → n < result → slice_index_or told.now n false ≡ false }
{
    let mut at = from;
    while at < told.len() && told.len() - at >= PLACES && !some_told(&told[at..at + PLACES]) {
        at += PLACES;
    }
    at
}

/// Whether it is told of some place. It goes over all of them with no way out, since that is done many at a time.
#[inline(always)]
fn some_told(told: &[bool]) -> bool
    ensures { result ≡ false → (n : ℕ) → slice_index_or told.now n false ≡ false }
{
    let mut some = false;
    for one in told {
        some |= *one;
    }
    some
}

/// The screens at the ends of a chunk.
#[derive(Drop)]
struct Ends<'a> {
    first: &'a Standing,
    last: &'a Standing,
}

/// For each place of a screen whether it is less on the other, and stands so at no end, where they are given.
fn tell(
    alloc: Global,
    ends: Option<&Ends<'_>>,
    one: &Standing,
    other: &Standing,
    alone: &Alone,
) -> Result<Vec<bool>, AllocError>
    ensures len { IfOk result (λ told. length told.items ≡ length one.now.places.items) }
    ensures told { PairOff one.now.rows.items one.now.places.items other.now.rows.items
        other.now.places.items alone.now.one.items alone.now.other.items
        → IfOk result (λ told. (n : ℕ) → n < length one.now.places.items
        → slice_index_or told.items n false
        ≡ (is_away ends.entry (left_of one.now.rows.items (place_at one.now.places.items n))
        && is_less one.now.rows.items one.now.places.items other.now.rows.items other.now.places.items n)) }
{
    let mut told = vec![in alloc; false; one.places.len()]?;
    let mut surplus = Vec::new(alloc);
    let mut at = 0;
    while at < alone.one.len() {
        let end = row_end(alone.one.as_slice(), at);
        tell_row(
            at,
            end,
            ends,
            one,
            other,
            alone,
            &mut surplus,
            told.as_mut_slice(),
        )?;
        at = end;
    }
    Ok(told)
}

/// The same of the places with a left part that a row begins with: the one in which those of a screen stand alone from one
/// up to and without another. Mostly no other row begins as it does up to the first of them, which is seen at once.
fn tell_row(
    from: usize,
    to: usize,
    ends: Option<&Ends<'_>>,
    one: &Standing,
    other: &Standing,
    alone: &Alone,
    surplus: &mut Vec<usize>,
    told: &mut [bool],
) -> Result<(), AllocError>
    requires some { from < to }
    requires within { to ≤ length alone.now.one.items }
    requires told { length told.old ≡ length one.now.places.items }
    ensures right { PairOff one.now.rows.items one.now.places.items other.now.rows.items
        other.now.places.items alone.now.one.items alone.now.other.items
        → OnOk result ((n : ℕ) → n < length one.now.places.items
        → (slice_index_or told.old n false ≡ true → is_wanted ends.entry one.now.rows.items one.now.places.items
        other.now.rows.items other.now.places.items n ≡ true)
        → slice_index_or told.new n false ≡ true → is_wanted ends.entry one.now.rows.items one.now.places.items
        other.now.rows.items other.now.places.items n ≡ true) }
    ensures kept { OnOk result ((n : ℕ) → n < length one.now.places.items
        → slice_index_or told.old n false ≡ true → slice_index_or told.new n false ≡ true) }
    ensures whole { PairOff one.now.rows.items one.now.places.items other.now.rows.items
        other.now.places.items alone.now.one.items alone.now.other.items
        → OnOk result ((n b : ℕ) → n < length one.now.places.items
        → left_of one.now.rows.items (place_at one.now.places.items n)
        ≡ take b (row_below one.now.rows.items (place_at alone.now.one.items from).above).characters
        → ((least : ℕ) → ((k : ℕ) → from ≤ k → k < to → least ≤ (place_at alone.now.one.items k).before) → least ≤ b)
        → is_wanted ends.entry one.now.rows.items one.now.places.items
        other.now.rows.items other.now.places.items n ≡ true
        → slice_index_or told.new n false ≡ true) }
{
    let above = alone.one[from].above;
    let row = characters_below(one.rows.as_slice(), above);
    let before = least_before(&alone.one.as_slice()[from..to]);
    if is_fresh(row, above, before, ends, one, other) {
        tell_behind(one.places.as_slice(), above, before, told);
        return Ok(());
    }
    find_surplus(row, above, one, other, alone, surplus)?;
    spend(row, ends, surplus.as_mut_slice());
    tell_last(row, above, one, surplus.as_mut_slice(), told);
    Ok(())
}

/// Behind how many characters some places stand at least.
fn least_before(places: &[Place]) -> usize
    ensures { (k : ℕ) → k < length places.now → result ≤ (place_at places.now k).before }
{
    let mut least = usize::MAX;
    for place in places {
        least = least.min(place.before);
    }
    least
}

/// Whether no other row of a screen begins as one does up to so many characters, nor one of the other screen, nor of those
/// at the ends, where they are given: the one below so many others.
fn is_fresh(
    row: &[char],
    above: usize,
    before: usize,
    ends: Option<&Ends<'_>>,
    one: &Standing,
    other: &Standing,
) -> bool
    ensures some { result ≡ true → 0 < before }
    ensures within { result ≡ true → before ≤ length row.now }
    ensures own { result ≡ true → (k : ℕ) → k < length one.now.rows.items → (k ≡ above → ⊥)
        → starts_with nat_eq (row_below one.now.rows.items k).characters (take before row.now) ≡ false }
    ensures other { result ≡ true → (left : List ℕ) → starts_with nat_eq row.now left ≡ true
        → before ≤ length left → count_left other.now.rows.items other.now.places.items left ≡ 0 }
    ensures away { result ≡ true → (left : List ℕ) → starts_with nat_eq row.now left ≡ true
        → before ≤ length left → is_away ends.entry left ≡ true }
{
    if before == 0 || before > row.len() {
        return false;
    }
    if !begins_nowhere(row, before, other) {
        return false;
    }
    if !are_apart(row, before, ends) {
        return false;
    }
    !others_begin(one.rows.as_slice(), above, &row[..before])
}

/// Whether no row of the screens at the ends begins as one does up to so many characters, where they are given.
fn are_apart(row: &[char], before: usize, ends: Option<&Ends<'_>>) -> bool
    requires some { 0 < before }
    requires within { before ≤ length row.now }
    ensures { result ≡ true → (left : List ℕ) → starts_with nat_eq row.now left ≡ true
        → before ≤ length left → is_away ends.entry left ≡ true }
{
    match ends {
        None => true,
        Some(ends) => begins_nowhere(row, before, ends.first)
            && begins_nowhere(row, before, ends.last),
    }
}

/// Whether no row of a screen begins as one does up to so many characters, so that no place there has such a left part.
fn begins_nowhere(row: &[char], before: usize, still: &Standing) -> bool
    requires some { 0 < before }
    requires within { before ≤ length row.now }
    ensures { result ≡ true → (left : List ℕ) → starts_with nat_eq row.now left ≡ true
        → before ≤ length left → count_left still.now.rows.items still.now.places.items left ≡ 0 }
{
    !some_begins(still.rows.as_slice(), &row[..before])
}

/// Whether some row but the one below so many others begins with these characters.
fn others_begin(rows: &[Row], above: usize, front: &[char]) -> bool
    requires { 0 < length front.now }
    ensures { result ≡ false → (k : ℕ) → k < length rows.now → (k ≡ above → ⊥)
        → starts_with nat_eq (row_below rows.now k).characters front.now ≡ false }
{
    for at in 0..rows.len() {
        if at != above && begins_with(rows[at].characters(), front) {
            return true;
        }
    }
    false
}

/// Tells of the places of a row that stand behind so many characters: the one below so many others.
fn tell_behind(places: &[Place], above: usize, before: usize, told: &mut [bool])
    requires { length told.old ≡ length places.now }
    ensures kept { (n : ℕ) → slice_index_or told.old n false ≡ true → slice_index_or told.new n false ≡ true }
    ensures told { (n : ℕ) → n < length places.now → (place_at places.now n).above ≡ above
        → before ≤ (place_at places.now n).before → slice_index_or told.new n false ≡ true }
    ensures only { (n : ℕ) → slice_index_or told.new n false ≡ true → slice_index_or told.old n false ≡ false
        → ((place_at places.now n).above ≡ above) × (before ≤ (place_at places.now n).before) }
{
    for n in 0..places.len() {
        if places[n].above == above && before <= places[n].before {
            told[n] = true;
        }
    }
}

/// Leaves no surplus of a left part that stands at an end, where they are given.
fn spend(row: &[char], ends: Option<&Ends<'_>>, surplus: &mut [usize])
    requires many { length row.now < length surplus.old }
    requires few { (left : List ℕ) → starts_with nat_eq row.now left ≡ true
        → for_left surplus.old left ≤ usize.MAX }
    ensures away { (left : List ℕ) → starts_with nat_eq row.now left ≡ true → is_away ends.entry left ≡ true
        → for_left surplus.new left ≡ for_left surplus.old left }
    ensures spent { (left : List ℕ) → starts_with nat_eq row.now left ≡ true → is_away ends.entry left ≡ false
        → for_left surplus.new left ≡ 0 }
{
    if let Some(ends) = ends {
        take_all_off(row, ends.first, surplus);
        take_all_off(row, ends.last, surplus);
    }
}

/// Whether some place of a screen is less on the other, and has nothing with the same to the left on a third one, by the
/// places of both that stand alone. Mostly the third one has something for each of these, which is seen at once.
pub fn may_pass(first: &Standing, one: &Standing, other: &Standing, alone: &Alone) -> bool
    ensures { PairOff one.now.rows.items one.now.places.items other.now.rows.items
        other.now.places.items alone.now.one.items alone.now.other.items
        → SomePass result first.now.rows.items first.now.places.items
        one.now.rows.items one.now.places.items other.now.rows.items other.now.places.items }
{
    if all_stand(alone.one.as_slice(), one, first) {
        return false;
    }
    let alloc = *one.rows.allocator();
    match some_pass(alloc, first, one, other, alone) {
        Ok(some) => some,
        Err(_) => may_pass_plainly(first, one, other),
    }
}

/// Whether each of some places of a screen surely has one on another with the same to the left. It is looked for in the rows
/// from the first to the last of them, in reading order.
fn all_stand(alone: &[Place], one: &Standing, first: &Standing) -> bool
    ensures { result ≡ true → (left : List ℕ) → count_left one.now.rows.items alone.now left
        ≤ count_left first.now.rows.items first.now.places.items left }
{
    if alone.is_empty() {
        return true;
    }
    let (top, bottom) = (alone[0].above, alone[alone.len() - 1].above);
    let places = first.places.as_slice();
    let from = count_above(places, top);
    let count = count_above(&places[from..], bottom.saturating_add(1));
    keeps_all(
        one.rows.as_slice(),
        alone,
        first.rows.as_slice(),
        &places[from..from + count],
    )
}

/// The same by the surplus of the rows that stand alone.
fn some_pass(
    alloc: Global,
    first: &Standing,
    one: &Standing,
    other: &Standing,
    alone: &Alone,
) -> Result<bool, AllocError>
    ensures { PairOff one.now.rows.items one.now.places.items other.now.rows.items
        other.now.places.items alone.now.one.items alone.now.other.items
        → IfOk result (λ some. SomePass some first.now.rows.items first.now.places.items
        one.now.rows.items one.now.places.items other.now.rows.items other.now.places.items) }
{
    let mut surplus = Vec::new(alloc);
    let mut at = 0;
    while at < alone.one.len() {
        let above = alone.one[at].above;
        let row = characters_below(one.rows.as_slice(), above);
        if some_pass_with(row, above, first, one, other, alone, &mut surplus)? {
            return Ok(true);
        }
        at = row_end(alone.one.as_slice(), at);
    }
    Ok(false)
}

/// The same of the places with a left part that a row begins with: the one below so many others.
fn some_pass_with(
    row: &[char],
    above: usize,
    first: &Standing,
    one: &Standing,
    other: &Standing,
    alone: &Alone,
    surplus: &mut Vec<usize>,
) -> Result<bool, AllocError>
    requires { row.now ≡ (row_below one.now.rows.items above).characters }
    ensures none { PairOff one.now.rows.items one.now.places.items other.now.rows.items
        other.now.places.items alone.now.one.items alone.now.other.items
        → IfOk result (λ some. some ≡ false → (n : ℕ) → n < length one.now.places.items
        → starts_with nat_eq row.now (left_of one.now.rows.items (place_at one.now.places.items n)) ≡ true
        → may_pass first.now.rows.items first.now.places.items one.now.rows.items one.now.places.items
        other.now.rows.items other.now.places.items n ≡ false) }
    ensures some { PairOff one.now.rows.items one.now.places.items other.now.rows.items
        other.now.places.items alone.now.one.items alone.now.other.items
        → IfOk result (λ some. some ≡ true
        → (n : ℕ) × (n < length one.now.places.items)
        × (may_pass first.now.rows.items first.now.places.items one.now.rows.items one.now.places.items
        other.now.rows.items other.now.places.items n ≡ true)) }
{
    find_surplus(row, above, one, other, alone, surplus)?;
    let counts = surplus.as_mut_slice();
    take_all_off(row, first, counts);
    Ok(!is_spent(counts))
}

/// The same place by place.
fn may_pass_plainly(first: &Standing, one: &Standing, other: &Standing) -> bool
    ensures { SomePass result first.now.rows.items first.now.places.items
        one.now.rows.items one.now.places.items other.now.rows.items other.now.places.items }
{
    for at in 0..one.places.len() {
        if is_less(one, at, other) && is_lone(first, one, at) {
            return true;
        }
    }
    false
}
