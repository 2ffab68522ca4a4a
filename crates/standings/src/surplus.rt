//! How many places more one screen has than another with each left part that a row begins with.

ghost use Rattle.std.specs.Prelude.{◌≡◌, ◌+◌, ◌-◌, ◌*◌, ◌<◌, ◌≤◌, ◌||◌, false, true, List, ℕ, None, length, nat_eq, replicate, slice_index_or, IfSome, OnOk};
ghost use Rattle.std.specs.List.{starts_with};
ghost use Rattle.standings.specs.Less.{Agree, IsSurplus, for_left, is_last};
ghost use Rattle.standings.specs.Rows.{Row, row_below};
ghost use Rattle.standings.specs.Standing.{count_left, left_of};

use crate::alone::{Alone, agreed_len};
use crate::left::{Standing, left_of};
use crate::place::Place;
use crate::row::{Row, characters_below};
use std::alloc::AllocError;

// How many left parts are asked at once whether they have a surplus.
const BLOCK: usize = 8;

/// How many places more one screen has than the other with each left part that a row begins with: the one below so many
/// others.
pub(crate) fn find_surplus(
    row: &[char],
    above: usize,
    one: &Standing,
    other: &Standing,
    alone: &Alone,
    surplus: &mut Vec<usize>,
) -> Result<(), AllocError>
    requires { row.now ≡ (row_below one.now.rows.items above).characters }
    ensures len { OnOk result (length surplus.new.items ≡ length row.now + 1) }
    ensures surplus { OnOk result (IsSurplus row.now one.now.rows.items alone.now.one.items
        other.now.rows.items alone.now.other.items surplus.new.items) }
{
    surplus.clear();
    surplus.resize(row.len() + 1, 0)?;
    let counts = surplus.as_mut_slice();
    count_lefts(
        row,
        above,
        one.rows.as_slice(),
        alone.one.as_slice(),
        counts,
    );
    take_off(
        row,
        other.rows.as_slice(),
        alone.other.as_slice(),
        1,
        0,
        counts,
    );
    Ok(())
}

/// Leaves no surplus of a left part that a place of a screen has. Mostly none of its rows begins as the row does up to the
/// first left part with one.
pub(crate) fn take_all_off(row: &[char], still: &Standing, surplus: &mut [usize])
    requires { length row.now < length surplus.old }
    ensures { (left : List ℕ) → starts_with nat_eq row.now left ≡ true
        → for_left surplus.new left ≡ for_left surplus.old left
        - usize.MAX * count_left still.now.rows.items still.now.places.items left }
{
    let least = least_len(surplus);
    if least > row.len() {
        return;
    }
    if !some_begins(still.rows.as_slice(), &row[..least]) {
        return;
    }
    take_off(
        row,
        still.rows.as_slice(),
        still.places.as_slice(),
        usize::MAX,
        least,
        surplus,
    );
}

/// How many characters the first left part with a surplus has: more than a row, where none has one.
fn least_len(surplus: &[usize]) -> usize
    ensures none { (k : ℕ) → k < result → slice_index_or surplus.now k 0 ≡ 0 }
    ensures within { result ≤ length surplus.now }
{
    let mut len = spent_blocks(surplus);
    while len < surplus.len() && surplus[len] == 0 {
        len += 1;
    }
    len
}

/// How many of the first left parts have no surplus, by blocks.
#[inline(always)]
fn spent_blocks(surplus: &[usize]) -> usize
    ensures none { (k : ℕ) → k < result → slice_index_or surplus.now k 0 ≡ 0 }
    ensures within { result ≤ length surplus.now }
{
    let mut len = 0;
    while surplus.len() - len >= BLOCK && is_spent(&surplus[len..len + BLOCK]) {
        len += BLOCK;
    }
    len
}

/// Whether some row begins with these characters; where there are none, it is said of any rows. The last of them is looked
/// at first.
pub(crate) fn some_begins(rows: &[Row], front: &[char]) -> bool
    ensures { result ≡ false → (0 < length front.now) × ((above : ℕ) → above < length rows.now
        → starts_with nat_eq (row_below rows.now above).characters front.now ≡ false) }
{
    if front.is_empty() {
        return true;
    }
    for row in rows {
        if begins_with(row.characters(), front) {
            return true;
        }
    }
    false
}

/// Whether some characters begin with others: mostly the last of these, or one in their middle, tells that they don't.
#[inline(always)]
pub(crate) fn begins_with(characters: &[char], front: &[char]) -> bool
    requires { 0 < length front.now }
    ensures { result ≡ starts_with nat_eq characters.now front.now }
{
    let last = front.len() - 1;
    if last >= characters.len() {
        return false;
    }
    if differ_at(characters, front, last) || differ_at(characters, front, last / 2) {
        return false;
    }
    characters.starts_with(front)
}

/// Whether some characters don't begin with others, since the ones behind so many differ.
#[inline(always)]
fn differ_at(characters: &[char], front: &[char], at: usize) -> bool
    requires characters { at < length characters.now }
    requires front { at < length front.now }
    ensures { result ≡ true → starts_with nat_eq characters.now front.now ≡ false }
{
    characters[at] != front[at]
}

/// Whether a row doesn't begin with a left part, since it is shorter or has another character where that ends.
#[inline(always)]
fn ends_apart(row: &[char], left: &[char]) -> bool
    ensures { result ≡ true → starts_with nat_eq row.now left.now ≡ false }
{
    let len = left.len();
    if len > row.len() {
        return true;
    }
    if len == 0 {
        return false;
    }
    differ_at(row, left, len - 1)
}

/// Whether no left part has a surplus. It goes over all of them with no way out, since that is done many at a time.
#[inline]
pub(crate) fn is_spent(surplus: &[usize]) -> bool
    ensures none { result ≡ true → (k : ℕ) → slice_index_or surplus.now k 0 ≡ 0 }
    ensures some { result ≡ false
        → (k : ℕ) × (k < length surplus.now) × (0 < slice_index_or surplus.now k 0) }
{
    let mut some = false;
    for count in surplus {
        some |= *count > 0;
    }
    !some
}

/// Whether no left part has a surplus any more, as it was taken from one of so many characters. The one of the fewest tells
/// mostly that some has.
#[inline]
fn is_spent_by(surplus: &[usize], least: usize, len: usize) -> bool
    requires least { least < length surplus.now }
    requires len { len < length surplus.now }
    ensures { result ≡ true → (k : ℕ) → slice_index_or surplus.now k 0 ≡ 0 }
{
    surplus[len] == 0 && surplus[least] == 0 && is_spent(surplus)
}

/// Counts how many places have each left part that a row begins with: the one below so many others.
fn count_lefts(row: &[char], above: usize, rows: &[Row], places: &[Place], counts: &mut [usize])
    requires row { row.now ≡ (row_below rows.now above).characters }
    requires none { counts.old ≡ replicate (length row.now + 1) 0 }
    ensures { (left : List ℕ) → starts_with nat_eq row.now left ≡ true
        → for_left counts.new left ≡ count_left rows.now places.now left }
{
    let mut agreed = Agreed::with_itself(row, rows, above);
    for place in places {
        if let Some(len) = agreed.len_left(row, rows, *place) {
            counts[len] += 1;
        }
    }
}

/// Takes so many off for each place with a left part that a row begins with, as long as some are left. None is left of one
/// of fewer than so many characters.
fn take_off(
    row: &[char],
    rows: &[Row],
    places: &[Place],
    each: usize,
    least: usize,
    counts: &mut [usize],
)
    requires many { length row.now < length counts.old }
    requires least { least ≤ length row.now }
    requires none { (k : ℕ) → k < least → slice_index_or counts.old k 0 ≡ 0 }
    ensures { (left : List ℕ) → starts_with nat_eq row.now left ≡ true
        → for_left counts.new left ≡ for_left counts.old left - each * count_left rows.now places.now left }
{
    let mut agreed = Agreed::with_none(row, rows);
    let mut spent = false;
    for place in places {
        if spent {
            return;
        }
        if let Some(len) = agreed.len_from(least, row, rows, *place, counts) {
            counts[len] = counts[len].saturating_sub(each);
            spent = is_spent_by(counts, least, len);
        }
    }
}

/// Tells of the last so many places with each left part that a row begins with: the one below so many others. Where no such
/// part has a surplus, which is seen at once, it tells of none.
pub(crate) fn tell_last(
    row: &[char],
    above: usize,
    still: &Standing,
    surplus: &mut [usize],
    told: &mut [bool],
)
    requires row { row.now ≡ (row_below still.now.rows.items above).characters }
    requires surplus { length row.now < length surplus.old }
    requires told { length told.old ≡ length still.now.places.items }
    ensures { (n : ℕ) → n < length still.now.places.items
        → slice_index_or told.new n false ≡ (slice_index_or told.old n false
        || is_last row.now still.now.rows.items still.now.places.items surplus.old n) }
{
    let least = least_len(surplus);
    if least > row.len() {
        return;
    }
    let rows = still.rows.as_slice();
    let mut agreed = Agreed::with_itself(row, rows, above);
    let mut at = still.places.len();
    let mut spent = false;
    while at > 0 {
        if spent {
            return;
        }
        at -= 1;
        if let Some(len) = agreed.len_from(least, row, rows, still.places[at], surplus) {
            surplus[len] -= 1;
            told[at] = true;
            spent = is_spent_by(surplus, least, len);
        }
    }
}

/// With how many characters a row and the one below so many others begin alike.
#[derive(Clone, Copy)]
struct Agreed {
    above: usize,
    count: usize,
}

impl Agreed {
    /// That of a row and the one below so many others.
    fn with(row: &[char], rows: &[Row], above: usize) -> Self
        ensures above { result.above ≡ above }
        ensures agree { Agree row.now (row_below rows.now above).characters result.count }
    {
        let count = agreed_len(row, characters_below(rows, above));
        Agreed { above, count }
    }

    /// That of a row and itself, below so many others: all of it.
    fn with_itself(row: &[char], rows: &[Row], above: usize) -> Self
        requires { row.now ≡ (row_below rows.now above).characters }
        ensures { Agree row.now (row_below rows.now result.above).characters result.count }
    {
        // What the rows are makes no difference.
        let _unread = rows.len();
        Agreed {
            above,
            count: row.len(),
        }
    }

    /// That of a row and none, behind the last: nothing was compared yet.
    fn with_none(row: &[char], rows: &[Row]) -> Self
        ensures { Agree row.now (row_below rows.now result.above).characters result.count }
    {
        // Whatever a row is, it begins with nothing.
        let _unread = row.len();
        Agreed {
            above: rows.len(),
            count: 0,
        }
    }

    /// How many characters stand left of a place, if a row begins with these. It is compared with the place's row where
    /// that is another one than the last time: mostly the last of these characters tells that the row doesn't.
    #[inline(always)]
    fn len_left(&mut self, row: &[char], rows: &[Row], place: Place) -> Option<usize>
        requires { Agree row.now (row_below rows.now self.old.above).characters self.old.count }
        ensures agree { Agree row.now (row_below rows.now self.new.above).characters self.new.count }
        ensures some { IfSome result (λ len. (len ≡ length (left_of rows.now place))
            × (starts_with nat_eq row.now (left_of rows.now place) ≡ true)) }
        ensures none { result ≡ None → starts_with nat_eq row.now (left_of rows.now place) ≡ false }
    {
        let left = left_of(rows, place);
        if place.above != self.above {
            if ends_apart(row, left) {
                return None;
            }
            *self = Agreed::with(row, rows, place.above);
        }
        let len = left.len();
        if len <= self.count { Some(len) } else { None }
    }

    /// The same where some are left of such a left part, by a list of how many. Mostly none is, and then no rows are compared.
    #[inline(always)]
    fn len_some(
        &mut self,
        row: &[char],
        rows: &[Row],
        place: Place,
        counts: &[usize],
    ) -> Option<usize>
        requires { Agree row.now (row_below rows.now self.old.above).characters self.old.count }
        ensures agree { Agree row.now (row_below rows.now self.new.above).characters self.new.count }
        ensures some { IfSome result (λ len. (len ≡ length (left_of rows.now place))
            × (starts_with nat_eq row.now (left_of rows.now place) ≡ true)) }
        ensures more { IfSome result (λ len. 0 < slice_index_or counts.now len 0) }
        ensures none { result ≡ None → starts_with nat_eq row.now (left_of rows.now place) ≡ true
            → for_left counts.now (left_of rows.now place) ≡ 0 }
    {
        let len = left_of(rows, place).len();
        if len < counts.len() && counts[len] > 0 {
            return self.len_left(row, rows, place);
        }
        None
    }

    /// The same where none is left of one of fewer than so many characters: a place behind so few has no longer one.
    #[inline(always)]
    fn len_from(
        &mut self,
        least: usize,
        row: &[char],
        rows: &[Row],
        place: Place,
        counts: &[usize],
    ) -> Option<usize>
        requires agree { Agree row.now (row_below rows.now self.old.above).characters self.old.count }
        requires none { (k : ℕ) → k < least → slice_index_or counts.now k 0 ≡ 0 }
        ensures agree { Agree row.now (row_below rows.now self.new.above).characters self.new.count }
        ensures some { IfSome result (λ len. (len ≡ length (left_of rows.now place))
            × (starts_with nat_eq row.now (left_of rows.now place) ≡ true)) }
        ensures more { IfSome result (λ len. 0 < slice_index_or counts.now len 0) }
        ensures none { result ≡ None → starts_with nat_eq row.now (left_of rows.now place) ≡ true
            → for_left counts.now (left_of rows.now place) ≡ 0 }
    {
        if place.before < least {
            return None;
        }
        self.len_some(row, rows, place, counts)
    }
}
