//! Rows of two screens that pair off, and the places of those that stand alone.

ghost use Rattle.std.specs.Prelude.{◌≡◌, ◌+◌, ◌++◌, ◌-◌, ◌<◌, ◌≤◌, true, List, ℕ, [], drop, length, take, IfOk, OnOk};
ghost use Rattle.standings.specs.Lag.{Lags};
ghost use Rattle.standings.specs.Less.{Agree, PairOff};
ghost use Rattle.standings.specs.Rows.{Row, row_below};
ghost use Rattle.standings.specs.Standing.{count_left, left_of, place_at, standing};

use crate::lag::Lag;
use crate::left::Standing;
use crate::place::{Place, count_above, count_up_to, reach_start};
use crate::row::{Row, characters_below};
use std::alloc::{AllocError, Global};

// How many characters are compared at once.
const BLOCK: usize = 16;

/// The places of two screens in rows that stand alone.
#[derive(Drop)]
pub struct Alone {
    pub one: Vec<Place>,
    pub other: Vec<Place>,
}

impl Alone {
    ghost use Rattle.standings.specs.declared.place.Place.{Place};

    /// Those of two screens, of which the one lags so behind the other, on which a text of so many characters stands. Their
    /// rows pair off in order, from the top down: a row of the other one with the next of the one that is the same.
    pub fn of(
        alloc: Global,
        one: &Standing,
        other: &Standing,
        lag: Lag,
        len: usize,
    ) -> Result<Self, AllocError>
        ensures { (text : List ℕ) → length text ≡ len → one.now.places.items ≡ standing text one.now.rows.items
            → other.now.places.items ≡ standing text other.now.rows.items
            → Lags lag one.now.rows.items other.now.rows.items
            → IfOk result (λ alone. PairOff one.now.rows.items one.now.places.items
            other.now.rows.items other.now.places.items alone.one.items alone.other.items) }
    {
        if lag.moved > 0 {
            return Alone::of_moved(alloc, one, other, lag, len);
        }
        let cut = Cut::of(one, other, lag, len);
        Alone::between(
            alloc,
            one.rows.as_slice(),
            &one.places.as_slice()[cut.from..cut.to],
            other.rows.as_slice(),
            &other.places.as_slice()[cut.from..cut.there],
            lag,
        )
    }

    /// The same where rows moved. Those that came up pair off with themselves, as far as the text goes on in none that may
    /// differ: only the places in rows that went out at the top are looked at, and those further down.
    fn of_moved(
        alloc: Global,
        one: &Standing,
        other: &Standing,
        lag: Lag,
        len: usize,
    ) -> Result<Self, AllocError>
        ensures { (text : List ℕ) → length text ≡ len → one.now.places.items ≡ standing text one.now.rows.items
            → other.now.places.items ≡ standing text other.now.rows.items
            → Lags lag one.now.rows.items other.now.rows.items
            → IfOk result (λ alone. PairOff one.now.rows.items one.now.places.items
            other.now.rows.items other.now.places.items alone.one.items alone.other.items) }
    {
        let (here, places) = (one.rows.as_slice(), one.places.as_slice());
        let (rows, others) = (other.rows.as_slice(), other.places.as_slice());
        let from = lag.span.from.min(rows.len().saturating_sub(lag.moved));
        let start = reach_start(rows, len, from);
        let count = count_up_to(others, others.len(), start);
        let gone = count_above(places, lag.moved);
        if lag.moved > rows.len() || places.len() - gone < count {
            return Alone::between(alloc, here, places, rows, others, lag);
        }
        let rest = &places[gone + count..];
        let mut alone = Alone::between(alloc, here, rest, rows, &others[count..], lag)?;
        alone.one.extend_from_slice(&places[..gone])?;
        Ok(alone)
    }

    /// Those of some places of two screens.
    fn between(
        alloc: Global,
        one: &[Row],
        places: &[Place],
        other: &[Row],
        others: &[Place],
        lag: Lag,
    ) -> Result<Self, AllocError>
        ensures { Lags lag one.now other.now
            → IfOk result (λ alone. PairOff one.now places.now other.now others.now alone.one.items alone.other.items) }
    {
        if is_one_row(lag) {
            return Alone::of_row(alloc, one, places, other, others);
        }
        let mut alone = Alone {
            one: Vec::new(alloc),
            other: Vec::new(alloc),
        };
        let (mut at, mut there) = (0, 0);
        while there < others.len() {
            let pair = next_pair(one, places, at, other, others, there, lag);
            let seen = there + pair.count;
            push_some(&mut alone.one, &places[at..pair.at])?;
            push_some(&mut alone.other, &others[seen..pair.end])?;
            at = pair.at + pair.count;
            there = pair.end;
        }
        alone.one.extend_from_slice(&places[at..])?;
        Ok(alone)
    }

    /// The same where one row alone may differ: mostly it begins alike on both, and the further places stand alone.
    fn of_row(
        alloc: Global,
        one: &[Row],
        places: &[Place],
        other: &[Row],
        others: &[Place],
    ) -> Result<Self, AllocError>
        ensures { IfOk result (λ alone. PairOff one.now places.now other.now others.now alone.one.items alone.other.items) }
    {
        let count = count_begun(one, places, other, others);
        Ok(Alone {
            one: Vec::from_slice(alloc, &places[count..])?,
            other: Vec::from_slice(alloc, &others[count..])?,
        })
    }

    /// Those of the other one and the one.
    pub fn turned(self) -> Self
        ensures { (one other : List Row) (places others : List Place)
            → PairOff one places other others self.one.items self.other.items
            → PairOff other others one places result.one.items result.other.items }
    {
        Alone {
            one: self.other,
            other: self.one,
        }
    }

    /// Whether each place of the one surely has one on the other with the same to the left, so that none is less there. It
    /// goes over those that stand alone in reading order, once, as long as the other one has enough of them left.
    pub fn keeps_all(&self, one: &Standing, other: &Standing) -> bool
        ensures { result ≡ true
            → PairOff one.now.rows.items one.now.places.items other.now.rows.items other.now.places.items
            self.now.one.items self.now.other.items → (left : List ℕ)
            → count_left one.now.rows.items one.now.places.items left
            ≤ count_left other.now.rows.items other.now.places.items left }
    {
        keeps_all(
            one.rows.as_slice(),
            self.one.as_slice(),
            other.rows.as_slice(),
            self.other.as_slice(),
        )
    }
}

/// The places of two screens of which no row moved that are looked at, from one on: up to one of the one and one of the
/// other. All others are the same on both.
#[derive(Clone, Copy)]
struct Cut {
    from: usize,
    to: usize,
    there: usize,
}

impl Cut {
    /// Those in the rows that may differ where the one lags so, and in those above from which a text of so many characters
    /// may go on in them.
    fn of(one: &Standing, other: &Standing, lag: Lag, len: usize) -> Self
        requires { lag.moved ≡ 0 }
        ensures order { result.from ≤ result.to }
        ensures within { result.to ≤ length one.now.places.items }
        ensures order_there { result.from ≤ result.there }
        ensures within_there { result.there ≤ length other.now.places.items }
        ensures others { (text : List ℕ) → length text ≡ len → one.now.places.items ≡ standing text one.now.rows.items
            → other.now.places.items ≡ standing text other.now.rows.items
            → Lags lag one.now.rows.items other.now.rows.items
            → PairOff one.now.rows.items one.now.places.items other.now.rows.items other.now.places.items
            (take (result.to - result.from) (drop result.from one.now.places.items))
            (take (result.there - result.from) (drop result.from other.now.places.items)) }
    {
        let (count, all) = (one.places.len(), other.places.len());
        let rows = other.rows.as_slice();
        let places = one.places.as_slice();
        let end = lag.span.to.min(rows.len());
        let start = reach_start(rows, len, lag.span.from).min(end);
        let behind = count_up_to(places, count, end);
        let from = count_up_to(places, behind, start);
        let least = count - behind + from;
        if all < least {
            return Cut {
                from: 0,
                to: count,
                there: all,
            };
        }
        Cut {
            from,
            to: behind,
            there: all - (count - behind),
        }
    }
}

/// Puts some places behind others; mostly there are none.
#[inline(always)]
fn push_some(places: &mut Vec<Place>, more: &[Place]) -> Result<(), AllocError>
    ensures { OnOk result (places.new.items ≡ places.old.items ++ more.now) }
{
    if more.is_empty() {
        return Ok(());
    }
    places.extend_from_slice(more)?;
    Ok(())
}

/// So many places of a screen, from one on, that pair off with as many of another; the further ones of that up to one stand
/// alone.
#[derive(Clone, Copy)]
struct Pair {
    at: usize,
    count: usize,
    end: usize,
}

/// The next places of a screen, from one on, that pair off with those of another one's row; where no row does, those of the
/// row that came there, as far as it begins alike. The one lags so behind the other: a row that surely stays pairs off with
/// itself, and is looked for no further.
fn next_pair(
    one: &[Row],
    places: &[Place],
    from: usize,
    other: &[Row],
    others: &[Place],
    there: usize,
    lag: Lag,
) -> Pair
    requires within { from ≤ length places.now }
    requires there { there < length others.now }
    ensures low { from ≤ result.at }
    ensures within { result.at + result.count ≤ length places.now }
    ensures order { there + result.count ≤ result.end }
    ensures further { there < result.end }
    ensures there { result.end ≤ length others.now }
    ensures pairs { Lags lag one.now other.now → PairOff one.now (take (result.at + result.count) places.now)
        other.now (take (there + result.count) others.now) (take result.at places.now) (take there others.now) }
{
    let (end, before) = (lag.search_end(others[there].above), others[there].before);
    let mut at = next_behind(places, from, end, before);
    while at < places.len() && places[at].above < end {
        let count = count_alike(one, places, at, other, others, there, lag);
        if count > 0 {
            let end = there + count;
            return Pair { at, count, end };
        }
        at = next_behind(places, at + 1, end, before);
    }
    next_front(one, places, from, other, others, there, lag)
}

/// The next of some places, from one on, that stands behind so many characters; or the first one that stands in no row above
/// this one.
fn next_behind(places: &[Place], from: usize, end: usize, before: usize) -> usize
    requires { from ≤ length places.now }
    ensures low { from ≤ result }
    ensures within { result ≤ length places.now }
{
    let mut at = from;
    while at < places.len() && places[at].above < end && places[at].before != before {
        at += 1;
    }
    at
}

/// How many places of two screens, from these on, pair off since they stand in rows that surely stay where the one lags so
/// behind the other, or else in rows of the same characters.
#[inline(always)]
fn count_alike(
    one: &[Row],
    places: &[Place],
    at: usize,
    other: &[Row],
    others: &[Place],
    there: usize,
    lag: Lag,
) -> usize
    requires within { at < length places.now }
    requires there { there < length others.now }
    ensures within { at + result ≤ length places.now }
    ensures there { there + result ≤ length others.now }
    ensures pairs { Lags lag one.now other.now → PairOff one.now (take (at + result) places.now)
        other.now (take (there + result) others.now) (take at places.now) (take there others.now) }
{
    if lag.keeps(places[at].above, others[there].above, one.len()) {
        return count_kept(one, places, at, other, others, there, lag);
    }
    count_paired(one, &places[at..], other, &others[there..])
}

/// The next places of a screen, from one on, that pair off with the first ones of another one's row, since the row that came
/// there where the one lags so begins alike; the others of that row stand alone.
fn next_front(
    one: &[Row],
    places: &[Place],
    from: usize,
    other: &[Row],
    others: &[Place],
    there: usize,
    lag: Lag,
) -> Pair
    requires within { from ≤ length places.now }
    requires there { there < length others.now }
    ensures low { from ≤ result.at }
    ensures within { result.at + result.count ≤ length places.now }
    ensures order { there + result.count ≤ result.end }
    ensures further { there < result.end }
    ensures there { result.end ≤ length others.now }
    ensures pairs { PairOff one.now (take (result.at + result.count) places.now)
        other.now (take (there + result.count) others.now) (take result.at places.now) (take there others.now) }
{
    let end = row_end(others, there);
    let none = Pair {
        at: from,
        count: 0,
        end,
    };
    let row = others[there].above.saturating_add(lag.moved);
    let at = from + count_above(&places[from..], row);
    if at == places.len() || places[at].above != row || places[at].before != others[there].before {
        return none;
    }
    let count = count_agreed(one, &places[at..], other, &others[there..end]);
    if count == 0 {
        return none;
    }
    Pair { at, count, end }
}

/// How many places of two screens, of which the one lags so behind the other, from these on, pair off since they stand in
/// rows that surely stay, behind as many characters.
fn count_kept(
    one: &[Row],
    places: &[Place],
    at: usize,
    other: &[Row],
    others: &[Place],
    there: usize,
    lag: Lag,
) -> usize
    requires within { at ≤ length places.now }
    requires there { there ≤ length others.now }
    ensures within { at + result ≤ length places.now }
    ensures there { there + result ≤ length others.now }
    ensures pairs { Lags lag one.now other.now → PairOff one.now (take (at + result) places.now)
        other.now (take (there + result) others.now) (take at places.now) (take there others.now) }
{
    // What the rows of the other one are makes no difference.
    let _unread = other.len();
    let rows = one.len();
    let most = (places.len() - at).min(others.len() - there);
    let mut count = 0;
    while count < most && stays(places[at + count], others[there + count], lag, rows) {
        count += 1;
    }
    count
}

/// How many of the first places of two screens pair off, where the first two stand in a row that begins alike.
fn count_begun(one: &[Row], places: &[Place], other: &[Row], others: &[Place]) -> usize
    ensures within { result ≤ length places.now }
    ensures there { result ≤ length others.now }
    ensures pairs { PairOff one.now (take result places.now) other.now (take result others.now) [] [] }
{
    if !begin_alike(places, others) {
        return 0;
    }
    count_agreed(one, places, other, others)
}

/// How many of the first places of two screens pair off, since they have the same to the left.
#[inline(always)]
fn count_agreed(one: &[Row], places: &[Place], other: &[Row], others: &[Place]) -> usize
    requires some { 0 < length places.now }
    requires there { 0 < length others.now }
    ensures within { result ≤ length places.now }
    ensures there { result ≤ length others.now }
    ensures pairs { PairOff one.now (take result places.now) other.now (take result others.now) [] [] }
{
    let mut agreed = AgreedRows::of(one, places[0].above, other, others[0].above);
    let most = places.len().min(others.len());
    let mut count = 0;
    while count < most {
        if !agreed.are_same(one, places[count], other, others[count]) {
            return count;
        }
        count += 1;
    }
    count
}

/// Whether one row alone may differ where rows lag so.
fn is_one_row(lag: Lag) -> bool {
    lag.moved == 0 && lag.span.to > lag.span.from && lag.span.to - lag.span.from == 1
}

/// Whether the first of some places and of others are the same.
fn begin_alike(places: &[Place], others: &[Place]) -> bool
    ensures some { result ≡ true → 0 < length places.now }
    ensures there { result ≡ true → 0 < length others.now }
{
    !places.is_empty()
        && !others.is_empty()
        && places[0].above == others[0].above
        && places[0].before == others[0].before
}

/// How many of the first places of two screens pair off: row by row, as long as the rows are of the same characters.
fn count_paired(one: &[Row], places: &[Place], other: &[Row], others: &[Place]) -> usize
    ensures within { result ≤ length places.now }
    ensures there { result ≤ length others.now }
    ensures pairs { PairOff one.now (take result places.now) other.now (take result others.now) [] [] }
{
    let most = places.len().min(others.len());
    let mut count = 0;
    while count < most {
        let more = count_in_row(one, &places[count..], other, &others[count..]);
        if more == 0 {
            return count;
        }
        count += more;
    }
    count
}

/// The same of the row in which the first two stand.
#[inline(always)]
fn count_in_row(one: &[Row], places: &[Place], other: &[Row], others: &[Place]) -> usize
    requires some { 0 < length places.now }
    requires there { 0 < length others.now }
    ensures within { result ≤ length places.now }
    ensures there { result ≤ length others.now }
    ensures pairs { PairOff one.now (take result places.now) other.now (take result others.now) [] [] }
{
    if places[0].before != others[0].before {
        return 0;
    }
    let (here, row) = (places[0].above, others[0].above);
    if characters_below(one, here) != characters_below(other, row) {
        return 0;
    }
    let most = places.len().min(others.len());
    let mut count = 1;
    while count < most && are_alike(places[count], here, others[count], row) {
        count += 1;
    }
    count
}

/// Whether two places stand in a row that surely stays where so many rows lag so behind others, behind as many characters.
#[inline]
fn stays(one: Place, other: Place, lag: Lag, rows: usize) -> bool
    ensures row { result ≡ true → (here there : List Row) → length here ≡ rows → Lags lag here there
        → row_below there other.above ≡ row_below here one.above }
    ensures before { result ≡ true → one.before ≡ other.before }
{
    one.before == other.before && lag.keeps(one.above, other.above, rows)
}

/// Whether two places stand in these rows, behind as many characters.
fn are_alike(one: Place, here: usize, other: Place, row: usize) -> bool
    ensures { result ≡ true → (one.above ≡ here) × (other.above ≡ row) × (one.before ≡ other.before) }
{
    one.before == other.before && one.above == here && other.above == row
}

/// How many places come before those behind the row in which one stands.
pub(crate) fn row_end(places: &[Place], at: usize) -> usize
    requires { at < length places.now }
    ensures further { at < result }
    ensures within { result ≤ length places.now }
    ensures same { (k : ℕ) → at ≤ k → k < result
        → (place_at places.now k).above ≡ (place_at places.now at).above }
{
    let above = places[at].above;
    let mut end = at + 1;
    while end < places.len() && places[end].above == above {
        end += 1;
    }
    end
}

/// Whether each of some places of a screen surely has one of some on another with the same to the left. It goes over both in
/// reading order, once, as long as the others are enough.
pub(crate) fn keeps_all(rows: &[Row], places: &[Place], others: &[Row], mates: &[Place]) -> bool
    ensures { result ≡ true → (left : List ℕ)
        → count_left rows.now places.now left ≤ count_left others.now mates.now left }
{
    if places.is_empty() {
        return true;
    }
    // Nothing is compared yet: no row is behind the last one.
    let mut agreed = AgreedRows::of(rows, rows.len(), others, others.len());
    let mut kept = 0;
    let mut at = 0;
    while kept < places.len() && places.len() - kept <= mates.len() - at {
        if agreed.are_same(rows, places[kept], others, mates[at]) {
            kept += 1;
        }
        at += 1;
    }
    kept == places.len()
}

/// With how many characters a row of a screen and one of another begin alike.
#[derive(Clone, Copy)]
struct AgreedRows {
    here: usize,
    there: usize,
    count: usize,
}

impl AgreedRows {
    /// That of the rows below so many others.
    fn of(one: &[Row], here: usize, other: &[Row], there: usize) -> Self
        ensures here { result.here ≡ here }
        ensures there { result.there ≡ there }
        ensures agree { Agree (row_below one.now here).characters (row_below other.now there).characters
            result.count }
    {
        let count = agreed_len(characters_below(one, here), characters_below(other, there));
        AgreedRows { here, there, count }
    }

    /// The same of other rows. They are compared where they are other ones than these.
    fn renewed(self, one: &[Row], here: usize, other: &[Row], there: usize) -> Self
        requires { Agree (row_below one.now self.here).characters
            (row_below other.now self.there).characters self.count }
        ensures here { result.here ≡ here }
        ensures there { result.there ≡ there }
        ensures agree { Agree (row_below one.now here).characters (row_below other.now there).characters
            result.count }
    {
        if self.here == here && self.there == there {
            return self;
        }
        AgreedRows::of(one, here, other, there)
    }

    /// Whether two places have the same to the left.
    #[inline(always)]
    fn are_same(&mut self, one: &[Row], place: Place, other: &[Row], mate: Place) -> bool
        requires { Agree (row_below one.now self.old.here).characters
            (row_below other.now self.old.there).characters self.old.count }
        ensures agree { Agree (row_below one.now self.new.here).characters
            (row_below other.now self.new.there).characters self.new.count }
        ensures same { result ≡ true → left_of one.now place ≡ left_of other.now mate }
    {
        if place.before != mate.before {
            return false;
        }
        *self = self.renewed(one, place.above, other, mate.above);
        place.before <= self.count
    }
}

/// With how many characters two rows begin alike.
pub(crate) fn agreed_len(one: &[char], other: &[char]) -> usize
    ensures { Agree one.now other.now result }
{
    let most = one.len().min(other.len());
    let mut count = agreed_blocks(one, other, most);
    while count < most && one[count] == other[count] {
        count += 1;
    }
    count
}

/// The same as far as whole blocks of them go.
fn agreed_blocks(one: &[char], other: &[char], most: usize) -> usize
    requires one { most ≤ length one.now }
    requires other { most ≤ length other.now }
    ensures within { result ≤ most }
    ensures same { take result one.now ≡ take result other.now }
{
    let mut count = 0;
    while most - count >= BLOCK && one[count..count + BLOCK] == other[count..count + BLOCK] {
        count += BLOCK;
    }
    count
}
