//! What of a text went between two screens, told by what stands left of it.

ghost use Rattle.std.specs.Prelude.{◌≡◌, ◌≢◌, [], ◌+◌, ◌-◌, ◌<◌, ◌≤◌, false, true, List, ℕ, drop, length, IfOk, OnErr, OnOk};
ghost use Rattle.standings.specs.Kept.{EndBy, Keeps, room_in};
ghost use Rattle.standings.specs.Lag.{Lags};
ghost use Rattle.standings.specs.Moved.{moved_up};
ghost use Rattle.standings.specs.Rows.{Row, row_below};
ghost use Rattle.standings.specs.Spans.{Stays};
ghost use Rattle.standings.specs.Standing.{count_left, is_less, is_lone, left_of, place_at, standing};
ghost use Rattle.standings.specs.Written.{rows_written};

use crate::follow::follow_rows;
use crate::lag::Lag;
use crate::near::{count_near, look_near, may_come_near, may_go_on, stand_there};
use crate::place::{
    Place, count_up_to, look_between, may_come, may_come_below, move_places_up, standing,
};
use crate::row::{
    Row, characters_below, move_rows_up, shift_down, shift_up, turn_rows, turn_rows_back,
};
use crate::span::Span;
use std::alloc::{AllocError, Global};

/// The rows of a screen, and where a text stands on it.
#[derive(Drop)]
pub struct Standing {
    pub rows: Vec<Row>,
    pub places: Vec<Place>,
}

impl Standing {
    /// That of these rows.
    pub fn of(alloc: Global, rows: Vec<Row>, text: &[char]) -> Result<Self, AllocError>
        ensures rows { IfOk result (λ s. s.rows.items ≡ rows.items) }
        ensures places { IfOk result (λ s. s.places.items ≡ standing text.now rows.items) }
    {
        let places = standing(alloc, rows.as_slice(), text)?;
        Ok(Standing { rows, places })
    }

    /// Looks again where the text stands, where only these rows may have changed. Where memory is refused, it is as before.
    pub fn look_again(&mut self, text: &[char], span: Span) -> Result<(), AllocError>
        ensures rows { self.new.rows.items ≡ self.old.rows.items }
        ensures places { (before : List Row) → Stays span before self.old.rows.items
            → self.old.places.items ≡ standing text.now before
            → OnOk result (self.new.places.items ≡ standing text.now self.new.rows.items) }
        ensures refused { OnErr result (self.new.places.items ≡ self.old.places.items) }
    {
        if span.is_none() {
            return Ok(());
        }
        if self.places.is_empty() && !may_come(self.rows.as_slice(), text, span) {
            return Ok(());
        }
        look_between(self.rows.as_slice(), text, span, &mut self.places)
    }

    /// All rows move up by one, and a row of so many spaces comes in below; looks where the text stands then. Says which
    /// rows may differ. Nothing is done where there is no row, and nothing where memory is refused.
    pub fn move_up(&mut self, columns: usize, text: &[char]) -> Result<Span, AllocError>
        requires { columns < u16.MAX }
        ensures rows { 0 < length self.old.rows.items
            → OnOk result (self.new.rows.items ≡ moved_up columns self.old.rows.items) }
        ensures places { 0 < length self.old.rows.items
            → self.old.places.items ≡ standing text.now self.old.rows.items
            → OnOk result (self.new.places.items ≡ standing text.now self.new.rows.items) }
        ensures others { IfOk result (λ span. Stays span self.old.rows.items self.new.rows.items) }
        ensures refused_rows { OnErr result (self.new.rows.items ≡ self.old.rows.items) }
        ensures refused_places { OnErr result (self.new.places.items ≡ self.old.places.items) }
    {
        let count = self.rows.len();
        if count == 0 {
            return Ok(Span::none());
        }
        let all = Span { from: 0, to: count };
        if may_come_below(text) {
            let last = Span {
                from: count - 1,
                to: count,
            };
            self.move_up_and_look(columns, text, last)?;
            return Ok(all);
        }
        move_rows_up(self.rows.as_mut_slice(), columns)?;
        move_places_up(&mut self.places);
        Ok(all)
    }

    /// The same of a text that may come to stand by the row of spaces: looks in these rows. What it makes is kept apart
    /// till memory was had for all.
    fn move_up_and_look(
        &mut self,
        columns: usize,
        text: &[char],
        last: Span,
    ) -> Result<(), AllocError>
        requires some { 0 < length self.old.rows.items }
        requires few { columns < u16.MAX }
        ensures rows { OnOk result (self.new.rows.items ≡ moved_up columns self.old.rows.items) }
        ensures places { (before : List Row) → Stays last before (moved_up columns self.old.rows.items)
            → standing text.now before ≡ standing text.now (drop 1 self.old.rows.items)
            → self.old.places.items ≡ standing text.now self.old.rows.items
            → OnOk result (self.new.places.items ≡ standing text.now self.new.rows.items) }
        ensures refused_rows { OnErr result (self.new.rows.items ≡ self.old.rows.items) }
        ensures refused_places { OnErr result (self.new.places.items ≡ self.old.places.items) }
    {
        let alloc = *self.rows.allocator();
        let mut places = Vec::from_slice(alloc, self.places.as_slice())?;
        let row = Row::spaces(alloc, columns)?;
        let out = shift_up(self.rows.as_mut_slice(), row);
        move_places_up(&mut places);
        if look_between(self.rows.as_slice(), text, last, &mut places).is_err() {
            shift_down(self.rows.as_mut_slice(), out);
            return Err(AllocError);
        }
        self.places = places;
        Ok(())
    }

    /// These characters are written over as many of the row below so many others, from the one behind so many on; looks
    /// where the text stands then. Says which rows may differ. Nothing is done where there is no such row, or it has too
    /// few characters, nothing where they stand there already, and nothing where memory is refused.
    pub fn write(
        &mut self,
        above: usize,
        before: usize,
        letters: &[char],
        text: &[char],
    ) -> Result<Span, AllocError>
        ensures rows { above < length self.old.rows.items
            → before + length letters.now ≤ length (row_below self.old.rows.items above).characters
            → OnOk result (self.new.rows.items ≡ rows_written above before letters.now self.old.rows.items) }
        ensures places { above < length self.old.rows.items
            → before + length letters.now ≤ length (row_below self.old.rows.items above).characters
            → self.old.places.items ≡ standing text.now self.old.rows.items
            → OnOk result (self.new.places.items ≡ standing text.now self.new.rows.items) }
        ensures others { IfOk result (λ span. Stays span self.old.rows.items self.new.rows.items) }
        ensures refused_rows { OnErr result (self.new.rows.items ≡ self.old.rows.items) }
        ensures refused_places { OnErr result (self.new.places.items ≡ self.old.places.items) }
    {
        if above >= self.rows.len() || !self.rows[above].has(before, letters.len()) {
            return Ok(Span::none());
        }
        if !self.places.is_empty() && stand_there(self.rows.as_slice(), above, before, letters) {
            return Ok(Span::none());
        }
        let span = Span {
            from: above,
            to: above + 1,
        };
        if text.is_empty() || may_go_on(self.rows.as_slice(), text, above, before) {
            return self.write_and_look(span, before, letters, text);
        }
        let rows = self.rows.as_slice();
        let comes = !self.places.is_empty() || may_come_near(rows, text, above, before, letters);
        let most = if comes {
            count_near(rows, text, above, before, letters.len())
        } else {
            0
        };
        self.places.reserve(most)?;
        let row = &mut self.rows[above];
        row.write(before, letters);
        if comes {
            look_near(
                self.rows.as_slice(),
                text,
                above,
                before,
                letters.len(),
                &mut self.places,
            );
        }
        Ok(span)
    }

    /// The same of the row of a span, where the text may go on from the one above: looks again in the whole row. What was
    /// written over is kept till memory was had for all.
    fn write_and_look(
        &mut self,
        here: Span,
        before: usize,
        letters: &[char],
        text: &[char],
    ) -> Result<Span, AllocError>
        requires row { here.from < length self.old.rows.items }
        requires one { here.to ≡ here.from + 1 }
        requires within { before + length letters.now
            ≤ length (row_below self.old.rows.items here.from).characters }
        ensures rows { OnOk result
            (self.new.rows.items ≡ rows_written here.from before letters.now self.old.rows.items) }
        ensures places { self.old.places.items ≡ standing text.now self.old.rows.items
            → OnOk result (self.new.places.items ≡ standing text.now self.new.rows.items) }
        ensures others { IfOk result (λ span. Stays span self.old.rows.items self.new.rows.items) }
        ensures refused_rows { OnErr result (self.new.rows.items ≡ self.old.rows.items) }
        ensures refused_places { OnErr result (self.new.places.items ≡ self.old.places.items) }
    {
        let alloc = *self.rows.allocator();
        let line = &mut self.rows[here.from];
        let was = Vec::from_slice(alloc, &line.characters()[before..before + letters.len()])?;
        line.write(before, letters);
        if self.look_again(text, here).is_err() {
            let line = &mut self.rows[here.from];
            line.write(before, was.as_slice());
            return Err(AllocError);
        }
        Ok(here)
    }

    /// Becomes another one, from which only these of its rows may differ.
    pub fn follow(&mut self, other: &Standing, span: Span) -> Result<(), AllocError>
        ensures rows { Stays span self.old.rows.items other.now.rows.items
            → OnOk result (self.new.rows.items ≡ other.now.rows.items) }
        ensures places { OnOk result (self.new.places.items ≡ other.now.places.items) }
    {
        copy_rows(&mut self.rows, other.rows.as_slice(), span)?;
        self.places.clear();
        self.places.extend_from_slice(other.places.as_slice())?;
        Ok(())
    }

    /// Becomes another one, behind which its rows lag so. Where memory is refused, it is as before.
    pub fn follow_lag(&mut self, other: &Standing, lag: Lag) -> Result<(), AllocError>
        ensures rows { Lags lag self.old.rows.items other.now.rows.items
            → OnOk result (self.new.rows.items ≡ other.now.rows.items) }
        ensures places { OnOk result (self.new.places.items ≡ other.now.places.items) }
        ensures refused_rows { OnErr result (self.new.rows.items ≡ self.old.rows.items) }
        ensures refused_places { OnErr result (self.new.places.items ≡ self.old.places.items) }
    {
        let lacking = other.places.len().saturating_sub(self.places.len());
        self.places.reserve(lacking)?;
        let alloc = *self.rows.allocator();
        let rows = self.rows.as_mut_slice();
        turn_rows(rows, lag.moved);
        if follow_rows(alloc, rows, other.rows.as_slice(), lag.span).is_err() {
            turn_rows_back(rows, lag.moved);
            return Err(AllocError);
        }
        self.places.clear();
        self.places.extend_from_slice(other.places.as_slice())?;
        Ok(())
    }
}

/// Rows become those of others, from which only these may differ.
fn copy_rows(rows: &mut Vec<Row>, others: &[Row], span: Span) -> Result<(), AllocError>
    ensures { Stays span rows.old.items others.now → OnOk result (rows.new.items ≡ others.now) }
{
    for above in span.from..span.to.min(rows.len()).min(others.len()) {
        let row = &mut rows[above];
        row.copy_from(&others[above])?;
    }
    Ok(())
}

/// Whether a place is less on the other screen: at least as many places before it have the same to the left as there are
/// in all on the other.
pub fn is_less(one: &Standing, at: usize, other: &Standing) -> bool
    requires { at < length one.now.places.items }
    ensures { result ≡ is_less one.now.rows.items one.now.places.items other.now.rows.items
        other.now.places.items at }
{
    let left = left_of(one.rows.as_slice(), one.places[at]);
    let before = count_left(one.rows.as_slice(), &one.places.as_slice()[..at], left);
    let there = count_left(other.rows.as_slice(), other.places.as_slice(), left);
    there <= before
}

/// Whether no place on a screen has the same to the left as one on another.
pub fn is_lone(here: &Standing, one: &Standing, at: usize) -> bool
    requires { at < length one.now.places.items }
    ensures { result ≡ is_lone here.now.rows.items here.now.places.items
        (left_of one.now.rows.items (place_at one.now.places.items at)) }
{
    let left = left_of(one.rows.as_slice(), one.places[at]);
    count_left(here.rows.as_slice(), here.places.as_slice(), left) == 0
}

/// Whether a text of so many characters ends, at each place at which it stands, before what is written behind so many
/// characters of a row: it ends there, or inside a row above, or stands in a row below. Those in rows below aren't looked at,
/// nor those of one character in rows above.
pub fn ends_before(still: &Standing, len: usize, above: usize, before: usize) -> bool
    ensures { result ≡ true → (text : List ℕ) → length text ≡ len
        → still.now.places.items ≡ standing text still.now.rows.items
        → EndBy len still.now.rows.items still.now.places.items above before }
{
    let all = still.places.len();
    let below = count_up_to(still.places.as_slice(), all, above.saturating_add(1));
    let ended = count_ended(still.places.as_slice(), below, len, above);
    let mut at = below;
    while at > ended {
        at -= 1;
        if !ends_by(still.rows.as_slice(), still.places[at], len, above, before) {
            return false;
        }
    }
    true
}

/// The same of one place.
fn ends_by(rows: &[Row], place: Place, len: usize, above: usize, before: usize) -> bool
    ensures { result ≡ true → place.above ≤ above
        → place.before + len ≤ room_in rows.now above before place.above }
{
    if place.above > above {
        return true;
    }
    let room = if place.above == above {
        before
    } else {
        characters_below(rows, place.above).len()
    };
    len <= room && place.before <= room - len
}

/// How many of the first so many places at which a text of so many characters stands are in rows above one, where it surely
/// ends.
fn count_ended(places: &[Place], most: usize, len: usize, above: usize) -> usize
    requires { most ≤ length places.now }
    ensures within { result ≤ length places.now }
    ensures short { 0 < result → len ≤ 1 }
    ensures above { 0 < result → (place_at places.now (result - 1)).above < above }
{
    if len > 1 {
        return 0;
    }
    count_up_to(places, most, above)
}

/// Whether surely nothing of a text that stands there goes where all rows move up by one: none of it begins in the first
/// row.
pub fn stays_moved(still: &Standing) -> bool
    ensures keeps { result ≡ true → (text : List ℕ) (columns : ℕ) → 0 < length still.now.rows.items
        → still.now.places.items ≡ standing text still.now.rows.items
        → Keeps text still.now.rows.items (moved_up columns still.now.rows.items) }
    ensures stands { result ≡ false → still.now.places.items ≢ [] }
{
    still.places.is_empty() || still.places[0].above > 0
}

/// How many of the places have this to the left.
fn count_left(rows: &[Row], places: &[Place], left: &[char]) -> usize
    ensures { result ≡ count_left rows.now places.now left.now }
{
    let mut count = 0;
    for place in places {
        if left_of(rows, *place) == left {
            count += 1;
        }
    }
    count
}

/// What stands left of a place in its row.
pub(crate) fn left_of(rows: &[Row], place: Place) -> &[char]
    ensures { result.now ≡ left_of rows.now place }
{
    let characters = characters_below(rows, place.above);
    &characters[..place.before.min(characters.len())]
}
