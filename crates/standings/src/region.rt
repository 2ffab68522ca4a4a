//! Rows that move up or down between two margins.

ghost use Rattle.std.specs.Prelude.{◌≡◌, ◌-◌, ◌<◌, ◌≤◌, List, ℕ, if◌then◌else◌, length, IfOk, OnErr, OnOk};
ghost use Rattle.standings.specs.Moved.{EndsInInk, region_down, region_up, shifted_down, shifted_up};
ghost use Rattle.standings.specs.Near.{IsClear};
ghost use Rattle.standings.specs.Rows.{Row, row_below};
ghost use Rattle.standings.specs.Spans.{Stays};
ghost use Rattle.standings.specs.Standing.{standing};

use crate::left::Standing;
use crate::near::may_go_on;
use crate::place::{Place, count_up_to, forget, lift, lower, may_come_below};
use crate::row::{Row, move_rows_down, move_rows_up, shift_down, shift_up};
use crate::span::Span;
use std::alloc::AllocError;

impl Standing {
    /// The rows from one up to and without another move up, or down, by one, and a row of so many spaces comes in; looks
    /// in them where the text stands then. Says which rows may differ. Nothing is done where there are no such rows, and
    /// nothing where memory is refused.
    pub fn move_within(
        &mut self,
        from: usize,
        to: usize,
        columns: usize,
        down: bool,
        text: &[char],
    ) -> Result<Span, AllocError>
        requires { columns < u16.MAX }
        ensures rows { from < to → to ≤ length self.old.rows.items
            → OnOk result (self.new.rows.items ≡ (if down then region_down from to columns self.old.rows.items
            else region_up from to columns self.old.rows.items)) }
        ensures places { from < to → to ≤ length self.old.rows.items
            → self.old.places.items ≡ standing text.now self.old.rows.items
            → OnOk result (self.new.places.items ≡ standing text.now self.new.rows.items) }
        ensures others { IfOk result (λ span. Stays span self.old.rows.items self.new.rows.items) }
        ensures refused_rows { OnErr result (self.new.rows.items ≡ self.old.rows.items) }
        ensures refused_places { OnErr result (self.new.places.items ≡ self.old.places.items) }
    {
        if from >= to || to > self.rows.len() {
            return Ok(Span::none());
        }
        let span = Span { from, to };
        let rows = self.rows.as_slice();
        let end = if down { to - 1 } else { to };
        if may_come_below(text) || may_go_on(rows, text, from, 0) || may_go_on(rows, text, end, 0) {
            self.move_and_look(span, columns, down, text)?;
            return Ok(span);
        }
        move_rows_within(self.rows.as_mut_slice(), span, columns, down)?;
        move_places_within(&mut self.places, span, down);
        Ok(span)
    }

    /// The same of a text that may come to stand by the row of spaces, or go on from a row above these in them, or from the
    /// last that stays in the one below it: looks again in all of them.
    fn move_and_look(
        &mut self,
        span: Span,
        columns: usize,
        down: bool,
        text: &[char],
    ) -> Result<(), AllocError>
        requires few { columns < u16.MAX }
        requires some { span.from < span.to }
        requires within { span.to ≤ length self.old.rows.items }
        ensures rows { OnOk result (self.new.rows.items
            ≡ (if down then region_down span.from span.to columns self.old.rows.items
            else region_up span.from span.to columns self.old.rows.items)) }
        ensures places { self.old.places.items ≡ standing text.now self.old.rows.items
            → OnOk result (self.new.places.items ≡ standing text.now self.new.rows.items) }
        ensures others { OnOk result (Stays span self.old.rows.items self.new.rows.items) }
        ensures refused_rows { OnErr result (self.new.rows.items ≡ self.old.rows.items) }
        ensures refused_places { OnErr result (self.new.places.items ≡ self.old.places.items) }
    {
        let row = Row::spaces(*self.rows.allocator(), columns)?;
        let out = shift_within(self.rows.as_mut_slice(), span, row, down);
        if self.look_again(text, span).is_err() {
            shift_within(self.rows.as_mut_slice(), span, out, !down);
            return Err(AllocError);
        }
        Ok(())
    }
}

/// Those of a span move up, or down, by one, and a row comes in for the one that goes out.
fn shift_within(rows: &mut [Row], span: Span, row: Row, down: bool) -> Row
    requires some { span.from < span.to }
    requires within { span.to ≤ length rows.old }
    ensures rows { rows.new ≡ (if down then shifted_down span.from span.to row rows.old
        else shifted_up span.from span.to row rows.old) }
    ensures others { Stays span rows.old rows.new }
    ensures out { result ≡ row_below rows.old (if down then span.to - 1 else span.from) }
{
    let part = &mut rows[span.from..span.to];
    if down {
        shift_down(part, row)
    } else {
        shift_up(part, row)
    }
}

/// The same where the row that goes out becomes one of so many spaces, and comes in. Where memory is refused, they are as
/// before.
fn move_rows_within(
    rows: &mut [Row],
    span: Span,
    columns: usize,
    down: bool,
) -> Result<(), AllocError>
    requires some { span.from < span.to }
    requires within { span.to ≤ length rows.old }
    requires few { columns < u16.MAX }
    ensures moved { OnOk result (rows.new ≡ (if down then region_down span.from span.to columns rows.old
        else region_up span.from span.to columns rows.old)) }
    ensures others { OnOk result (Stays span rows.old rows.new) }
    ensures refused { OnErr result (rows.new ≡ rows.old) }
{
    let moving = &mut rows[span.from..span.to];
    if down {
        move_rows_down(moving, columns)
    } else {
        move_rows_up(moving, columns)
    }
}

/// The places of a text that stays clear of the row of spaces and of what doesn't move become those where it stands when
/// the rows of a span have moved.
fn move_places_within(places: &mut Vec<Place>, span: Span, down: bool)
    requires { span.from < span.to }
    ensures { (text : List ℕ) (rows : List Row) (columns : ℕ) → EndsInInk text
        → length rows ≤ usize.MAX → span.to ≤ length rows → IsClear rows span.from 0 text
        → IsClear rows (if down then span.to - 1 else span.to) 0 text
        → places.old.items ≡ standing text rows
        → places.new.items ≡ standing text (if down then region_down span.from span.to columns rows
        else region_up span.from span.to columns rows) }
{
    if down {
        move_down_within(places, span)
    } else {
        move_up_within(places, span)
    }
}

/// Those of the first row are taken out, and those of the others move up by a row.
fn move_up_within(places: &mut Vec<Place>, span: Span)
    requires { span.from < span.to }
    ensures { (text : List ℕ) (rows : List Row) (columns : ℕ) → EndsInInk text
        → span.to ≤ length rows → IsClear rows span.from 0 text → IsClear rows span.to 0 text
        → places.old.items ≡ standing text rows
        → places.new.items ≡ standing text (region_up span.from span.to columns rows) }
{
    let behind = count_up_to(places.as_slice(), places.len(), span.to);
    let gone = count_up_to(places.as_slice(), behind, span.from + 1);
    let kept = count_up_to(places.as_slice(), gone, span.from);
    lift(&mut places.as_mut_slice()[gone..behind]);
    forget(places, kept, gone);
}

/// Those of the last row are taken out, and those of the others move down by a row.
fn move_down_within(places: &mut Vec<Place>, span: Span)
    requires { span.from < span.to }
    ensures { (text : List ℕ) (rows : List Row) (columns : ℕ) → EndsInInk text
        → length rows ≤ usize.MAX → span.to ≤ length rows
        → IsClear rows span.from 0 text → IsClear rows (span.to - 1) 0 text
        → places.old.items ≡ standing text rows
        → places.new.items ≡ standing text (region_down span.from span.to columns rows) }
{
    let behind = count_up_to(places.as_slice(), places.len(), span.to);
    let staying = count_up_to(places.as_slice(), behind, span.to - 1);
    let kept = count_up_to(places.as_slice(), staying, span.from);
    lower(&mut places.as_mut_slice()[kept..staying]);
    forget(places, staying, behind);
}
