//! Room that is given back before a chunk is played once more in pieces.

ghost use Rattle.std.specs.Prelude.{◌≡◌, List, ℕ};
ghost use Rattle.standings.specs.Rows.{Row};
ghost use Rattle.standings.specs.Spans.{Stays};
ghost use Rattle.text_find.specs.Lines.{AreBetween};

use crate::sides::Sides;
use plays::OutOfMemory;
use standings::{Row, Span, Standing};
use std::alloc::Global;

/// Gives back the room that was taken for what stood inside a chunk: what stood before a piece loses the rows of a span, and
/// of the rows that changed since a chunk was played in pieces none has more room than it needs, or than at the chunk's start.
pub(crate) fn give_back(
    alloc: Global,
    ends: &mut Sides,
    steps: &mut Sides,
    span: Span,
    changed: Span,
) -> Result<(), OutOfMemory>
    ensures ends { (text : List ℕ) (one other : List Row) → AreBetween text one other ends.old
        → AreBetween text one other ends.new }
    ensures before { Stays span steps.old.before.rows.items steps.new.before.rows.items }
    ensures after { steps.new.after ≡ steps.old.after }
    ensures lag { steps.new.lag ≡ steps.old.lag }
{
    empty_rows(&mut steps.before.rows, span);
    steps.before.places.clear();
    fit(alloc, &mut steps.before, &steps.after, span)?;
    fit(alloc, &mut ends.after, &ends.before, changed)
}

/// The rows of a span become rows without a character.
fn empty_rows(rows: &mut Vec<Row>, span: Span)
    ensures { Stays span rows.old.items rows.new.items }
{
    for above in span.from..span.to.min(rows.len()) {
        let row = &mut rows[above];
        row.restart(false);
    }
}

/// The rows of a span, and the places, give back the room that neither they nor those of another screen have taken.
pub(crate) fn fit(
    alloc: Global,
    still: &mut Standing,
    other: &Standing,
    span: Span,
) -> Result<(), OutOfMemory>
    ensures rows { still.new.rows.items ≡ still.old.rows.items }
    ensures places { still.new.places.items ≡ still.old.places.items }
{
    still.places.shrink_to(other.places.capacity());
    for above in span.from..span.to.min(still.rows.len()).min(other.rows.len()) {
        let row = &mut still.rows[above];
        row.fit(alloc, &other.rows[above])?;
    }
    Ok(())
}
