//! What stands on a screen before some bytes and after them.

ghost use Rattle.std.specs.Prelude.{◌≡◌, [], true, List, ℕ, IfOk, OnOk};
ghost use Rattle.standings.specs.Rows.{Row};
ghost use Rattle.standings.specs.Spans.{Stays};
ghost use Rattle.text_find.specs.Lines.{AreBetween, AreStill, IsStill};

use crate::finder::Finder;
use plays::{OutOfMemory, Plays};
use standings::{Lag, Span, Standing};
use std::alloc::Global;

/// What stands on a screen before some bytes and after them, and how the rows before lag. Where the text stands nowhere
/// before, these may be older ones, on which it doesn't either.
#[derive(Drop)]
pub(crate) struct Sides {
    pub(crate) before: Standing,
    pub(crate) after: Standing,
    pub(crate) lag: Lag,
}

/// Sides of no rows. They take no memory.
pub(crate) fn no_sides(alloc: Global) -> Sides
    ensures before { result.before.rows.items ≡ [] }
    ensures after { result.after.rows.items ≡ [] }
{
    Sides {
        before: no_rows(alloc),
        after: no_rows(alloc),
        lag: Lag::none(),
    }
}

/// A screen of no rows.
fn no_rows(alloc: Global) -> Standing
    ensures { result.rows.items ≡ [] }
{
    Standing {
        rows: Vec::new(alloc),
        places: Vec::new(alloc),
    }
}

/// What stands on the screen of a terminal.
fn still_of<T: Plays, F: Finder<T>>(
    alloc: Global,
    terminal: &T,
    text: &[char],
) -> Result<Standing, OutOfMemory>
    ensures { (profile : T.Profile) (bytes : List ℕ) → T.shows profile terminal.now bytes
        → IfOk result (λ still. IsStill text.now (F.screens profile bytes) still) }
{
    let rows = F::rows(alloc, terminal)?;
    Ok(Standing::of(alloc, rows, text)?)
}

/// What stands on the screen of a terminal, before and after no bytes.
pub(crate) fn sides_of<T: Plays, F: Finder<T>>(
    alloc: Global,
    terminal: &T,
    text: &[char],
) -> Result<Sides, OutOfMemory>
    ensures { (profile : T.Profile) (bytes : List ℕ) → T.shows profile terminal.now bytes
        → IfOk result (λ sides. AreStill text.now (F.screens profile bytes) sides) }
{
    let before = still_of::<T, F>(alloc, terminal, text)?;
    let after = still_of::<T, F>(alloc, terminal, text)?;
    Ok(Sides {
        before,
        after,
        lag: Lag::none(),
    })
}

/// What stands after is what stands on a terminal that has played more bytes. Says which rows may differ from those that
/// stood after before.
#[inline(always)]
pub(crate) fn catch_up<T: Plays, F: Finder<T>>(
    sides: &mut Sides,
    terminal: &T,
    text: &[char],
) -> Result<Span, OutOfMemory>
    ensures others { IfOk result (λ span.
        Stays span sides.old.after.rows.items sides.new.after.rows.items) }
    ensures before { sides.new.before ≡ sides.old.before }
    ensures sides { (profile : T.Profile) (first before after : List ℕ) → T.shows profile terminal.now after
        → T.told profile terminal.now before
        → AreBetween text.now (F.screens profile first) (F.screens profile before) sides.old
        → OnOk result (AreBetween text.now (F.screens profile first) (F.screens profile after) sides.new) }
{
    let span = F::catch_up(&mut sides.after.rows, terminal)?;
    if span.is_none() {
        return Ok(span);
    }
    sides.after.look_again(text, span)?;
    sides.lag = sides.lag.widened(span);
    Ok(span)
}

/// Whether the text stands neither before nor after.
pub(crate) fn stands_nowhere(sides: &Sides) -> bool
    ensures before { result ≡ true → sides.now.before.places.items ≡ [] }
    ensures after { result ≡ true → sides.now.after.places.items ≡ [] }
{
    sides.before.places.is_empty() && sides.after.places.is_empty()
}

/// What stands before becomes what stands after. Where the text stands at neither, the rows before lag on.
pub(crate) fn settle(sides: &mut Sides) -> Result<(), OutOfMemory>
    ensures { (text : List ℕ) (one other : List Row) → AreBetween text one other sides.old
        → OnOk result (AreStill text other sides.new) }
{
    if stands_nowhere(sides) {
        return Ok(());
    }
    let lag = sides.lag;
    if lag.is_none() {
        return Ok(());
    }
    sides.before.follow_lag(&sides.after, lag)?;
    sides.lag = Lag::none();
    Ok(())
}
