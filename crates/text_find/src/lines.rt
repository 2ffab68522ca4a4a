//! The lines of what stands on a screen, of what is less on another, and of what passed inside a chunk.

ghost use Rattle.std.specs.Prelude.{◌≡◌, ◌<◌, ◌≤◌, ◌++◌, [], false, List, ℕ, length, true, IfSome, OnErr, OnOk};
ghost use Rattle.standings.specs.Found.{found_line};
ghost use Rattle.standings.specs.Lag.{Lags};
ghost use Rattle.standings.specs.Less.{ArePassed, HasAll, HasEach, IsTold, PairOff, may_pass};
ghost use Rattle.standings.specs.Lines.{AreReady};
ghost use Rattle.standings.specs.Rows.{Row};
ghost use Rattle.standings.specs.Standing.{place_at, standing};
ghost use Rattle.standings.specs.declared.place.Place.{Place};
ghost use Rattle.tape_core.specs.Devices.{Gave};
ghost use Rattle.text_find.specs.Lines.{AreBetween, Began, IsStill, end_lines, from_lines, less_line, less_lines, passed_line, passed_lines, standing_lines};

use crate::sides::{Sides, stands_nowhere};
use plays::OutOfMemory;
use standings::{Alone, Lag, Less, Lines, Moment, Passed, Standing, may_pass};
use std::alloc::Global;
use std::io::Write;
use tape_core::Watched;
use tape_core::laws::gives_join;

/// Writes where the text stands at the moment from which chunks are asked for, if there is one.
pub(crate) fn put_from<W: Write>(
    alloc: Global,
    from: Option<u64>,
    index: usize,
    len: usize,
    still: &Standing,
    writer: &mut Watched<W>,
) -> Result<(), OutOfMemory>
    ensures gave { OnOk result (Gave W.contents writer.old writer.new
        (from_lines len still.now.rows.items still.now.places.items index from)) }
    ensures front { OnErr result (Began W.contents writer.old writer.new
        (from_lines len still.now.rows.items still.now.places.items index from)) }
{
    gives_join::<W>();
    if let Some(moment) = from {
        let moment = Moment {
            index,
            due: moment,
            len,
        };
        put_standing(alloc, moment, still, writer)?;
    }
    Ok(())
}

/// Writes a line for each place at which the text stands.
fn put_standing<W: Write>(
    alloc: Global,
    moment: Moment,
    still: &Standing,
    writer: &mut Watched<W>,
) -> Result<(), OutOfMemory>
    ensures gave { OnOk result (Gave W.contents writer.old writer.new
        (standing_lines moment.len moment.index moment.due still.now.rows.items still.now.places.items)) }
    ensures front { OnErr result (Began W.contents writer.old writer.new
        (standing_lines moment.len moment.index moment.due still.now.rows.items still.now.places.items)) }
{
    gives_join::<W>();
    let mut lines = Lines::of(moment);
    for at in 0..still.places.len() {
        put_at(alloc, b'=', &mut lines, still, at, writer)?;
    }
    Ok(())
}

/// Writes the line of one place. Where memory is refused, nothing was written.
fn put_at<W: Write>(
    alloc: Global,
    sign: u8,
    lines: &mut Lines,
    still: &Standing,
    at: usize,
    writer: &mut Watched<W>,
) -> Result<(), OutOfMemory>
    requires within { at < length still.now.places.items }
    requires ready { AreReady lines.old still.now.rows.items }
    ensures gave { OnOk result (Gave W.contents writer.old writer.new
        (found_line sign lines.old.moment.index lines.old.moment.due lines.old.moment.len
        still.now.rows.items (place_at still.now.places.items at))) }
    ensures refused { OnErr result (writer.new ≡ writer.old) }
    ensures ready { AreReady lines.new still.now.rows.items }
    ensures moment { lines.new.moment ≡ lines.old.moment }
{
    lines.put(alloc, sign, still.rows.as_slice(), still.places[at], writer)?;
    Ok(())
}

/// The places of both ends of some bytes that stand alone, if the text stands at one of them and there was memory.
pub(crate) fn alone_of(alloc: Global, ends: &Sides, len: usize) -> Option<Alone>
    ensures { (text : List ℕ) (one other : List Row) → length text ≡ len → AreBetween text one other ends.now
        → IfSome result (λ alone. PairOff ends.now.before.rows.items ends.now.before.places.items
        ends.now.after.rows.items ends.now.after.places.items alone.one.items alone.other.items) }
{
    if stands_nowhere(ends) {
        return None;
    }
    match Alone::of(alloc, &ends.before, &ends.after, ends.lag, len) {
        Ok(alone) => Some(alone),
        Err(_) => None,
    }
}

/// Writes the lines of what stood before some bytes and is less after them, by the places of both ends that stand alone, if
/// it is told of those.
pub(crate) fn put_gone<W: Write>(
    alloc: Global,
    moment: Moment,
    ends: &Sides,
    alone: &Option<Alone>,
    writer: &mut Watched<W>,
) -> Result<(), OutOfMemory>
    ensures gave { IfSome alone.now (λ told. PairOff ends.now.before.rows.items ends.now.before.places.items
        ends.now.after.rows.items ends.now.after.places.items told.one.items told.other.items)
        → OnOk result (Gave W.contents writer.old writer.new
        (less_lines 45 moment.index moment.due moment.len
        ends.now.before.rows.items ends.now.before.places.items ends.now.after.rows.items ends.now.after.places.items)) }
    ensures front { IfSome alone.now (λ told. PairOff ends.now.before.rows.items ends.now.before.places.items
        ends.now.after.rows.items ends.now.after.places.items told.one.items told.other.items)
        → OnErr result (Began W.contents writer.old writer.new
        (less_lines 45 moment.index moment.due moment.len
        ends.now.before.rows.items ends.now.before.places.items ends.now.after.rows.items ends.now.after.places.items)) }
{
    put_less(
        alloc,
        b'-',
        moment,
        &ends.before,
        &ends.after,
        alone,
        writer,
    )
}

/// The same of what stands after them and was less before.
pub(crate) fn put_come<W: Write>(
    alloc: Global,
    moment: Moment,
    ends: &Sides,
    alone: Option<Alone>,
    writer: &mut Watched<W>,
) -> Result<(), OutOfMemory>
    ensures gave { IfSome alone (λ told. PairOff ends.now.before.rows.items ends.now.before.places.items
        ends.now.after.rows.items ends.now.after.places.items told.one.items told.other.items)
        → OnOk result (Gave W.contents writer.old writer.new
        (less_lines 43 moment.index moment.due moment.len
        ends.now.after.rows.items ends.now.after.places.items ends.now.before.rows.items ends.now.before.places.items)) }
    ensures front { IfSome alone (λ told. PairOff ends.now.before.rows.items ends.now.before.places.items
        ends.now.after.rows.items ends.now.after.places.items told.one.items told.other.items)
        → OnErr result (Began W.contents writer.old writer.new
        (less_lines 43 moment.index moment.due moment.len
        ends.now.after.rows.items ends.now.after.places.items ends.now.before.rows.items ends.now.before.places.items)) }
{
    let turned = turned(alone);
    put_less(
        alloc,
        b'+',
        moment,
        &ends.after,
        &ends.before,
        &turned,
        writer,
    )
}

/// Those of the other screen and the one, if it is told of them.
fn turned(alone: Option<Alone>) -> Option<Alone>
    ensures { (one other : List Row) (places others : List Place)
        → IfSome alone (λ told. PairOff one places other others told.one.items told.other.items)
        → IfSome result (λ told. PairOff other others one places told.one.items told.other.items) }
{
    match alone {
        Some(alone) => Some(alone.turned()),
        None => None,
    }
}

/// Writes the lines of what stands on one screen and is less on the other, by the places of both that stand alone, if it is
/// told of those. Mostly nothing is, which is seen at once.
fn put_less<W: Write>(
    alloc: Global,
    sign: u8,
    moment: Moment,
    one: &Standing,
    other: &Standing,
    alone: &Option<Alone>,
    writer: &mut Watched<W>,
) -> Result<(), OutOfMemory>
    ensures gave { IfSome alone.now (λ told. PairOff one.now.rows.items one.now.places.items
        other.now.rows.items other.now.places.items told.one.items told.other.items)
        → OnOk result (Gave W.contents writer.old writer.new
        (less_lines sign moment.index moment.due moment.len
        one.now.rows.items one.now.places.items other.now.rows.items other.now.places.items)) }
    ensures front { IfSome alone.now (λ told. PairOff one.now.rows.items one.now.places.items
        other.now.rows.items other.now.places.items told.one.items told.other.items)
        → OnErr result (Began W.contents writer.old writer.new
        (less_lines sign moment.index moment.due moment.len
        one.now.rows.items one.now.places.items other.now.rows.items other.now.places.items)) }
{
    gives_join::<W>();
    if one.places.is_empty() {
        return Ok(());
    }
    let Some(alone) = alone else {
        return put_told(alloc, sign, moment, one, other, &Less::untold(), writer);
    };
    let none_went = alone.keeps_all(one, other);
    if none_went {
        return Ok(());
    }
    let less = Less::of(alloc, one, other, alone);
    put_told(alloc, sign, moment, one, other, &less, writer)
}

/// Writes the lines of the places that are less on the other screen, as it is told of them.
fn put_told<W: Write>(
    alloc: Global,
    sign: u8,
    moment: Moment,
    one: &Standing,
    other: &Standing,
    less: &Less,
    writer: &mut Watched<W>,
) -> Result<(), OutOfMemory>
    requires { HasAll less.now (length one.now.places.items) }
    ensures gave { IsTold less.now one.now.rows.items one.now.places.items other.now.rows.items other.now.places.items
        → OnOk result (Gave W.contents writer.old writer.new
        (less_lines sign moment.index moment.due moment.len
        one.now.rows.items one.now.places.items other.now.rows.items other.now.places.items)) }
    ensures front { IsTold less.now one.now.rows.items one.now.places.items other.now.rows.items other.now.places.items
        → OnErr result (Began W.contents writer.old writer.new
        (less_lines sign moment.index moment.due moment.len
        one.now.rows.items one.now.places.items other.now.rows.items other.now.places.items)) }
{
    gives_join::<W>();
    let mut lines = Lines::of(moment);
    let mut at = less.next(0);
    while at < one.places.len() {
        put_if_less(alloc, sign, &mut lines, one, at, other, less, writer)?;
        at = less.next(at + 1);
    }
    Ok(())
}

/// Writes the line of one place, if it is less on the other screen. Where memory is refused, nothing was written.
#[inline(always)]
fn put_if_less<W: Write>(
    alloc: Global,
    sign: u8,
    lines: &mut Lines,
    one: &Standing,
    at: usize,
    other: &Standing,
    less: &Less,
    writer: &mut Watched<W>,
) -> Result<(), OutOfMemory>
    requires within { at < length one.now.places.items }
    requires all { HasAll less.now (length one.now.places.items) }
    requires ready { AreReady lines.old one.now.rows.items }
    ensures gave { IsTold less.now one.now.rows.items one.now.places.items
        other.now.rows.items other.now.places.items
        → OnOk result (Gave W.contents writer.old writer.new
        (less_line sign lines.old.moment.index lines.old.moment.due lines.old.moment.len
        one.now.rows.items one.now.places.items other.now.rows.items other.now.places.items at)) }
    ensures refused { OnErr result (writer.new ≡ writer.old) }
    ensures ready { AreReady lines.new one.now.rows.items }
    ensures moment { lines.new.moment ≡ lines.old.moment }
{
    gives_join::<W>();
    if less.has(one, at, other) {
        put_at(alloc, sign, lines, one, at, writer)?;
    }
    Ok(())
}

/// Writes what went in a chunk and what came, by what stands at its ends, where nothing passes inside it.
pub(crate) fn put_ends<W: Write>(
    alloc: Global,
    moment: Moment,
    ends: &Sides,
    writer: &mut Watched<W>,
) -> Result<(), OutOfMemory>
    ensures gave { (text : List ℕ) (one other : List Row) → length text ≡ moment.len → AreBetween text one other ends.now
        → OnOk result (Gave W.contents writer.old writer.new (end_lines moment.index moment.due moment.len
        ends.now.before.rows.items ends.now.before.places.items ends.now.after.rows.items ends.now.after.places.items)) }
    ensures front { (text : List ℕ) (one other : List Row) → length text ≡ moment.len → AreBetween text one other ends.now
        → OnErr result (Began W.contents writer.old writer.new (end_lines moment.index moment.due moment.len
        ends.now.before.rows.items ends.now.before.places.items ends.now.after.rows.items ends.now.after.places.items)) }
{
    gives_join::<W>();
    let alone = alone_of(alloc, ends, moment.len);
    put_gone(alloc, moment, ends, &alone, writer)?;
    put_come(alloc, moment, ends, alone, writer)?;
    Ok(())
}

/// Writes the lines of what went at some bytes, by what stood before and after them, and stood so at neither end.
pub(crate) fn put_passed<W: Write>(
    alloc: Global,
    moment: Moment,
    ends: &Sides,
    steps: &Sides,
    writer: &mut Watched<W>,
) -> Result<(), OutOfMemory>
    ensures gave { (text : List ℕ) (one other : List Row) → length text ≡ moment.len → AreBetween text one other steps.now
        → OnOk result (Gave W.contents writer.old writer.new
        (passed_lines moment.index moment.due moment.len
        ends.now.before.rows.items ends.now.before.places.items
        ends.now.after.rows.items ends.now.after.places.items
        steps.now.before.rows.items steps.now.before.places.items
        steps.now.after.rows.items steps.now.after.places.items)) }
    ensures front { (text : List ℕ) (one other : List Row) → length text ≡ moment.len → AreBetween text one other steps.now
        → OnErr result (Began W.contents writer.old writer.new
        (passed_lines moment.index moment.due moment.len
        ends.now.before.rows.items ends.now.before.places.items
        ends.now.after.rows.items ends.now.after.places.items
        steps.now.before.rows.items steps.now.before.places.items
        steps.now.after.rows.items steps.now.after.places.items)) }
{
    let (one, other) = (&steps.before, &steps.after);
    match Alone::of(alloc, one, other, steps.lag, moment.len) {
        Ok(alone) => put_passed_alone(alloc, moment, ends, one, other, &alone, writer),
        Err(_) => {
            let passed = Passed::untold();
            put_told_passed(alloc, moment, ends, one, other, &passed, writer)
        }
    }
}

/// The same by the places of both screens that stand alone. Mostly nothing went, which is seen at once.
fn put_passed_alone<W: Write>(
    alloc: Global,
    moment: Moment,
    ends: &Sides,
    one: &Standing,
    other: &Standing,
    alone: &Alone,
    writer: &mut Watched<W>,
) -> Result<(), OutOfMemory>
    ensures gave { PairOff one.now.rows.items one.now.places.items other.now.rows.items other.now.places.items
        alone.now.one.items alone.now.other.items
        → OnOk result (Gave W.contents writer.old writer.new
        (passed_lines moment.index moment.due moment.len
        ends.now.before.rows.items ends.now.before.places.items
        ends.now.after.rows.items ends.now.after.places.items
        one.now.rows.items one.now.places.items other.now.rows.items other.now.places.items)) }
    ensures front { PairOff one.now.rows.items one.now.places.items other.now.rows.items other.now.places.items
        alone.now.one.items alone.now.other.items
        → OnErr result (Began W.contents writer.old writer.new
        (passed_lines moment.index moment.due moment.len
        ends.now.before.rows.items ends.now.before.places.items
        ends.now.after.rows.items ends.now.after.places.items
        one.now.rows.items one.now.places.items other.now.rows.items other.now.places.items)) }
{
    gives_join::<W>();
    if alone.keeps_all(one, other) {
        return Ok(());
    }
    let passed = Passed::of(alloc, &ends.before, &ends.after, one, other, alone);
    put_told_passed(alloc, moment, ends, one, other, &passed, writer)
}

/// Writes the lines of the places that passed, as it is told of them.
fn put_told_passed<W: Write>(
    alloc: Global,
    moment: Moment,
    ends: &Sides,
    one: &Standing,
    other: &Standing,
    passed: &Passed,
    writer: &mut Watched<W>,
) -> Result<(), OutOfMemory>
    requires { HasEach passed.now (length one.now.places.items) }
    ensures gave { ArePassed passed.now ends.now.before.rows.items ends.now.before.places.items
        ends.now.after.rows.items ends.now.after.places.items
        one.now.rows.items one.now.places.items other.now.rows.items other.now.places.items
        → OnOk result (Gave W.contents writer.old writer.new
        (passed_lines moment.index moment.due moment.len
        ends.now.before.rows.items ends.now.before.places.items
        ends.now.after.rows.items ends.now.after.places.items
        one.now.rows.items one.now.places.items other.now.rows.items other.now.places.items)) }
    ensures front { ArePassed passed.now ends.now.before.rows.items ends.now.before.places.items
        ends.now.after.rows.items ends.now.after.places.items
        one.now.rows.items one.now.places.items other.now.rows.items other.now.places.items
        → OnErr result (Began W.contents writer.old writer.new
        (passed_lines moment.index moment.due moment.len
        ends.now.before.rows.items ends.now.before.places.items
        ends.now.after.rows.items ends.now.after.places.items
        one.now.rows.items one.now.places.items other.now.rows.items other.now.places.items)) }
{
    gives_join::<W>();
    let mut lines = Lines::of(moment);
    let mut at = passed.next(0);
    while at < one.places.len() {
        put_if_passed(alloc, &mut lines, ends, one, at, other, passed, writer)?;
        at = passed.next(at + 1);
    }
    Ok(())
}

/// Writes the line of one place, where it went at a byte and stood so at neither end. Where memory is refused, nothing
/// was written.
#[inline(always)]
fn put_if_passed<W: Write>(
    alloc: Global,
    lines: &mut Lines,
    ends: &Sides,
    one: &Standing,
    at: usize,
    other: &Standing,
    passed: &Passed,
    writer: &mut Watched<W>,
) -> Result<(), OutOfMemory>
    requires within { at < length one.now.places.items }
    requires all { HasEach passed.now (length one.now.places.items) }
    requires ready { AreReady lines.old one.now.rows.items }
    ensures gave { ArePassed passed.now ends.now.before.rows.items ends.now.before.places.items
        ends.now.after.rows.items ends.now.after.places.items
        one.now.rows.items one.now.places.items other.now.rows.items other.now.places.items
        → OnOk result (Gave W.contents writer.old writer.new
        (passed_line lines.old.moment.index lines.old.moment.due lines.old.moment.len
        ends.now.before.rows.items ends.now.before.places.items
        ends.now.after.rows.items ends.now.after.places.items
        one.now.rows.items one.now.places.items other.now.rows.items other.now.places.items at)) }
    ensures refused { OnErr result (writer.new ≡ writer.old) }
    ensures ready { AreReady lines.new one.now.rows.items }
    ensures moment { lines.new.moment ≡ lines.old.moment }
{
    gives_join::<W>();
    if passed.has(&ends.before, &ends.after, one, at, other) {
        put_at(alloc, b'~', lines, one, at, writer)?;
    }
    Ok(())
}

/// Whether surely no line tells of what went between two screens, of which the one lags so behind the other and on which a
/// text of so many characters stands, inside a chunk that begins with a third one, which lags so behind the one, whatever its
/// end is.
pub(crate) fn none_passes(
    first: &Standing,
    since: Lag,
    one: &Standing,
    other: &Standing,
    lag: Lag,
    len: usize,
) -> bool
    ensures { result ≡ true → (text : List ℕ) (here there : List Row) → length text ≡ len
        → first.now.places.items ≡ standing text first.now.rows.items
        → Lags since first.now.rows.items one.now.rows.items
        → IsStill text here one.now → IsStill text there other.now → Lags lag one.now.rows.items other.now.rows.items
        → (index due len : ℕ) (last : List Row) (lasts : List Place)
        → passed_lines index due len first.now.rows.items first.now.places.items last lasts
        one.now.rows.items one.now.places.items other.now.rows.items other.now.places.items ≡ [] }
{
    if lag.is_none() {
        return true;
    }
    let untouched = is_untouched(since, lag, len);
    if untouched {
        return true;
    }
    let alloc = *one.rows.allocator();
    let Ok(alone) = Alone::of(alloc, one, other, lag, len) else {
        return false;
    };
    let kept = alone.keeps_all(one, other);
    if kept {
        return true;
    }
    !may_pass(first, one, other, &alone)
}

/// Whether each place at which a text of so many characters stands, and that goes where a screen lags so behind another one,
/// is in a row that stayed since a third one, which lags so behind the one.
fn is_untouched(since: Lag, lag: Lag, len: usize) -> bool
    ensures { result ≡ true → (text : List ℕ) (first one other : List Row) → length text ≡ len
        → Lags since first one → Lags lag one other
        → (n : ℕ) → n < length (standing text one)
        → may_pass first (standing text first) one (standing text one) other (standing text other) n ≡ false }
{
    if since.is_none() {
        return true;
    }
    differ_apart(since, lag, len)
}

/// Whether a text has no more than one character, no rows moved, and those that may differ are others than those that may
/// since.
fn differ_apart(since: Lag, lag: Lag, len: usize) -> bool
    ensures len { result ≡ true → len ≤ 1 }
    ensures since { result ≡ true → since.moved ≡ 0 }
    ensures lag { result ≡ true → lag.moved ≡ 0 }
    ensures apart { result ≡ true → lag.span.from < since.span.to → lag.span.to ≤ since.span.from }
{
    len <= 1
        && since.moved == 0
        && lag.moved == 0
        && (since.span.to <= lag.span.from || lag.span.to <= since.span.from)
}
