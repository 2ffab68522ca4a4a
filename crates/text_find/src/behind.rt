//! A terminal that lags where nothing passes, and what stands on a screen that trails another one.

ghost use Rattle.std.specs.Prelude.{◌≡◌, ◌≢◌, ◌<◌, ◌≤◌, ◌++◌, [], false, true, List, ℕ, length, IfOk, OnOk};
ghost use Rattle.standings.specs.Lag.{Lags};
ghost use Rattle.standings.specs.Rows.{Row};
ghost use Rattle.standings.specs.Spans.{Stays};
ghost use Rattle.tape_core.specs.Due.{first as bytes_of_first};
ghost use Rattle.text_find.specs.Lines.{AreBetween, AreStill, IsLagging, IsLate, IsStill, IsTrailing};

use crate::ahead::play;
use crate::finder::Finder;
use crate::room::{fit, give_back};
use crate::sides::{Sides, no_sides, sides_of};
use plays::{OutOfMemory, Plays};
use standings::{Lag, Span};
use std::alloc::Global;
use tape_core::Recording;
use tape_core::laws::first_grows_by_a_chunk;

/// What stood on a screen before a piece of a chunk, and a terminal's count: it is played in pieces too where something
/// of the text may have passed inside a chunk, and else lags.
#[derive(Drop)]
pub(crate) struct Steps {
    pub(crate) sides: Sides,
    /// How many chunks the terminal has had.
    pub(crate) count: usize,
    /// How the rows before lag behind the screen that is played ahead.
    pub(crate) lag: Lag,
}

/// What stands on the screen of a terminal that has had so many chunks.
pub(crate) fn steps_of<T: Plays, F: Finder<T>>(
    alloc: Global,
    terminal: &T,
    count: usize,
    text: &[char],
) -> Result<Steps, OutOfMemory>
    ensures sides { (profile : T.Profile) (bytes : List ℕ) → T.shows profile terminal.now bytes
        → IfOk result (λ steps. AreStill text.now (F.screens profile bytes) steps.sides) }
    ensures count { IfOk result (λ steps. steps.count ≡ count) }
    ensures lag { IfOk result (λ steps. steps.lag ≡ steps.sides.lag) }
{
    let sides = sides_of::<T, F>(alloc, terminal, text)?;
    let lag = sides.lag;
    Ok(Steps { sides, count, lag })
}

/// What stood before becomes what stands on the screen that is played ahead.
pub(crate) fn trail(steps: &mut Steps, ends: &Sides) -> Result<(), OutOfMemory>
    ensures count { steps.new.count ≡ steps.old.count }
    ensures lags { IsLagging ends.now steps.old → OnOk result (IsLagging ends.now steps.new) }
    ensures trails { (text : List ℕ) (screen : List Row) → IsStill text screen ends.now.after
        → IsTrailing text ends.now steps.old → OnOk result (IsTrailing text ends.now steps.new) }
    ensures stood { (text : List ℕ) (screen : List Row) → IsStill text screen ends.now.after
        → IsTrailing text ends.now steps.old → OnOk result (IsStill text screen steps.new.sides.before) }
{
    let lag = steps.lag;
    if lag.is_none() {
        return Ok(());
    }
    let span = lag.apart(steps.sides.lag, steps.sides.before.rows.len());
    steps.sides.before.follow_lag(&ends.after, lag)?;
    steps.sides.lag = Lag::of(span);
    steps.lag = Lag::none();
    Ok(())
}

/// Brings a terminal that lags to where something of the text may pass inside a chunk: behind its first bytes, at which
/// nothing does. What stands before and after a piece becomes what stands there. Says whether it did: else memory for what
/// stands was refused, and the terminal has had as many chunks as its count says.
pub(crate) fn reach<T: Plays, F: Finder<T>>(
    alloc: Global,
    recording: &Recording,
    index: usize,
    text: &[char],
    calm: &[u8],
    ends: &mut Sides,
    behind: &mut T,
    steps: &mut Steps,
) -> Result<bool, OutOfMemory>
    requires within { index ≤ length recording.now.chunks }
    ensures late { (profile : T.Profile) → IsLate T.shows profile recording.now.chunks index behind.old steps.old
        → IfOk result (λ done. done ≡ false → IsLate T.shows profile recording.now.chunks index behind.new steps.new) }
    ensures played { (profile : T.Profile) → IsLate T.shows profile recording.now.chunks index behind.old steps.old
        → IfOk result (λ done. done ≡ true
        → T.shows profile behind.new (bytes_of_first recording.now.chunks index ++ calm.now)) }
    ensures count { IfOk result (λ done. done ≡ true → steps.new.count ≡ index) }
    ensures steps { (profile : T.Profile) (last : List Row)
        → IsLate T.shows profile recording.now.chunks index behind.old steps.old
        → AreBetween text.now (F.screens profile (bytes_of_first recording.now.chunks index)) last ends.old
        → IsLagging ends.old steps.old → (0 < length calm.now
        → IsStill text.now (F.screens profile (bytes_of_first recording.now.chunks index ++ calm.now)) steps.old.sides.before)
        → IfOk result (λ done. done ≡ true → AreStill text.now
        (F.screens profile (bytes_of_first recording.now.chunks index ++ calm.now)) steps.new.sides) }
    ensures ends { (text : List ℕ) (one other : List Row) → AreBetween text one other ends.old
        → AreBetween text one other ends.new }
{
    let known = is_known(calm, ends);
    if !known {
        return reach_anew::<T, F>(alloc, recording, index, text, behind, steps);
    }
    let Ok(()) = stand_behind(alloc, calm, ends, steps) else {
        return Ok(false);
    };
    bring_to(alloc, recording, index, behind, steps)?;
    play(alloc, behind, calm)?;
    Ok(true)
}

/// Whether the rows behind a chunk's first bytes are told: not where they are none and the text stands nowhere before.
fn is_known(calm: &[u8], ends: &Sides) -> bool
    ensures known { result ≡ true → length calm.now ≡ 0 → ends.now.before.places.items ≢ [] }
    ensures none { result ≡ false → length calm.now ≡ 0 }
{
    !calm.is_empty() || !ends.before.places.is_empty()
}

/// Brings a terminal that lags to where a chunk begins, and looks up what stands there. What was kept of it is given back
/// first. Says whether there was memory for that: else the terminal has had as many chunks as its count says.
fn reach_anew<T: Plays, F: Finder<T>>(
    alloc: Global,
    recording: &Recording,
    index: usize,
    text: &[char],
    behind: &mut T,
    steps: &mut Steps,
) -> Result<bool, OutOfMemory>
    requires { index ≤ length recording.now.chunks }
    ensures late { (profile : T.Profile) → IsLate T.shows profile recording.now.chunks index behind.old steps.old
        → IfOk result (λ done. done ≡ false → IsLate T.shows profile recording.now.chunks index behind.new steps.new) }
    ensures played { (profile : T.Profile) → IsLate T.shows profile recording.now.chunks index behind.old steps.old
        → IfOk result (λ done. done ≡ true
        → T.shows profile behind.new (bytes_of_first recording.now.chunks index)) }
    ensures count { IfOk result (λ done. done ≡ true → steps.new.count ≡ index) }
    ensures still { (profile : T.Profile) → IsLate T.shows profile recording.now.chunks index behind.old steps.old
        → IfOk result (λ done. done ≡ true
        → AreStill text.now (F.screens profile (bytes_of_first recording.now.chunks index)) steps.new.sides) }
{
    steps.sides = no_sides(alloc);
    bring_to(alloc, recording, index, behind, steps)?;
    let Ok(found) = steps_of::<T, F>(alloc, behind, index, text) else {
        return Ok(false);
    };
    *steps = found;
    Ok(true)
}

/// Plays the chunks that a terminal lags behind, up to and without one.
fn bring_to<T: Plays>(
    alloc: Global,
    recording: &Recording,
    index: usize,
    behind: &mut T,
    steps: &mut Steps,
) -> Result<(), OutOfMemory>
    requires { index ≤ length recording.now.chunks }
    ensures played { (profile : T.Profile) → IsLate T.shows profile recording.now.chunks index behind.old steps.old
        → OnOk result (T.shows profile behind.new (bytes_of_first recording.now.chunks index)) }
    ensures count { OnOk result (steps.new.count ≡ index) }
    ensures sides { steps.new.sides ≡ steps.old.sides }
{
    play_chunks(alloc, recording, steps.count, index, behind)?;
    steps.count = index;
    Ok(())
}

/// What stands before and after a piece becomes what stands behind a chunk's first bytes: before it that stands already,
/// but where they are none. What was kept of the chunk's inside beside that is given back first.
fn stand_behind(
    alloc: Global,
    calm: &[u8],
    ends: &mut Sides,
    steps: &mut Steps,
) -> Result<(), OutOfMemory>
    requires { length calm.now ≡ 0 → ends.old.before.places.items ≢ [] }
    ensures count { steps.new.count ≡ steps.old.count }
    ensures steps { (text : List ℕ) (screen : List ℕ → List Row) (before : List ℕ) (last : List Row)
        → AreBetween text (screen before) last ends.old → IsLagging ends.old steps.old
        → (0 < length calm.now → IsStill text (screen (before ++ calm.now)) steps.old.sides.before)
        → OnOk result (AreStill text (screen (before ++ calm.now)) steps.new.sides) }
    ensures ends { (text : List ℕ) (one other : List Row) → AreBetween text one other ends.old
        → AreBetween text one other ends.new }
{
    let span = steps.lag.between(ends.lag, ends.after.rows.len());
    let reached = steps.sides.lag.reach(steps.sides.after.rows.len());
    let changed = reached.joined(span);
    if calm.is_empty() {
        give_back(alloc, ends, &mut steps.sides, span, changed)?;
        steps.sides.before.follow(&ends.before, span)?;
        return go_back(&mut steps.sides, changed);
    }
    fit(alloc, &mut ends.after, &ends.before, changed)?;
    go_back(&mut steps.sides, reached)
}

/// What stands after becomes what stands before, from which only the rows of a span may differ.
fn go_back(sides: &mut Sides, span: Span) -> Result<(), OutOfMemory>
    ensures { (text : List ℕ) (one : List Row) → IsStill text one sides.old.before
        → Stays span sides.old.after.rows.items one → OnOk result (AreStill text one sides.new) }
{
    sides.after.follow(&sides.before, span)?;
    sides.lag = Lag::none();
    Ok(())
}

/// Plays the chunks from one place up to and without another.
pub(crate) fn play_chunks<T: Plays>(
    alloc: Global,
    recording: &Recording,
    start: usize,
    end: usize,
    terminal: &mut T,
) -> Result<(), OutOfMemory>
    requires within { end ≤ length recording.now.chunks }
    ensures { (profile : T.Profile) → start ≤ end
        → T.shows profile terminal.old (bytes_of_first recording.now.chunks start)
        → OnOk result (T.shows profile terminal.new (bytes_of_first recording.now.chunks end)) }
{
    first_grows_by_a_chunk();
    for index in start..end {
        play(alloc, terminal, recording.chunks()[index].bytes.as_slice())?;
    }
    Ok(())
}
