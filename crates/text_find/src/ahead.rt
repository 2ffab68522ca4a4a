//! A chunk that is played ahead, in pieces, so long as nothing of a text passes inside it.

ghost use Rattle.std.specs.Prelude.{◌≡◌, ◌≢◌, ◌++◌, ◌<◌, ◌≤◌, [], List, None, ℕ, length, IfOk, IfSome, OnOk};
ghost use Rattle.text_find.specs.Calm.{HasStood, IsAhead, IsCalm, IsPiece};
ghost use Rattle.text_find.specs.Lines.{AreBetween, AreStill, IsLagging, IsTrailing};

use crate::behind::{Steps, trail};
use crate::finder::Finder;
use crate::foretold::{LetterRun, play_foretold};
use crate::lines::none_passes;
use crate::sides::{Sides, catch_up};
use plays::{OutOfMemory, Plays, Reports};
use std::alloc::Global;

/// Plays bytes on a terminal, and drops the replies.
pub(crate) fn play<T: Plays>(
    alloc: Global,
    terminal: &mut T,
    bytes: &[u8],
) -> Result<(), OutOfMemory>
    ensures shows { (profile : T.Profile) (before : List ℕ) → T.shows profile terminal.old before
        → OnOk result (T.shows profile terminal.new (before ++ bytes.now)) }
    ensures told { (profile : T.Profile) (before : List ℕ) → T.shows profile terminal.old before
        → OnOk result (T.told profile terminal.new before) }
{
    let mut sink = Reports::new(alloc);
    terminal.feed(bytes, &mut sink)
}

/// Plays a chunk's bytes. Says from which of them on something of the text may pass inside it, if it may: what stood before
/// a piece stands there, but where that is the chunk's first byte. The list of letters is room for those that they write.
pub(crate) fn play_ahead<T: Plays, F: Finder<T>>(
    alloc: Global,
    text: &[char],
    bytes: &[u8],
    letters: &mut LetterRun,
    ends: &mut Sides,
    steps: &mut Steps,
    ahead: &mut T,
) -> Result<Option<usize>, OutOfMemory>
    ensures count { steps.new.count ≡ steps.old.count }
    ensures lags { IsLagging ends.old steps.old → OnOk result (IsLagging ends.new steps.new) }
    ensures shows { (profile : T.Profile) (before : List ℕ) → T.shows profile ahead.old before
        → AreStill text.now (F.screens profile before) ends.old
        → OnOk result (T.shows profile ahead.new (before ++ bytes.now)) }
    ensures ends { (profile : T.Profile) (before : List ℕ) → T.shows profile ahead.old before
        → AreStill text.now (F.screens profile before) ends.old
        → OnOk result (AreBetween text.now
        (F.screens profile before) (F.screens profile (before ++ bytes.now)) ends.new) }
    ensures within { IfOk result (λ passing. IfSome passing (λ start. start ≤ length bytes.now)) }
    ensures trails { (profile : T.Profile) (before : List ℕ) → T.shows profile ahead.old before
        → AreStill text.now (F.screens profile before) ends.old → IsTrailing text.now ends.old steps.old
        → IfOk result (λ passing. passing ≡ None → IsTrailing text.now ends.new steps.new) }
    ensures calm { (profile : T.Profile) (before : List ℕ) → T.shows profile ahead.old before
        → AreStill text.now (F.screens profile before) ends.old → IsTrailing text.now ends.old steps.old
        → IfOk result (λ passing. passing ≡ None
        → IsCalm text.now (F.screens profile) before bytes.now (length bytes.now)) }
    ensures stood { (profile : T.Profile) (before : List ℕ) → T.shows profile ahead.old before
        → AreStill text.now (F.screens profile before) ends.old → IsTrailing text.now ends.old steps.old
        → IfOk result (λ passing. IfSome passing (λ start.
        HasStood text.now (F.screens profile) before bytes.now start steps.new.sides.before)) }
{
    let (taken, passing) = play_pieces::<T, F>(alloc, text, bytes, letters, ends, steps, ahead)?;
    if passing.is_some() {
        play(alloc, ahead, &bytes[taken..])?;
        steps.lag = steps.lag.widened(catch_up::<T, F>(ends, ahead, text)?);
    }
    Ok(passing)
}

/// Plays a beginning of a chunk, piece by piece: all of it, or up to where something of the text may pass. Says how many
/// bytes, and from which of them on it may.
fn play_pieces<T: Plays, F: Finder<T>>(
    alloc: Global,
    text: &[char],
    bytes: &[u8],
    letters: &mut LetterRun,
    ends: &mut Sides,
    steps: &mut Steps,
    ahead: &mut T,
) -> Result<(usize, Option<usize>), OutOfMemory>
    ensures count { steps.new.count ≡ steps.old.count }
    ensures within { IfOk result (λ played. played.0 ≤ length bytes.now) }
    ensures start { IfOk result (λ played. IfSome played.1 (λ start. start ≤ length bytes.now)) }
    ensures all { IfOk result (λ played. played.1 ≡ None → played.0 ≡ length bytes.now) }
    ensures lags { IsLagging ends.old steps.old → OnOk result (IsLagging ends.new steps.new) }
    ensures ahead { (profile : T.Profile) (before : List ℕ) → T.shows profile ahead.old before
        → AreStill text.now (F.screens profile before) ends.old
        → IfOk result (λ played. IsAhead T.shows F.screens profile text.now before bytes.now
        played.0 ahead.new ends.new) }
    ensures trails { (profile : T.Profile) (before : List ℕ) → T.shows profile ahead.old before
        → AreStill text.now (F.screens profile before) ends.old → IsTrailing text.now ends.old steps.old
        → IfOk result (λ played. played.1 ≡ None → IsTrailing text.now ends.new steps.new) }
    ensures calm { (profile : T.Profile) (before : List ℕ) → T.shows profile ahead.old before
        → AreStill text.now (F.screens profile before) ends.old → IsTrailing text.now ends.old steps.old
        → IfOk result (λ played. played.1 ≡ None
        → IsCalm text.now (F.screens profile) before bytes.now played.0) }
    ensures stood { (profile : T.Profile) (before : List ℕ) → T.shows profile ahead.old before
        → AreStill text.now (F.screens profile before) ends.old → IsTrailing text.now ends.old steps.old
        → IfOk result (λ played. IfSome played.1 (λ start.
        HasStood text.now (F.screens profile) before bytes.now start steps.new.sides.before)) }
{
    let mut taken = 0;
    while taken < bytes.len() {
        // Where the text stands before the piece, what stood before is the same.
        let stands = !ends.after.places.is_empty();
        let rest = &bytes[taken..];
        let (more, calm) = play_piece::<T, F>(alloc, text, rest, letters, ends, steps, ahead)?;
        if !calm {
            let start = if stands { taken } else { 0 };
            return Ok((taken + more, Some(start)));
        }
        taken += more;
    }
    Ok((taken, None))
}

/// Plays a piece of a chunk: a beginning of the bytes. Says how many, and whether surely nothing of the text passes at
/// them. The list of letters is room for those that they write.
fn play_piece<T: Plays, F: Finder<T>>(
    alloc: Global,
    text: &[char],
    bytes: &[u8],
    letters: &mut LetterRun,
    ends: &mut Sides,
    steps: &mut Steps,
    ahead: &mut T,
) -> Result<(usize, bool), OutOfMemory>
    requires some { 0 < length bytes.now }
    ensures count { steps.new.count ≡ steps.old.count }
    ensures piece { IfOk result (λ played. IsPiece T.shows F.screens text.now bytes.now
        ends.old ends.new steps.old steps.new ahead.old ahead.new played.0 played.1) }
{
    if let Some(foretold) = F::foretells(ahead, text, &ends.after, bytes, letters) {
        let letters = letters.as_slice();
        return play_foretold::<T, F>(alloc, text, bytes, foretold, letters, ends, steps, ahead);
    }
    if ends.after.places.is_empty() {
        play_where_none_stands::<T, F>(alloc, text, bytes, ends, steps, ahead)
    } else {
        play_where_it_stands::<T, F>(alloc, text, bytes, ends, steps, ahead)
    }
}

/// The same where the text stands nowhere: it surely doesn't pass where it stands nowhere behind the piece either.
fn play_where_none_stands<T: Plays, F: Finder<T>>(
    alloc: Global,
    text: &[char],
    bytes: &[u8],
    ends: &mut Sides,
    steps: &mut Steps,
    ahead: &mut T,
) -> Result<(usize, bool), OutOfMemory>
    requires some { 0 < length bytes.now }
    requires none { ends.old.after.places.items ≡ [] }
    ensures count { steps.new.count ≡ steps.old.count }
    ensures piece { IfOk result (λ played. IsPiece T.shows F.screens text.now bytes.now
        ends.old ends.new steps.old steps.new ahead.old ahead.new played.0 played.1) }
{
    let taken = F::play_some(alloc, ahead, text, bytes)?;
    let span = catch_up::<T, F>(ends, ahead, text)?;
    if span.is_none() {
        // No row changed, so it stands nowhere still.
        return Ok((taken, true));
    }
    steps.lag = steps.lag.widened(span);
    Ok((taken, ends.after.places.is_empty()))
}

/// The same where the text stands. What stood before the piece is kept.
fn play_where_it_stands<T: Plays, F: Finder<T>>(
    alloc: Global,
    text: &[char],
    bytes: &[u8],
    ends: &mut Sides,
    steps: &mut Steps,
    ahead: &mut T,
) -> Result<(usize, bool), OutOfMemory>
    requires some { 0 < length bytes.now }
    requires stands { ends.old.after.places.items ≢ [] }
    ensures count { steps.new.count ≡ steps.old.count }
    ensures piece { IfOk result (λ played. IsPiece T.shows F.screens text.now bytes.now
        ends.old ends.new steps.old steps.new ahead.old ahead.new played.0 played.1) }
{
    trail(steps, ends)?;
    let since = ends.lag;
    let taken = F::play_quietly(alloc, ahead, text, &ends.after, bytes)?;
    let span = catch_up::<T, F>(ends, ahead, text)?;
    if span.is_none() {
        return Ok((taken, true));
    }
    steps.lag = steps.lag.widened(span);
    let (first, one, len) = (&ends.before, &steps.sides.before, text.len());
    let calm = none_passes(first, since, one, &ends.after, steps.lag, len);
    Ok((taken, calm))
}
