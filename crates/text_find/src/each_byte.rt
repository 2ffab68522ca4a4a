//! A chunk of which it is told what came and went inside it.

ghost use Rattle.std.specs.Prelude.{◌≡◌, ◌++◌, ◌<◌, ◌≤◌, List, ℕ, length, take, IfOk, OnErr, OnOk};
ghost use Rattle.std.specs.List.{flat_map, range_with_len};
ghost use Rattle.standings.specs.Rows.{Row};
ghost use Rattle.standings.specs.Standing.{standing};
ghost use Rattle.tape_core.specs.Devices.{Gave};
ghost use Rattle.text_find.specs.Calm.{IsCalm};
ghost use Rattle.text_find.specs.Lines.{AreBetween, AreStill, Began, byte_lines, chunk_lines, passed_lines};
ghost use Rattle.text_find.specs.Pieces.{AreQuiet};

use crate::ahead::play;
use crate::finder::Finder;
use crate::foretold::{LetterRun, foresee_side};
use crate::lines::{alone_of, put_come, put_gone, put_passed};
use crate::sides::{Sides, catch_up, settle};
use plays::{OutOfMemory, Plays};
use standings::Moment;
use std::alloc::Global;
use std::io::Write;
use tape_core::Watched;
use tape_core::laws::gives_join;

/// Plays a chunk in pieces on a terminal that has had so many of its bytes, at which nothing passes, and writes what went,
/// what came and went inside it, and what came, by what stands at its ends.
pub(crate) fn put_chunk<T: Plays, F: Finder<T>, W: Write>(
    alloc: Global,
    text: &[char],
    moment: Moment,
    bytes: &[u8],
    start: usize,
    ends: &Sides,
    steps: &mut Sides,
    behind: &mut T,
    writer: &mut Watched<W>,
) -> Result<(), OutOfMemory>
    requires len { moment.len ≡ length text.now }
    requires start { start ≤ length bytes.now }
    ensures gave { (profile : T.Profile) (before : List ℕ) → T.shows profile behind.old (before ++ take start bytes.now)
        → AreBetween text.now (F.screens profile before) (F.screens profile (before ++ bytes.now)) ends.now
        → AreStill text.now (F.screens profile (before ++ take start bytes.now)) steps.old
        → IsCalm text.now (F.screens profile) before bytes.now start
        → OnOk result (Gave W.contents writer.old writer.new
        (chunk_lines text.now moment.index moment.due (F.screens profile) before bytes.now)) }
    ensures front { (profile : T.Profile) (before : List ℕ) → T.shows profile behind.old (before ++ take start bytes.now)
        → AreBetween text.now (F.screens profile before) (F.screens profile (before ++ bytes.now)) ends.now
        → AreStill text.now (F.screens profile (before ++ take start bytes.now)) steps.old
        → IsCalm text.now (F.screens profile) before bytes.now start
        → OnErr result (Began W.contents writer.old writer.new
        (chunk_lines text.now moment.index moment.due (F.screens profile) before bytes.now)) }
    ensures behind { (profile : T.Profile) (before : List ℕ) → T.shows profile behind.old (before ++ take start bytes.now)
        → OnOk result (T.shows profile behind.new (before ++ bytes.now)) }
    ensures steps { (profile : T.Profile) (before : List ℕ) → T.shows profile behind.old (before ++ take start bytes.now)
        → AreStill text.now (F.screens profile (before ++ take start bytes.now)) steps.old
        → OnOk result (AreStill text.now (F.screens profile (before ++ bytes.now)) steps.new) }
{
    gives_join::<W>();
    let alone = alone_of(alloc, ends, moment.len);
    put_gone(alloc, moment, ends, &alone, writer)?;
    let rest = &bytes[start..];
    put_bytes::<T, F, W>(alloc, text, moment, ends, rest, steps, behind, writer)?;
    put_come(alloc, moment, ends, alone, writer)?;
    Ok(())
}

/// Plays a chunk's bytes, as many at once as take nothing of the text away, and writes what went inside it.
fn put_bytes<T: Plays, F: Finder<T>, W: Write>(
    alloc: Global,
    text: &[char],
    moment: Moment,
    ends: &Sides,
    bytes: &[u8],
    steps: &mut Sides,
    behind: &mut T,
    writer: &mut Watched<W>,
) -> Result<(), OutOfMemory>
    requires { moment.len ≡ length text.now }
    ensures gave { (profile : T.Profile) (before : List ℕ) → T.shows profile behind.old before
        → AreStill text.now (F.screens profile before) steps.old
        → OnOk result (Gave W.contents writer.old writer.new
        (flat_map (byte_lines text.now moment.index moment.due
        ends.now.before.rows.items ends.now.before.places.items
        ends.now.after.rows.items ends.now.after.places.items (F.screens profile) before bytes.now)
        (range_with_len 0 (length bytes.now)))) }
    ensures front { (profile : T.Profile) (before : List ℕ) → T.shows profile behind.old before
        → AreStill text.now (F.screens profile before) steps.old
        → OnErr result (Began W.contents writer.old writer.new
        (flat_map (byte_lines text.now moment.index moment.due
        ends.now.before.rows.items ends.now.before.places.items
        ends.now.after.rows.items ends.now.after.places.items (F.screens profile) before bytes.now)
        (range_with_len 0 (length bytes.now)))) }
    ensures behind { (profile : T.Profile) (before : List ℕ) → T.shows profile behind.old before
        → OnOk result (T.shows profile behind.new (before ++ bytes.now)) }
    ensures steps { (profile : T.Profile) (before : List ℕ) → T.shows profile behind.old before
        → AreStill text.now (F.screens profile before) steps.old
        → OnOk result (AreStill text.now (F.screens profile (before ++ bytes.now)) steps.new) }
{
    gives_join::<W>();
    let mut letters = LetterRun::new();
    let mut at = 0;
    while at < bytes.len() {
        let rest = &bytes[at..];
        let taken = play_step::<T, F>(alloc, text, rest, &mut letters, steps, behind)?;
        put_step(alloc, moment, ends, steps, writer)?;
        at += taken;
    }
    Ok(())
}

/// Plays a beginning of the bytes, at which nothing of the text goes but maybe at the last one. What stands after is what
/// stands behind it: by what is foretold of it, where something is. Says how many bytes.
fn play_step<T: Plays, F: Finder<T>>(
    alloc: Global,
    text: &[char],
    bytes: &[u8],
    letters: &mut LetterRun,
    steps: &mut Sides,
    behind: &mut T,
) -> Result<usize, OutOfMemory>
    requires some { 0 < length bytes.now }
    ensures some { IfOk result (λ taken. 0 < taken) }
    ensures within { IfOk result (λ taken. taken ≤ length bytes.now) }
    ensures shows { (profile : T.Profile) (before : List ℕ) → T.shows profile behind.old before
        → IfOk result (λ taken. T.shows profile behind.new (before ++ take taken bytes.now)) }
    ensures quiet { (profile : T.Profile) (before : List ℕ) → T.shows profile behind.old before
        → AreStill text.now (F.screens profile before) steps.old
        → IfOk result (λ taken. AreQuiet text.now (F.screens profile) before bytes.now taken) }
    ensures between { (profile : T.Profile) (before : List ℕ) → T.shows profile behind.old before
        → AreStill text.now (F.screens profile before) steps.old
        → IfOk result (λ taken. AreBetween text.now (F.screens profile before)
        (F.screens profile (before ++ take taken bytes.now)) steps.new) }
{
    let Some(foretold) = F::foretells(behind, text, &steps.after, bytes, letters) else {
        let taken = F::play_quietly(alloc, behind, text, &steps.after, bytes)?;
        catch_up::<T, F>(steps, behind, text)?;
        return Ok(taken);
    };
    let taken = foretold.taken();
    play(alloc, behind, &bytes[..taken])?;
    let lag = steps.lag;
    foresee_side(foretold, letters.as_slice(), text, steps, lag)?;
    Ok(taken)
}

/// Writes what went between what stands before and after some bytes. Mostly no row was touched, or the text stood nowhere.
fn put_step<W: Write>(
    alloc: Global,
    moment: Moment,
    ends: &Sides,
    steps: &mut Sides,
    writer: &mut Watched<W>,
) -> Result<(), OutOfMemory>
    ensures gave { (text : List ℕ) (one other : List Row) → length text ≡ moment.len
        → AreBetween text one other steps.old
        → OnOk result (Gave W.contents writer.old writer.new
        (passed_lines moment.index moment.due moment.len
        ends.now.before.rows.items ends.now.before.places.items
        ends.now.after.rows.items ends.now.after.places.items
        one (standing text one) other (standing text other))) }
    ensures front { (text : List ℕ) (one other : List Row) → length text ≡ moment.len
        → AreBetween text one other steps.old
        → OnErr result (Began W.contents writer.old writer.new
        (passed_lines moment.index moment.due moment.len
        ends.now.before.rows.items ends.now.before.places.items
        ends.now.after.rows.items ends.now.after.places.items
        one (standing text one) other (standing text other))) }
    ensures still { (text : List ℕ) (one other : List Row) → AreBetween text one other steps.old
        → OnOk result (AreStill text other steps.new) }
{
    gives_join::<W>();
    if steps.lag.is_none() {
        return Ok(());
    }
    put_passed(alloc, moment, ends, steps, writer)?;
    settle(steps)?;
    Ok(())
}
