//! A chunk that is begun again, where the memory was refused that it took ahead of its lines.

ghost use Rattle.std.specs.Prelude.{◌+◌, ◌<◌, ◌≤◌, List, length, IfOk, OnErr, OnOk};
ghost use Rattle.standings.specs.Rows.{Row};
ghost use Rattle.tape_core.specs.Devices.{Gave};
ghost use Rattle.tape_core.specs.Due.{first as bytes_of_first};
ghost use Rattle.text_find.specs.Lines.{AreBetween, AreFound, AreStill, Began, IsLate, IsReached, IsTrailing, chunk_lines_at};

use crate::ahead::play;
use crate::behind::{Steps, play_chunks, steps_of};
use crate::chunk::put_chunk_behind;
use crate::finder::Finder;
use crate::sides::{Sides, catch_up, no_sides, settle, sides_of};
use plays::{OutOfMemory, Plays};
use std::alloc::Global;
use std::io::Write;
use tape_core::laws::first_grows_by_a_chunk;
use tape_core::{Recording, Watched};

/// Plays a chunk from its beginning by a terminal behind, and writes its lines. What stood anywhere is given back first, and
/// no more is asked for before the lines than two terminals and what stands on them. Makes the terminal that is played ahead.
pub(crate) fn put_chunk_again<T: Plays, F: Finder<T>, W: Write>(
    alloc: Global,
    recording: &Recording,
    index: usize,
    text: &[char],
    ends: &mut Sides,
    steps: &mut Steps,
    behind: &mut T,
    writer: &mut Watched<W>,
) -> Result<T, OutOfMemory>
    requires { index < length recording.now.chunks }
    ensures gave { (profile : T.Profile) → IsLate T.shows profile recording.now.chunks index behind.old steps.old
        → OnOk result (Gave W.contents writer.old writer.new
        (chunk_lines_at text.now F.screens profile recording.now index)) }
    ensures front { (profile : T.Profile) → IsLate T.shows profile recording.now.chunks index behind.old steps.old
        → OnErr result (Began W.contents writer.old writer.new
        (chunk_lines_at text.now F.screens profile recording.now index)) }
    ensures found { (profile : T.Profile) → IsLate T.shows profile recording.now.chunks index behind.old steps.old
        → IfOk result (λ ahead. AreFound T.shows F.screens profile recording.now.chunks (index + 1) text.now
        ahead ends.new behind.new steps.new) }
{
    let ahead = begin_again::<T, F>(alloc, recording, index, text, ends, steps, behind)?;
    put_chunk_behind::<T, F, W>(
        alloc, recording, index, 0, text, ends, steps, behind, writer,
    )?;
    Ok(ahead)
}

/// Brings a terminal that lags to where a chunk begins, and plays the chunk on a copy of it: makes that copy, what stands on
/// it before and after the chunk, and what stands on the terminal behind. All that was held of what stood is given back
/// before.
fn begin_again<T: Plays, F: Finder<T>>(
    alloc: Global,
    recording: &Recording,
    index: usize,
    text: &[char],
    ends: &mut Sides,
    steps: &mut Steps,
    behind: &mut T,
) -> Result<T, OutOfMemory>
    requires { index < length recording.now.chunks }
    ensures played { (profile : T.Profile) → IsLate T.shows profile recording.now.chunks index behind.old steps.old
        → IfOk result (λ ahead. T.shows profile ahead (bytes_of_first recording.now.chunks (index + 1))) }
    ensures ends { (profile : T.Profile) → IsLate T.shows profile recording.now.chunks index behind.old steps.old
        → OnOk result (AreBetween text.now (F.screens profile (bytes_of_first recording.now.chunks index))
        (F.screens profile (bytes_of_first recording.now.chunks (index + 1))) ends.new) }
    ensures reached { (profile : T.Profile) → IsLate T.shows profile recording.now.chunks index behind.old steps.old
        → OnOk result (IsReached T.shows F.screens profile recording.now.chunks index text.now behind.new steps.new) }
{
    first_grows_by_a_chunk();
    *ends = no_sides(alloc);
    steps.sides = no_sides(alloc);
    play_chunks(alloc, recording, steps.count, index, behind)?;
    steps.count = index;
    let mut ahead = F::copy(alloc, behind)?;
    look_up::<T, F>(alloc, recording, index, text, ends, &ahead, steps, behind)?;
    play(
        alloc,
        &mut ahead,
        recording.chunks()[index].bytes.as_slice(),
    )?;
    catch_up::<T, F>(ends, &ahead, text)?;
    Ok(ahead)
}

/// Ends a chunk inside which nothing passes: what stood before it becomes what stands after so many chunks. Where memory for
/// that is refused, all that is held of what stands is given back, and looked up again on both terminals.
pub(crate) fn end_chunk<T: Plays, F: Finder<T>>(
    alloc: Global,
    recording: &Recording,
    count: usize,
    text: &[char],
    ends: &mut Sides,
    ahead: &T,
    steps: &mut Steps,
    behind: &mut T,
) -> Result<(), OutOfMemory>
    requires { count ≤ length recording.now.chunks }
    ensures found { (profile : T.Profile) (before : List Row)
        → T.shows profile ahead.now (bytes_of_first recording.now.chunks count)
        → AreBetween text.now before (F.screens profile (bytes_of_first recording.now.chunks count)) ends.old
        → IsTrailing text.now ends.old steps.old → IsLate T.shows profile recording.now.chunks count behind.old steps.old
        → OnOk result (AreFound T.shows F.screens profile recording.now.chunks count text.now
        ahead.now ends.new behind.new steps.new) }
{
    let Ok(()) = settle(ends) else {
        look_up::<T, F>(alloc, recording, count, text, ends, ahead, steps, behind)?;
        return Ok(());
    };
    Ok(())
}

/// Looks up what stands on a terminal, and on the one behind once that has had so many chunks too. What was held of what
/// stood is given back before.
fn look_up<T: Plays, F: Finder<T>>(
    alloc: Global,
    recording: &Recording,
    count: usize,
    text: &[char],
    ends: &mut Sides,
    ahead: &T,
    steps: &mut Steps,
    behind: &mut T,
) -> Result<(), OutOfMemory>
    requires { count ≤ length recording.now.chunks }
    ensures still { (profile : T.Profile) → T.shows profile ahead.now (bytes_of_first recording.now.chunks count)
        → OnOk result (AreStill text.now (F.screens profile (bytes_of_first recording.now.chunks count)) ends.new) }
    ensures reached { (profile : T.Profile) → IsLate T.shows profile recording.now.chunks count behind.old steps.old
        → OnOk result (IsReached T.shows F.screens profile recording.now.chunks count text.now behind.new steps.new) }
{
    *ends = no_sides(alloc);
    steps.sides = no_sides(alloc);
    play_chunks(alloc, recording, steps.count, count, behind)?;
    *ends = sides_of::<T, F>(alloc, ahead, text)?;
    *steps = steps_of::<T, F>(alloc, behind, count, text)?;
    Ok(())
}
