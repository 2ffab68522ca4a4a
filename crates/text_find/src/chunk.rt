//! The lines of a chunk of a recording.

ghost use Rattle.std.specs.Prelude.{◌≡◌, ◌+◌, ◌<◌, ◌≤◌, false, length, true, IfOk, OnErr, OnOk};
ghost use Rattle.tape_core.specs.Devices.{Gave};
ghost use Rattle.tape_core.specs.Due.{bytes_at, due_time, first as bytes_of_first};
ghost use Rattle.text_find.specs.Calm.{IsInside};
ghost use Rattle.text_find.specs.Lines.{AreBetween, AreFound, AreStill, Began, IsLate, IsReached, chunk_lines_at};

use crate::again::end_chunk;
use crate::ahead::play_ahead;
use crate::behind::{Steps, reach};
use crate::each_byte::put_chunk;
use crate::finder::Finder;
use crate::foretold::LetterRun;
use crate::lines::put_ends;
use crate::sides::{Sides, settle};
use plays::{OutOfMemory, Plays};
use standings::Moment;
use std::alloc::Global;
use std::io::Write;
use tape_core::laws::first_grows_by_a_chunk;
use tape_core::{Recording, Watched};

/// Plays a chunk of a recording, and writes its lines; says whether it did. Where surely nothing of the text passes inside
/// it they tell of its ends alone, and the terminal that is played again in pieces lags. Where memory is refused before its
/// lines, nothing is written, and of the terminal behind and its count alone it is known what they are.
pub(crate) fn put_chunk_at<T: Plays, F: Finder<T>, W: Write>(
    alloc: Global,
    recording: &Recording,
    index: usize,
    text: &[char],
    letters: &mut LetterRun,
    ends: &mut Sides,
    ahead: &mut T,
    steps: &mut Steps,
    behind: &mut T,
    writer: &mut Watched<W>,
) -> Result<bool, OutOfMemory>
    requires { index < length recording.now.chunks }
    ensures gave { (profile : T.Profile)
        → AreFound T.shows F.screens profile recording.now.chunks index text.now ahead.old ends.old behind.old steps.old
        → IfOk result (λ done. done ≡ true → Gave W.contents writer.old writer.new
        (chunk_lines_at text.now F.screens profile recording.now index)) }
    ensures front { (profile : T.Profile)
        → AreFound T.shows F.screens profile recording.now.chunks index text.now ahead.old ends.old behind.old steps.old
        → OnErr result (Began W.contents writer.old writer.new
        (chunk_lines_at text.now F.screens profile recording.now index)) }
    ensures found { (profile : T.Profile)
        → AreFound T.shows F.screens profile recording.now.chunks index text.now ahead.old ends.old behind.old steps.old
        → IfOk result (λ done. done ≡ true → AreFound T.shows F.screens profile recording.now.chunks (index + 1) text.now
        ahead.new ends.new behind.new steps.new) }
    ensures unwritten { IfOk result (λ done. done ≡ false → writer.new ≡ writer.old) }
    ensures late { (profile : T.Profile)
        → AreFound T.shows F.screens profile recording.now.chunks index text.now ahead.old ends.old behind.old steps.old
        → IfOk result (λ done. done ≡ false
        → IsLate T.shows profile recording.now.chunks index behind.new steps.new) }
{
    first_grows_by_a_chunk();
    let bytes = recording.chunks()[index].bytes.as_slice();
    let Ok(passing) = play_ahead::<T, F>(alloc, text, bytes, letters, ends, steps, ahead) else {
        return Ok(false);
    };
    let Some(start) = passing else {
        put_ends(alloc, moment_of(recording, index, text), ends, writer)?;
        end_chunk::<T, F>(
            alloc,
            recording,
            index + 1,
            text,
            ends,
            ahead,
            steps,
            behind,
        )?;
        return Ok(true);
    };
    let calm = &bytes[..start];
    if !reach::<T, F>(alloc, recording, index, text, calm, ends, behind, steps)? {
        return Ok(false);
    }
    put_chunk_behind::<T, F, W>(
        alloc, recording, index, start, text, ends, steps, behind, writer,
    )?;
    Ok(true)
}

/// Plays a chunk in pieces on a terminal that has had those before it and so many of its bytes, at which nothing passes, and
/// writes its lines, by what stands at its ends.
pub(crate) fn put_chunk_behind<T: Plays, F: Finder<T>, W: Write>(
    alloc: Global,
    recording: &Recording,
    index: usize,
    start: usize,
    text: &[char],
    ends: &mut Sides,
    steps: &mut Steps,
    behind: &mut T,
    writer: &mut Watched<W>,
) -> Result<(), OutOfMemory>
    requires within { index < length recording.now.chunks }
    requires start { start ≤ length (bytes_at recording.now.chunks index) }
    ensures gave { (profile : T.Profile)
        → IsInside T.shows F.screens profile recording.now.chunks index start text.now behind.old steps.old
        → AreBetween text.now (F.screens profile (bytes_of_first recording.now.chunks index))
        (F.screens profile (bytes_of_first recording.now.chunks (index + 1))) ends.old
        → OnOk result (Gave W.contents writer.old writer.new
        (chunk_lines_at text.now F.screens profile recording.now index)) }
    ensures front { (profile : T.Profile)
        → IsInside T.shows F.screens profile recording.now.chunks index start text.now behind.old steps.old
        → AreBetween text.now (F.screens profile (bytes_of_first recording.now.chunks index))
        (F.screens profile (bytes_of_first recording.now.chunks (index + 1))) ends.old
        → OnErr result (Began W.contents writer.old writer.new
        (chunk_lines_at text.now F.screens profile recording.now index)) }
    ensures reached { (profile : T.Profile)
        → IsInside T.shows F.screens profile recording.now.chunks index start text.now behind.old steps.old
        → OnOk result (IsReached T.shows F.screens profile recording.now.chunks (index + 1) text.now
        behind.new steps.new) }
    ensures still { (profile : T.Profile)
        → AreBetween text.now (F.screens profile (bytes_of_first recording.now.chunks index))
        (F.screens profile (bytes_of_first recording.now.chunks (index + 1))) ends.old
        → OnOk result (AreStill text.now (F.screens profile (bytes_of_first recording.now.chunks (index + 1))) ends.new) }
{
    first_grows_by_a_chunk();
    let moment = moment_of(recording, index, text);
    let bytes = recording.chunks()[index].bytes.as_slice();
    put_chunk::<T, F, W>(
        alloc,
        text,
        moment,
        bytes,
        start,
        ends,
        &mut steps.sides,
        behind,
        writer,
    )?;
    steps.count = index + 1;
    steps.lag = steps.sides.lag;
    settle(ends)?;
    Ok(())
}

/// A chunk's place, when it is due, and how long the text is.
fn moment_of(recording: &Recording, index: usize, text: &[char]) -> Moment
    requires { index < length recording.now.chunks }
    ensures index { result.index ≡ index }
    ensures due { result.due ≡ due_time recording.now.chunks index }
    ensures len { result.len ≡ length text.now }
{
    Moment {
        index,
        due: recording.due_time(index),
        len: text.len(),
    }
}
