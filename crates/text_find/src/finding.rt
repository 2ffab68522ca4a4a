//! Where a text came to stand in a recording and where it went.

ghost use Rattle.std.specs.Prelude.{◌≡◌, ◌-◌, ◌≤◌, true, false, length, IfOk, IfErr, OnErr, OnOk};
ghost use Rattle.std.specs.List.{flat_map, range_with_len};
ghost use Rattle.tape_core.specs.Devices.{Gave, Took, has_failed, has_written, is_flushed};
ghost use Rattle.tape_core.specs.Due.{first as bytes_of_first};
ghost use Rattle.tape_seek.specs.State.{KeepsHistory};
ghost use Rattle.chunk_walk.specs.Stops.{OnlySeeks, StopsPrint, first_asked};
ghost use Rattle.text_find.specs.FindLines.{NowhereOn, has_ink, lines_found};
ghost use Rattle.text_find.specs.Lines.{AreFound, Began, chunk_lines_at};

use crate::again::put_chunk_again;
use crate::behind::{Steps, steps_of};
use crate::chunk::put_chunk_at;
use crate::finder::Finder;
use crate::foretold::LetterRun;
use crate::laws::nowhere_means_nowhere;
use crate::lines::put_from;
use crate::sides::{Sides, sides_of};
use chunk_walk::WalkFault;
use plays::{OutOfMemory, Plays};
use std::alloc::Global;
use std::io::Write;
use tape_core::laws::{due_is_below_the_count, gives_end, gives_join};
use tape_core::{Recording, Watched};
use tape_seek::Session;

/// Writes, as `=`, where a text stands at the moment `from`, if that is given; and for each chunk that is due
/// after it and by `to`: `-` for where it went, `~` for where it came and went between two bytes, `+` for
/// where it came to stand. It works by one seek, and plays a terminal of its own. After a fault a beginning of the text
/// has gone out. The recording and the log stay, and the frontier isn't lowered.
#[tactic(auto, using(chunk_walk::proofs::SeekLemmas::seeks_keep_history))]
pub fn find<T: Plays, F: Finder<T>, W: Write>(
    alloc: Global,
    session: &mut Session<T>,
    from: Option<u64>,
    to: u64,
    text: &[char],
    writer: &mut Watched<W>,
) -> Result<(), WalkFault>
    requires { has_failed writer.old ≡ false }
    ensures ok { OnOk result (Took W.contents writer.old writer.new
        (lines_found F.screens session.old.profile session.old.recording from to text.now)) }
    ensures flushed { OnOk result (is_flushed writer.new ≡ true) }
    ensures fault { IfErr result (StopsPrint W.contents writer.old writer.new
        (lines_found F.screens session.old.profile session.old.recording from to text.now)) }
    // Nowhere means nowhere: where not a byte was written, a text with ink stands on no screen, neither at the
    // moment `from` nor after any byte of a chunk that is asked for.
    ensures nowhere { OnOk result (has_written writer.new ≡ false → has_ink text.now ≡ true
        → NowhereOn F.screens session.old.profile session.old.recording from to text.now) }
    ensures stays { OnlySeeks session.old session.new }
    ensures history { KeepsHistory session.old session.new }
{
    nowhere_means_nowhere::<T, F>();
    let start = start_of(session, from);
    let mut behind = terminal_at::<T, F>(alloc, session, start)?;
    let ahead = F::copy(alloc, &behind)?;
    put_all::<T, F, W>(
        alloc,
        session.recording(),
        from,
        to,
        start,
        text,
        &mut behind,
        ahead,
        writer,
    )
}

/// The first chunk that is due after the moment.
fn start_of<T: Plays>(session: &Session<T>, from: Option<u64>) -> usize
    ensures value { result ≡ first_asked session.now.recording.chunks from }
    ensures within { result ≤ length session.now.recording.chunks }
{
    match from {
        None => 0,
        Some(moment) => session.recording().due_count(moment),
    }
}

/// A copy of the terminal of a session after so many chunks.
fn terminal_at<T: Plays, F: Finder<T>>(
    alloc: Global,
    session: &mut Session<T>,
    count: usize,
) -> Result<T, OutOfMemory>
    requires { count ≤ length session.old.recording.chunks }
    ensures shows { IfOk result (λ terminal.
        T.shows session.old.profile terminal (bytes_of_first session.old.recording.chunks count)) }
    ensures stays { OnlySeeks session.old session.new }
{
    F::go_to(session, count)?;
    F::copy(alloc, session.terminal())
}

/// Writes all lines by terminals that show what stands before the first chunk that is asked for, and flushes.
fn put_all<T: Plays, F: Finder<T>, W: Write>(
    alloc: Global,
    recording: &Recording,
    from: Option<u64>,
    to: u64,
    start: usize,
    text: &[char],
    behind: &mut T,
    ahead: T,
    writer: &mut Watched<W>,
) -> Result<(), WalkFault>
    requires start { start ≡ first_asked recording.now.chunks from }
    requires within { start ≤ length recording.now.chunks }
    requires sound { has_failed writer.old ≡ false }
    ensures ok { (profile : T.Profile) → T.shows profile behind.old (bytes_of_first recording.now.chunks start)
        → T.shows profile ahead (bytes_of_first recording.now.chunks start)
        → OnOk result (Took W.contents writer.old writer.new
        (lines_found F.screens profile recording.now from to text.now)) }
    ensures flushed { OnOk result (is_flushed writer.new ≡ true) }
    ensures fault { (profile : T.Profile) → T.shows profile behind.old (bytes_of_first recording.now.chunks start)
        → T.shows profile ahead (bytes_of_first recording.now.chunks start)
        → IfErr result (StopsPrint W.contents writer.old writer.new
        (lines_found F.screens profile recording.now from to text.now)) }
{
    gives_end::<W>();
    match put_lines::<T, F, W>(
        alloc, recording, from, to, start, text, behind, ahead, writer,
    ) {
        Ok(()) => {
            writer.settle()?;
            Ok(())
        }
        Err(OutOfMemory) => {
            writer.ask()?;
            Err(WalkFault::Memory)
        }
    }
}

/// Writes all lines.
fn put_lines<T: Plays, F: Finder<T>, W: Write>(
    alloc: Global,
    recording: &Recording,
    from: Option<u64>,
    to: u64,
    start: usize,
    text: &[char],
    behind: &mut T,
    ahead: T,
    writer: &mut Watched<W>,
) -> Result<(), OutOfMemory>
    requires start { start ≡ first_asked recording.now.chunks from }
    requires within { start ≤ length recording.now.chunks }
    ensures gave { (profile : T.Profile) → T.shows profile behind.old (bytes_of_first recording.now.chunks start)
        → T.shows profile ahead (bytes_of_first recording.now.chunks start)
        → OnOk result (Gave W.contents writer.old writer.new
        (lines_found F.screens profile recording.now from to text.now)) }
    ensures front { (profile : T.Profile) → T.shows profile behind.old (bytes_of_first recording.now.chunks start)
        → T.shows profile ahead (bytes_of_first recording.now.chunks start)
        → OnErr result (Began W.contents writer.old writer.new
        (lines_found F.screens profile recording.now from to text.now)) }
{
    due_is_below_the_count();
    gives_join::<W>();
    let end = recording.due_count(to).max(start);
    let mut ends = sides_of::<T, F>(alloc, &ahead, text)?;
    let mut steps = steps_of::<T, F>(alloc, behind, start, text)?;
    put_from(alloc, from, start, text.len(), &ends.after, writer)?;
    put_between::<T, F, W>(
        alloc, recording, start, end, text, &mut ends, ahead, &mut steps, behind, writer,
    )?;
    Ok(())
}

/// Plays the chunks from one place up to and without another, and writes their lines, as long as the writer
/// doesn't fail. Where memory is refused before the lines of a chunk, all is given back that is held to play ahead, and the
/// chunk is begun again.
fn put_between<T: Plays, F: Finder<T>, W: Write>(
    alloc: Global,
    recording: &Recording,
    start: usize,
    end: usize,
    text: &[char],
    ends: &mut Sides,
    mut ahead: T,
    steps: &mut Steps,
    behind: &mut T,
    writer: &mut Watched<W>,
) -> Result<(), OutOfMemory>
    requires rising { start ≤ end }
    requires within { end ≤ length recording.now.chunks }
    ensures gave { (profile : T.Profile)
        → AreFound T.shows F.screens profile recording.now.chunks start text.now ahead ends.old behind.old steps.old
        → OnOk result (Gave W.contents writer.old writer.new
        (flat_map (chunk_lines_at text.now F.screens profile recording.now)
        (range_with_len start (end - start)))) }
    ensures front { (profile : T.Profile)
        → AreFound T.shows F.screens profile recording.now.chunks start text.now ahead ends.old behind.old steps.old
        → OnErr result (Began W.contents writer.old writer.new
        (flat_map (chunk_lines_at text.now F.screens profile recording.now)
        (range_with_len start (end - start)))) }
{
    gives_join::<W>();
    gives_end::<W>();
    let mut letters = LetterRun::new();
    for index in start..end {
        let done = put_chunk_at::<T, F, W>(
            alloc,
            recording,
            index,
            text,
            &mut letters,
            ends,
            &mut ahead,
            steps,
            behind,
            writer,
        )?;
        if !done {
            drop(ahead);
            ahead = put_chunk_again::<T, F, W>(
                alloc, recording, index, text, ends, steps, behind, writer,
            )?;
        }
        if writer.failed() {
            return Ok(());
        }
    }
    Ok(())
}
