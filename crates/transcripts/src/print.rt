//! The transcript of a recording.
ghost use Rattle.std.specs.Prelude.{◌≡◌, ◌+◌, ◌<◌, ◌≤◌, ◌++◌, true, false, List, ℕ, length, take, IfErr, IfOk, OnOk, if◌then◌else◌};
ghost use Rattle.chunk_walk.specs.Stops.{StopsPrint};
ghost use Rattle.tape_core.specs.Devices.{Took, has_failed, is_flushed};
ghost use Rattle.tape_core.specs.Due.{first as bytes_of_first};
ghost use Rattle.transcripts.specs.Told.{Tells, StopsIn};
ghost use Rattle.transcripts.specs.Transcript.{end_of, start_of, left_between, rows_told, transcript};

use crate::rows::Rows;
use crate::transcribes::Transcribes;
use chunk_walk::WalkFault;
use plays::OutOfMemory;
use std::alloc::Global;
use std::io::Write;
use tape_core::laws::{first_grows_by_a_chunk, gives_end, gives_join};
use tape_core::{Recording, Watched};

/// Writes the transcript of a recording: the rows that left by `to` and not yet by `from`, and those that stand then. It
/// plays a terminal of its own from the start, and rows go out as they leave. After a fault a beginning of the text has
/// gone out.
pub fn transcript<T: Transcribes, W: Write>(
    alloc: Global,
    profile: T::Profile,
    recording: &Recording,
    from: Option<u64>,
    to: Option<u64>,
    writer: &mut Watched<W>,
) -> Result<(), WalkFault>
    requires { has_failed writer.old ≡ false }
    ensures ok { OnOk result (Took W.contents writer.old writer.new
        (transcript T.leaving T.standing profile recording.now from to)) }
    ensures flushed { OnOk result (is_flushed writer.new ≡ true) }
    ensures fault { IfErr result (StopsPrint W.contents writer.old writer.new
        (transcript T.leaving T.standing profile recording.now from to)) }
{
    gives_end::<W>();
    gives_join::<W>();
    let end = end_of(recording, to);
    let start = start_of(recording, from, end);
    let mut terminal = terminal_at::<T>(alloc, profile, recording, start)?;
    let mut rows = Rows::new();
    tell_all(recording, start, end, &mut terminal, &mut rows, writer)?;
    rows.end(writer);
    writer.settle()?;
    Ok(())
}

/// How many chunks are played.
fn end_of(recording: &Recording, to: Option<u64>) -> usize
    ensures value { result ≡ end_of recording.now to }
    ensures within { result ≤ length recording.now.chunks }
{
    match to {
        None => recording.chunks().len(),
        Some(to) => recording.due_count(to),
    }
}

/// How many of them are left out.
fn start_of(recording: &Recording, from: Option<u64>, end: usize) -> usize
    ensures value { result ≡ start_of recording.now from end }
    ensures within { result ≤ end }
{
    match from {
        None => 0,
        Some(from) => recording.due_count(from).min(end),
    }
}

/// The terminal after the first chunks.
fn terminal_at<T: Transcribes>(
    alloc: Global,
    profile: T::Profile,
    recording: &Recording,
    count: usize,
) -> Result<T, OutOfMemory>
    requires { count ≤ length recording.now.chunks }
    ensures { IfOk result
        (λ terminal. T.played profile terminal (bytes_of_first recording.now.chunks count)) }
{
    let mut terminal = T::reset(alloc, profile)?;
    for index in 0..count {
        terminal.pass(bytes_of(recording, index))?;
    }
    Ok(terminal)
}

/// Tells the rows that leave at the chunks from one place up to and without another, and those that stand then.
fn tell_all<T: Transcribes, W: Write>(
    recording: &Recording,
    start: usize,
    end: usize,
    terminal: &mut T,
    rows: &mut Rows,
    writer: &mut Watched<W>,
) -> Result<(), WalkFault>
    requires rising { start ≤ end }
    requires within { end ≤ length recording.now.chunks }
    ensures tells { (profile : T.Profile)
        → T.played profile terminal.old (bytes_of_first recording.now.chunks start)
        → OnOk result (Tells W.contents writer.old rows.old writer.new rows.new
        (rows_told T.leaving T.standing profile recording.now start end)) }
    ensures fault { (profile : T.Profile)
        → T.played profile terminal.old (bytes_of_first recording.now.chunks start)
        → IfErr result (StopsIn W.contents writer.old rows.old writer.new
        (rows_told T.leaving T.standing profile recording.now start end)) }
{
    tell_chunks(recording, start, end, terminal, rows, writer)?;
    match terminal.tell_standing(rows, writer) {
        Ok(()) => Ok(()),
        Err(OutOfMemory) => Err(fault_of(writer)),
    }
}

/// Tells the rows that leave at these chunks, as long as the writer doesn't fail.
fn tell_chunks<T: Transcribes, W: Write>(
    recording: &Recording,
    start: usize,
    end: usize,
    terminal: &mut T,
    rows: &mut Rows,
    writer: &mut Watched<W>,
) -> Result<(), WalkFault>
    requires rising { start ≤ end }
    requires within { end ≤ length recording.now.chunks }
    ensures played { (profile : T.Profile)
        → T.played profile terminal.old (bytes_of_first recording.now.chunks start)
        → OnOk result (T.played profile terminal.new (bytes_of_first recording.now.chunks end)) }
    ensures tells { (profile : T.Profile)
        → T.played profile terminal.old (bytes_of_first recording.now.chunks start)
        → OnOk result (Tells W.contents writer.old rows.old writer.new rows.new
        (left_between T.leaving profile recording.now start end)) }
    ensures fault { (profile : T.Profile)
        → T.played profile terminal.old (bytes_of_first recording.now.chunks start)
        → IfErr result (StopsIn W.contents writer.old rows.old writer.new
        (left_between T.leaving profile recording.now start end)) }
{
    T::laws();
    for index in start..end {
        tell_chunk(bytes_of(recording, index), terminal, rows, writer)?;
    }
    Ok(())
}

/// The bytes of a chunk.
fn bytes_of(recording: &Recording, index: usize) -> &[u8]
    requires { index < length recording.now.chunks }
    ensures { bytes_of_first recording.now.chunks (index + 1)
        ≡ bytes_of_first recording.now.chunks index ++ result.now }
{
    first_grows_by_a_chunk();
    recording.chunks()[index].bytes.as_slice()
}

/// Tells the rows that leave at the bytes of a chunk, as long as the writer doesn't fail.
fn tell_chunk<T: Transcribes, W: Write>(
    bytes: &[u8],
    terminal: &mut T,
    rows: &mut Rows,
    writer: &mut Watched<W>,
) -> Result<(), WalkFault>
    ensures played { (profile : T.Profile) (before : List ℕ) → T.played profile terminal.old before
        → OnOk result (T.played profile terminal.new (before ++ bytes.now)) }
    ensures tells { (profile : T.Profile) (before : List ℕ) → T.played profile terminal.old before
        → OnOk result (Tells W.contents writer.old rows.old writer.new rows.new
        (T.leaving profile before bytes.now)) }
    ensures fault { (profile : T.Profile) (before : List ℕ) → T.played profile terminal.old before
        → IfErr result (StopsIn W.contents writer.old rows.old writer.new
        (T.leaving profile before bytes.now)) }
{
    T::laws();
    let mut rest = bytes;
    while !rest.is_empty() {
        let taken = tell_next(rest, terminal, rows, writer)?;
        rest = &rest[taken..];
    }
    Ok(())
}

/// Tells the rows that leave at some of the bytes.
fn tell_next<T: Transcribes, W: Write>(
    bytes: &[u8],
    terminal: &mut T,
    rows: &mut Rows,
    writer: &mut Watched<W>,
) -> Result<usize, WalkFault>
    requires some { 0 < length bytes.now }
    ensures some { IfOk result (λ taken. 0 < taken) }
    ensures within { IfOk result (λ taken. taken ≤ length bytes.now) }
    ensures played { (profile : T.Profile) (before : List ℕ) → T.played profile terminal.old before
        → IfOk result (λ taken. T.played profile terminal.new (before ++ take taken bytes.now)) }
    ensures tells { (profile : T.Profile) (before : List ℕ) → T.played profile terminal.old before
        → IfOk result (λ taken. Tells W.contents writer.old rows.old writer.new rows.new
        (T.leaving profile before (take taken bytes.now))) }
    ensures fault { (profile : T.Profile) (before : List ℕ) → T.played profile terminal.old before
        → IfErr result (StopsIn W.contents writer.old rows.old writer.new
        (T.leaving profile before bytes.now)) }
{
    T::laws();
    match terminal.tell_some(bytes, rows, writer) {
        Ok(_) if writer.failed() => Err(WalkFault::Write),
        Ok(taken) => Ok(taken),
        Err(OutOfMemory) => Err(fault_of(writer)),
    }
}

/// Why a print ends where memory was refused: the writer may have failed before.
fn fault_of<W: Write>(writer: &Watched<W>) -> WalkFault
    ensures { result ≡ (if has_failed writer.now then WalkFault.Write else WalkFault.Memory) }
{
    if writer.failed() {
        WalkFault::Write
    } else {
        WalkFault::Memory
    }
}
