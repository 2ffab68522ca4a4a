//! Cuts and excerpts of the recording of a session.
ghost use Rattle.std.specs.Prelude.{◌≡◌, ◌≤◌, Option, length, IfOk};
ghost use Rattle.tape_core.specs.Due.{due, first as bytes_of_first};
ghost use Rattle.tape_cut.specs.CutEdits.{cut_edits, excerpt_edits};
ghost use Rattle.tape_cut.specs.Making.{Making, OnlySought};

use crate::making::{cut_with, keep_with};
use crate::states::StateText;
use plays::{OutOfMemory, Plays};
use std::alloc::Global;
use tape_core::Watched;
use tape_seek::{EditFault, Session};

/// Leaves out what is due after `from` and by `to`, both in microseconds, and puts the state of the terminal at `to` in its
/// place, due at `from`; what is due later comes so much earlier. Where `to` is at most `from` nothing changes. The text
/// is taken at a seek; an edit that is refused is the last one, and only those before it are made.
pub fn cut<T: Plays, S: StateText<T>>(
    alloc: Global,
    session: &mut Session<T>,
    from: u64,
    to: u64,
) -> Result<(), EditFault>
    ensures { let tape = session.old.recording in
        Making result (cut_edits from to (S.text session.old.profile (due tape.chunks to)) tape)
        session.old session.new }
{
    if to <= from {
        return Ok(());
    }
    let recording = session.recording();
    let first = recording.due_count(from);
    let end = recording.due_count(to);
    if first == end {
        return cut_with(alloc, session, from, to, &[]);
    }
    match state_at::<T, S>(alloc, session, end) {
        Ok(text) => cut_with(alloc, session, from, to, text.as_slice()),
        Err(OutOfMemory) => Err(EditFault::OutOfMemory),
    }
}

/// Keeps only what is due after `from` and by `to` (None: to the end), behind the state of the terminal at `from`, which
/// is due at once.
pub fn excerpt<T: Plays, S: StateText<T>>(
    alloc: Global,
    session: &mut Session<T>,
    from: u64,
    to: Option<u64>,
) -> Result<(), EditFault>
    ensures { let tape = session.old.recording in
        Making result (excerpt_edits from to (S.text session.old.profile (due tape.chunks from)) tape)
        session.old session.new }
{
    let first = session.recording().due_count(from);
    match state_at::<T, S>(alloc, session, first) {
        Ok(text) => keep_with(alloc, session, from, to, text.as_slice()),
        Err(OutOfMemory) => Err(EditFault::OutOfMemory),
    }
}

/// The state of the terminal after so many chunks, as a text.
fn state_at<T: Plays, S: StateText<T>>(
    alloc: Global,
    session: &mut Session<T>,
    count: usize,
) -> Result<Vec<u8>, OutOfMemory>
    requires { count ≤ length session.old.recording.chunks }
    ensures text { IfOk result (λ text. text.items
        ≡ S.text session.old.profile (bytes_of_first session.old.recording.chunks count)) }
    ensures stays { OnlySought session.old session.new }
{
    S::go_to(session, count)?;
    let mut writer = Watched::new(Vec::new(alloc));
    if S::put(session.terminal(), &mut writer).is_err() {
        return Err(OutOfMemory);
    }
    Ok(writer.into_inner())
}
