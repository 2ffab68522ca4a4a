//! The edits of a cut and of an excerpt, made one after another.
ghost use Rattle.std.specs.Prelude.{◌≡◌, ◌+◌, ◌-◌, ◌<◌, ◌≤◌, [], ◌∷◌, ℕ, List, Option, drop, length, take, IfOk, IfSome, None, Some};
ghost use Rattle.tape_core.specs.declared.chunk.Chunk.{Chunk};
ghost use Rattle.tape_core.specs.Due.{due_count, due_time};
ghost use Rattle.tape_core.specs.Tape.{most_chunks};
ghost use Rattle.tape_cut.specs.CutEdits.{cut_edits, deleting, due_by, excerpt_edits, inserting, kept_end, retiming};
ghost use Rattle.tape_cut.specs.Cuts.{pieces};
ghost use Rattle.tape_cut.specs.Making.{Making, TellsNext};

use plays::Plays;
use std::alloc::Global;
use tape_core::limits::LONGEST_CHUNK;
use tape_core::{Bytes, Recording};
use tape_seek::{Edit, EditFault, Session};

/// Makes the edits of a cut with this text, which is empty where no chunk goes.
pub(crate) fn cut_with<T: Plays>(
    alloc: Global,
    session: &mut Session<T>,
    from: u64,
    to: u64,
    text: &[u8],
) -> Result<(), EditFault>
    requires rising { from < to }
    requires gone { let chunks = session.old.recording.chunks in
        due_count chunks to ≤ due_count chunks from → text.now ≡ [] }
    ensures { Making result (cut_edits from to text.now session.old.recording)
        session.old session.new }
{
    let recording = session.recording();
    let first = recording.due_count(from);
    let end = recording.due_count(to);
    let old = due_by(recording, first);
    let next = next_due(recording, end, recording.chunks().len());
    delete(session, first, end)?;
    let at = put_in(alloc, session, first, from - old, text)?;
    let before = before_next(first, at, old, from);
    retime(session, next, at, to - from + before)
}

/// Makes the edits of an excerpt with this text.
pub(crate) fn keep_with<T: Plays>(
    alloc: Global,
    session: &mut Session<T>,
    from: u64,
    to: Option<u64>,
    text: &[u8],
) -> Result<(), EditFault>
    ensures { Making result (excerpt_edits from to text.now session.old.recording)
        session.old session.new }
{
    let recording = session.recording();
    let count = recording.chunks().len();
    let first = recording.due_count(from);
    let end = kept_end(recording, from, to);
    let next = next_due(recording, first, end);
    delete(session, end, count)?;
    delete(session, 0, first)?;
    let at = put_in(alloc, session, 0, 0, text)?;
    retime(session, next, at, from)
}

/// When the chunk is due that stands before the next one: at `from` where pieces came in, and else when the old one is.
fn before_next(first: usize, at: usize, old: u64, from: u64) -> u64
    ensures pieces { first < at → result ≡ from }
    ensures none { at ≤ first → result ≡ old }
{
    if at > first { from } else { old }
}

/// The end of what is kept.
fn kept_end(recording: &Recording, from: u64, to: Option<u64>) -> usize
    ensures end { result ≡ kept_end recording.now.chunks from to }
    ensures within { result ≤ length recording.now.chunks }
{
    match to {
        None => recording.chunks().len(),
        Some(to) => recording.due_count(from.max(to)),
    }
}

/// When the last of the first chunks is due; 0 where there is none.
fn due_by(recording: &Recording, count: usize) -> u64
    requires { count ≤ length recording.now.chunks }
    ensures { result ≡ due_by recording.now.chunks count }
{
    if count == 0 {
        return 0;
    }
    recording.due_time(count - 1)
}

/// When the chunk at a place is due, if that is before the end of those that stay.
fn next_due(recording: &Recording, place: usize, end: usize) -> Option<u64>
    requires { end ≤ length recording.now.chunks }
    ensures { TellsNext result (drop place (take end recording.now.chunks))
        (due_time recording.now.chunks place) }
{
    if place < end {
        return Some(recording.due_time(place));
    }
    None
}

/// Makes an edit, or tells why it is refused.
fn make<T: Plays>(session: &mut Session<T>, edit: Edit) -> Result<(), EditFault>
    ensures { Making result (edit ∷ []) session.old session.new }
{
    match session.apply(edit) {
        Ok(()) => Ok(()),
        Err(refused) => {
            let fault = refused.fault;
            Err(fault)
        }
    }
}

/// Deletes the chunks from one place up to and without another, where there are any.
fn delete<T: Plays>(session: &mut Session<T>, from: usize, to: usize) -> Result<(), EditFault>
    ensures { Making result (deleting from to) session.old session.new }
{
    if from < to {
        return make(session, Edit::Delete { from, to });
    }
    Ok(())
}

/// Inserts the pieces of the text, the first so long after the chunk before it, and the others at once. Tells the place
/// behind them.
fn put_in<T: Plays>(
    alloc: Global,
    session: &mut Session<T>,
    at: usize,
    delay: u64,
    text: &[u8],
) -> Result<usize, EditFault>
    requires { at ≤ most_chunks }
    ensures made { Making result (inserting at delay (pieces text.now)) session.old session.new }
    ensures place { IfOk result (λ place. place ≡ at + length (pieces text.now)) }
{
    let mut place = at;
    let mut wait = delay;
    let mut start = 0;
    while start < text.len() {
        let len = LONGEST_CHUNK.min(text.len() - start);
        insert(alloc, session, place, wait, &text[start..start + len])?;
        place += 1;
        wait = 0;
        start += len;
    }
    Ok(place)
}

/// Inserts a chunk with a copy of these bytes.
fn insert<T: Plays>(
    alloc: Global,
    session: &mut Session<T>,
    at: usize,
    delay: u64,
    bytes: &[u8],
) -> Result<(), EditFault>
    ensures { Making result (Edit.Insert at delay bytes.now ∷ []) session.old session.new }
{
    match Bytes::copy_of(alloc, bytes) {
        Ok(bytes) => make(session, Edit::Insert { at, delay, bytes }),
        Err(_) => Err(EditFault::OutOfMemory),
    }
}

/// The next chunk, if there is one, is due so much earlier than it was, counted from the chunk before it.
fn retime<T: Plays>(
    session: &mut Session<T>,
    next: Option<u64>,
    at: usize,
    earlier: u64,
) -> Result<(), EditFault>
    requires { IfSome next (λ due. earlier ≤ due) }
    ensures { (left : List Chunk) (due : ℕ) → TellsNext next left due
        → Making result (retiming left at (due - earlier)) session.old session.new }
{
    match next {
        None => Ok(()),
        Some(due) => make(
            session,
            Edit::Retime {
                at,
                delay: due - earlier,
            },
        ),
    }
}
