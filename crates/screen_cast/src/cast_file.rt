//! The cast.

ghost use Rattle.std.specs.Prelude.{◌≡◌, ◌≢◌, ◌≤◌, Err, IfErr, IsOk, OnErr, OnOk, false, length, true};
ghost use Rattle.tape_core.specs.Devices.{Gave, Took, has_failed, is_flushed};
ghost use Rattle.tape_seek.specs.State.{KeepsHistory};
ghost use Rattle.chunk_walk.specs.Stops.{OnlySeeks, StopsSound};
ghost use Rattle.screen_print.specs.Stops.{StopsWalk};
ghost use Rattle.screen_print.specs.Walk.{whole_text};
ghost use Rattle.screen_cast.specs.Cast.{cast_text, chunk_text, header_line};

use crate::visitor::EventPrinter;
use chunk_walk::laws::walks_end_sound;
use chunk_walk::visit_all_chunks;
use screen_print::ChangesFault;
use std::alloc::Global;
use std::io::Write;
use tape_core::Watched;
use tape_core::laws::gives_join;
use tape_seek::{OutOfMemory, Session};

/// Writes the session's recording as an asciicast, version 2, and flushes. Its events draw what the terminal
/// shows after each chunk, for players that have no double sizes, no VT52 mode and no reversed screen (ours).
/// It works by seeks. After a fault a beginning of the text has gone out. The recording and the log stay,
/// and the frontier isn't lowered.
pub fn cast<W: Write>(
    alloc: Global,
    session: &mut Session,
    writer: &mut Watched<W>,
) -> Result<(), ChangesFault>
    requires { has_failed writer.old ≡ false }
    ensures ok { OnOk result (Took W.contents writer.old writer.new
        (cast_text session.old.profile session.old.recording)) }
    ensures flushed { OnOk result (is_flushed writer.new ≡ true) }
    ensures fault { IfErr result (StopsWalk W.contents writer.old writer.new
        (cast_text session.old.profile session.old.recording)) }
    ensures stays { OnlySeeks session.old session.new }
    // Whatever recording the session was opened with: where its own is that one edited by the log,
    // it is so still.
    ensures history { KeepsHistory session.old session.new }
    ensures room { length session.old.recording.chunks ≤ session.old.marks.frontier
        → result ≢ Err ChangesFault.Memory }
{
    gives_join::<W>();
    walks_end_sound::<W>();
    writer.give(header_line());
    put_all_events(alloc, session, writer)?;
    writer.settle()?;
    Ok(())
}

/// Writes the events of all chunks, as long as the writer doesn't fail.
#[tactic(auto, using(chunk_walk::proofs::SeekLemmas::seeks_keep_history), unfolding(chunk_walk::specs::Walk::all_texts, screen_print::specs::Walk::whole_text))]
fn put_all_events<W: Write>(
    alloc: Global,
    session: &mut Session,
    writer: &mut Watched<W>,
) -> Result<(), OutOfMemory>
    ensures gave { OnOk result (Gave W.contents writer.old writer.new
        (whole_text chunk_text session.old.profile session.old.recording)) }
    ensures refused { OnErr result (StopsSound W.contents writer.old writer.new
        (whole_text chunk_text session.old.profile session.old.recording)) }
    ensures stays { OnlySeeks session.old session.new }
    ensures history { KeepsHistory session.old session.new }
    ensures room { length session.old.recording.chunks ≤ session.old.marks.frontier → IsOk result }
{
    visit_all_chunks(session, &EventPrinter { alloc }, writer)
}

/// The first line.
#[tactic(auto, unfolding(crate::specs::Cast::header_line))]
fn header_line() -> &'static [u8]
    ensures { result.now ≡ header_line }
{
    b"{\"version\": 2, \"width\": 80, \"height\": 24}\n"
}
