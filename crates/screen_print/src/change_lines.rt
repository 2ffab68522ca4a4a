//! The lines of the screen that each chunk of a recording changes.

ghost use Rattle.std.specs.Prelude.{◌≡◌, ◌≢◌, ◌≤◌, true, false, Err, OnOk, IfErr};
ghost use Rattle.tape_core.specs.Devices.{Took, has_failed, is_flushed};
ghost use Rattle.tape_core.specs.Due.{due_count};
ghost use Rattle.tape_seek.specs.State.{KeepsHistory};
ghost use Rattle.chunk_walk.specs.Stops.{OnlySeeks};
ghost use Rattle.screen_print.specs.ChangeLines.{change_lines};
ghost use Rattle.screen_print.specs.Stops.{StopsWalk};

use crate::still::Still;
use crate::walk::{ChangesFault, ChunkPrinter, put_chunks};
use chunk_walk::laws::walks_end_sound;
use chunk_walk::put_change;
use std::io::Write;
use tape_core::Watched;
use tape_seek::Session;
use vt_term::Terminal;

/// Writes, for each chunk that is due after `from` (None: from chunk 0 on) and by `to`, the lines that
/// it changes, and flushes. It works by seeks. After a fault a beginning of the text has gone out. The
/// recording and the log stay, and the frontier isn't lowered.
#[tactic(auto, using(chunk_walk::proofs::SeekLemmas::seeks_keep_history), unfolding(crate::specs::ChangeLines::change_lines))]
pub fn changes<W: Write>(
    session: &mut Session,
    from: Option<u64>,
    to: u64,
    writer: &mut Watched<W>,
) -> Result<(), ChangesFault>
    requires { has_failed writer.old ≡ false }
    ensures ok { OnOk result (Took W.contents writer.old writer.new
        (change_lines session.old.profile session.old.recording from to)) }
    ensures flushed { OnOk result (is_flushed writer.new ≡ true) }
    ensures fault { IfErr result (StopsWalk W.contents writer.old writer.new
        (change_lines session.old.profile session.old.recording from to)) }
    ensures stays { OnlySeeks session.old session.new }
    // Whatever recording the session was opened with: where its own is that one edited by the log,
    // it is so still.
    ensures history { KeepsHistory session.old session.new }
    ensures room { due_count session.old.recording.chunks to ≤ session.old.marks.frontier
        → result ≢ Err ChangesFault.Memory }
{
    walks_end_sound::<W>();
    put_chunks(session, from, to, &ChangedLines, writer)?;
    writer.settle()?;
    Ok(())
}

/// Writes a chunk's place, when it is due, and the lines that it changes.
struct ChangedLines;

impl ChunkPrinter for ChangedLines {
    ghost use Rattle.screen_print.specs.ChangeLines.{change_text};

    ghost text = { λ _. change_text };

    fn put<W: Write>(
        &self,
        index: usize,
        due: u64,
        _before: &Still,
        _after: &Terminal,
        lines: &[u8],
        writer: &mut Watched<W>,
    ) {
        put_change(index, due, lines, writer);
    }
}
