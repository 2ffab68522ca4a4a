//! The lines of the sheet that is shown that each chunk of a recording changes.

ghost use Rattle.std.specs.Prelude.{◌≡◌, true, false, OnOk, IfErr};
ghost use Rattle.tape_core.specs.Devices.{Took, has_failed, is_flushed};
ghost use Rattle.tape_seek.specs.State.{KeepsHistory};
ghost use Rattle.chunk_walk.specs.Stops.{OnlySeeks, StopsPrint};
ghost use Rattle.xterm_print.specs.ChangeLines.{change_lines};

use crate::kept::{KeptRows, catch_up};
use crate::seeking::seek_count;
use chunk_walk::laws::walks_end_sound;
use chunk_walk::{Visitor, WalkFault, put_change, visit_chunks};
use std::alloc::Global;
use std::io::Write;
use tape_core::Watched;
use tape_seek::Session;
use xterm_term::laws::size_stays;
use xterm_term::{OutOfMemory, Terminal};

/// Writes, for each chunk that is due after `from` (None: from chunk 0 on) and by `to`, the lines of the sheet that is
/// shown whose cells it changes, in text or rendition, and flushes. It works by seeks, and takes a copy of the rows
/// first. After a fault a beginning of the text has gone out. The recording and the log stay, and the frontier isn't
/// lowered.
#[tactic(auto, using(chunk_walk::proofs::SeekLemmas::seeks_keep_history), unfolding(crate::specs::ChangeLines::change_lines))]
pub fn changes<W: Write>(
    alloc: Global,
    session: &mut Session<Terminal>,
    from: Option<u64>,
    to: u64,
    writer: &mut Watched<W>,
) -> Result<(), WalkFault>
    requires { has_failed writer.old ≡ false }
    ensures ok { OnOk result (Took W.contents writer.old writer.new
        (change_lines session.old.profile session.old.recording from to)) }
    ensures flushed { OnOk result (is_flushed writer.new ≡ true) }
    ensures fault { IfErr result (StopsPrint W.contents writer.old writer.new
        (change_lines session.old.profile session.old.recording from to)) }
    ensures stays { OnlySeeks session.old session.new }
    // Whatever recording the session was opened with: where its own is that one edited by the log,
    // it is so still.
    ensures history { KeepsHistory session.old session.new }
{
    walks_end_sound::<W>();
    visit_chunks(session, from, to, &ChangedRows { alloc }, writer)?;
    writer.settle()?;
    Ok(())
}

/// Writes which lines each chunk changes. What it keeps is a copy of the rows.
#[derive(Drop)]
struct ChangedRows {
    alloc: Global,
}

impl Visitor<Terminal> for ChangedRows {
    ghost use Rattle.xterm_print.specs.ChangeLines.{change_text};
    ghost use Rattle.xterm_print.specs.Kept.{AreApart, AreKept};

    type Kept = KeptRows;

    ghost text = { λ _. change_text };

    ghost keeps = { λ size kept bytes. AreKept size kept.rows.items bytes × AreApart kept.apart kept.rows.items };

    ghost takes_none = { ⊥ };

    fn go_to(session: &mut Session<Terminal>, count: usize) -> Result<(), OutOfMemory> {
        seek_count(session, count)?;
        Ok(())
    }

    fn keep(&self, terminal: &Terminal) -> Result<KeptRows, OutOfMemory> {
        size_stays();
        Ok(KeptRows::of(self.alloc, terminal.screen())?)
    }

    fn visit<W: Write>(
        &self,
        index: usize,
        due: u64,
        kept: &mut KeptRows,
        terminal: &Terminal,
        writer: &mut Watched<W>,
    ) -> Result<(), OutOfMemory> {
        size_stays();
        let screen = terminal.screen();
        if kept.rows.len() == screen.lines() as usize {
            catch_up(
                kept.rows.as_mut_slice(),
                screen,
                &mut kept.apart,
                &mut kept.changed,
            );
            put_change(index, due, kept.changed.as_slice(), writer);
        }
        Ok(())
    }
}
