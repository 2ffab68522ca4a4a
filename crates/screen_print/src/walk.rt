//! A walk over the chunks of a recording: what a printer writes of each, as it is told what stands on
//! the screen before and after it.

ghost use Rattle.std.specs.Prelude.{◌≡◌, ◌≤◌, length, OnOk, OnErr, IsOk};
ghost use Rattle.tape_core.specs.Devices.{Gave};
ghost use Rattle.tape_core.specs.Due.{due_count};
ghost use Rattle.tape_seek.specs.State.{KeepsHistory};
ghost use Rattle.chunk_walk.specs.Stops.{OnlySeeks, StopsSound};
ghost use Rattle.screen_rows.specs.SameRows.{changed_lines};
ghost use Rattle.screen_print.specs.Stills.{still_of};
ghost use Rattle.screen_print.specs.Walk.{walk_text, whole_text};
ghost use Rattle.vt_term.specs.Seen.{Told};

use crate::still::Still;
use chunk_walk::{Visitor, visit_all_chunks, visit_chunks};
use std::io::Write;
use tape_core::{Fault, Watched};
use tape_seek::{OutOfMemory, Session};
use vt_term::Terminal;

/// Why a walk over chunks ends before the last of them. It is named after `changes`, the first of the walks.
#[derive(Debug, Clone, Copy, PartialEq, Eq)]
pub enum ChangesFault {
    /// The writer failed.
    Write,
    /// Memory was refused to a seek.
    Memory,
}

impl From<Fault> for ChangesFault {
    ghost use Rattle.screen_print.specs.declared.walk.ChangesFault.TheVariants as stops;

    ghost from_gives = { λ _ fault. fault ≡ stops.Write };

    fn from(_fault: Fault) -> Self {
        ChangesFault::Write
    }
}

impl From<OutOfMemory> for ChangesFault {
    ghost use Rattle.screen_print.specs.declared.walk.ChangesFault.TheVariants as stops;

    ghost from_gives = { λ _ fault. fault ≡ stops.Memory };

    fn from(_refused: OutOfMemory) -> Self {
        ChangesFault::Memory
    }
}

/// What writes a text of each chunk.
pub trait ChunkPrinter {
    ghost use Rattle.screen_print.specs.Stills.{still_of};
    ghost use Rattle.screen_print.specs.Walk.{ChunkText};

    /// The text of a chunk.
    ghost text: { Self → ChunkText };

    /// Writes the text of the chunk at a place, when it is due, by what stands before it and on the terminal
    /// after it, which differ in these lines.
    fn put<W: Write>(
        &self,
        index: usize,
        due: u64,
        before: &Still,
        after: &Terminal,
        lines: &[u8],
        writer: &mut Watched<W>,
    )
        requires { lines.now ≡ changed_lines before.now.rows after.now.console.picture.rows }
        ensures { Gave W.contents writer.old writer.new
            (text self.now index due before.now (still_of after.now.console)) };
}

/// Writes what the printer writes of each chunk that is due after `from` (None: from chunk 0 on) and by
/// `to`, as long as the writer doesn't fail. It works by seeks. The recording and the log stay, and the
/// frontier isn't lowered.
#[tactic(auto, unfolding(chunk_walk::specs::Walk::asked_texts, crate::specs::Walk::walk_text))]
pub fn put_chunks<P: ChunkPrinter, W: Write>(
    session: &mut Session,
    from: Option<u64>,
    to: u64,
    printer: &P,
    writer: &mut Watched<W>,
) -> Result<(), OutOfMemory>
    ensures gave { OnOk result (Gave W.contents writer.old writer.new
        (walk_text (P.text printer.now) session.old.profile session.old.recording from to)) }
    ensures refused { OnErr result (StopsSound W.contents writer.old writer.new
        (walk_text (P.text printer.now) session.old.profile session.old.recording from to)) }
    ensures stays { OnlySeeks session.old session.new }
    ensures room { due_count session.old.recording.chunks to ≤ session.old.marks.frontier → IsOk result }
{
    visit_chunks(session, from, to, &Printing { printer }, writer)
}

/// Writes what the printer writes of each chunk, as `put_chunks` does.
#[tactic(auto, using(chunk_walk::proofs::SeekLemmas::seeks_keep_history), unfolding(chunk_walk::specs::Walk::all_texts, crate::specs::Walk::whole_text))]
pub fn put_all_chunks<P: ChunkPrinter, W: Write>(
    session: &mut Session,
    printer: &P,
    writer: &mut Watched<W>,
) -> Result<(), OutOfMemory>
    ensures gave { OnOk result (Gave W.contents writer.old writer.new
        (whole_text (P.text printer.now) session.old.profile session.old.recording)) }
    ensures refused { OnErr result (StopsSound W.contents writer.old writer.new
        (whole_text (P.text printer.now) session.old.profile session.old.recording)) }
    ensures stays { OnlySeeks session.old session.new }
    // Whatever recording the session was opened with: where its own is that one edited by the log,
    // it is so still.
    ensures history { KeepsHistory session.old session.new }
    ensures room { length session.old.recording.chunks ≤ session.old.marks.frontier → IsOk result }
{
    visit_all_chunks(session, &Printing { printer }, writer)
}

/// A printer, as what visits the chunks that a VT100 plays.
#[derive(Drop)]
struct Printing<'a, P> {
    printer: &'a P,
}

impl<'a, P: ChunkPrinter> Visitor<Terminal> for Printing<'a, P> {
    ghost use Rattle.screen_print.specs.Walk.{still_by, text_by};

    type Kept = Still;

    ghost text = { λ v. text_by (P.text v.printer.now) };

    ghost keeps = { λ profile still bytes. still ≡ still_by profile bytes };

    ghost takes_none = { Unit {0} };

    fn go_to(session: &mut Session, count: usize) -> Result<(), OutOfMemory> {
        session.seek_count(count)?;
        Ok(())
    }

    fn keep(&self, terminal: &Terminal) -> Result<Still, OutOfMemory> {
        Ok(Still::of(terminal))
    }

    fn visit<W: Write>(
        &self,
        index: usize,
        due: u64,
        kept: &mut Still,
        terminal: &Terminal,
        writer: &mut Watched<W>,
    ) -> Result<(), OutOfMemory> {
        put_seen(index, due, kept, terminal, self.printer, writer);
        Ok(())
    }
}

/// Writes the text of a chunk, by what stands before it and on the terminal after it, which becomes what
/// stands before the next one.
#[tactic(auto, using(crate::proofs::StillLemmas::changed_cover))]
fn put_seen<P: ChunkPrinter, W: Write>(
    index: usize,
    due: u64,
    still: &mut Still,
    terminal: &Terminal,
    printer: &P,
    writer: &mut Watched<W>,
)
    requires { Told still.old.rows terminal.now }
    ensures gave { Gave W.contents writer.old writer.new
        (P.text printer.now index due still.old (still_of terminal.now.console)) }
    ensures after { still.new ≡ still_of terminal.now.console }
{
    let changed = still.changed_lines(terminal);
    let lines = changed.as_slice();
    printer.put(index, due, still, terminal, lines, writer);
    still.catch_up(terminal, lines);
}
