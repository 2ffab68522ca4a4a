//! The page of a recording.

ghost use Rattle.std.specs.Prelude.{◌≡◌, ◌≢◌, ◌≤◌, length, true, false, Err, IfErr, IsOk, OnErr, OnOk};
ghost use Rattle.tape_core.specs.Devices.{Gave, Took, has_failed, is_flushed};
ghost use Rattle.tape_seek.specs.State.{KeepsHistory};
ghost use Rattle.chunk_walk.specs.Stops.{OnlySeeks, StopsSound};
ghost use Rattle.screen_print.specs.Stops.{StopsWalk};
ghost use Rattle.screen_print.specs.Walk.{whole_text};
ghost use Rattle.screen_page.specs.Page.{front, head, middle, page_text, rest, tail};
ghost use Rattle.screen_page.specs.Parts.{chunk_text, closing, first_text, opening};

use crate::entry_printer::EntryPrinter;
use crate::player::{HEAD, MIDDLE, REST, TAIL};
use crate::title::put_title;
use chunk_walk::laws::walks_end_sound;
use chunk_walk::visit_all_chunks;
use screen_print::ChangesFault;
use std::io::Write;
use tape_core::Watched;
use tape_core::laws::gives_join;
use tape_seek::{OutOfMemory, Session};

/// Writes the session's recording as one HTML file of this title that plays it, and flushes. It works by seeks. After a
/// fault a beginning of the file has gone out. The recording and the log stay, and the frontier isn't lowered.
pub fn page<W: Write>(
    session: &mut Session,
    title: &[char],
    writer: &mut Watched<W>,
) -> Result<(), ChangesFault>
    requires { has_failed writer.old ≡ false }
    ensures ok { OnOk result (Took W.contents writer.old writer.new
        (page_text title.now session.old.profile session.old.recording)) }
    ensures flushed { OnOk result (is_flushed writer.new ≡ true) }
    ensures fault { IfErr result (StopsWalk W.contents writer.old writer.new
        (page_text title.now session.old.profile session.old.recording)) }
    ensures stays { OnlySeeks session.old session.new }
    // Whatever recording the session was opened with: where its own is that one edited by the log, it is so still.
    ensures history { KeepsHistory session.old session.new }
    ensures room { length session.old.recording.chunks ≤ session.old.marks.frontier
        → result ≢ Err ChangesFault.Memory }
{
    gives_join::<W>();
    walks_end_sound::<W>();
    put_opening(title, writer);
    put_entries(session, writer)?;
    put_closing(writer);
    writer.settle()?;
    Ok(())
}

/// Writes the chunks' entries, as long as the writer doesn't fail.
#[tactic(auto, using(chunk_walk::proofs::SeekLemmas::seeks_keep_history), unfolding(chunk_walk::specs::Walk::all_texts, screen_print::specs::Walk::whole_text))]
fn put_entries<W: Write>(session: &mut Session, writer: &mut Watched<W>) -> Result<(), OutOfMemory>
    ensures gave { OnOk result (Gave W.contents writer.old writer.new
        (whole_text chunk_text session.old.profile session.old.recording)) }
    ensures refused { OnErr result (StopsSound W.contents writer.old writer.new
        (whole_text chunk_text session.old.profile session.old.recording)) }
    ensures stays { OnlySeeks session.old session.new }
    ensures history { KeepsHistory session.old session.new }
    ensures room { length session.old.recording.chunks ≤ session.old.marks.frontier → IsOk result }
{
    visit_all_chunks(session, &EntryPrinter, writer)
}

/// Writes what stands before the chunks' entries.
fn put_opening<W: Write>(title: &[char], writer: &mut Watched<W>)
    ensures { Gave W.contents writer.old writer.new (opening title.now) }
{
    gives_join::<W>();
    put_front(title, writer);
    writer.give(first_text());
}

/// Writes what stands before the data: the player around the title, twice.
pub fn put_front<W: Write>(title: &[char], writer: &mut Watched<W>)
    ensures { Gave W.contents writer.old writer.new (front title.now) }
{
    gives_join::<W>();
    writer.give(head());
    put_title(title, writer);
    writer.give(middle());
    put_title(title, writer);
    writer.give(rest());
}

/// Writes what stands behind the data.
pub fn put_tail<W: Write>(writer: &mut Watched<W>)
    ensures { Gave W.contents writer.old writer.new tail }
{
    writer.give(tail());
}

/// Writes what stands behind them.
fn put_closing<W: Write>(writer: &mut Watched<W>)
    ensures { Gave W.contents writer.old writer.new closing }
{
    writer.give_all(&[b"]", tail()]);
}

/// The entry before all chunks, which begins the data.
#[tactic(auto, unfolding(crate::specs::Parts::first_text))]
fn first_text() -> &'static [u8]
    ensures { result.now ≡ first_text }
{
    b"[[0.000000,0,1,1]"
}

#[tactic(auto, unfolding(crate::specs::Page::head))]
fn head() -> &'static [u8]
    ensures { result.now ≡ head }
{
    HEAD.as_bytes()
}

#[tactic(auto, unfolding(crate::specs::Page::middle))]
fn middle() -> &'static [u8]
    ensures { result.now ≡ middle }
{
    MIDDLE.as_bytes()
}

#[tactic(auto, unfolding(crate::specs::Page::rest))]
fn rest() -> &'static [u8]
    ensures { result.now ≡ rest }
{
    REST.as_bytes()
}

#[tactic(auto, unfolding(crate::specs::Page::tail))]
fn tail() -> &'static [u8]
    ensures { result.now ≡ tail }
{
    TAIL.as_bytes()
}
