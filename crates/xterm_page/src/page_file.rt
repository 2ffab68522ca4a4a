//! The page of a recording.

ghost use Rattle.std.specs.Prelude.{◌≡◌, true, false, decimal, OnOk, IfErr};
ghost use Rattle.tape_core.specs.Devices.{Gave, Took, has_failed, is_flushed};
ghost use Rattle.tape_seek.specs.State.{KeepsHistory};
ghost use Rattle.chunk_walk.specs.Stops.{OnlySeeks, StopsPrint};
ghost use Rattle.screen_page.specs.EntryText.{comma_number};
ghost use Rattle.xterm_page.specs.EntryText.{size_text};
ghost use Rattle.xterm_page.specs.Page.{page_text};
ghost use Rattle.xterm_page.specs.Parts.{closing, first_text, opening};

use crate::entry_printer::EntryPrinter;
use chunk_walk::laws::walks_end_sound;
use chunk_walk::{WalkFault, visit_all_chunks};
use itoa::Buffer;
use screen_page::{put_front, put_tail};
use std::alloc::Global;
use std::io::Write;
use tape_core::Watched;
use tape_core::laws::gives_join;
use tape_seek::Session;
use xterm_term::laws::size_stays;
use xterm_term::{Size, Terminal};

/// Writes the session's recording as one HTML file of this title that plays it, and flushes. It works by seeks, and takes
/// a copy of the rows first. After a fault a beginning of the file has gone out. The recording and the log stay, and the
/// frontier isn't lowered.
#[tactic(auto, using(chunk_walk::proofs::SeekLemmas::seeks_keep_history))]
pub fn page<W: Write>(
    alloc: Global,
    session: &mut Session<Terminal>,
    title: &[char],
    writer: &mut Watched<W>,
) -> Result<(), WalkFault>
    requires { has_failed writer.old ≡ false }
    ensures ok { OnOk result (Took W.contents writer.old writer.new
        (page_text title.now session.old.profile.columns session.old.profile.lines
        session.old.recording)) }
    ensures flushed { OnOk result (is_flushed writer.new ≡ true) }
    ensures fault { IfErr result (StopsPrint W.contents writer.old writer.new
        (page_text title.now session.old.profile.columns session.old.profile.lines
        session.old.recording)) }
    ensures stays { OnlySeeks session.old session.new }
    // Whatever recording the session was opened with: where its own is that one edited by the log, it is so still.
    ensures history { KeepsHistory session.old session.new }
{
    gives_join::<W>();
    walks_end_sound::<W>();
    size_stays();
    let size = session.terminal().size();
    put_opening(title, size, writer);
    visit_all_chunks(session, &EntryPrinter { alloc }, writer)?;
    put_closing(writer);
    writer.settle()?;
    Ok(())
}

/// Writes what stands before the chunks' entries.
fn put_opening<W: Write>(title: &[char], size: Size, writer: &mut Watched<W>)
    ensures { Gave W.contents writer.old writer.new
        (opening title.now size.columns size.lines) }
{
    gives_join::<W>();
    put_front(title, writer);
    writer.give(b"[");
    put_size(size, writer);
    writer.give(first_text());
}

/// Writes how many columns and lines there are.
fn put_size<W: Write>(size: Size, writer: &mut Watched<W>)
    ensures { Gave W.contents writer.old writer.new (size_text size.columns size.lines) }
{
    gives_join::<W>();
    writer.give(b"[");
    give_number(size.columns as usize, writer);
    give_comma_number(size.lines as usize, writer);
    writer.give(b"]");
}

/// Writes a number.
fn give_number<W: Write>(number: usize, writer: &mut Watched<W>)
    ensures { Gave W.contents writer.old writer.new (decimal number) }
{
    writer.give(Buffer::new().format(number).as_bytes());
}

/// Writes a comma and a number.
fn give_comma_number<W: Write>(number: usize, writer: &mut Watched<W>)
    ensures { Gave W.contents writer.old writer.new (comma_number number) }
{
    writer.give_all(&[b",", Buffer::new().format(number).as_bytes()]);
}

/// The entry before all chunks, behind the size.
fn first_text() -> &'static [u8]
    ensures { result.now ≡ first_text }
{
    b",\n[0.000000,0,1,1]"
}

/// Writes what stands behind them.
fn put_closing<W: Write>(writer: &mut Watched<W>)
    ensures { Gave W.contents writer.old writer.new closing }
{
    gives_join::<W>();
    writer.give(b"]");
    put_tail(writer);
}
