//! Where a text came to stand in a recording and where it went, looked at byte by byte.

ghost use Rattle.std.specs.Prelude.{◌≡◌, true, false, OnOk, IfErr};
ghost use Rattle.tape_core.specs.Devices.{Took, has_failed, has_written, is_flushed};
ghost use Rattle.tape_seek.specs.State.{KeepsHistory};
ghost use Rattle.chunk_walk.specs.Stops.{OnlySeeks, StopsPrint};
ghost use Rattle.xterm_print.specs.FindLines.{StandsNowhere, find_lines, has_ink};

use crate::find_rows::{read_touched, rows_read};
use crate::pieces::{foretold, piece, quiet_piece};
use crate::seeking::seek_count;
use chunk_walk::WalkFault;
use plays::Plays;
use standings::{Row, Span, Standing};
use std::alloc::Global;
use std::io::Write;
use tape_core::Watched;
use tape_seek::Session;
use text_find::{Finder, Foretold, LetterRun};
use xterm_term::laws::{plays_in_parts, size_stays, stays_safe};
use xterm_term::{OutOfMemory, Reports, Terminal};

/// Writes, as `=`, where a text stands at the moment `from`, if that is given; and for each chunk that is due
/// after it and by `to`: `-` for where it went, `~` for where it came and went between two bytes, `+` for
/// where it came to stand. It works by one seek, and plays terminals of its own. After a fault a beginning of the text
/// has gone out. The recording and the log stay, and the frontier isn't lowered.
#[tactic(auto, unfolding(crate::specs::FindLines::find_lines))]
pub fn find<W: Write>(
    alloc: Global,
    session: &mut Session<Terminal>,
    from: Option<u64>,
    to: u64,
    text: &[char],
    writer: &mut Watched<W>,
) -> Result<(), WalkFault>
    requires { has_failed writer.old ≡ false }
    ensures ok { OnOk result (Took W.contents writer.old writer.new
        (find_lines session.old.profile session.old.recording from to text.now)) }
    ensures flushed { OnOk result (is_flushed writer.new ≡ true) }
    ensures fault { IfErr result (StopsPrint W.contents writer.old writer.new
        (find_lines session.old.profile session.old.recording from to text.now)) }
    // Nowhere means nowhere: where not a byte was written, a text with ink stands on no screen, neither at the
    // moment `from` nor after any byte of a chunk that is asked for.
    ensures nowhere { OnOk result (has_written writer.new ≡ false → has_ink text.now ≡ true
        → StandsNowhere session.old.profile session.old.recording from to text.now) }
    ensures stays { OnlySeeks session.old session.new }
    // Whatever recording the session was opened with: where its own is that one edited by the log,
    // it is so still.
    ensures history { KeepsHistory session.old session.new }
{
    text_find::find::<Terminal, Sheets, W>(alloc, session, from, to, text, writer)
}

/// How a text is looked for: in the rows of the sheet that is shown.
pub(crate) struct Sheets;

impl Finder<Terminal> for Sheets {
    ghost use Rattle.xterm_print.specs.FindRows.{rows_shown};

    ghost screens = { rows_shown };

    fn go_to(session: &mut Session<Terminal>, count: usize) -> Result<(), OutOfMemory> {
        seek_count(session, count)?;
        Ok(())
    }

    fn copy(alloc: Global, terminal: &Terminal) -> Result<Terminal, OutOfMemory> {
        let mut copied = Terminal::reset(alloc, terminal.size())?;
        copied.copy_from(terminal);
        Ok(copied)
    }

    fn rows(alloc: Global, terminal: &Terminal) -> Result<Vec<Row>, OutOfMemory> {
        size_stays();
        let screen = terminal.screen();
        Ok(rows_read(alloc, screen)?)
    }

    #[inline(always)]
    fn catch_up(rows: &mut Vec<Row>, terminal: &Terminal) -> Result<Span, OutOfMemory> {
        size_stays();
        stays_safe();
        let screen = terminal.screen();
        Ok(read_touched(rows, screen)?)
    }

    fn play_some(
        alloc: Global,
        terminal: &mut Terminal,
        text: &[char],
        bytes: &[u8],
    ) -> Result<usize, OutOfMemory> {
        size_stays();
        plays_in_parts();
        // Where the text stands nowhere, its characters make no difference.
        let _unread = text.len();
        let taken = piece(terminal, bytes);
        let mut sink = Reports::new(alloc);
        Plays::feed(terminal, &bytes[..taken], &mut sink)?;
        Ok(taken)
    }

    fn play_quietly(
        alloc: Global,
        terminal: &mut Terminal,
        text: &[char],
        still: &Standing,
        bytes: &[u8],
    ) -> Result<usize, OutOfMemory> {
        size_stays();
        plays_in_parts();
        // What is foretold was asked before.
        let _unread = (text.len(), still.rows.len());
        let taken = quiet_piece(terminal, bytes);
        let mut sink = Reports::new(alloc);
        Plays::feed(terminal, &bytes[..taken], &mut sink)?;
        Ok(taken)
    }

    fn foretells(
        terminal: &Terminal,
        text: &[char],
        still: &Standing,
        bytes: &[u8],
        letters: &mut LetterRun,
    ) -> Option<Foretold> {
        size_stays();
        plays_in_parts();
        foretold(terminal, text, still, bytes, letters)
    }

    fn begins_blank() {}
}
