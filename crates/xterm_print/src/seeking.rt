//! Sessions over a terminal of today, in its own words.

ghost use Rattle.std.specs.Prelude.{◌≡◌, ◌≤◌, length, IfOk, IfErr, IsOk};
ghost use Rattle.std.specs.Borrow.{sem};
ghost use Rattle.tape_core.specs.Due.{due_count};
ghost use Rattle.tape_core.specs.Tape.{Tape};
ghost use Rattle.tape_seek.specs.Edits.{edited_all};
ghost use Rattle.tape_seek.specs.Marks.{fed_by};
ghost use Rattle.tape_seek.specs.State.{least_every, most_every, opened};
ghost use Rattle.xterm_term.specs.Seen.{Shows};
ghost use Rattle.xterm_print.specs.Headline.{TellsCount, TellsMoment};
ghost use Rattle.xterm_print.specs.Lending.{LeavesSought};
ghost use Rattle.xterm_print.specs.Moments.{term_at, up_to};

use std::alloc::Global;
use tape_core::Recording;
use tape_seek::{Session, View};
use xterm_term::{OutOfMemory, Size, Terminal};

/// Opens a session of a terminal of this size, with a terminal stored at every so many chunks. For want of memory the
/// recording comes back.
pub fn open(
    alloc: Global,
    recording: Recording,
    every: usize,
    size: Size,
) -> Result<Session<Terminal>, Recording>
    requires low { least_every ≤ every }
    requires high { every ≤ most_every }
    ensures ok { IfOk result (λ session. session ≡ opened size recording every) }
    ensures history { (o : Tape) → recording ≡ o
        → IfOk result (λ session. session.recording ≡ edited_all o session.log) }
    ensures err { IfErr result (λ back. back ≡ recording) }
{
    Session::open_with(alloc, recording, every, size)
}

/// Goes to a moment, in microseconds: to the chunks that are due by then. It takes no memory at or below the frontier.
pub fn seek(session: &mut Session<Terminal>, moment: u64) -> Result<View<'_, Terminal>, OutOfMemory>
    ensures* state { sem 𝓛
        (LeavesSought session.entry result (due_count session.old.recording.chunks moment)) }
    // The headline: of the recording that the session was opened with, edited by the log.
    ensures headline { IfOk result (λ view.
        TellsMoment session.old moment view.terminal.now view.reports.now) }
    ensures shows { IfOk result (λ view.
        Shows view.terminal.now (term_at session.old.profile session.old.recording moment)) }
    ensures reports { IfOk result (λ view. view.reports.now
        ≡ (term_at session.old.profile session.old.recording moment).reports) }
    ensures count { IfOk result (λ view.
        view.count ≡ due_count session.old.recording.chunks moment) }
    ensures fed { IfOk result (λ view. view.fed
        ≡ fed_by session.old.every (due_count session.old.recording.chunks moment)
        session.old.marks) }
    ensures room { due_count session.old.recording.chunks moment ≤ session.old.marks.frontier
        → IsOk result }
{
    session.play_to(moment)
}

/// Goes to a count of chunks.
pub fn seek_count(
    session: &mut Session<Terminal>,
    count: usize,
) -> Result<View<'_, Terminal>, OutOfMemory>
    requires { count ≤ length session.old.recording.chunks }
    ensures* state { sem 𝓛 (LeavesSought session.entry result count) }
    ensures headline { IfOk result (λ view.
        TellsCount session.old count view.terminal.now view.reports.now) }
    ensures shows { IfOk result (λ view.
        Shows view.terminal.now (up_to session.old.profile session.old.recording.chunks count)) }
    ensures reports { IfOk result (λ view. view.reports.now
        ≡ (up_to session.old.profile session.old.recording.chunks count).reports) }
    ensures count { IfOk result (λ view. view.count ≡ count) }
    ensures fed { IfOk result (λ view. view.fed
        ≡ fed_by session.old.every count session.old.marks) }
    ensures room { count ≤ session.old.marks.frontier → IsOk result }
{
    session.play_to_count(count)
}
