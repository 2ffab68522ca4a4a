//! The job `session`: an answer to each request line.

ghost use Rattle.std.specs.Prelude.{◌≡◌, ◌≤◌, IfOk, OnErr, OnOk, false, is_some, max, min, true};
ghost use Rattle.tape_core.specs.Devices.{Gave, has_failed, is_flushed};
ghost use Rattle.tape_core.specs.Text.{lines_of};
ghost use Rattle.tape_seek.specs.Edits.{edit_fault};
ghost use Rattle.tape_seek.specs.Requests.{request};
ghost use Rattle.tape_seek.specs.State.{least_every, most_every};
ghost use Rattle.tape_seek.specs.WrittenLog.{log_text};
ghost use Rattle.tape_jobs.specs.Endings.{JobGives, JobPuts};
ghost use Rattle.tape_jobs.specs.Output.{ending_by};
ghost use Rattle.tape_jobs.specs.Player.{changes_of, played_of};
ghost use Rattle.tape_jobs.specs.Requests.{after_judging, course_after, course_of, started};
ghost use Rattle.tape_jobs.specs.Session.{answer, answered, any_refused, edit_answer, ended, is_refused, refusal};

use crate::answers::{Answers, Asked, Question};
use crate::job::{Ending, JobFault};
use crate::player::{Setup, set_up};
use crate::shared::{make_edit, name_of, open_session, put_info, put_line};
use command_line::Player;
use std::alloc::Global;
use std::io::Write;
use std::mem::ManuallyDrop;
use tape_core::text::next_line;
use tape_core::{Recording, Watched};
use tape_seek::{
    Edit, EditFault, LEAST_EVERY, LineFault, MOST_EVERY, Request, Session, read_line, write_log,
};
use vt_term::OutOfMemory;

/// Answers each request line in turn, and flushes. Where memory is refused, a beginning of the answers has gone out. How
/// many chunks lie between stored terminals changes no answer: a number out of its range counts as the nearest one in it.
pub fn write_answers<O: Write>(
    alloc: Global,
    recording: Recording,
    player: Player,
    every: usize,
    requests: &[u8],
    out: &mut Watched<O>,
) -> Result<Ending, JobFault>
    requires { has_failed out.old ≡ false }
    ensures puts { JobPuts O.contents out.old out.new
        (answered (started (played_of player recording) recording) (lines_of requests.now)) result }
    ensures ending { IfOk result (λ ending. ending ≡ ending_by
        (any_refused (started (played_of player recording) recording) (lines_of requests.now))) }
    ensures flushed { OnOk result (is_flushed out.new ≡ true) }
{
    match set_up(player, &recording) {
        Setup::Vt(profile) => {
            put_answers::<vt_term::Terminal, O>(alloc, recording, profile, every, requests, out)
        }
        Setup::Today(size) => {
            put_answers::<xterm_term::Terminal, O>(alloc, recording, size, every, requests, out)
        }
    }
}

/// Answers them over a terminal that is set up so.
fn put_answers<T: Answers, O: Write>(
    alloc: Global,
    recording: Recording,
    profile: T::Profile,
    every: usize,
    requests: &[u8],
    out: &mut Watched<O>,
) -> Result<Ending, JobFault>
    requires { has_failed out.old ≡ false }
    ensures puts { JobPuts O.contents out.old out.new
        (answered (started (T.played profile) recording) (lines_of requests.now)) result }
    ensures ending { IfOk result (λ ending. ending ≡ ending_by
        (any_refused (started (T.played profile) recording) (lines_of requests.now))) }
    ensures flushed { OnOk result (is_flushed out.new ≡ true) }
{
    let session = open_session::<T>(alloc, recording, in_range(every), profile)?;
    let mut session = ManuallyDrop::new(session);
    let refused = answer_all(alloc, &mut session, requests, out)?;
    out.settle()?;
    Ok(ending_by(refused))
}

/// The nearest number of chunks that may lie between stored terminals.
fn in_range(every: usize) -> usize
    ensures low { least_every ≤ result }
    ensures high { result ≤ most_every }
    ensures nearest { result ≡ min (max every least_every) most_every }
{
    every.max(LEAST_EVERY).min(MOST_EVERY)
}

/// How a session ends.
fn ending_by(refused: bool) -> Ending
    ensures { result ≡ ending_by refused }
{
    if refused {
        Ending::WithRefusals
    } else {
        Ending::Clean
    }
}

/// Answers each line in turn, and tells whether any was refused.
fn answer_all<T: Answers, O: Write>(
    alloc: Global,
    session: &mut Session<T>,
    requests: &[u8],
    out: &mut Watched<O>,
) -> Result<bool, JobFault>
    requires { has_failed out.old ≡ false }
    ensures puts { JobPuts O.contents out.old out.new
        (answered (course_of T.played session.old) (lines_of requests.now)) result }
    ensures refused { IfOk result (λ refused. refused
        ≡ any_refused (course_of T.played session.old) (lines_of requests.now)) }
{
    let mut rest = requests;
    let mut refused = false;
    while !rest.is_empty() {
        let (line, after) = next_line(rest);
        let is_refused = answer_line(alloc, session, line, out)?;
        out.ask()?;
        refused |= is_refused;
        rest = after;
    }
    Ok(refused)
}

/// Answers a line, and tells whether it was refused. A failure of the writer may be told only when it is asked.
#[tactic(auto, using(tape_core::proofs::GaveLemmas::took_gave, tape_core::proofs::GaveLemmas::gave_none))]
fn answer_line<T: Answers, O: Write>(
    alloc: Global,
    session: &mut Session<T>,
    line: &[u8],
    out: &mut Watched<O>,
) -> Result<bool, JobFault>
    requires { has_failed out.old ≡ false }
    ensures gives { JobGives O.contents out.old out.new
        (answer (course_of T.played session.old) (request line.now)) result }
    ensures refused { IfOk result (λ refused. refused
        ≡ is_refused (course_of T.played session.old) (request line.now)) }
    ensures course { OnOk result (course_of T.played session.new
        ≡ course_after (course_of T.played session.old) (request line.now)) }
{
    match read_line(alloc, line) {
        Ok(Request::Nothing) => {}
        Ok(Request::Edit(edit)) => return Ok(answer_edit(session, edit, out)?),
        Ok(Request::Screen(at)) => {
            let asked = Asked::Screen;
            T::put_answer(session, Question { asked, at }, out)?;
        }
        Ok(Request::Reports(at)) => {
            let asked = Asked::Reports;
            T::put_answer(session, Question { asked, at }, out)?;
        }
        Ok(Request::Changes { from, to }) => put_changes(alloc, session, from, to, out)?,
        Ok(Request::Info) => put_info(session.recording(), out),
        Ok(Request::Log) => put_log(session, out)?,
        Err(LineFault::BadLine) => {
            put_refusal(EditFault::BadLine, out);
            return Ok(true);
        }
        Err(LineFault::OutOfMemory) => return Err(JobFault::Memory),
    }
    Ok(false)
}

/// Makes an edit, and answers `ok`, or refuses it with nothing changed. Tells whether it was refused.
fn answer_edit<T: Answers, O: Write>(
    session: &mut Session<T>,
    edit: Edit,
    out: &mut Watched<O>,
) -> Result<bool, OutOfMemory>
    ensures gives { OnOk result (Gave O.contents out.old out.new
        (edit_answer (edit_fault session.old.recording edit))) }
    ensures unwritten { OnErr result (out.new ≡ out.old) }
    ensures refused { IfOk result (λ refused. refused
        ≡ is_some (edit_fault session.old.recording edit)) }
    ensures course { OnOk result (course_of T.played session.new
        ≡ after_judging (course_of T.played session.old) edit (edit_fault session.old.recording edit)) }
{
    let fault = make_edit(session, edit)?;
    match fault {
        None => out.give(b"ok\n"),
        Some(fault) => put_refusal(fault, out),
    }
    Ok(fault.is_some())
}

/// Writes that a line is refused, and why.
fn put_refusal<O: Write>(fault: EditFault, out: &mut Watched<O>)
    ensures { Gave O.contents out.old out.new (refusal fault) }
{
    put_line(b"refused ", name_of(fault).as_bytes(), out);
}

/// Writes change lines, and that they end.
fn put_changes<T: Answers, O: Write>(
    alloc: Global,
    session: &mut Session<T>,
    from: Option<u64>,
    to: u64,
    out: &mut Watched<O>,
) -> Result<(), JobFault>
    requires { has_failed out.old ≡ false }
    ensures gives { JobGives O.contents out.old out.new
        (ended (changes_of (T.played session.old.profile) session.old.recording from to)) result }
    ensures stays { course_of T.played session.new ≡ course_of T.played session.old }
{
    T::put_changes(alloc, session, from, to, out)?;
    out.give(b"end\n");
    Ok(())
}

/// Writes the log, and that it ends.
fn put_log<T: Answers, O: Write>(session: &Session<T>, out: &mut Watched<O>) -> Result<(), JobFault>
    requires { has_failed out.old ≡ false }
    ensures { JobGives O.contents out.old out.new (ended (log_text session.now.log)) result }
{
    write_log(session.log(), out)?;
    out.give(b"end\n");
    Ok(())
}
