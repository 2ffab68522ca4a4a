//! The job `save`: the edits of request lines, and then both files written anew.

ghost use Rattle.std.specs.Prelude.{◌≡◌, IfErr, IfOk, Ok, OnOk, false};
ghost use Rattle.tape_core.specs.Devices.{has_failed};
ghost use Rattle.tape_core.specs.Text.{lines_of};
ghost use Rattle.tape_seek.specs.Requests.{request};
ghost use Rattle.tape_jobs.specs.Endings.{JobEnds, used, writers_of};
ghost use Rattle.tape_jobs.specs.Output.{saved_by};
ghost use Rattle.tape_jobs.specs.Requests.{StopsEditing, course_after, course_of, edit_asked, refusal_of, saved};
ghost use Rattle.tape_check.specs.declared.played.PlayedAs.TheVariants.{Vt};

use crate::job::{Ending, JobFault};
use crate::shared::{EVERY, make_edit, open_session};
use command_line::Job;
use std::alloc::Global;
use std::io::Write;
use std::mem::ManuallyDrop;
use tape_core::text::next_line;
use tape_core::{Recording, Watched, write_script, write_timing};
use tape_seek::{EditFault, LineFault, Request, Session, read_line};
use vt_term::{OutOfMemory, Profile};

/// Makes every edit, and then writes the whole script, and after it the timing. Nothing is written where a line is
/// refused.
#[tactic(auto, using(crate::proofs::JobLemmas::part_none))]
pub fn write_edited<O: Write, P: Write>(
    alloc: Global,
    recording: Recording,
    requests: &[u8],
    out: &mut Watched<O>,
    out_timing: &mut Watched<P>,
) -> Result<Ending, JobFault>
    requires out { has_failed out.old ≡ false }
    requires out_timing { has_failed out_timing.old ≡ false }
    ensures { let writers = writers_of (used O.contents out.old out.new)
        (used P.contents out_timing.old out_timing.new) in
        JobEnds writers Job.Save (saved_by recording requests.now) result }
{
    let session = open_session(alloc, recording, EVERY, Profile::Vt100)?;
    let mut session = ManuallyDrop::new(session);
    edit_all(alloc, &mut session, requests)?;
    write_script(session.recording(), out)?;
    write_timing(session.recording(), out_timing)?;
    Ok(Ending::Clean)
}

/// Makes the edits of request lines in order, up to the first line that is refused. Want of memory has no line.
fn edit_all(alloc: Global, session: &mut Session, requests: &[u8]) -> Result<(), JobFault>
    ensures ok { OnOk result
        (saved 1 (course_of Vt session.old) (lines_of requests.now) ≡ Ok session.new.recording) }
    ensures fault { IfErr result
        (StopsEditing (saved 1 (course_of Vt session.old) (lines_of requests.now))) }
{
    let mut rest = requests;
    let mut line: u64 = 0;
    while !rest.is_empty() {
        let (text, after) = next_line(rest);
        line += 1;
        if let Some(fault) = edit_by(alloc, session, text)? {
            return Err(JobFault::Line { line, fault });
        }
        rest = after;
    }
    Ok(())
}

/// Makes the edit of a request line, if it has one, or tells why it is refused.
fn edit_by(
    alloc: Global,
    session: &mut Session,
    text: &[u8],
) -> Result<Option<EditFault>, OutOfMemory>
    ensures fault { IfOk result (λ fault. fault
        ≡ refusal_of session.old.recording (edit_asked (request text.now))) }
    ensures course { OnOk result
        (course_of Vt session.new
        ≡ course_after (course_of Vt session.old) (request text.now)) }
{
    match read_line(alloc, text) {
        Ok(Request::Nothing) => Ok(None),
        Ok(Request::Edit(edit)) => make_edit(session, edit),
        Ok(
            Request::Screen(_)
            | Request::Reports(_)
            | Request::Changes { .. }
            | Request::Info
            | Request::Log,
        )
        | Err(LineFault::BadLine) => Ok(Some(EditFault::BadLine)),
        Err(LineFault::OutOfMemory) => Err(OutOfMemory),
    }
}
