//! What several jobs share: a session, its edits and their faults, and the texts that a job writes and a session answers.

ghost use Rattle.std.specs.Prelude.{◌≡◌, ◌≤◌, IfErr, IfOk, OnOk, false, true};
ghost use Rattle.std.specs.Fmt.{decimal};
ghost use Rattle.tape_core.specs.Devices.{Gave, Puts, has_failed, is_flushed};
ghost use Rattle.tape_seek.specs.Edits.{edit_fault};
ghost use Rattle.tape_seek.specs.State.{least_every, most_every, opened};
ghost use Rattle.tape_jobs.specs.Info.{info_line, info_text};
ghost use Rattle.tape_jobs.specs.Moment.{hex_line};
ghost use Rattle.tape_jobs.specs.Requests.{after_judging, course_of, fault_name};

use crate::answers::Answers;
use crate::job::JobFault;
use itoa::Buffer;
use plays::Plays;
use std::alloc::Global;
use std::io::Write;
use tape_core::laws::gives_join;
use tape_core::{Fault, Recording, Watched, seconds_text};
use tape_seek::{Edit, EditFault, MOST_EVERY, Session, put_hex};
use vt_term::OutOfMemory;

// ---- a session

/// How many chunks lie between the terminals that a job stores which never goes back: no recording has more.
pub const EVERY: usize = MOST_EVERY;

/// Opens a session. Want of memory stops the job.
pub fn open_session<T: Plays>(
    alloc: Global,
    recording: Recording,
    every: usize,
    profile: T::Profile,
) -> Result<Session<T>, JobFault>
    requires low { least_every ≤ every }
    requires high { every ≤ most_every }
    ensures ok { IfOk result (λ session. session ≡ opened profile recording every) }
    ensures fault { IfErr result (λ fault. fault ≡ JobFault.Memory) }
{
    Session::open_with(alloc, recording, every, profile).map_err(|_| JobFault::Memory)
}

/// Makes an edit, or tells why it is refused, with nothing changed.
pub fn make_edit<T: Answers>(
    session: &mut Session<T>,
    edit: Edit,
) -> Result<Option<EditFault>, OutOfMemory>
    ensures fault { IfOk result (λ fault. fault ≡ edit_fault session.old.recording edit) }
    ensures course { OnOk result (course_of T.played session.new
        ≡ after_judging (course_of T.played session.old) edit
        (edit_fault session.old.recording edit)) }
{
    match session.apply(edit) {
        Ok(()) => Ok(None),
        Err(refused) => match refused.fault {
            EditFault::OutOfMemory => Err(OutOfMemory),
            fault => Ok(Some(fault)),
        },
    }
}

/// The code and the name of a fault.
#[tactic(auto, unfolding(crate::specs::Requests::fault_name))]
pub fn name_of(fault: EditFault) -> &'static str
    ensures { result.now ≡ fault_name fault }
{
    match fault {
        EditFault::NoSuchChunk => "E1 NoSuchChunk",
        EditFault::DelayTooLarge => "E2 DelayTooLarge",
        EditFault::ChunkTooLong => "E3 ChunkTooLong",
        EditFault::TooManyChunks => "E4 TooManyChunks",
        EditFault::TooManyBytes => "E5 TooManyBytes",
        EditFault::BadRange => "E6 BadRange",
        EditFault::OutOfMemory => "E7 OutOfMemory",
        EditFault::BadLine => "E8 BadLine",
    }
}

// ---- texts

/// Writes bytes in lower-case hexadecimal and then LF, and flushes.
pub fn put_hex_line<O: Write>(bytes: &[u8], out: &mut Watched<O>) -> Result<(), Fault>
    requires { has_failed out.old ≡ false }
    ensures puts { Puts O.contents out.old out.new (hex_line bytes.now) result }
    ensures flushed { OnOk result (is_flushed out.new ≡ true) }
{
    put_hex(bytes, out)?;
    out.give(b"\n");
    out.settle()
}

/// Writes the five lines.
#[tactic(auto, unfolding(crate::specs::Info::info_text))]
pub fn put_info<O: Write>(recording: &Recording, out: &mut Watched<O>)
    ensures { Gave O.contents out.old out.new (info_text recording.now) }
{
    gives_join::<O>();
    put_number(b"chunks ", recording.chunks().len() as u64, out);
    put_number(b"bytes ", recording.body_len(), out);
    put_line(b"length ", seconds_text(recording.length()).as_bytes(), out);
    put_number(b"header ", recording.header().len() as u64, out);
    put_number(b"trailer ", recording.trailer().len() as u64, out);
}

/// Writes a line of a name and a number.
fn put_number<O: Write>(name: &[u8], number: u64, out: &mut Watched<O>)
    ensures { Gave O.contents out.old out.new (info_line name.now (decimal number)) }
{
    put_line(name, Buffer::new().format(number).as_bytes(), out);
}

/// Writes a line of a name and a value.
#[tactic(auto, unfolding(crate::specs::Info::info_line))]
pub fn put_line<O: Write>(name: &[u8], value: &[u8], out: &mut Watched<O>)
    ensures { Gave O.contents out.old out.new (info_line name.now value.now) }
{
    out.give_all(&[name, value, b"\n"]);
}
