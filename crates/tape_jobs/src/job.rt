//! The jobs: each reads its files whole and then writes its text.

ghost use Rattle.std.specs.Prelude.{[], ◌≡◌, ◌⊎◌, ◌≢◌, ℕ, List, true, false, Some, IfOk, IfErr, OnOk};
ghost use Rattle.tape_jobs.specs.Texts.{only_writes, text_of, writes_last};
ghost use Rattle.tape_core.specs.Devices.{inner_of, has_failed, is_flushed};
ghost use Rattle.tape_core.specs.Faults.{is_stop};
ghost use Rattle.tape_core.specs.Reading.{fault_of, reads};
ghost use Rattle.tape_jobs.specs.Endings.{JobEnds, JobPuts, RunEnds, readers_of, used, writers_of};
ghost use Rattle.tape_jobs.specs.Notes.{NoteEnds, was_read};
ghost use Rattle.command_line.specs.declared.player.Source.TheVariants as stands;
ghost use Rattle.command_line.specs.declared.player.Source.TheVariants.{Pair};
ghost use Rattle.tape_import.specs.ImportedFile.{import_of};
ghost use Rattle.tape_import.specs.Refusal.{IsWhole};
ghost use Rattle.tape_jobs.specs.Output.{TakesMemory, answers_by_status, clean_by, done_on, fault_from, is_stopped, outcome_by, outcome_in, remakes, status_after, status_of, takes_requests, writes_timing};

mod cast;
mod changes;
mod check;
mod cut;
mod due;
mod find;
pub mod import;
mod info;
pub mod mend;
mod moment;
mod note;
mod page;
pub mod redact;
mod save;
mod session;
mod transcript;

use crate::shared::name_of;
use cast::write_cast;
use changes::write_changes;
use check::write_checked;
use chunk_walk::WalkFault;
use command_line::{Job, Player, Print};
use cut::{write_cut, write_excerpt};
use due::write_due;
use find::write_found;
use import::{read_imported, write_imported};
use info::write_info;
use mend::{read_remains, write_remains};
use moment::{write_picture, write_reports, write_screen};
use note::tell_note;
use page::write_page;
use redact::write_redacted;
use save::write_edited;
use screen_print::ChangesFault;
use session::write_answers;
use std::alloc::Global;
use std::io;
use std::io::{Read, Write};
use std::mem::ManuallyDrop;
use std::rc::Rc;
use tape_check::CheckFault;
use tape_core::{Fault, Recording, Watched, read_recording_of, slurp};
use tape_import::{ImportFault, Refusal, Whole, import_whole};
use tape_mend::Header;
use tape_seek::EditFault;
use thiserror::Error;
use transcript::write_transcript;
use vt_term::{OutOfMemory, Profile};

/// How a job ends that is done.
#[derive(Clone, Copy, Debug, PartialEq, Eq)]
pub enum Ending {
    /// Nothing was refused.
    Clean,
    /// A session has refused some line.
    WithRefusals,
    /// A check has noted something, or found what isn't played.
    WithNotes,
    /// Of a pair of files that was mended a line or a chunk was left out or cut, or bytes have no timing; or of a recording
    /// of another form something was left out or cut, and not just other events.
    WithLosses,
    /// A search has found nothing.
    WithNothing,
    /// A text that was taken out stood nowhere, or something of it may be left.
    WithTraces,
}

impl Ending {
    /// The status of the program: 1 where a line was refused, something noted, lost or left, or nothing found, and else 0.
    fn status(self) -> u8
        ensures { result ≡ status_after self }
    {
        match self {
            Ending::Clean => 0,
            Ending::WithRefusals
            | Ending::WithNotes
            | Ending::WithLosses
            | Ending::WithNothing
            | Ending::WithTraces => 1,
        }
    }
}

/// Why a job wasn't done.
#[derive(Clone, Copy, Debug, PartialEq, Eq, Error)]
pub enum JobFault {
    /// The pair of files has a fault, memory was refused or a device failed.
    #[error("{0}")]
    File(Fault),
    /// A recording of another form begins as a compressed file does.
    #[error("recording is compressed")]
    Compressed,
    /// It has no form that is known.
    #[error("recording of no known form")]
    NoKnownForm,
    /// A recording of another form isn't read as a whole.
    #[error("{0}")]
    Refused(Refusal),
    /// A request line was refused: its number, counted from 1 with the blank ones, and why.
    #[error("request line {line}: {}", name_of(*fault))]
    Line { line: u64, fault: EditFault },
    /// An edit of a cut or an excerpt was refused, which was not for want of memory.
    #[error("{}", name_of(*fault))]
    Edit { fault: EditFault },
    /// Memory was refused once the recording was read.
    #[error("out of memory")]
    Memory,
}

impl From<Fault> for JobFault {
    ghost use Rattle.std.specs.Prelude.{◌≡◌};
    ghost use Rattle.tape_jobs.specs.declared.job.JobFault.TheVariants.{File as file};

    ghost from_gives = { λ fault made. made ≡ file fault };

    fn from(fault: Fault) -> JobFault {
        JobFault::File(fault)
    }
}

impl From<ImportFault> for JobFault {
    ghost use Rattle.std.specs.Prelude.{◌≡◌};
    ghost use Rattle.tape_jobs.specs.Output.{fault_of_import};

    ghost from_gives = { λ stop fault. fault ≡ fault_of_import stop };

    fn from(stop: ImportFault) -> JobFault {
        match stop {
            ImportFault::Compressed => JobFault::Compressed,
            ImportFault::NoKnownForm => JobFault::NoKnownForm,
            ImportFault::OutOfMemory => JobFault::File(Fault::OutOfMemory),
        }
    }
}

impl From<Refusal> for JobFault {
    ghost use Rattle.std.specs.Prelude.{◌≡◌};
    ghost use Rattle.tape_jobs.specs.Output.{fault_of_refusal};

    ghost from_gives = { λ refusal fault. fault ≡ fault_of_refusal refusal };

    fn from(refusal: Refusal) -> JobFault {
        match refusal {
            Refusal::Form(fault) => JobFault::from(fault),
            Refusal::Event(..) | Refusal::Ends(_) => JobFault::Refused(refusal),
        }
    }
}

impl From<EditFault> for JobFault {
    ghost use Rattle.std.specs.Prelude.{◌≡◌};
    ghost use Rattle.tape_jobs.specs.Output.{fault_of_edit};

    ghost from_gives = { λ refused fault. fault ≡ fault_of_edit refused };

    fn from(fault: EditFault) -> JobFault {
        match fault {
            EditFault::OutOfMemory => JobFault::Memory,
            fault => JobFault::Edit { fault },
        }
    }
}

impl From<OutOfMemory> for JobFault {
    ghost use Rattle.std.specs.Prelude.{◌≡◌};
    ghost use Rattle.tape_jobs.specs.declared.job.JobFault.TheVariants.{Memory};

    ghost from_gives = { λ _ fault. fault ≡ Memory };

    fn from(_refused: OutOfMemory) -> JobFault {
        JobFault::Memory
    }
}

impl From<ChangesFault> for JobFault {
    ghost use Rattle.std.specs.Prelude.{◌≡◌};
    ghost use Rattle.tape_jobs.specs.Endings.{fault_of_changes};

    ghost from_gives = { λ stop fault. fault ≡ fault_of_changes stop };

    fn from(stop: ChangesFault) -> JobFault {
        match stop {
            ChangesFault::Write => JobFault::File(Fault::WriteFault),
            ChangesFault::Memory => JobFault::Memory,
        }
    }
}

impl From<WalkFault> for JobFault {
    ghost use Rattle.std.specs.Prelude.{◌≡◌};
    ghost use Rattle.tape_jobs.specs.Endings.{fault_of_walk};

    ghost from_gives = { λ stop fault. fault ≡ fault_of_walk stop };

    fn from(stop: WalkFault) -> JobFault {
        match stop {
            WalkFault::Write => JobFault::File(Fault::WriteFault),
            WalkFault::Memory => JobFault::Memory,
        }
    }
}

impl From<CheckFault> for JobFault {
    ghost use Rattle.std.specs.Prelude.{◌≡◌};
    ghost use Rattle.tape_jobs.specs.Endings.{fault_of_check};

    ghost from_gives = { λ stop fault. fault ≡ fault_of_check stop };

    fn from(stop: CheckFault) -> JobFault {
        match stop {
            CheckFault::Write => JobFault::File(Fault::WriteFault),
            CheckFault::Memory => JobFault::Memory,
        }
    }
}

impl JobFault {
    /// The status of the program: 3 where a device or want of memory stopped the job, and else 1.
    pub fn status(self) -> u8
        ensures { result ≡ status_of self }
    {
        match self {
            JobFault::File(Fault::OutOfMemory | Fault::ReadFault | Fault::WriteFault) => 3,
            JobFault::File(_) | JobFault::Line { .. } | JobFault::Edit { .. } => 1,
            JobFault::Compressed | JobFault::NoKnownForm | JobFault::Refused(_) => 1,
            JobFault::Memory => 3,
        }
    }
}

/// How a job ended: the status of the program, and the fault that it prints.
#[derive(Clone, Copy, Debug, PartialEq, Eq)]
pub struct Outcome {
    pub status: u8,
    pub fault: Option<JobFault>,
}

/// Does a job: reads the script and the timing whole, and then writes. `import` reads its recording as the script, and no
/// timing.
///
/// It is done, or refused, for a fault of the pair of files or of a request line: then no device has failed, and what was
/// written is what the job comes to on the files. It ends for want of memory, or as a device fails: then a beginning of
/// that has gone out, and nothing where it ended while the files were read. No fault is retried.
pub fn run<S: Read, T: Read, R: Read, O: Write, P: Write>(
    alloc: Global,
    job: Job,
    script: &mut Watched<S>,
    timing: &mut Watched<T>,
    requests: &mut Watched<R>,
    out: &mut Watched<O>,
    out_timing: &mut Watched<P>,
) -> Outcome
    requires script { has_failed script.old ≡ false }
    requires timing { has_failed timing.old ≡ false }
    requires requests { has_failed requests.old ≡ false }
    requires out { has_failed out.old ≡ false }
    requires out_timing { has_failed out_timing.old ≡ false }
    ensures { let readers = readers_of Pair (used S.remaining script.old script.new)
        (used T.remaining timing.old timing.new) (used R.remaining requests.old requests.new) [] in
        let writers = writers_of (used O.contents out.old out.new)
        (used P.contents out_timing.old out_timing.new) in
        RunEnds readers writers job result }
{
    run_with(
        alloc,
        job,
        &[],
        script,
        timing,
        requests,
        out,
        out_timing,
        &mut Watched::new(io::sink()),
    )
}

/// Does a job as `run` does, with a text beside it, which is what `find` looks for, what `redact` takes out and the title of
/// a page, and tells the note of the recording.
///
/// Where a job plays a recording, the note says what of it this terminal plays otherwise than it was recorded. A note that
/// can't be written, or not whole, changes neither the outcome nor the output.
pub fn run_with<S: Read, T: Read, R: Read, O: Write, P: Write, N: Write>(
    alloc: Global,
    job: Job,
    text: &[char],
    script: &mut Watched<S>,
    timing: &mut Watched<T>,
    requests: &mut Watched<R>,
    out: &mut Watched<O>,
    out_timing: &mut Watched<P>,
    notes: &mut Watched<N>,
) -> Outcome
    requires script { has_failed script.old ≡ false }
    requires timing { has_failed timing.old ≡ false }
    requires requests { has_failed requests.old ≡ false }
    requires out { has_failed out.old ≡ false }
    requires out_timing { has_failed out_timing.old ≡ false }
    requires notes { has_failed notes.old ≡ false }
    ensures ends { let readers = readers_of Pair (used S.remaining script.old script.new)
        (used T.remaining timing.old timing.new) (used R.remaining requests.old requests.new)
        text.now in
        let writers = writers_of (used O.contents out.old out.new)
        (used P.contents out_timing.old out_timing.new) in
        RunEnds readers writers job result }
    ensures noted { let readers = readers_of Pair (used S.remaining script.old script.new)
        (used T.remaining timing.old timing.new) (used R.remaining requests.old requests.new)
        text.now in
        NoteEnds readers (used N.contents notes.old notes.new) job result.fault }
{
    if let Job::Mend { header } = job {
        return match read_remains(alloc, header, script, timing) {
            Ok(mended) => {
                outcome_in(
                    job,
                    write_remains(&ManuallyDrop::new(mended), out, out_timing),
                )
            }
            Err(fault) => outcome_in(job, Err(JobFault::File(fault))),
        };
    }
    if let Job::Import = job {
        return match read_imported(alloc, script) {
            Ok(imported) => {
                outcome_in(
                    job,
                    write_imported(&ManuallyDrop::new(imported), out, out_timing),
                )
            }
            Err(fault) => outcome_in(job, Err(fault)),
        };
    }
    match read_files(alloc, job, script, timing, requests) {
        Ok(given) => {
            tell_note(job, &given.recording, given.resizes, notes);
            outcome_in(job, perform(alloc, job, text, given, out, out_timing))
        }
        Err(fault) => outcome_in(job, Err(JobFault::File(fault))),
    }
}

/// Does a job on a recording of another form, which is read whole, as `run_with` does it on the pair that `import` makes of
/// it; or refuses it, for its first fault. Of changes of the size that have no place in a pair the note and `check` tell how
/// many there were.
pub fn run_on_recording<S: Read, R: Read, O: Write, P: Write, N: Write>(
    alloc: Global,
    job: Job,
    text: &[char],
    recording: &mut Watched<S>,
    requests: &mut Watched<R>,
    out: &mut Watched<O>,
    out_timing: &mut Watched<P>,
    notes: &mut Watched<N>,
) -> Outcome
    requires reads { remakes job ≡ None }
    requires recording { has_failed recording.old ≡ false }
    requires requests { has_failed requests.old ≡ false }
    requires out { has_failed out.old ≡ false }
    requires out_timing { has_failed out_timing.old ≡ false }
    requires notes { has_failed notes.old ≡ false }
    ensures ends { let file = used S.remaining recording.old recording.new in
        let readers = readers_of stands.Recording file file
        (used R.remaining requests.old requests.new) text.now in
        let writers = writers_of (used O.contents out.old out.new)
        (used P.contents out_timing.old out_timing.new) in
        RunEnds readers writers job result }
    ensures noted { let file = used S.remaining recording.old recording.new in
        let readers = readers_of stands.Recording file file
        (used R.remaining requests.old requests.new) text.now in
        NoteEnds readers (used N.contents notes.old notes.new) job result.fault }
{
    match read_recording(alloc, job, recording, requests) {
        Ok(given) => {
            tell_note(job, &given.recording, given.resizes, notes);
            outcome_in(job, perform(alloc, job, text, given, out, out_timing))
        }
        Err(fault) => outcome_in(job, Err(fault)),
    }
}

/// Does a job on the recording that it is given, and flushes what it writes. The program ends with its job: to free a
/// million chunks one by one would take as long as to write them.
fn perform<O: Write, P: Write>(
    alloc: Global,
    job: Job,
    text: &[char],
    given: Given,
    out: &mut Watched<O>,
    out_timing: &mut Watched<P>,
) -> Result<Ending, JobFault>
    requires reads { remakes job ≡ None }
    requires out { has_failed out.old ≡ false }
    requires out_timing { has_failed out_timing.old ≡ false }
    ensures ends { let writers = writers_of (used O.contents out.old out.new)
        (used P.contents out_timing.old out_timing.new) in
        JobEnds writers job (done_on job given.recording given.resizes given.requests.items text.now) result }
    ensures alone { writes_timing job ≡ false → out_timing.new ≡ out_timing.old }
{
    let Given {
        recording,
        resizes,
        requests,
    } = given;
    if only_writes(job) {
        return clean(write_text(alloc, job, text, recording, out));
    }
    match job {
        Job::Check { player } => write_checked(
            alloc,
            &ManuallyDrop::new(recording),
            player,
            resizes,
            out,
        ),
        Job::Find { from, to, player } => {
            write_found(alloc, recording, player, from, to, text, out)
        }
        Job::Save => write_edited(alloc, recording, &requests, out, out_timing),
        Job::Cut { from, to, player } => {
            write_cut(alloc, recording, player, from, to, out, out_timing)
        }
        Job::Excerpt { from, to, player } => {
            write_excerpt(alloc, recording, player, from, to, out, out_timing)
        }
        Job::Redact { player } => write_redacted(alloc, recording, player, text, out, out_timing),
        Job::Session { every, player } => {
            write_answers(alloc, recording, player, every, &requests, out)
        }
        _ => unreachable!(),
    }
}

/// Whether a job is done once its text is written.
fn only_writes(job: Job) -> bool
    ensures { result ≡ only_writes job }
{
    !matches!(
        job,
        Job::Check { .. }
            | Job::Find { .. }
            | Job::Save
            | Job::Cut { .. }
            | Job::Excerpt { .. }
            | Job::Mend { .. }
            | Job::Import
            | Job::Redact { .. }
            | Job::Session { .. }
    )
}

/// Writes the text of a job that is done with it, and flushes. Nothing is written where memory is refused to a job that takes
/// it all before.
fn write_text<O: Write>(
    alloc: Global,
    job: Job,
    text: &[char],
    recording: Recording,
    out: &mut Watched<O>,
) -> Result<(), JobFault>
    requires only { only_writes job ≡ true }
    requires out { has_failed out.old ≡ false }
    ensures puts { JobPuts O.contents out.old out.new (text_of job recording text.now) result }
    ensures flushed { OnOk result (is_flushed out.new ≡ true) }
    ensures takes { result ≡ Err JobFault.Memory → TakesMemory job }
    ensures unwritten { result ≡ Err JobFault.Memory → writes_last job ≡ true → out.new ≡ out.old }
{
    match job {
        Job::Due { at } => Ok(write_due(&ManuallyDrop::new(recording), at, out)?),
        Job::Info => Ok(write_info(&ManuallyDrop::new(recording), out)?),
        Job::Screen { at, print } => write_screen(alloc, recording, print, at, out),
        Job::Picture { at, player } => write_picture(alloc, recording, player, at, out),
        Job::Transcript { from, to, player } => {
            write_transcript(alloc, &ManuallyDrop::new(recording), player, from, to, out)
        }
        Job::Changes { from, to, player } => write_changes(alloc, recording, player, from, to, out),
        Job::Reports { at, player } => write_reports(alloc, recording, player, at, out),
        Job::Page { player } => write_page(alloc, recording, player, text, out),
        Job::Cast { player } => write_cast(alloc, recording, player, out),
        _ => unreachable!(),
    }
}

/// How a job ends that only writes, where it is done.
fn clean(done: Result<(), JobFault>) -> Result<Ending, JobFault>
    ensures { result ≡ clean_by done }
{
    done?;
    Ok(Ending::Clean)
}

/// Whether the status of a job is an answer: then each fault has status 3.
fn answers_by_status(job: Job) -> bool
    ensures { result ≡ answers_by_status job }
{
    matches!(job, Job::Find { .. } | Job::Redact { .. })
}

/// How this job ends that is done, or isn't for this fault.
pub fn outcome_in(job: Job, done: Result<Ending, JobFault>) -> Outcome
    ensures { result ≡ outcome_in job done }
{
    match done {
        Err(fault) if answers_by_status(job) => Outcome {
            status: 3,
            fault: Some(fault),
        },
        done => outcome_of(done),
    }
}

/// How a job ends that is done, or isn't for this fault, where 1 is the status of a damaged recording.
pub fn outcome_of(done: Result<Ending, JobFault>) -> Outcome
    ensures { result ≡ outcome_by done }
{
    match done {
        Ok(ending) => Outcome {
            status: ending.status(),
            fault: None,
        },
        Err(fault) => Outcome {
            status: fault.status(),
            fault: Some(fault),
        },
    }
}

/// What a job is given: the recording, how many changes of its size were left out, and the request lines where it takes
/// them.
#[derive(Drop)]
struct Given {
    recording: Recording,
    resizes: u64,
    requests: Vec<u8>,
}

/// Reads both files whole, then the request lines where the job takes them, and then the recording.
fn read_files<S: Read, T: Read, R: Read>(
    alloc: Global,
    job: Job,
    script: &mut Watched<S>,
    timing: &mut Watched<T>,
    requests: &mut Watched<R>,
) -> Result<Given, Fault>
    requires script { has_failed script.old ≡ false }
    requires timing { has_failed timing.old ≡ false }
    requires requests { has_failed requests.old ≡ false }
    ensures ok { IfOk result (λ given. (s : List ℕ) (t : List ℕ)
        → S.remaining (inner_of script.old) ≡ Some s → T.remaining (inner_of timing.old) ≡ Some t
        → reads s t given.recording) }
    ensures resizes { IfOk result (λ given. given.resizes ≡ 0) }
    ensures requests { IfOk result (λ given. takes_requests job ≡ true → (r : List ℕ)
        → R.remaining (inner_of requests.old) ≡ Some r → given.requests.items ≡ r) }
    ensures fault { IfErr result (λ fault. is_stop fault ≡ false → (s : List ℕ) (t : List ℕ)
        → S.remaining (inner_of script.old) ≡ Some s → T.remaining (inner_of timing.old) ≡ Some t
        → fault_of s t ≡ Some fault) }
    ensures sound { result ≢ Err Fault.ReadFault → (has_failed script.new ≡ false)
        × (has_failed timing.new ≡ false) × (has_failed requests.new ≡ false) }
    ensures read_fault { IfErr result (λ fault. fault ≡ Fault.ReadFault
        → (has_failed script.new ≡ true)
        ⊎ ((has_failed timing.new ≡ true) ⊎ (has_failed requests.new ≡ true))) }
    ensures no_write_fault { IfErr result (λ fault. fault ≢ Fault.WriteFault) }
    ensures alone { takes_requests job ≡ false → requests.new ≡ requests.old }
{
    let script = slurp(alloc, script)?;
    let timing = slurp(alloc, timing)?;
    let requests = read_requests(alloc, job, requests)?;
    let recording = read_recording_of(alloc, script, &timing)?;
    Ok(Given {
        recording,
        resizes: 0,
        requests,
    })
}

/// Reads a file whole, then the request lines where the job takes them, and then the recording of another form that it is.
#[tactic(auto, using(crate::proofs::RefusalLemmas::refusal_unread))]
fn read_recording<S: Read, R: Read>(
    alloc: Global,
    job: Job,
    recording: &mut Watched<S>,
    requests: &mut Watched<R>,
) -> Result<Given, JobFault>
    requires recording { has_failed recording.old ≡ false }
    requires requests { has_failed requests.old ≡ false }
    ensures ok { IfOk result (λ given. (s : List ℕ)
        → S.remaining (inner_of recording.old) ≡ Some s
        → IsWhole (import_of s) given.recording given.resizes) }
    ensures requests { IfOk result (λ given. takes_requests job ≡ true → (r : List ℕ)
        → R.remaining (inner_of requests.old) ≡ Some r → given.requests.items ≡ r) }
    ensures fault { IfErr result (λ f. is_stopped (Some f) ≡ false → (s : List ℕ)
        → S.remaining (inner_of recording.old) ≡ Some s
        → fault_from stands.Recording s s ≡ Some f) }
    ensures sound { result ≢ Err (JobFault.File Fault.ReadFault)
        → (has_failed recording.new ≡ false) × (has_failed requests.new ≡ false) }
    ensures read_fault { IfErr result (λ f. f ≡ JobFault.File Fault.ReadFault
        → (has_failed recording.new ≡ true) ⊎ (has_failed requests.new ≡ true)) }
    ensures no_write_fault { IfErr result (λ f. f ≢ JobFault.File Fault.WriteFault) }
    ensures memory { IfErr result (λ f. f ≢ JobFault.Memory) }
    ensures unread { IfErr result (λ f. was_read (Some f) ≡ false) }
    ensures alone { takes_requests job ≡ false → requests.new ≡ requests.old }
{
    let file = slurp(alloc, recording)?;
    let requests = read_requests(alloc, job, requests)?;
    let Ok(file) = Rc::new(alloc, file) else {
        return Err(JobFault::File(Fault::OutOfMemory));
    };
    let Whole { recording, resizes } = import_whole(alloc, &file)?;
    Ok(Given {
        recording,
        resizes,
        requests,
    })
}

/// Reads the request lines whole, where the job takes them.
fn read_requests<R: Read>(
    alloc: Global,
    job: Job,
    requests: &mut Watched<R>,
) -> Result<Vec<u8>, Fault>
    requires { has_failed requests.old ≡ false }
    ensures ok { IfOk result (λ text. takes_requests job ≡ true → (r : List ℕ)
        → R.remaining (inner_of requests.old) ≡ Some r → text.items ≡ r) }
    ensures fault { IfErr result (λ fault. is_stop fault ≡ true) }
    ensures sound { result ≢ Err Fault.ReadFault → has_failed requests.new ≡ false }
    ensures read_fault { IfErr result (λ fault. fault ≡ Fault.ReadFault
        → has_failed requests.new ≡ true) }
    ensures no_write_fault { IfErr result (λ fault. fault ≢ Fault.WriteFault) }
    ensures alone { takes_requests job ≡ false → requests.new ≡ requests.old }
{
    match job {
        Job::Save | Job::Session { .. } => slurp(alloc, requests),
        _ => Ok(Vec::new(alloc)),
    }
}
