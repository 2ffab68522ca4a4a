//! A job over the files that its command line names.

ghost use Rattle.std.specs.Prelude.{◌≡◌, ◌≢◌, ◌≤◌, false, IfErr, IfOk, None, vec_len};
ghost use Rattle.tape_core.specs.Devices.{has_failed};
ghost use Rattle.command_line.specs.CommandLine.{path_count};
ghost use Rattle.tape_jobs.specs.Endings.{HoldFiles, readers_of, used};
ghost use Rattle.tape_jobs.specs.Output.{Files as Given, is_stopped, remakes};
ghost use Rattle.command_line.specs.declared.player.Source.TheVariants as stands;
ghost use Rattle.command_line.specs.declared.player.Source.TheVariants.{Pair};
ghost use Rattle.job_files.specs.Beginning.{remaining_of};
ghost use Rattle.program.specs.Program.{IsAnswer, IsOutcome, stop_status};

use crate::hints::{Device, Hint, first_failed, hint_at_end};
use crate::run::Stop;
use command_line::{Job, Player, Source, Words};
use job_files::{
    Beginnings, Begun, New, NewPair, Outlet, Sources, buffered, create_pair, open, released,
    watched,
};
use std::io;
use std::rt::Files;
use tape_core::{Fault, Watched};
use tape_jobs::{JobFault, Outcome, import, mend, redact, run_on_recording, run_with};
use tape_mend::Header;

/// The paths of a command line, in its order.
const SCRIPT: Device = Device::File(0);

const TIMING: Device = Device::File(1);

/// The two new files of a job.
#[derive(Clone, Copy)]
struct NewPaths {
    script: Device,
    timing: Device,
}

/// Those behind a pair.
const BEHIND_PAIR: NewPaths = NewPaths {
    script: Device::File(2),
    timing: Device::File(3),
};

/// Those behind a recording in one file.
const BEHIND_ONE: NewPaths = NewPaths {
    script: Device::File(1),
    timing: Device::File(2),
};

/// How a job ended, the note that it told of the recording, what follows its fault, and whether whoever reads standard
/// output is gone.
#[derive(Drop)]
pub struct Ended {
    pub outcome: Outcome,
    pub note: Watched<Vec<u8>>,
    pub hint: Option<Hint>,
    pub silent: bool,
}

/// A run of a job: how it ended, the note, the device that has failed, if one has, whether a file of a pair that was mended
/// may be another one than it is taken for, and whether whoever reads standard output is gone.
#[derive(Drop)]
struct Ran {
    outcome: Outcome,
    note: Watched<Vec<u8>>,
    failed: Option<Device>,
    doubtful: bool,
    silent: bool,
}

/// Opens the files in order, creates the new ones, and does the job.
pub fn open_and_run<R: Files + Input + Print + AllocGlobal>(
    rt: &R,
    words: &Words,
) -> Result<Ended, Stop>
    requires { path_count words.now.job ≤ vec_len words.now.paths }
    ensures outcome { IfOk result (λ ended. IsOutcome words.now.job ended.outcome) }
    // Else a file or memory was refused.
    ensures stop { IfErr result (λ stop. stop_status stop ≡ 3) }
{
    let first = open(rt, words.paths[0].as_str())?;
    match (words.job, words.source) {
        (Job::Import, _) => {
            let paths = (words.paths[1].as_str(), words.paths[2].as_str());
            let pair = create_pair(rt, paths, (&first, &first))?;
            let mut recording = watched(first);
            let ran = import_into(rt, &mut recording, pair)?;
            Ok(ended_by(words.job, ran, Beginnings::of_one(recording)))
        }
        (
            Job::Save
            | Job::Cut { .. }
            | Job::Excerpt { .. }
            | Job::Mend { .. }
            | Job::Redact { .. },
            _,
        )
        | (_, Source::Pair) => run_on_pair(rt, words, first),
        (_, Source::Recording) => run_alone(rt, words, first),
    }
}

/// Does a job over a recording of another form, which is open.
fn run_alone<R: Files + Input + Print + AllocGlobal>(
    rt: &R,
    words: &Words,
    recording: R::File,
) -> Result<Ended, Stop>
    requires { remakes words.now.job ≡ None }
    ensures outcome { IfOk result (λ ended. IsOutcome words.now.job ended.outcome) }
    ensures stop { IfErr result (λ stop. stop_status stop ≡ 3) }
{
    let (job, text) = (words.job, words.text.as_slice());
    let mut recording = watched(recording);
    let ran = if let Job::Session { .. } = job {
        let mut requests = Watched::new(rt.reader());
        print_alone(rt, job, text, &mut recording, &mut requests)?
    } else {
        let mut requests = Watched::new(io::empty());
        print_alone(rt, job, text, &mut recording, &mut requests)?
    };
    Ok(ended_by(job, ran, Beginnings::of_one(recording)))
}

/// Does a job over a pair, of which the script is open.
fn run_on_pair<R: Files + Input + Print + AllocGlobal>(
    rt: &R,
    words: &Words,
    script: R::File,
) -> Result<Ended, Stop>
    requires { path_count words.now.job ≤ vec_len words.now.paths }
    ensures outcome { IfOk result (λ ended. IsOutcome words.now.job ended.outcome) }
    ensures stop { IfErr result (λ stop. stop_status stop ≡ 3) }
{
    let timing = open(rt, words.paths[1].as_str())?;
    let (job, text) = (words.job, words.text.as_slice());
    match job {
        Job::Save | Job::Cut { .. } | Job::Excerpt { .. } => {
            let paths = (words.paths[2].as_str(), words.paths[3].as_str());
            let pair = create_pair(rt, paths, (&script, &timing))?;
            let mut sources = Sources::new(script, timing);
            let ran = edit_into(rt, job, &mut sources, pair);
            Ok(ended_by(job, ran, sources.into_beginnings()))
        }
        Job::Mend { header } => {
            let paths = (words.paths[2].as_str(), words.paths[3].as_str());
            let pair = create_pair(rt, paths, (&script, &timing))?;
            let mut sources = Sources::new(script, timing);
            let ran = mend_into(rt, header, &mut sources, pair)?;
            Ok(ended_by(job, ran, sources.into_beginnings()))
        }
        Job::Redact { player } => {
            let paths = (words.paths[2].as_str(), words.paths[3].as_str());
            let pair = create_pair(rt, paths, (&script, &timing))?;
            let mut sources = Sources::new(script, timing);
            let ran = redact_into(rt, player, text, &mut sources, pair)?;
            Ok(ended_by(job, ran, sources.into_beginnings()))
        }
        Job::Session { .. } => {
            let mut sources = Sources::new(script, timing);
            let mut requests = Watched::new(rt.reader());
            let ran = print(rt, job, text, &mut sources, &mut requests)?;
            Ok(ended_by(job, ran, sources.into_beginnings()))
        }
        _ => {
            let mut sources = Sources::new(script, timing);
            let mut requests = Watched::new(io::empty());
            let ran = print(rt, job, text, &mut sources, &mut requests)?;
            Ok(ended_by(job, ran, sources.into_beginnings()))
        }
    }
}

/// How a job ended, with the hint that follows it.
fn ended_by(job: Job, ran: Ran, beginnings: Beginnings) -> Ended
    ensures { result.outcome ≡ ran.outcome }
{
    let Ran {
        outcome,
        note,
        failed,
        doubtful,
        silent,
    } = ran;
    Ended {
        outcome,
        note,
        hint: hint_at_end(job, outcome.fault, beginnings, failed, doubtful),
        silent,
    }
}

/// Does a job that writes one text, over standard output.
fn print<R: Files + Print + AllocGlobal, Q: io::Read>(
    rt: &R,
    job: Job,
    text: &[char],
    sources: &mut Sources<R::File>,
    requests: &mut Watched<Q>,
) -> Result<Ran, Stop>
    requires script { has_failed sources.old.script ≡ false }
    requires timing { has_failed sources.old.timing ≡ false }
    requires requests { has_failed requests.old ≡ false }
    ensures outcome { IfOk result (λ ran. IsOutcome job ran.outcome) }
    // Where nothing stopped the job, it is what the job comes to on these files.
    ensures answer { let told = remaining_of R.File.remaining in
        let readers = readers_of Pair (used told sources.old.script sources.new.script)
        (used told sources.old.timing sources.new.timing)
        (used Q.remaining requests.old requests.new) text.now in
        IfOk result (λ ran. is_stopped ran.outcome.fault ≡ false → (files : Given)
        → HoldFiles readers job files → IsAnswer job files ran.outcome) }
    ensures stop { IfErr result (λ stop. stop ≡ Stop.Memory) }
{
    let mut out = buffered(rt, Outlet::new(io::writer(rt)))?;
    let mut note = Watched::new(Vec::new(rt.alloc()));
    let outcome = run_with(
        rt.alloc(),
        job,
        text,
        &mut sources.script,
        &mut sources.timing,
        requests,
        &mut out,
        &mut Watched::new(io::sink()),
        &mut note,
    );
    let failed = first_failed(&[
        (sources.script.failed(), SCRIPT),
        (sources.timing.failed(), TIMING),
        (requests.failed(), Device::Input),
        (out.failed(), Device::Output),
    ]);
    Ok(Ran {
        outcome,
        note,
        failed,
        doubtful: false,
        silent: released(out).is_closed(),
    })
}

/// Does a job that writes one text, over standard output, on a recording of another form.
fn print_alone<R: Files + Print + AllocGlobal, Q: io::Read>(
    rt: &R,
    job: Job,
    text: &[char],
    recording: &mut Watched<Begun<R::File>>,
    requests: &mut Watched<Q>,
) -> Result<Ran, Stop>
    requires reads { remakes job ≡ None }
    requires recording { has_failed recording.old ≡ false }
    requires requests { has_failed requests.old ≡ false }
    ensures outcome { IfOk result (λ ran. IsOutcome job ran.outcome) }
    // Where nothing stopped the job, it is what the job comes to on this file.
    ensures answer { let file = used (remaining_of R.File.remaining) recording.old recording.new in
        let readers = readers_of stands.Recording file file
        (used Q.remaining requests.old requests.new) text.now in
        IfOk result (λ ran. is_stopped ran.outcome.fault ≡ false → (files : Given)
        → HoldFiles readers job files → IsAnswer job files ran.outcome) }
    ensures stop { IfErr result (λ stop. stop ≡ Stop.Memory) }
{
    let mut out = buffered(rt, Outlet::new(io::writer(rt)))?;
    let mut note = Watched::new(Vec::new(rt.alloc()));
    let outcome = run_on_recording(
        rt.alloc(),
        job,
        text,
        recording,
        requests,
        &mut out,
        &mut Watched::new(io::sink()),
        &mut note,
    );
    let failed = first_failed(&[
        (recording.failed(), SCRIPT),
        (requests.failed(), Device::Input),
        (out.failed(), Device::Output),
    ]);
    Ok(Ran {
        outcome,
        note,
        failed,
        doubtful: false,
        silent: released(out).is_closed(),
    })
}

/// Edits a pair into two new files: as standard input asks for, or by a cut or an excerpt, which read none of it.
fn edit_into<R: Files + Input + AllocGlobal>(
    rt: &R,
    job: Job,
    sources: &mut Sources<R::File>,
    pair: NewPair<'_, R::File>,
) -> Ran
    requires script { has_failed sources.old.script ≡ false }
    requires timing { has_failed sources.old.timing ≡ false }
    requires out { has_failed pair.script.out ≡ false }
    requires out_timing { has_failed pair.timing.out ≡ false }
    ensures { IsOutcome job result.outcome }
{
    if let Job::Save = job {
        edit_by(rt, job, sources, &mut Watched::new(rt.reader()), pair)
    } else {
        edit_by(rt, job, sources, &mut Watched::new(io::empty()), pair)
    }
}

/// Edits a pair into two new files by a job that writes them alone, over these request lines.
fn edit_by<R: Files + AllocGlobal, Q: io::Read>(
    rt: &R,
    job: Job,
    sources: &mut Sources<R::File>,
    requests: &mut Watched<Q>,
    pair: NewPair<'_, R::File>,
) -> Ran
    requires script { has_failed sources.old.script ≡ false }
    requires timing { has_failed sources.old.timing ≡ false }
    requires requests { has_failed requests.old ≡ false }
    requires out { has_failed pair.script.out ≡ false }
    requires out_timing { has_failed pair.timing.out ≡ false }
    ensures { IsOutcome job result.outcome }
{
    let NewPair {
        script: mut new_script,
        timing: mut new_timing,
    } = pair;
    let mut note = Watched::new(Vec::new(rt.alloc()));
    let ended = run_with(
        rt.alloc(),
        job,
        &[],
        &mut sources.script,
        &mut sources.timing,
        requests,
        &mut new_script.out,
        &mut new_timing.out,
        &mut note,
    );
    let failed = first_failed(&[
        (sources.script.failed(), SCRIPT),
        (sources.timing.failed(), TIMING),
        (requests.failed(), Device::Input),
        (new_script.out.failed(), BEHIND_PAIR.script),
        (new_timing.out.failed(), BEHIND_PAIR.timing),
    ]);
    let pair = NewPair {
        script: new_script,
        timing: new_timing,
    };
    let (outcome, failed) = place(rt, pair, BEHIND_PAIR, ended, failed);
    Ran {
        outcome,
        note,
        failed,
        doubtful: false,
        silent: false,
    }
}

/// Mends a pair of files into two new ones, and tells over standard output what was lost.
fn mend_into<R: Files + Print + AllocGlobal>(
    rt: &R,
    header: Header,
    sources: &mut Sources<R::File>,
    pair: NewPair<'_, R::File>,
) -> Result<Ran, Stop>
    requires script { has_failed sources.old.script ≡ false }
    requires timing { has_failed sources.old.timing ≡ false }
    requires out { has_failed pair.script.out ≡ false }
    requires out_timing { has_failed pair.timing.out ≡ false }
    ensures outcome { IfOk result (λ ran. IsOutcome (Job.Mend header) ran.outcome) }
    ensures stop { IfErr result (λ stop. stop ≡ Stop.Memory) }
{
    let mut told = match buffered(rt, Outlet::new(io::writer(rt))) {
        Ok(told) => told,
        Err(stop) => {
            pair.give_up(rt);
            return Err(Stop::from(stop));
        }
    };
    let NewPair {
        script: mut new_script,
        timing: mut new_timing,
    } = pair;
    let mending = mend(
        rt.alloc(),
        header,
        &mut sources.script,
        &mut sources.timing,
        &mut new_script.out,
        &mut new_timing.out,
        &mut told,
    );
    let failed = first_failed(&[
        (sources.script.failed(), SCRIPT),
        (sources.timing.failed(), TIMING),
        (new_script.out.failed(), BEHIND_PAIR.script),
        (new_timing.out.failed(), BEHIND_PAIR.timing),
        (told.failed(), Device::Output),
    ]);
    let pair = NewPair {
        script: new_script,
        timing: new_timing,
    };
    let (outcome, failed) = place(rt, pair, BEHIND_PAIR, mending.outcome, failed);
    Ok(Ran {
        outcome,
        note: Watched::new(Vec::new(rt.alloc())),
        failed,
        doubtful: mending.doubtful,
        silent: released(told).is_closed(),
    })
}

/// Writes a recording of another form into two new files, and tells over standard output what was lost.
fn import_into<R: Files + Print + AllocGlobal>(
    rt: &R,
    recording: &mut Watched<Begun<R::File>>,
    pair: NewPair<'_, R::File>,
) -> Result<Ran, Stop>
    requires recording { has_failed recording.old ≡ false }
    requires out { has_failed pair.script.out ≡ false }
    requires out_timing { has_failed pair.timing.out ≡ false }
    ensures outcome { IfOk result (λ ran. IsOutcome Job.Import ran.outcome) }
    ensures stop { IfErr result (λ stop. stop ≡ Stop.Memory) }
{
    let mut told = match buffered(rt, Outlet::new(io::writer(rt))) {
        Ok(told) => told,
        Err(stop) => {
            pair.give_up(rt);
            return Err(Stop::from(stop));
        }
    };
    let NewPair {
        script: mut new_script,
        timing: mut new_timing,
    } = pair;
    let outcome = import(
        rt.alloc(),
        recording,
        &mut new_script.out,
        &mut new_timing.out,
        &mut told,
    );
    let failed = first_failed(&[
        (recording.failed(), SCRIPT),
        (new_script.out.failed(), BEHIND_ONE.script),
        (new_timing.out.failed(), BEHIND_ONE.timing),
        (told.failed(), Device::Output),
    ]);
    let pair = NewPair {
        script: new_script,
        timing: new_timing,
    };
    let (outcome, failed) = place(rt, pair, BEHIND_ONE, outcome, failed);
    Ok(Ran {
        outcome,
        note: Watched::new(Vec::new(rt.alloc())),
        failed,
        doubtful: false,
        silent: released(told).is_closed(),
    })
}

/// Takes a text out of a pair of files into two new ones, and tells over standard output how often it was there and where
/// it still stands.
fn redact_into<R: Files + Print + AllocGlobal>(
    rt: &R,
    player: Player,
    text: &[char],
    sources: &mut Sources<R::File>,
    pair: NewPair<'_, R::File>,
) -> Result<Ran, Stop>
    requires script { has_failed sources.old.script ≡ false }
    requires timing { has_failed sources.old.timing ≡ false }
    requires out { has_failed pair.script.out ≡ false }
    requires out_timing { has_failed pair.timing.out ≡ false }
    ensures outcome { IfOk result (λ ran. IsOutcome (Job.Redact player) ran.outcome) }
    ensures stop { IfErr result (λ stop. stop ≡ Stop.Memory) }
{
    let mut found = match buffered(rt, Outlet::new(io::writer(rt))) {
        Ok(found) => found,
        Err(stop) => {
            pair.give_up(rt);
            return Err(Stop::from(stop));
        }
    };
    let mut told = Watched::new(Outlet::new(io::writer(rt)));
    let mut note = Watched::new(Vec::new(rt.alloc()));
    let NewPair {
        script: mut new_script,
        timing: mut new_timing,
    } = pair;
    let outcome = redact(
        rt.alloc(),
        player,
        text,
        &mut sources.script,
        &mut sources.timing,
        &mut new_script.out,
        &mut new_timing.out,
        &mut told,
        &mut found,
        &mut note,
    );
    let failed = first_failed(&[
        (sources.script.failed(), SCRIPT),
        (sources.timing.failed(), TIMING),
        (new_script.out.failed(), BEHIND_PAIR.script),
        (new_timing.out.failed(), BEHIND_PAIR.timing),
        (told.failed(), Device::Output),
        (found.failed(), Device::Output),
    ]);
    let pair = NewPair {
        script: new_script,
        timing: new_timing,
    };
    let (outcome, failed) = place(rt, pair, BEHIND_PAIR, outcome, failed);
    let silent = told.into_inner().is_closed() || released(found).is_closed();
    Ok(Ran {
        outcome,
        note,
        failed,
        doubtful: false,
        silent,
    })
}

/// Puts the new files of a job that is done in place, and gives up those of any other. A step that fails is a write fault.
fn place<R: Files>(
    rt: &R,
    pair: NewPair<'_, R::File>,
    paths: NewPaths,
    outcome: Outcome,
    failed: Option<Device>,
) -> (Outcome, Option<Device>)
    ensures outcome { (job : Job) → IsOutcome job outcome → IsOutcome job result.0 }
    ensures refused { outcome.fault ≢ None → result.0 ≡ outcome }
{
    if outcome.fault.is_some() {
        pair.give_up(rt);
        return (outcome, failed);
    }
    match pair.put_in_place(rt) {
        Ok(()) => (outcome, failed),
        Err(New::Script) => (UNWRITTEN, Some(paths.script)),
        Err(New::Timing) => (UNWRITTEN, Some(paths.timing)),
    }
}

/// How a job ends whose new files can't be written.
const UNWRITTEN: Outcome = Outcome {
    status: 3,
    fault: Some(JobFault::File(Fault::WriteFault)),
};
