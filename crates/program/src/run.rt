//! The program around a job: its arguments, its files, and what it tells its user.

ghost use Rattle.std.specs.Prelude.{◌≡◌, ◌⊎◌, ◌≢◌, ◌≤◌, IfErr, IfOk};
ghost use Rattle.clap.specs.Words.{kind_of};
ghost use Rattle.program.specs.Hints.{hint_of_stop};
ghost use Rattle.program.specs.Program.{IsOutcome, stop_status};

use crate::hints::{Device, Hint, tell_hint};
use crate::note::tell_note;
use crate::running::{Ended, open_and_run};
use clap::error::ErrorKind;
use command_line::{Job, WordsFault, read_words};
use job_files::{FileStop, cleaned_words};
use std::alloc::AllocError;
use std::rt::{Env, Files};
use std::{env, io};
use tape_core::Fault;
use tape_jobs::JobFault;
use thiserror::Error;

/// Why there is no job to do, or a job wasn't done. The text follows the program's name on standard error.
#[derive(Debug, Drop, Error)]
pub enum Stop {
    #[error("{0}")]
    Words(WordsFault),
    #[error("an argument is not UTF-8")]
    NotText,
    #[error("out of memory")]
    Memory,
    /// The path as it may be told, and why.
    #[error("cannot open {0}")]
    CannotOpen(String, io::Error),
    /// The same.
    #[error("cannot create {0}")]
    CannotCreate(String, io::Error),
    #[error("{0}")]
    Job(JobFault),
}

impl From<AllocError> for Stop {
    ghost use Rattle.std.specs.Prelude.{◌≡◌};
    ghost use Rattle.program.specs.declared.run.Stop.TheVariants.{Memory};

    ghost from_gives = { λ _ stop. stop ≡ Memory };

    fn from(_refused: AllocError) -> Stop {
        Stop::Memory
    }
}

impl From<FileStop> for Stop {
    ghost use Rattle.std.specs.Prelude.{◌≡◌};
    ghost use Rattle.program.specs.Program.{stop_of_files};

    ghost from_gives = { λ stop made. made ≡ stop_of_files stop };

    fn from(stop: FileStop) -> Stop {
        match stop {
            FileStop::Memory => Stop::Memory,
            FileStop::CannotOpen(path, error) => Stop::CannotOpen(path, error),
            FileStop::CannotCreate(path, error) => Stop::CannotCreate(path, error),
        }
    }
}

/// The status where the program stops: 2 for a command line that isn't readable, 0 for one that asks for help, 1 for a
/// damaged recording, and else 3.
fn status_of(stop: &Stop) -> u8
    ensures { result ≡ stop_status stop.now }
{
    match stop {
        Stop::Words(WordsFault::Clap(error)) => { if error.use_stderr() { 2 } else { 0 } }
        Stop::Words(
            WordsFault::BadSeconds
            | WordsFault::BadEvery
            | WordsFault::BadProfile
            | WordsFault::BadSize
            | WordsFault::BadText
            | WordsFault::BothHeaders
            | WordsFault::BothPrints,
        )
        | Stop::NotText => 2,
        Stop::Words(WordsFault::Memory)
        | Stop::Memory
        | Stop::CannotOpen(_, _)
        | Stop::CannotCreate(_, _) => 3,
        Stop::Job(fault) => fault.status(),
    }
}

/// The hint where the program stops before a job.
fn hint_of_stop(stop: &Stop) -> Option<Hint>
    ensures { result ≡ hint_of_stop stop.now }
{
    match stop {
        Stop::Words(WordsFault::BadSeconds) => Some(Hint::Seconds),
        Stop::CannotOpen(_, error) | Stop::CannotCreate(_, error) => Some(Hint::Reason(*error)),
        _ => None,
    }
}

/// Runs the program, and answers its status.
pub fn start<R: Files + Env + Input + Print + Eprint + AllocGlobal>(rt: &R) -> u8
    ensures { result ≤ 3 }
{
    match attempt(rt) {
        Ok(status) => status,
        Err(Stop::Words(WordsFault::Clap(error))) => show(rt, error),
        Err(stop) => tell(rt, &stop),
    }
}

/// Reads the command line, opens the files, does the job, and answers its status.
fn attempt<R: Files + Env + Input + Print + Eprint + AllocGlobal>(rt: &R) -> Result<u8, Stop>
    ensures { IfOk result (λ status. status ≤ 3) }
{
    let words = arguments(rt)?;
    match read_words(rt.alloc(), words.as_slice()) {
        Ok(read) => {
            let ended = open_and_run(rt, &read)?;
            Ok(end(rt, ended, read.paths.as_slice()))
        }
        Err(fault) => Err(fault_in_clean_words(rt, words.as_slice(), fault)),
    }
}

/// The words of the command line, the program's name first.
fn arguments<R: Env + AllocGlobal>(rt: &R) -> Result<Vec<String>, Stop>
    ensures { IfErr result (λ stop. (stop ≡ Stop.Memory) ⊎ (stop ≡ Stop.NotText)) }
{
    match env::args(rt) {
        Ok(words) => Ok(words.collect(rt.alloc())?),
        Err(error) if error.kind() == io::ErrorKind::OutOfMemory => Err(Stop::Memory),
        Err(_) => Err(Stop::NotText),
    }
}

/// Why a command line isn't a job. Where clap quotes its words that is asked once more of the cleaned ones: cleaning makes
/// no word of the program's of another.
fn fault_in_clean_words<R: AllocGlobal>(rt: &R, words: &[String], fault: WordsFault) -> Stop {
    let WordsFault::Clap(error) = fault else {
        return Stop::Words(fault);
    };
    let Ok(clean) = cleaned_words(rt.alloc(), words) else {
        return Stop::Memory;
    };
    match read_words(rt.alloc(), clean.as_slice()) {
        Ok(_) => Stop::Words(WordsFault::Clap(error)),
        Err(fault) => Stop::Words(fault),
    }
}

/// Tells the fault of a job, if it has one, the hint, and behind them the note, and answers the status. Where whoever reads
/// standard output is gone nothing is told.
fn end<R: Eprint + AllocGlobal>(rt: &R, ended: Ended, paths: &[String]) -> u8
    ensures { result ≡ ended.outcome.status }
{
    let Ended {
        outcome,
        note,
        hint,
        silent,
    } = ended;
    if silent {
        return outcome.status;
    }
    if let Some(fault) = outcome.fault {
        tell_fault(rt, &Stop::Job(fault));
    }
    if let Some(hint) = hint {
        tell_hint(rt, hint, paths);
    }
    tell_note(rt, note);
    outcome.status
}

/// Tells why the program stops, and the hint, and answers the status.
fn tell<R: Eprint + AllocGlobal>(rt: &R, stop: &Stop) -> u8
    ensures { result ≡ stop_status stop.now }
{
    tell_fault(rt, stop);
    if let Some(hint) = hint_of_stop(stop) {
        tell_hint(rt, hint, &[]);
    }
    status_of(stop)
}

/// Tells why the program stops.
fn tell_fault<R: Eprint>(rt: &R, stop: &Stop) {
    let _ = rt.eprintln(format_args!("typetool: {stop}"));
}

/// Shows clap's text, and answers the status. Help that can't be written is a write fault.
fn show<R: Print + Eprint + AllocGlobal>(rt: &R, error: clap::Error) -> u8
    ensures mistake { (kind_of error ≢ ErrorKind.DisplayHelp)
        → (kind_of error ≢ ErrorKind.DisplayVersion) → result ≡ 2 }
    // Help is told with status 0, and with 3 where it can't be written.
    ensures asked { (kind_of error ≡ ErrorKind.DisplayHelp)
        ⊎ (kind_of error ≡ ErrorKind.DisplayVersion) → (result ≡ 0) ⊎ (result ≡ 3) }
{
    match error.print(rt) {
        Err(why) if !error.use_stderr() => tell_unshown(rt, why.kind()),
        _ => status_of(&Stop::Words(WordsFault::Clap(error))),
    }
}

/// Tells that help wasn't written, but where whoever reads it is gone, and answers the status.
fn tell_unshown<R: Eprint + AllocGlobal>(rt: &R, why: io::ErrorKind) -> u8
    ensures { result ≡ 3 }
{
    if why != io::ErrorKind::BrokenPipe {
        tell_fault(rt, &Stop::Job(JobFault::File(Fault::WriteFault)));
        tell_hint(rt, Hint::Writing(Device::Output), &[]);
    }
    3
}
